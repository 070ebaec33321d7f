//! The two ends of a `OneBuffer`.
use crate::board::Token;
use std::marker::Model;

/// The right to put items into one buffer. It works only with the buffer that it came from. It may
/// move to another thread.
#[derive(Drop)]
pub struct Producer<T> {
    pub(crate) token: Token<T>,
}

impl<T> Model for Producer<T> {
    ghost use Rattle.sysv_buffer.specs.Ends.{Putting};

    ghost Value = { Putting T };

    ghost use Rattle.sysv_buffer.specs.Held.{putting, IsProducer};

    ghost view = { putting };

    ghost invariant = { IsProducer };
}

/// The right to take items from one buffer. It works only with the buffer that it came from. It may
/// move to another thread.
#[derive(Drop)]
pub struct Consumer<T> {
    pub(crate) token: Token<T>,
}

impl<T> Model for Consumer<T> {
    ghost use Rattle.sysv_buffer.specs.Ends.{Taking};

    ghost Value = { Taking T };

    ghost use Rattle.sysv_buffer.specs.Held.{taking, IsConsumer};

    ghost view = { taking };

    ghost invariant = { IsConsumer };
}
