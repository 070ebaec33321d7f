//! The seats of a `ManyBuffer`.
ghost use Rattle.sysv_buffer.specs.ManyHeld.{Rests};

use crate::many_board::Token;
use std::marker::Model;

/// The right to put items into one buffer and to take items from it. It works only with the buffer
/// that it came from. It may move to another thread.
#[derive(Drop)]
pub struct Seat<T> {
    pub(crate) token: Token<T>,
}

impl<T> Model for Seat<T> {
    ghost use Rattle.sysv_buffer.specs.ManyEnds.{Holding};

    ghost Value = { Holding T };

    ghost use Rattle.sysv_buffer.specs.ManyHeld.{held, IsAtRest};

    ghost view = { held };

    ghost invariant = { IsAtRest };
}

impl<T> Seat<T> {
    pub(crate) fn into_token(self) -> Token<T>
        ensures { Rests self result }
    {
        let Seat { token } = self;
        token
    }
}
