//! What the sessions of a place hold.
ghost use Rattle.std.specs.Prelude.{◌≡◌, IfSome, MatchOption, None, Some, cond, is_some, not, true};
ghost use Rattle.sysv_seats.specs.GivingBack.{one_fated, one_returned};
ghost use Rattle.sysv_seats.specs.Hand.{HasRoom, empty_hand, one_kept};

use crate::holding::HeldMessage;
use crate::returning::{Fate, Fated, Returned};
use std::alloc::Global;
use std::marker::Model;
use sysv_model::MESSAGE_BYTES;
use sysv_service::SendWait;

/// What one session after another holds: a message, the wait of the send that gives it back, and
/// what became of the messages before it.
///
/// Memory for that is allocated with the memory for the first message, and kept. Most sessions
/// never hold a message.
#[derive(Drop)]
pub struct Hand {
    kept: Option<Box<Kept>>,
}

/// Memory for a message, and for the rest of what a hand holds that has no memory yet.
#[derive(Drop)]
pub(crate) struct Room {
    pub(crate) body: Vec<u8>,
    pub(crate) kept: Option<Box<Kept>>,
}

/// What is held.
#[derive(Drop)]
pub(crate) struct Kept {
    message: Option<HeldMessage>,
    /// The wait of the send that gives back the message, if it waits.
    returning: Option<SendWait>,
    /// When the time of the message is over, if that was noted.
    due: Option<u64>,
    is_untimed: bool,
    /// The numbers of messages that were given back since they were last asked for.
    returns: Returned,
    /// What became of all that were given back other than by a request.
    fated: Fated,
}

impl Model for Hand {
    ghost use Rattle.sysv_seats.specs.Hand.{InHand, seen};

    ghost Value = { InHand };

    ghost view = { λ h. seen h.kept };
}

impl Hand {
    /// Returns a hand that holds nothing.
    pub(crate) fn empty() -> Hand
        ensures { result ≡ empty_hand }
    {
        Hand { kept: None }
    }

    /// Allocates memory for a message of any size, and for the rest of what is held if there is
    /// none. Returns `None` if memory is refused.
    pub(crate) fn room(&self, alloc: Global) -> Option<Room>
        ensures { IfSome result (HasRoom self.now) }
    {
        let body = Vec::with_capacity(alloc, MESSAGE_BYTES).ok()?;
        if self.kept.is_some() {
            return Some(Room { body, kept: None });
        }
        let kept = Box::new(alloc, Kept::empty()).ok()?;
        Some(Room {
            body,
            kept: Some(kept),
        })
    }

    /// Returns the message that is held.
    pub(crate) fn message(&self) -> Option<&HeldMessage>
        ensures message { MatchOption result (self.now.message ≡ None)
            (λ message. self.now.message ≡ Some message.now) }
        ensures variant { is_some result ≡ is_some self.now.message }
    {
        match &self.kept {
            None => None,
            Some(kept) => kept.message.as_ref(),
        }
    }

    /// Takes this message. If nothing was held yet, `kept` is the memory for it.
    pub(crate) fn put(&mut self, message: HeldMessage, kept: Option<Box<Kept>>)
        requires { is_some kept ≡ not self.old.is_open }
        ensures { self.new ≡ record self.old {
          message = Some message;
          is_open = true;
        } }
    {
        if let Some(there) = &mut self.kept {
            there.message = Some(message);
            there.is_untimed = true;
            return;
        }
        let Some(mut kept) = kept else { unreachable!() };
        *kept = Kept::of(message);
        self.kept = Some(kept);
    }

    /// Takes out the message.
    pub(crate) fn take(&mut self) -> Option<HeldMessage>
        ensures message { result ≡ self.old.message }
        ensures none { self.new ≡ record self.old { message = None } }
    {
        match &mut self.kept {
            None => None,
            Some(kept) => kept.message.take(),
        }
    }

    /// Frees the message, if there is one.
    pub(crate) fn clear(&mut self)
        ensures { self.new ≡ record self.old { message = None } }
    {
        let _message = self.take();
    }

    /// Returns the wait of the send that gives back the message, if it waits.
    pub(crate) fn returning(&self) -> Option<SendWait>
        ensures { result ≡ self.now.returning }
    {
        match &self.kept {
            None => None,
            Some(kept) => kept.returning,
        }
    }

    /// Takes note that the send waits that gives back the message.
    pub(crate) fn wait(&mut self, wait: SendWait)
        requires { is_some self.old.message ≡ true }
        ensures { self.new ≡ record self.old { returning = Some wait } }
    {
        match &mut self.kept {
            None => unreachable!(),
            Some(kept) => kept.returning = Some(wait),
        }
    }

    /// Leaves the send that gives back the message, if it waits.
    pub(crate) fn leave(&mut self)
        ensures { self.new ≡ record self.old { returning = None } }
    {
        match &mut self.kept {
            None => {}
            Some(kept) => kept.returning = None,
        }
    }

    /// Takes note that the message was given back, and what became of it.
    pub(crate) fn give_up(&mut self, fate: Fate)
        requires { is_some self.old.message ≡ true }
        ensures { self.new ≡ record self.old {
          message = None;
          returning = None;
          returns = one_returned fate self.old.returns;
          fated = one_fated fate self.old.fated;
        } }
    {
        match &mut self.kept {
            None => unreachable!(),
            Some(kept) => {
                kept.message = None;
                kept.returning = None;
                kept.returns.count(fate);
                kept.fated.count(fate);
            }
        }
    }

    /// Counts a message that was given back by a request, if there was memory for it.
    pub(crate) fn count_return(&mut self, fate: Fate)
        ensures { self.new ≡ record self.old {
          returns = cond self.old.is_open (one_returned fate self.old.returns) self.old.returns;
        } }
    {
        match &mut self.kept {
            None => {}
            Some(kept) => kept.returns.count(fate),
        }
    }

    /// Returns the numbers of messages that were given back since this was last asked.
    pub(crate) fn take_returns(&mut self) -> Returned
        ensures told { result ≡ self.old.returns }
        ensures none { self.new ≡ record self.old { returns = Returned.NONE } }
    {
        match &mut self.kept {
            None => Returned::NONE,
            Some(kept) => {
                let returns = kept.returns;
                kept.returns = Returned::NONE;
                returns
            }
        }
    }

    /// Returns what became of the messages that were given back other than by a request.
    pub(crate) fn fated(&self) -> Fated
        ensures { result ≡ self.now.fated }
    {
        match &self.kept {
            None => Fated::NONE,
            Some(kept) => kept.fated,
        }
    }

    /// Returns whether a message is held, and `set_due` was not called since.
    pub(crate) fn is_untimed(&self) -> bool {
        match &self.kept {
            None => false,
            Some(kept) => kept.is_untimed && kept.message.is_some(),
        }
    }

    /// Keeps when the time of the message is over.
    pub(crate) fn set_due(&mut self, due: Option<u64>)
        ensures { self.new ≡ self.old }
    {
        match &mut self.kept {
            None => {}
            Some(kept) => {
                kept.due = due;
                kept.is_untimed = false;
            }
        }
    }

    /// Returns when the time of the message is over, as `set_due` said.
    pub(crate) fn due(&self) -> Option<u64> {
        match &self.kept {
            None => None,
            Some(kept) => kept.due,
        }
    }
}

impl Kept {
    /// Returns what is kept if nothing is held.
    fn empty() -> Kept {
        Kept {
            message: None,
            returning: None,
            due: None,
            is_untimed: false,
            returns: Returned::NONE,
            fated: Fated::NONE,
        }
    }

    /// Returns what is kept once the first message is held.
    fn of(message: HeldMessage) -> Kept
        ensures { result ≡ one_kept message }
    {
        Kept {
            message: Some(message),
            returning: None,
            due: None,
            is_untimed: true,
            returns: Returned::NONE,
            fated: Fated::NONE,
        }
    }
}
