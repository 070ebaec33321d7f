//! What the clients of one worker use one after another.
ghost use Rattle.std.specs.Prelude.{◌≡◌, ◌∷◌, [], if◌then◌else◌, IfOk, nat_lt, vec_capacity};
ghost use Rattle.std.specs.List.{list_any};
ghost use Rattle.std.specs.Option.{option_to_list};
ghost use Rattle.sysv_seats.specs.declared.tools.TheConstants.{MOST_NOTIFICATIONS};
ghost use Rattle.sysv_seats.specs.Shares.{IsShare, with_one};
ghost use Rattle.sysv_seats.specs.Notification.{Keeps, TakesLast, is_taken, notifications_in, notifications_of};

use crate::notification::{Notification, Told};
use std::alloc::Global;
use sysv_model::{Body, NoMemory};

/// The maximum number of bytes that are read from a connection at once.
pub const FILL_BYTES: usize = 65_536;

/// The maximum number of requests of a client that are taken up at one event.
pub const SHARE: u32 = 64;

/// The maximum number of things that one call may tell.
const MOST_TOLD: usize = 3;

/// The number of things that one event may tell: those of each request of a share, of a call that
/// waited before, and of a send that gives back a message and is looked at once more.
const MOST_NOTIFICATIONS: usize = MOST_TOLD * (SHARE as usize + 4);

/// The buffers that the clients of one worker use one after another, and what their calls may have
/// changed for calls that wait.
#[derive(Drop)]
pub struct Tools {
    pub(crate) arrived: Vec<u8>,
    pub(crate) text: Body,
    pub(crate) given: Body,
    pub(crate) notifications: Vec<Notification>,
    /// Whether there was no room for a notification since this was last told.
    pub(crate) missed: bool,
    /// The number of places that hold a message or whose client waits for one, and the maximum.
    holding: usize,
    most_holding: usize,
    /// The number of places that hold a message.
    held: usize,
}

impl Tools {
    /// Allocates the buffers. There are no notifications.
    ///
    /// # Errors
    ///
    /// - `NoMemory` if allocation fails.
    pub fn open(alloc: Global) -> Result<Tools, NoMemory>
        ensures notifications { IfOk result (λ tools. notifications_in tools ≡ []) }
        ensures room { IfOk result (λ tools. vec_capacity tools.notifications
            ≡ MOST_NOTIFICATIONS) }
    {
        let text = Body::open(alloc)?;
        let given = Body::open(alloc)?;
        let Ok(arrived) = vec![in alloc; 0u8; FILL_BYTES] else {
            return Err(NoMemory);
        };
        let Ok(notifications) = Vec::with_capacity(alloc, MOST_NOTIFICATIONS) else {
            return Err(NoMemory);
        };
        Ok(Tools {
            arrived,
            text,
            given,
            notifications,
            missed: false,
            holding: 0,
            most_holding: 0,
            held: 0,
        })
    }

    /// Has at most seven eighths of this many places hold messages, but at least one. So messages
    /// that are given back leave places for clients that make room for them.
    pub fn share_places(&mut self, places: usize)
        ensures most { IsShare places self.new.most_holding }
        ensures same { self.new ≡ record self.old { most_holding = self.new.most_holding } }
    {
        self.most_holding = (places - places / 8).max(1);
    }

    /// Returns whether one more place may hold a message.
    pub fn may_hold_more(&self) -> bool
        ensures { result ≡ nat_lt self.now.holding self.now.most_holding }
    {
        self.holding < self.most_holding
    }

    /// Counts one more place that holds a message or whose client waits for one, or one less.
    pub fn count_hold(&mut self, begins: bool)
        ensures { self.new ≡ record self.old { holding = with_one begins self.old.holding } }
    {
        self.holding = counted(self.holding, begins);
    }

    /// Counts one more place that holds a message, or one less.
    pub fn count_held(&mut self, begins: bool)
        ensures { self.new ≡ record self.old { held = with_one begins self.old.held } }
    {
        self.held = counted(self.held, begins);
    }

    /// Returns the number of places that hold a message.
    pub fn held(&self) -> usize
        ensures { result ≡ self.now.held }
    {
        self.held
    }

    /// Removes the last of the things that calls may have changed since the tools were opened, and
    /// returns it. If there was no room for one, the last is that anything may have changed.
    pub fn take_notification(&mut self) -> Option<Notification>
        ensures { TakesLast self.old result self.new }
    {
        if self.missed {
            self.missed = false;
            return Some(Notification::Anything);
        }
        self.notifications.pop()
    }

    /// Returns whether a message of this type was taken since the notifications were taken.
    #[tactic(auto, using(crate::proofs::Keeping::taken_among))]
    pub fn has_taken(&self, taken: i64) -> bool
        ensures { result ≡ list_any (is_taken taken) (notifications_in self.now) }
    {
        self.keeps_taken(taken)
    }

    /// Returns whether it is among the notifications that a message of this type was taken.
    fn keeps_taken(&self, taken: i64) -> bool
        ensures { result ≡ list_any (is_taken taken) self.now.notifications.items }
    {
        self.notifications.iter().any(
            |it| matches!(it, Notification::Freed { mtype, .. } if *mtype == taken),
        )
    }

    /// Keeps what a call may have changed.
    pub(crate) fn tell(&mut self, told: Told)
        ensures { Keeps (notifications_of told) self.old self.new }
    {
        self.keep_some(told.there);
        self.keep_if(told.released, Notification::Released);
        self.keep_if(told.settled, Notification::Settled);
    }

    /// Keeps this, if there is something.
    #[tactic(auto, using(crate::proofs::Keeping::keeps_none))]
    fn keep_some(&mut self, notification: Option<Notification>)
        ensures { Keeps (option_to_list notification) self.old self.new }
    {
        let Some(notification) = notification else {
            return;
        };
        self.keep(notification);
    }

    /// Keeps this if the condition holds.
    #[tactic(auto, using(crate::proofs::Keeping::keeps_none))]
    fn keep_if(&mut self, holds: bool, notification: Notification)
        ensures { Keeps (if holds then notification ∷ [] else []) self.old self.new }
    {
        if !holds {
            return;
        }
        self.keep(notification);
    }

    /// Keeps one more thing. If there is no room, it keeps that anything may have changed.
    #[tactic(auto, using(crate::proofs::Keeping::keeps_missed, crate::proofs::Keeping::keeps_one))]
    fn keep(&mut self, notification: Notification)
        ensures { Keeps (notification ∷ []) self.old self.new }
    {
        if self.notifications.len() >= self.notifications.capacity() {
            self.missed = true;
            return;
        }
        self.notifications.push_reserved(notification);
    }
}

/// Returns a number of places with one more, or one less.
fn counted(count: usize, begins: bool) -> usize
    ensures { result ≡ with_one begins count }
{
    if begins {
        count.saturating_add(1)
    } else {
        count.saturating_sub(1)
    }
}
