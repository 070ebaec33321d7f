//! Waits for descriptors.
ghost use Rattle.std.specs.Prelude.{◌≡◌};

use crate::watched::Watched;
use libc::net::{POLLIN, POLLOUT, poll};
use libc::types::pollfd;

/// The number of events that `await_any` awaits beside listeners.
const EVENTS: usize = 3;

/// The maximum number of listeners that are awaited together.
pub const MOST_LISTENERS: usize = 66;

/// That a descriptor can be read, or that it can be written.
#[derive(Clone, Copy)]
pub struct Event {
    asked: pollfd,
}

impl Event {
    /// That the descriptor can be read. A listener can be if a client waits to be accepted.
    pub fn readable(watched: Watched) -> Event
        ensures { result.asked.fd ≡ watched.number }
    {
        Event::of(watched, POLLIN)
    }

    /// That the descriptor can be written.
    pub fn writable(watched: Watched) -> Event
        ensures { result.asked.fd ≡ watched.number }
    {
        Event::of(watched, POLLOUT)
    }

    /// One of these events of the descriptor.
    fn of(watched: Watched, events: i16) -> Event
        ensures { result.asked.fd ≡ watched.number }
    {
        Event {
            asked: pollfd {
                fd: watched.number(),
                events,
                revents: 0,
            },
        }
    }

    /// Returns what the system is asked for this event.
    fn asked(self) -> pollfd {
        self.asked
    }
}

/// Listeners that a thread waits for together: until a client waits at one of them to be accepted.
#[derive(Clone, Copy)]
pub struct Several {
    /// What the system is asked: first for events beside the listeners, then for the listeners.
    asked: [pollfd; EVENTS + MOST_LISTENERS],
    /// The number of listeners.
    count: usize,
}

impl Several {
    /// Returns no listener. Nothing ever happens to it.
    pub fn none() -> Several {
        Several {
            asked: [Event::readable(Watched::NONE).asked; EVENTS + MOST_LISTENERS],
            count: 0,
        }
    }

    /// Adds one more listener, unless there are 66 already.
    pub fn add(&mut self, listener: Watched) {
        if self.count < MOST_LISTENERS {
            self.asked[EVENTS + self.count] = Event::readable(listener).asked;
            self.count += 1;
        }
    }

    /// Returns them as they are now: whether a client waits at each of them.
    pub fn looked_at(&self) -> Several {
        let mut seen = *self;
        let awaited = EVENTS + self.count.min(MOST_LISTENERS);
        if poll(&mut seen.asked[..awaited], 0) > 0 {
            seen
        } else {
            *self
        }
    }

    /// Returns whether a client waited at the listener of this number, when they were looked at.
    pub fn has_client(&self, number: usize) -> bool {
        match self.asked.get(EVENTS.saturating_add(number)) {
            Some(listener) => has_come(*listener),
            None => false,
        }
    }

    /// Returns whether a client waited at one of them, when they were looked at.
    pub fn has_clients(&self) -> bool {
        self.asked[EVENTS..].iter().any(|it| has_come(*it))
    }
}

/// Waits until one of these events has come, a client waits at one of the listeners, or a descriptor
/// has failed, for at most `limit` milliseconds if there is a limit. Returns which events have come,
/// and whether a client waits: none if the time is over, and maybe none earlier.
pub fn await_any(
    events: [Event; EVENTS],
    listeners: &Several,
    limit: Option<u64>,
) -> ([bool; EVENTS], bool) {
    let mut seen = *listeners;
    seen.asked[..EVENTS].copy_from_slice(&events.map(Event::asked));
    let awaited = EVENTS + listeners.count.min(MOST_LISTENERS);
    if poll(&mut seen.asked[..awaited], timeout(limit)) > 0 {
        let come = [seen.asked[0], seen.asked[1], seen.asked[2]];
        (come.map(has_come), seen.has_clients())
    } else {
        ([false; EVENTS], false)
    }
}

/// Waits until this event has come like `await_any`. Returns whether it has.
pub fn await_event(event: Event, limit: Option<u64>) -> bool {
    poll(&mut [event.asked], timeout(limit)) > 0
}

/// Waits for this number of milliseconds, or less if a signal comes.
pub fn pause(millis: u64) {
    await_event(Event::readable(Watched::NONE), Some(millis));
}

/// Returns whether something was reported.
fn has_come(asked: pollfd) -> bool {
    asked.revents != 0
}

/// Returns the time limit of a `poll` for this number of milliseconds, or none.
fn timeout(limit: Option<u64>) -> i32 {
    match limit {
        Some(millis) => i32::try_from(millis).unwrap_or(i32::MAX),
        None => -1,
    }
}
