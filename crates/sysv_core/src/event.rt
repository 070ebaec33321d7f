//! The events of a world, and their results.

use sysv_model::{Body, Cred};
use sysv_steps::{Call, Outcome};

/// An event of a world: an actor starts a call, or makes one step of the call that it is in. Actors
/// count from 1.
#[derive(Drop)]
pub enum Event {
    /// The actor starts a call with these credentials. The answer to a send does not contain its
    /// body; `World::spare` returns it.
    Start { actor: u32, cred: Cred, call: Call },
    /// The actor makes one step at the time `now`, in seconds.
    Step { actor: u32, now: u64 },
}

/// The answer to an actor's call.
#[derive(Drop)]
pub struct Answer {
    /// The actor that made the call.
    pub actor: u32,
    /// How the call ended.
    pub result: Outcome,
    /// The body that a receive brought: with the bytes of the message, or empty if the receive
    /// failed. `None` for every other call.
    pub body: Option<Body>,
}

/// The result of one event.
#[derive(Drop)]
pub enum Stepped {
    /// There is no answer yet, or the event was not possible.
    Nothing,
    /// The call of the actor is over.
    Answer(Answer),
    /// The step number has reached 2^62, so the world is worn out. Nothing has changed.
    Worn,
}
