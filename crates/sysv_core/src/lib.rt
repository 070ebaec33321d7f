//! A world of queues and actors in which every call is made of atomic steps. A step is one turn at
//! one object, or one look at the count for which the call waits.
//!
//! ```rust
//! let mut world = World::open(rt.alloc(), 2, 128)?;
//! let call = Call::Stat { id: 0 };
//! let start = world.step(Event::Start { actor: 1, cred: USER, call });
//! let step = world.step(Event::Step { actor: 1, now: 0 });
//! let free = world.end();
//! ```
#![tactic(auto)]

mod actor;
mod actor_steps;
mod event;
mod laws;
mod preset;
mod world;

pub use actor::Doing;
pub use event::{Answer, Event, Stepped};
pub use laws::{
    each_world_is_sound, every_run_obeys, exact_fit, no_wrong_reply, one_run, one_step, some_run,
    some_step, worked_answers, worked_run, worked_selection, worked_waits,
};
pub use sysv_steps::{Call, Outcome};
pub use world::{OpenRefused, World};
