//! The actors of a script.
ghost use Rattle.sysv_script.specs.Lines.{IsActor};

use sysv_words::Reads;

/// The number of actors of a script. They count from 1.
pub const SCRIPT_ACTORS: u32 = 16;

/// The number of an actor, 1 to 16.
#[derive(Clone, Copy)]
pub struct Actor(pub u32);

impl Reads for Actor {
    ghost says = { IsActor };

    fn read(word: &[u8]) -> Option<Actor> {
        match u32::read(word) {
            Some(number) if number >= 1 && number <= SCRIPT_ACTORS => Some(Actor(number)),
            _ => None,
        }
    }
}
