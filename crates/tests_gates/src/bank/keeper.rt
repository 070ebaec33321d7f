//! An object that holds its turn until other calls were answered.
use super::place::Place;
use std::sync::Mutex;
use sysv_gate::Object;

/// Reports that a turn has begun, and waits for the reports of other answers.
#[derive(Drop)]
pub(crate) struct Watch<'a> {
    pub(crate) begun: Place<'a>,
    pub(crate) answered: Place<'a>,
}

/// With a watch, a call holds its turn until a number of other calls were answered, and returns
/// whether they were. Without one it returns at once. The watch is in a lock that is never taken,
/// so that threads may share a bank of keepers.
#[derive(Drop)]
pub(crate) struct Keeper<'a> {
    pub(crate) watch: Option<Mutex<Watch<'a>>>,
}

impl<'a> Object for Keeper<'a> {
    type Call = u64;

    type Reply = bool;

    ghost meaning = { λ _ _ _ _. Unit {0} };

    ghost counted = { λ _. (0, 0) };

    fn apply(&mut self, call: u64) -> bool {
        match &mut self.watch {
            Some(watch) => {
                let watch = watch.get_mut();
                watch.begun.say();
                watch.answered.hears(call)
            }
            None => true,
        }
    }

    fn counts(&self) -> (u64, u64) {
        (0, 0)
    }
}
