//! The contents of a gate's slot.
ghost use Rattle.std.specs.Prelude.{◌≡◌, None, Some};

use std::marker::Model;
use std::snapshot::Snapshot;

/// A call that was served, with its reply. It has no bytes at run time.
pub struct Done<C, R> {
    /// The call.
    pub call: Snapshot<C>,
    /// The reply to the call.
    pub reply: Snapshot<R>,
}

impl<C, R> Drop for Done<C, R> {
    fn drop(self) {
        let Done { call: _, reply: _ } = self;
    }
}

/// The call that was served last, if there was one, followed by unused space. The objects of a
/// table are in a row, and the space keeps any two of them off the same cache line.
pub struct Beside<C, R> {
    done: Option<Done<C, R>>,
    _room: [u64; 16],
}

impl<C, R> Model for Beside<C, R> {
    ghost use Rattle.std.specs.Prelude.{Option};
    ghost use Rattle.sysv_gate.specs.declared.table.place.Done.{Done};

    ghost Value = { Option (Done C R) };

    ghost view = { λ beside. beside.done };
}

impl<C, R> Drop for Beside<C, R> {
    fn drop(self) {
        let Beside { done: _, _room: _ } = self;
    }
}

impl<C, R> Beside<C, R> {
    /// Returns the state before any call was served.
    pub(crate) fn none() -> Beside<C, R>
        ensures { result ≡ None }
    {
        Beside {
            done: None,
            _room: [0; 16],
        }
    }

    /// Records that this call was served.
    pub(crate) fn tell(&mut self, done: Done<C, R>)
        ensures { self.new ≡ Some done }
    {
        self.done = Some(done);
    }
}

/// The object, together with the call that was served last. It lets the step that ends a turn know
/// which turn ends.
pub struct Place<O, C, R> {
    /// The object.
    pub object: O,
    /// The call that was served last, if there was one.
    pub last: Beside<C, R>,
}
