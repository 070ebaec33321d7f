//! Turns at the objects themselves.

use crate::object::{ObjectCall, ObjectReply, Turns};
use crate::objects::Objects;

/// Makes turns at the objects themselves. A turn is always made: no gate can be worn out.
#[derive(Clone, Copy, PartialEq, Eq, Debug)]
pub struct Directly;

impl Turns for Directly {
    ghost use Rattle.std.specs.Prelude.{◌^◌};
    ghost use Rattle.sysv_objects.specs.Objects.{CountsUpTo};
    ghost use Rattle.sysv_objects.specs.Represents.{MakesTurn};

    type At = Objects;

    ghost ready = { λ _ objects. CountsUpTo (2 ^ 62) objects };

    ghost stays = { λ _ _. Unit {0} };

    ghost takes = { MakesTurn };

    ghost misses = { λ _ _ _. ⊥ };

    #[inline(always)]
    fn make(&self, at: &mut Objects, call: ObjectCall) -> Result<ObjectReply, ObjectCall> {
        Ok(at.make(call))
    }
}
