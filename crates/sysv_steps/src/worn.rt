//! What all calls share: identifiers that are forgotten, chains that are released, and gates that
//! are worn out.

ghost use Rattle.std.specs.Prelude.{◌≡◌, ◌+◌, Err};
ghost use Rattle.sysv_steps.specs.Stepping.{AsksToForget, GivesBack};

use crate::state::State;
use std::mem;
use sysv_model::Errno;
use sysv_objects::{ObjectCall, ObjectReply, PoolCall, PoolReply, RegistryCall, Turns};
use sysv_pool::Chain;

/// Returns the state of a call whose turn was due at a worn-out gate: over with EOVERFLOW.
pub(crate) fn overflow<S, W, T>(back: ObjectCall) -> State<S, W, T>
    ensures { result ≡ State.Over (Err Errno.EOVERFLOW) }
{
    back.into_chain().end();
    State::refused(Errno::EOVERFLOW)
}

/// Requests the registry to forget the identifier. If the gate of the registry is worn out, no turn
/// is made.
pub(crate) fn forget<T: Turns>(turns: &T, at: &mut T::At, id: i32)
    requires { T.ready turns.now at.old }
    ensures stays { T.stays turns.now at.new }
    ensures asks { AsksToForget T.takes T.misses id at.old at.new }
{
    match turns.make(at, ObjectCall::Registry(RegistryCall::Forget { id })) {
        Ok(ObjectReply::Registry(_done)) => {}
        Err(back) => {
            back.into_chain().end();
        }
        _other => unreachable!(),
    }
}

/// Releases the chain at the pool. If the pool refuses the chain as foreign, or its gate is worn
/// out, the chain is added to `kept`.
#[inline(always)]
pub(crate) fn give_back<T: Turns>(turns: &T, at: &mut T::At, kept: &mut Chain, chain: Chain)
    requires { T.ready turns.now at.old }
    ensures stays { T.stays turns.now at.new }
    ensures released { GivesBack T.takes T.misses chain.blocks at.old kept.old.blocks
        at.new kept.new.blocks }
{
    match turns.make(at, ObjectCall::Pool(PoolCall::Release(chain))) {
        Ok(ObjectReply::Pool(PoolReply::Released(Ok(())))) => {}
        Ok(ObjectReply::Pool(PoolReply::Released(Err(foreign)))) => keep(kept, foreign),
        Err(back) => keep(kept, back.into_chain()),
        _other => unreachable!(),
    }
}

/// Adds a chain that could not be released to `kept`.
fn keep(kept: &mut Chain, chain: Chain)
    ensures { kept.new.blocks ≡ kept.old.blocks + chain.blocks }
{
    let before = mem::replace(kept, Chain::empty());
    let empty = mem::replace(kept, before.join(chain));
    empty.end();
}
