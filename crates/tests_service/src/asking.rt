//! Requests to the gates, one function for each kind of turn.

ghost use Rattle.std.specs.Prelude.{◌≡◌, ◌≤◌, ◌<◌, [], IfOk, IfSome};
ghost use Rattle.sysv_model.specs.Pool.{blocks_for};
ghost use Rattle.sysv_model.specs.declared.limits.TheConstants.{MESSAGE_BYTES as most_bytes};
ghost use Rattle.sysv_keys.specs.declared.identifier.TheConstants.{SLOTS as slot_count};
ghost use Rattle.sysv_service.specs.Seats.{AreOf};

use std::sync::Wait;
use sysv_keys::Begun;
use sysv_model::{Cred, Errno, Flags, Row, Selector, SetTo, Stat};
use sysv_objects::{
    LoadedChain, ObjectCall, ObjectReply, PoolCall, PoolReply, RegistryCall, RegistryReply,
    SlotCall, SlotReply, TextSize,
};
use sysv_pool::Chain;
use sysv_queue::{Discarded, Look, PlaceRefused, Probe, TakeRefused, Taken};
use sysv_service::{Gates, Seats};

/// The gate is worn out.
#[derive(Clone, Copy, PartialEq, Eq, Debug)]
pub(crate) struct Worn;

/// Spends a request that was handed back, which holds no blocks.
fn came_back(back: ObjectCall) -> Worn {
    back.into_chain().end();
    Worn
}

/// Returns whether a queue was installed.
pub(crate) fn install(
    rt: &impl Wait,
    gates: &Gates,
    seats: &mut Seats,
    id: i32,
    key: i32,
    cred: Cred,
    mode: u32,
    now: u64,
) -> Result<bool, Worn>
    requires { AreOf gates.now seats.old }
    ensures { AreOf gates.now seats.new }
{
    let call = SlotCall::Install {
        id,
        key,
        cred,
        mode,
        now,
    };
    match gates.make(rt, seats, ObjectCall::Slot(call)) {
        Ok(ObjectReply::Slot(SlotReply::Installed(made))) => Ok(made),
        Err(back) => Err(came_back(back)),
        _other => unreachable!(),
    }
}

/// Returns what a probe found.
pub(crate) fn probe(
    rt: &impl Wait,
    gates: &Gates,
    seats: &mut Seats,
    id: i32,
    cred: Cred,
    flags: Flags,
) -> Result<Probe, Worn>
    requires { AreOf gates.now seats.old }
    ensures { AreOf gates.now seats.new }
{
    let call = SlotCall::Probe { id, cred, flags };
    match gates.make(rt, seats, ObjectCall::Slot(call)) {
        Ok(ObjectReply::Slot(SlotReply::Probed(found))) => Ok(found),
        Err(back) => Err(came_back(back)),
        _other => unreachable!(),
    }
}

/// Returns what a look found.
pub(crate) fn look(
    rt: &impl Wait,
    gates: &Gates,
    seats: &mut Seats,
    id: i32,
    cred: Cred,
    size: usize,
) -> Result<Look, Worn>
    requires { AreOf gates.now seats.old }
    ensures { AreOf gates.now seats.new }
{
    let call = SlotCall::Look { id, cred, size };
    match gates.make(rt, seats, ObjectCall::Slot(call)) {
        Ok(ObjectReply::Slot(SlotReply::Looked(found))) => Ok(found),
        Err(back) => Err(came_back(back)),
        _other => unreachable!(),
    }
}

/// Returns the message that was taken.
pub(crate) fn take(
    rt: &impl Wait,
    gates: &Gates,
    seats: &mut Seats,
    id: i32,
    cred: Cred,
    selector: Selector,
    size: u32,
    noerror: bool,
    now: u64,
) -> Result<Result<Taken, TakeRefused>, Worn>
    requires { AreOf gates.now seats.old }
    ensures { AreOf gates.now seats.new }
{
    let call = SlotCall::Take {
        id,
        cred,
        selector,
        size,
        noerror,
        now,
    };
    match gates.make(rt, seats, ObjectCall::Slot(call)) {
        Ok(ObjectReply::Slot(SlotReply::Taken(taken))) => Ok(taken),
        Err(back) => Err(came_back(back)),
        _other => unreachable!(),
    }
}

/// Returns the attributes of a queue.
pub(crate) fn stat(
    rt: &impl Wait,
    gates: &Gates,
    seats: &mut Seats,
    id: i32,
    cred: Cred,
) -> Result<Result<Stat, Errno>, Worn>
    requires { AreOf gates.now seats.old }
    ensures { AreOf gates.now seats.new }
{
    let call = SlotCall::Stat { id, cred };
    match gates.make(rt, seats, ObjectCall::Slot(call)) {
        Ok(ObjectReply::Slot(SlotReply::Told(told))) => Ok(told),
        Err(back) => Err(came_back(back)),
        _other => unreachable!(),
    }
}

/// Returns whether a queue was changed.
pub(crate) fn set(
    rt: &impl Wait,
    gates: &Gates,
    seats: &mut Seats,
    id: i32,
    cred: Cred,
    to: SetTo,
    now: u64,
) -> Result<Result<(), Errno>, Worn>
    requires { AreOf gates.now seats.old }
    ensures { AreOf gates.now seats.new }
{
    let call = SlotCall::Set { id, cred, to, now };
    match gates.make(rt, seats, ObjectCall::Slot(call)) {
        Ok(ObjectReply::Slot(SlotReply::Set(done))) => Ok(done),
        Err(back) => Err(came_back(back)),
        _other => unreachable!(),
    }
}

/// Returns what a removal discarded.
pub(crate) fn remove(
    rt: &impl Wait,
    gates: &Gates,
    seats: &mut Seats,
    id: i32,
    cred: Cred,
) -> Result<Result<Discarded, Errno>, Worn>
    requires { AreOf gates.now seats.old }
    ensures { AreOf gates.now seats.new }
{
    let call = SlotCall::Remove { id, cred };
    match gates.make(rt, seats, ObjectCall::Slot(call)) {
        Ok(ObjectReply::Slot(SlotReply::Removed(done))) => Ok(done),
        Err(back) => Err(came_back(back)),
        _other => unreachable!(),
    }
}

/// Returns the row of a slot.
pub(crate) fn row(
    rt: &impl Wait,
    gates: &Gates,
    seats: &mut Seats,
    slot: usize,
) -> Result<Option<Row>, Worn>
    requires seats { AreOf gates.now seats.old }
    requires slot { slot < slot_count }
    ensures { AreOf gates.now seats.new }
{
    let call = SlotCall::Row { slot };
    match gates.make(rt, seats, ObjectCall::Slot(call)) {
        Ok(ObjectReply::Slot(SlotReply::Shown(row))) => Ok(row),
        Err(back) => Err(came_back(back)),
        _other => unreachable!(),
    }
}

/// Returns what a begin found or made.
pub(crate) fn begin(
    rt: &impl Wait,
    gates: &Gates,
    seats: &mut Seats,
    key: i32,
    flags: Flags,
) -> Result<Begun, Worn>
    requires { AreOf gates.now seats.old }
    ensures { AreOf gates.now seats.new }
{
    match gates.make(
        rt,
        seats,
        ObjectCall::Registry(RegistryCall::Begin { key, flags }),
    ) {
        Ok(ObjectReply::Registry(RegistryReply::Begun(begun))) => Ok(begun),
        Err(back) => Err(came_back(back)),
        _other => unreachable!(),
    }
}

/// Returns whether a row was settled.
pub(crate) fn settle(
    rt: &impl Wait,
    gates: &Gates,
    seats: &mut Seats,
    id: i32,
) -> Result<bool, Worn>
    requires { AreOf gates.now seats.old }
    ensures { AreOf gates.now seats.new }
{
    match gates.make(rt, seats, ObjectCall::Registry(RegistryCall::Settle { id })) {
        Ok(ObjectReply::Registry(RegistryReply::Changed(done))) => Ok(done),
        Err(back) => Err(came_back(back)),
        _other => unreachable!(),
    }
}

/// Returns whether a row was forgotten.
pub(crate) fn forget(
    rt: &impl Wait,
    gates: &Gates,
    seats: &mut Seats,
    id: i32,
) -> Result<bool, Worn>
    requires { AreOf gates.now seats.old }
    ensures { AreOf gates.now seats.new }
{
    match gates.make(rt, seats, ObjectCall::Registry(RegistryCall::Forget { id })) {
        Ok(ObjectReply::Registry(RegistryReply::Changed(done))) => Ok(done),
        Err(back) => Err(came_back(back)),
        _other => unreachable!(),
    }
}

/// Places a body, which is handed back if the gate is worn out.
pub(crate) fn place(
    rt: &impl Wait,
    gates: &Gates,
    seats: &mut Seats,
    id: i32,
    cred: Cred,
    mtype: i64,
    loaded: LoadedChain,
    now: u64,
) -> Result<Result<u64, PlaceRefused>, Chain>
    requires { AreOf gates.now seats.old }
    ensures { AreOf gates.now seats.new }
{
    let call = SlotCall::Place {
        id,
        cred,
        mtype,
        loaded,
        now,
    };
    match gates.make(rt, seats, ObjectCall::Slot(call)) {
        Ok(ObjectReply::Slot(SlotReply::Placed(done))) => Ok(done),
        Err(back) => Err(back.into_chain()),
        _other => unreachable!(),
    }
}

/// Returns the chain that was reserved.
pub(crate) fn reserve(
    rt: &impl Wait,
    gates: &Gates,
    seats: &mut Seats,
    size: usize,
) -> Result<Option<Chain>, Worn>
    requires seats { AreOf gates.now seats.old }
    requires short { size ≤ most_bytes }
    ensures seats { AreOf gates.now seats.new }
    ensures blocks { IfOk result (λ some. IfSome some (λ chain.
        chain ≡ record { blocks = blocks_for size; bytes = [] })) }
{
    let call = PoolCall::Reserve(TextSize::of(size));
    match gates.make(rt, seats, ObjectCall::Pool(call)) {
        Ok(ObjectReply::Pool(PoolReply::Reserved(chain))) => Ok(chain),
        Err(back) => Err(came_back(back)),
        _other => unreachable!(),
    }
}

/// Releases a chain, which is handed back if the gate is worn out.
pub(crate) fn release(
    rt: &impl Wait,
    gates: &Gates,
    seats: &mut Seats,
    chain: Chain,
) -> Result<Result<(), Chain>, Chain>
    requires { AreOf gates.now seats.old }
    ensures { AreOf gates.now seats.new }
{
    match gates.make(rt, seats, ObjectCall::Pool(PoolCall::Release(chain))) {
        Ok(ObjectReply::Pool(PoolReply::Released(done))) => Ok(done),
        Err(back) => Err(back.into_chain()),
        _other => unreachable!(),
    }
}
