//! The preset queue.

ghost use Rattle.sysv_model.specs.History.{Install, Installed};
ghost use Rattle.sysv_model.specs.Registry.{Begin, Settle, Changed};
ghost use Rattle.sysv_model.specs.Turn.{AtSlot, AtRegistry};
ghost use Rattle.sysv_model.specs.declared.limits.TheConstants.{IPC_PRIVATE as private};
ghost use Rattle.sysv_keys.specs.Identifier.{slot_of_id};
ghost use Rattle.sysv_keys.specs.Replies.{begun_reply};
ghost use Rattle.sysv_objects.specs.Represents.{MakesTurn};
ghost use Rattle.sysv_core.specs.World.{preset_cred};
ghost use Rattle.sysv_core.specs.Preset.{MakesPreset};

use bitflags::Flags as _;
use sysv_keys::{Begun, one_legal_reply, unused_slots};
use sysv_model::{Cred, Flags, IPC_PRIVATE};
use sysv_objects::{
    ObjectCall, ObjectReply, Objects, RegistryCall, RegistryReply, SlotCall, SlotReply,
};

/// The credentials with which the preset queue is made.
const PRESET: Cred = Cred {
    uid: 1000,
    gid: 1000,
    pid: 0,
};

/// Makes the preset queue, if slot 0 is unused, by the three turns that a get of a private key
/// would make. Returns whether the queue was made.
pub(crate) fn preset_queue(objects: &mut Objects) -> bool
    ensures { MakesPreset objects.old result objects.new }
{
    unused_slots();
    one_legal_reply();
    let flags = Flags::from_bits_retain(0o600);
    let Begun::Made { id } = begin(objects, flags) else {
        return false;
    };
    let installed = install(objects, id, flags.bits());
    let settled = settle(objects, id);
    installed && settled
}

/// Requests an identifier for a private queue.
fn begin(objects: &mut Objects, flags: Flags) -> Begun
    ensures { MakesTurn objects.old (AtRegistry (Begin private flags) (begun_reply result))
        objects.new }
{
    let key = IPC_PRIVATE;
    match objects.make(ObjectCall::Registry(RegistryCall::Begin { key, flags })) {
        ObjectReply::Registry(RegistryReply::Begun(begun)) => begun,
        _other => unreachable!(),
    }
}

/// Installs the queue, and returns whether the slot was vacant.
fn install(objects: &mut Objects, id: i32, mode: u32) -> bool
    ensures { MakesTurn objects.old (AtSlot (slot_of_id id)
        (Install id private preset_cred mode 0) (Installed result)) objects.new }
{
    let call = SlotCall::Install {
        id,
        key: IPC_PRIVATE,
        cred: PRESET,
        mode,
        now: 0,
    };
    match objects.make(ObjectCall::Slot(call)) {
        ObjectReply::Slot(SlotReply::Installed(made)) => made,
        _other => unreachable!(),
    }
}

/// Settles the identifier, and returns whether a row changed.
fn settle(objects: &mut Objects, id: i32) -> bool
    ensures { MakesTurn objects.old (AtRegistry (Settle id) (Changed result)) objects.new }
{
    match objects.make(ObjectCall::Registry(RegistryCall::Settle { id })) {
        ObjectReply::Registry(RegistryReply::Changed(done)) => done,
        _other => unreachable!(),
    }
}
