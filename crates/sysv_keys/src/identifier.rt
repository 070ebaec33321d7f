//! Identifiers, which consist of a slot and a generation.

ghost use Rattle.std.specs.Prelude.{◌≡◌, ◌<◌, ◌≤◌};
ghost use Rattle.sysv_keys.specs.Identifier.{id_of, slot_of_id};
ghost use Rattle.sysv_keys.specs.declared.identifier.TheConstants.{SLOTS, GENERATION_LAST};

/// The number of slots. A slot holds one queue, so this is also the maximum number of queues.
pub const SLOTS: usize = 256;

/// The last generation of a slot. Once the identifier of this generation is forgotten, the slot is
/// retired.
pub const GENERATION_LAST: u32 = 8_388_607;

/// Returns the slot, below `SLOTS`, of the queue with this identifier (specific to this profile).
///
/// An identifier is not negative. For a negative number the result is below `SLOTS` too, but has no
/// meaning.
pub fn slot_of_id(id: i32) -> usize
    ensures slot { result ≡ slot_of_id id }
    ensures within { result < SLOTS }
{
    id.unsigned_abs() as usize % SLOTS
}

/// Returns the identifier of a slot in a generation.
pub(crate) fn id_of(slot: usize, generation: u32) -> i32
    requires there { slot < SLOTS }
    requires usable { generation ≤ GENERATION_LAST }
    ensures { result ≡ id_of slot generation }
{
    (slot + SLOTS * generation as usize) as i32
}
