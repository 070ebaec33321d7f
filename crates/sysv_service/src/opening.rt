//! Opening and closing the gates.

ghost use Rattle.std.specs.Prelude.{◌≡◌, ◌<◌, ◌≤◌, ◌⊎◌, ◌↔◌, ◌^◌, IfOk, IfSome, Err};
ghost use Rattle.sysv_model.specs.declared.limits.TheConstants.{MIN_BLOCKS as least_blocks, MAX_BLOCKS as most_blocks};
ghost use Rattle.sysv_keys.specs.declared.identifier.TheConstants.{GENERATION_LAST};
ghost use Rattle.sysv_service.specs.Opened.{AreOpen, all_opened};
ghost use Rattle.sysv_service.specs.Fresh.{AreFresh};
ghost use Rattle.sysv_service.specs.Seats.{AreOf};

use crate::gates::{FIRST_SLOT, Gates};
use crate::kinds::Gated;
use crate::object::SharedObject;
use crate::seats::Seats;
use std::alloc::Global;
use sysv_bank::Bank;
use sysv_gate::{Closing, OpenRefused as GateRefused};
use sysv_keys::{GENERATION_LAST, Registry, SLOTS};
use sysv_model::{MAX_BLOCKS, MIN_BLOCKS};
use sysv_pool::Pool;
use sysv_queue::QueueSlot;
use thiserror::Error;

/// The largest first ticket of a gate.
const MAX_FIRST: u64 = 1 << 62;

/// The reasons why gates were not opened.
#[derive(Clone, Copy, PartialEq, Eq, Debug, Error)]
pub enum OpenRefused {
    /// Memory was refused.
    #[error("no memory")]
    NoMemory,
    /// The number of blocks is not 128 to 65,536, the first ticket is above 2^62, or the generation
    /// is above the last one.
    #[error("the number of blocks, the first ticket or the generation is out of range")]
    BadSize,
}

/// What the gates return when they are closed. The slots are in the order of their numbers.
pub struct GatesClosed {
    /// What the gates of the slots returned, in the order of the slots' numbers.
    pub slots: Vec<Closing<QueueSlot>>,
    /// What the gate of the registry returned.
    pub registry: Closing<Registry>,
    /// What the gate of the pool returned.
    pub pool: Closing<Pool>,
}

impl Gates {
    /// Opens gates around 256 vacant slots, a registry without rows and a pool of `blocks` blocks.
    /// Tickets begin at `first`, and each slot's identifiers at `generation`. Returns the gates
    /// with their first seats.
    ///
    /// # Errors
    ///
    /// - `BadSize` if and only if `blocks` is not 128 to 65,536, `first` is above 2^62, or
    ///   `generation` is above the last generation.
    /// - `NoMemory` if memory is refused.
    pub fn open_at(
        alloc: Global,
        blocks: u32,
        first: u64,
        generation: u32,
    ) -> Result<(Gates, Seats), OpenRefused>
        ensures open { IfOk result (λ o. AreOpen generation blocks first o.0
            × (o.1 ≡ all_opened o.0)) }
        ensures seats { IfOk result (λ o. AreOf o.0 o.1) }
        ensures bad_size { (result ≡ Err OpenRefused.BadSize)
            ↔ ((blocks < least_blocks) ⊎ (most_blocks < blocks) ⊎ (2 ^ 62 < first)
            ⊎ (GENERATION_LAST < generation)) }
    {
        if blocks < MIN_BLOCKS
            || blocks > MAX_BLOCKS
            || first > MAX_FIRST
            || generation > GENERATION_LAST
        {
            return Err(OpenRefused::BadSize);
        }
        let Ok(closings) = Vec::with_capacity(alloc, SLOTS) else {
            return Err(OpenRefused::NoMemory);
        };
        let Some(objects) = fresh_objects(alloc, blocks, generation) else {
            closings.destroy_empty();
            return Err(OpenRefused::NoMemory);
        };
        match Bank::open(alloc, objects, first) {
            Ok((bank, seat)) => Ok((Gates { bank, closings }, Seats { seat, in_use: 0 })),
            Err(GateRefused::NoMemory(objects) | GateRefused::BadStart(objects)) => {
                end_all(objects);
                closings.destroy_empty();
                Err(OpenRefused::NoMemory)
            }
        }
    }
}

/// Makes the objects: a registry without rows, whose slots have this generation, a pool of this
/// number of blocks, and the vacant slots. Returns `None` if memory is refused.
fn fresh_objects(alloc: Global, blocks: u32, generation: u32) -> Option<Vec<SharedObject>>
    requires blocks { (least_blocks ≤ blocks) × (blocks ≤ most_blocks) }
    requires generation { generation ≤ GENERATION_LAST }
    ensures { IfSome result (λ objects. AreFresh generation blocks objects.items) }
{
    let Ok(mut objects) = Vec::with_capacity(alloc, SLOTS + FIRST_SLOT) else {
        return None;
    };
    let Ok(registry) = Registry::open_at(alloc, generation) else {
        objects.destroy_empty();
        return None;
    };
    objects.push_reserved(SharedObject::of(Gated::Registry(registry)));
    let Ok(pool) = Pool::open(alloc, blocks) else {
        end_all(objects);
        return None;
    };
    objects.push_reserved(SharedObject::of(Gated::Pool(pool)));
    for _ in 0..SLOTS {
        let Ok(slot) = QueueSlot::open(alloc) else {
            end_all(objects);
            return None;
        };
        objects.push_reserved(SharedObject::of(Gated::Slot(slot)));
    }
    Some(objects)
}

/// Frees the objects.
fn end_all(mut objects: Vec<SharedObject>) {
    while let Some(object) = objects.pop() {
        object.into_kind().end();
    }
    objects.destroy_empty();
}
