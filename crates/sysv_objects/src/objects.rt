//! The slots, the registry and the pool.

ghost use Rattle.std.specs.Prelude.{◌≡◌, ℕ, ◌+◌, ◌^◌, ◌<◌, ◌≤◌, ◌⊎◌, ◌↔◌, List, [], IsTrue, IfOk, IfSome, Err};
ghost use Rattle.sysv_model.specs.History.{arrived, freed};
ghost use Rattle.sysv_model.specs.Registry.{settled};
ghost use Rattle.sysv_model.specs.Pool.{released};
ghost use Rattle.sysv_model.specs.Turn.{Turn, slot_history, registry_history, pool_history};
ghost use Rattle.sysv_keys.specs.declared.identifier.TheConstants.{SLOTS, GENERATION_LAST};
ghost use Rattle.sysv_keys.specs.Identifier.{slot_of_id};
ghost use Rattle.sysv_keys.specs.Rows.{IsUnused};
ghost use Rattle.sysv_model.specs.declared.limits.TheConstants.{MIN_BLOCKS as least_blocks, MAX_BLOCKS as most_blocks};
ghost use Rattle.sysv_objects.specs.SlotTurns.{IsThere, MayRaise, LeavesSlot};
ghost use Rattle.sysv_objects.specs.RegistryTurns.{LeavesRegistry};
ghost use Rattle.sysv_objects.specs.PoolTurns.{MayRelease, LeavesPool};
ghost use Rattle.sysv_objects.specs.Turns.{IsOfSomeSlot, MayCount, LeavesObject, Takes};
ghost use Rattle.sysv_objects.specs.Objects.{CountsUpTo, OthersStay, blocks_in};
ghost use Rattle.sysv_objects.specs.Represents.{Represents, MakesTurn, AreVacant};

use crate::object::{ObjectCall, ObjectReply};
use crate::pool::{PoolCall, PoolReply};
use crate::registry::{RegistryCall, RegistryReply};
use crate::slot::{SlotCall, SlotReply};
use std::alloc::Global;
use std::marker::Model;
use sysv_keys::{GENERATION_LAST, Registry, SLOTS, slot_of_id};
use sysv_model::{MAX_BLOCKS, MIN_BLOCKS};
use sysv_pool::{Chain, Pool};
use sysv_queue::QueueSlot;
use thiserror::Error;

/// Why the objects were not opened.
#[derive(Clone, Copy, PartialEq, Eq, Debug, Error)]
pub enum ObjectsRefused {
    /// Allocation failed.
    #[error("no memory")]
    NoMemory,
    /// The generation is above the last one, `GENERATION_LAST`.
    #[error("the generation is above the last one")]
    BadStart,
    /// The number of blocks is not 128 to 65,536.
    #[error("the number of blocks is not 128 to 65,536")]
    BadSize,
}

/// The slots by their numbers, the registry of keys and identifiers, and the pool of the blocks
/// that hold message bodies.
///
/// A request with an identifier goes to the slot of this identifier, whether the identifier is live
/// or not. Objects cannot be dropped; end them with `end`.
pub struct Objects {
    slots: Vec<QueueSlot>,
    registry: Registry,
    pool: Pool,
}

impl Model for Objects {
    ghost use Rattle.sysv_objects.specs.Objects.{Objects as Seen};
    ghost use Rattle.sysv_objects.specs.Represents.{Stand};

    ghost Value = { Seen };

    ghost view = { λ o. record { slots = o.slots.items; registry = o.registry; pool = o.pool } };

    ghost invariant = { λ o. Stand
        (record { slots = o.slots.items; registry = o.registry; pool = o.pool }) };
}

impl Objects {
    /// Creates vacant slots, a registry without rows whose slots all have the generation
    /// `generation`, and a pool of `blocks` blocks, 128 to 65,536.
    ///
    /// No later call allocates.
    ///
    /// # Errors
    ///
    /// The first cause that applies is reported.
    ///
    /// - `BadStart` if and only if `generation` is above `GENERATION_LAST`.
    /// - `BadSize` if `blocks` is not 128 to 65,536.
    /// - `NoMemory` if allocation fails.
    pub fn open_at(alloc: Global, generation: u32, blocks: u32) -> Result<Objects, ObjectsRefused>
        ensures stands { IfOk result (Represents generation []) }
        ensures size { IfOk result (λ objects. objects.pool.size ≡ blocks) }
        ensures counts { IfOk result (CountsUpTo 0) }
        ensures bad_start { (result ≡ Err ObjectsRefused.BadStart) ↔ GENERATION_LAST < generation }
        ensures bad_size { (result ≡ Err ObjectsRefused.BadSize) ↔ (generation ≤ GENERATION_LAST)
            × ((blocks < least_blocks) ⊎ (most_blocks < blocks)) }
    {
        if generation > GENERATION_LAST {
            return Err(ObjectsRefused::BadStart);
        }
        if blocks < MIN_BLOCKS || blocks > MAX_BLOCKS {
            return Err(ObjectsRefused::BadSize);
        }
        let Ok(registry) = Registry::open_at(alloc, generation) else {
            return Err(ObjectsRefused::NoMemory);
        };
        let Ok(pool) = Pool::open(alloc, blocks) else {
            return Err(ObjectsRefused::NoMemory);
        };
        let Some(slots) = open_slots(alloc) else {
            pool.end();
            return Err(ObjectsRefused::NoMemory);
        };
        Ok(Objects {
            slots,
            registry,
            pool,
        })
    }

    /// Makes one turn: at the slot that the request goes to, at the registry or at the pool.
    ///
    /// A refused turn and a turn that only reads change nothing. No turn changes an object that it
    /// does not go to.
    ///
    /// # Conditions
    ///
    /// - If the turn may raise a count (of a slot or of the pool), the counts of all slots and the
    ///   released count are at most 2^62.
    /// - A request for a row goes to a slot that exists.
    #[inline(always)]
    pub fn make(&mut self, call: ObjectCall) -> ObjectReply
        requires counts { MayCount call → CountsUpTo (2 ^ 62) self.old }
        requires there { IsOfSomeSlot call }
        ensures turn { Takes MakesTurn self.old call result self.new }
        ensures leaves { LeavesObject result → self.new ≡ self.old }
        ensures others { OthersStay call self.old self.new }
    {
        match call {
            ObjectCall::Slot(call) => ObjectReply::Slot(self.at_slot(call)),
            ObjectCall::Registry(call) => ObjectReply::Registry(self.at_registry(call)),
            ObjectCall::Pool(call) => ObjectReply::Pool(self.at_pool(call)),
        }
    }

    #[inline(always)]
    /// Makes a turn at a slot.
    fn at_slot(&mut self, call: SlotCall) -> SlotReply
        requires counts { MayRaise call → CountsUpTo (2 ^ 62) self.old }
        requires there { IsThere call }
        ensures turn { Takes MakesTurn self.old (ObjectCall.Slot call) (ObjectReply.Slot result)
            self.new }
        ensures leaves { LeavesSlot result → self.new ≡ self.old }
        ensures others { OthersStay (ObjectCall.Slot call) self.old self.new }
    {
        let place = call.slot();
        call.make(&mut self.slots[place])
    }

    /// Makes a turn at the registry.
    fn at_registry(&mut self, call: RegistryCall) -> RegistryReply
        ensures turn { Takes MakesTurn self.old (ObjectCall.Registry call)
            (ObjectReply.Registry result) self.new }
        ensures leaves { LeavesRegistry result → self.new ≡ self.old }
        ensures others { OthersStay (ObjectCall.Registry call) self.old self.new }
    {
        call.make(&mut self.registry)
    }

    /// Makes a turn at the pool.
    fn at_pool(&mut self, call: PoolCall) -> PoolReply
        requires { MayRelease call → CountsUpTo (2 ^ 62) self.old }
        ensures turn { Takes MakesTurn self.old (ObjectCall.Pool call) (ObjectReply.Pool result)
            self.new }
        ensures leaves { LeavesPool result → self.new ≡ self.old }
        ensures others { OthersStay (ObjectCall.Pool call) self.old self.new }
    {
        call.make(&mut self.pool)
    }

    /// Returns what `Registry::is_unused` returns.
    ///
    /// # Conditions
    ///
    /// - `slot` is below `SLOTS`.
    pub fn is_unused(&self, slot: usize) -> bool
        requires { slot < SLOTS }
        ensures { (generation : ℕ) (turns : List Turn) → Represents generation turns self.now →
            IsTrue result ↔ IsUnused generation (registry_history turns) slot }
    {
        self.registry.is_unused(slot)
    }

    /// Returns the arrived count of the identifier's slot.
    pub fn arrived(&self, id: i32) -> u64
        ensures { (generation : ℕ) (turns : List Turn) → Represents generation turns self.now →
            result ≡ arrived (slot_history (slot_of_id id) turns) }
    {
        let place = slot_of_id(id);
        self.slots[place].counts().0
    }

    /// Returns the freed count of the identifier's slot.
    pub fn freed(&self, id: i32) -> u64
        ensures { (generation : ℕ) (turns : List Turn) → Represents generation turns self.now →
            result ≡ freed (slot_history (slot_of_id id) turns) }
    {
        let place = slot_of_id(id);
        self.slots[place].counts().1
    }

    /// Returns the settled count of the registry.
    pub fn settled(&self) -> u64
        ensures { (generation : ℕ) (turns : List Turn) → Represents generation turns self.now →
            result ≡ settled (registry_history turns) }
    {
        self.registry.settled()
    }

    /// Returns the released count of the pool.
    pub fn released(&self) -> u64
        ensures { (generation : ℕ) (turns : List Turn) → Represents generation turns self.now →
            result ≡ released (pool_history turns) }
    {
        self.pool.released()
    }

    /// Ends the objects: returns `chain` and the blocks of all queued messages to the pool, and
    /// returns the number of blocks that are then free.
    ///
    /// If more blocks than the pool was opened with would be free, none of them is returned to the
    /// pool. Allocates nothing.
    ///
    /// # Conditions
    ///
    /// - The counts of all slots and the released count are at most 2^62.
    pub fn end(self, chain: Chain) -> u32
        requires { CountsUpTo (2 ^ 62) self }
        ensures own { self.pool.free + (blocks_in self.slots + chain.blocks) ≤ self.pool.size →
            result ≡ self.pool.free + (blocks_in self.slots + chain.blocks) }
        ensures foreign { self.pool.size < self.pool.free + (blocks_in self.slots + chain.blocks) →
            result ≡ self.pool.free }
    {
        let Objects {
            slots,
            registry: _registry,
            mut pool,
        } = self;
        if let Err(foreign) = pool.release(joined(slots).join(chain)) {
            foreign.end();
        }
        let free = pool.free();
        pool.end();
        free
    }
}

/// Creates `SLOTS` vacant slots. Returns `None` if allocation fails.
fn open_slots(alloc: Global) -> Option<Vec<QueueSlot>>
    ensures { IfSome result (λ slots. AreVacant slots.items) }
{
    let Ok(mut slots) = Vec::with_capacity(alloc, SLOTS) else {
        return None;
    };
    for _ in 0..SLOTS {
        let Ok(slot) = QueueSlot::open(alloc) else {
            joined(slots).end();
            return None;
        };
        slots.push_reserved(slot);
    }
    Some(slots)
}

/// Ends the slots, and returns one chain with the blocks of all their queued messages.
fn joined(mut slots: Vec<QueueSlot>) -> Chain
    ensures { result ≡ record { blocks = blocks_in slots.items; bytes = [] } }
{
    let mut chain = Chain::empty();
    while let Some(slot) = slots.pop() {
        chain = chain.join(slot.end());
    }
    slots.destroy_empty();
    chain
}
