//! Closing a service.

ghost use Rattle.std.specs.Prelude.{◌≡◌, ◌≤◌, length, IfSome};
ghost use Rattle.sysv_keys.specs.declared.identifier.TheConstants.{SLOTS as slot_count};
ghost use Rattle.sysv_service.specs.Seats.{AreOf};
ghost use Rattle.sysv_service.specs.Closing.{IsCounted, waiting_in, is_held, all_waiting, all_held, with_chain, with_slot, with_slots, free_in};

use crate::GatesClosed;
use crate::pass::Pass;
use crate::service::Service;
use sysv_gate::Closing;
use sysv_keys::Registry;
use sysv_pool::{Chain, Pool};
use sysv_queue::QueueSlot;

/// A pool takes a chain back while its released count is below this value. No run of a service
/// reaches it.
const RELEASES: u64 = 1 << 63;

/// What was left of a service when it was closed.
#[derive(Clone, Copy, PartialEq, Eq, Debug)]
pub struct Closed {
    /// The number of messages that were queued.
    pub waiting: u64,
    /// The number of free blocks, after the chains of the queued messages and those that the pass
    /// kept were returned to the pool, as far as the pool takes them. It is 0 if the gate of the
    /// pool is held.
    pub free: u32,
    /// The number of held gates. A turn at each of them did not end, and nothing is known of its
    /// object. `every_pool_is_whole` states when it is 0.
    pub held: u32,
}

impl Service {
    /// Closes the service, ends the pass, and counts what is left. It allocates nothing.
    ///
    /// # Conditions
    ///
    /// - `pass` is a pass of this service.
    pub fn close(self, pass: Pass) -> Closed
        requires { AreOf self pass.seats }
        ensures { IsCounted pass.seats pass.held result }
    {
        let (seats, kept) = pass.into_seats();
        let GatesClosed {
            slots,
            registry,
            pool,
        } = self.into_gates().close(seats);
        let (mut pool, pool_held) = end_pool(pool);
        let registry_held = end_registry(registry);
        let (waiting, slots_held) = end_slots(slots, &mut pool);
        put_back(&mut pool, kept);
        Closed {
            waiting,
            free: end_blocks(pool),
            held: slots_held + (registry_held + pool_held),
        }
    }
}

/// Returns the number of messages that the slots held and the number of held gates, and returns the
/// slots' chains to the pool, in the order of the slots, if the pool is there.
fn end_slots(mut slots: Vec<Closing<QueueSlot>>, pool: &mut Option<Pool>) -> (u64, u32)
    requires { length slots.items ≤ slot_count }
    ensures waiting { result.0 ≡ all_waiting slots.items }
    ensures held { result.1 ≡ all_held slots.items }
    ensures few { all_held slots.items ≤ slot_count }
    ensures pool { pool.new ≡ with_slots pool.old slots.items }
{
    let mut waiting = 0;
    let mut held = 0;
    slots.reverse();
    while let Some(slot) = slots.pop() {
        match end_slot(slot, pool) {
            Some(messages) => waiting += u64::from(messages),
            None => held += 1,
        }
    }
    slots.destroy_empty();
    (waiting, held)
}

/// Returns the number of messages that were queued in the slot, and returns its chain to the pool.
/// Returns `None` if the slot's gate is held.
fn end_slot(slot: Closing<QueueSlot>, pool: &mut Option<Pool>) -> Option<u32>
    ensures waiting { IfSome result (λ messages. messages ≡ waiting_in slot.object) }
    ensures held { is_held result ≡ is_held slot.object }
    ensures pool { pool.new ≡ with_slot pool.old slot.object }
{
    let Closing {
        object,
        rest,
        turns: _,
        next_ticket: _,
    } = slot;
    if let Some(rest) = rest {
        rest.end().end();
    }
    let slot = object?;
    let messages = slot.qnum();
    put_back(pool, slot.end());
    Some(messages)
}

/// Returns 1 if the gate of the registry is held, else 0.
fn end_registry(registry: Closing<Registry>) -> u32
    ensures { result ≡ is_held registry.object }
{
    u32::from(registry.object.is_none())
}

/// Returns the pool, and 1 if its gate is held, else 0.
fn end_pool(pool: Closing<Pool>) -> (Option<Pool>, u32)
    ensures pool { result.0 ≡ pool.object }
    ensures held { result.1 ≡ is_held pool.object }
{
    let Closing {
        object,
        rest,
        turns: _,
        next_ticket: _,
    } = pool;
    if let Some(rest) = rest {
        rest.end();
    }
    match object {
        Some(pool) => (Some(pool), 0),
        None => (None, 1),
    }
}

/// Returns the chain to the pool, if the pool takes it.
fn put_back(pool: &mut Option<Pool>, chain: Chain)
    ensures { pool.new ≡ with_chain pool.old chain.blocks }
{
    let Some(pool) = pool else {
        chain.end();
        return;
    };
    if pool.released() >= RELEASES {
        chain.end();
        return;
    }
    if let Err(foreign) = pool.release(chain) {
        foreign.end();
    }
}

/// Returns the number of free blocks, 0 if there is no pool.
fn end_blocks(pool: Option<Pool>) -> u32
    ensures { result ≡ free_in pool }
{
    let Some(pool) = pool else {
        return 0;
    };
    let free = pool.free();
    pool.end();
    free
}
