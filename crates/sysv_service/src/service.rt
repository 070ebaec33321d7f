//! The service.

ghost use Rattle.std.specs.Prelude.{◌≡◌, ◌<◌, ◌+◌, ◌⊎◌, ◌↔◌, ◌^◌, IfOk, IsOk, Err};
ghost use Rattle.sysv_model.specs.declared.limits.TheConstants.{MIN_BLOCKS as least_blocks, MAX_BLOCKS as most_blocks};
ghost use Rattle.sysv_keys.specs.declared.identifier.TheConstants.{GENERATION_LAST};
ghost use Rattle.sysv_service.specs.Seats.{AreOf};
ghost use Rattle.sysv_service.specs.Opened.{AreOpen, all_opened};
ghost use Rattle.sysv_service.specs.Sharing.{AreSplit, AreJoined};

use crate::pass::Pass;
use crate::{Gates, OpenRefused};
use std::alloc::Global;
use std::marker::Model;
use sysv_model::NoMemory;
use sysv_pool::Chain;

/// The message queues of a system: 256 slots, the registry of their keys and the pool of blocks.
/// Threads share the service by reference, and each thread calls it with a pass of its own. A
/// service cannot be dropped; end it with `close`.
pub struct Service {
    pub(crate) gates: Gates,
}

impl Model for Service {
    ghost use Rattle.sysv_service.specs.Seats.{Gates as Seen};

    ghost Value = { Seen };

    ghost view = { λ s. s.gates };
}

impl Service {
    /// Opens a service without queues, with a pool of `blocks` blocks, 128 to 65,536. Returns it
    /// with its first pass. No later call allocates.
    ///
    /// # Errors
    ///
    /// - `BadSize` if and only if `blocks` is not 128 to 65,536.
    /// - `NoMemory` if memory is refused.
    pub fn open(alloc: Global, blocks: u32) -> Result<(Service, Pass), OpenRefused>
        ensures open { IfOk result (λ o. AreOpen 0 blocks 0 o.0
            × (o.1 ≡ record { seats = all_opened o.0; held = 0 })) }
        ensures fits { IfOk result (λ o. AreOf o.0 o.1.seats) }
        ensures bad_size { (result ≡ Err OpenRefused.BadSize)
            ↔ ((blocks < least_blocks) ⊎ (most_blocks < blocks)) }
    {
        Service::open_at(alloc, blocks, 0, 0)
    }

    /// Like `open`, but with tickets of all gates from `first` on, and identifiers of all slots
    /// from `generation` on.
    ///
    /// # Errors
    ///
    /// - `BadSize` if and only if `blocks` is not 128 to 65,536, `first` is above 2^62, or
    ///   `generation` is above 8,388,607.
    /// - `NoMemory` if memory is refused.
    pub fn open_at(
        alloc: Global,
        blocks: u32,
        first: u64,
        generation: u32,
    ) -> Result<(Service, Pass), OpenRefused>
        ensures open { IfOk result (λ o. AreOpen generation blocks first o.0
            × (o.1 ≡ record { seats = all_opened o.0; held = 0 })) }
        ensures fits { IfOk result (λ o. AreOf o.0 o.1.seats) }
        ensures bad_size { (result ≡ Err OpenRefused.BadSize)
            ↔ ((blocks < least_blocks) ⊎ (most_blocks < blocks) ⊎ (2 ^ 62 < first)
            ⊎ (GENERATION_LAST < generation)) }
    {
        let (gates, seats) = Gates::open_at(alloc, blocks, first, generation)?;
        let pass = Pass {
            seats,
            held: Chain::empty(),
        };
        Ok((Service { gates }, pass))
    }

    /// Returns a new pass, which may move to another thread. It has seen what `pass` has seen, has
    /// made none of these turns, and keeps no chain.
    ///
    /// # Errors
    ///
    /// `NoMemory` is never returned: this implementation allocates nothing here.
    ///
    /// # Conditions
    ///
    /// - `pass` is a pass of this service.
    pub fn split_pass(&self, _alloc: Global, pass: &mut Pass) -> Result<Pass, NoMemory>
        requires { AreOf self.now pass.old.seats }
        ensures pass { AreOf self.now pass.new.seats }
        ensures ok { IfOk result (λ other. AreOf self.now other.seats
            × AreSplit pass.old.seats pass.new.seats other.seats × (other.held ≡ 0)) }
        ensures always { IsOk result }
        ensures held { pass.new.held ≡ pass.old.held }
    {
        Ok(Pass {
            seats: self.gates.split(&mut pass.seats),
            held: Chain::empty(),
        })
    }

    /// Merges `other` into `pass`: what both have seen, their turns, and the chains that they keep.
    ///
    /// # Conditions
    ///
    /// - `pass` and `other` are passes of this service.
    pub fn join_pass(&self, pass: &mut Pass, other: Pass)
        requires pass { AreOf self.now pass.old.seats }
        requires other { AreOf self.now other.seats }
        ensures pass { AreOf self.now pass.new.seats }
        ensures joined { AreJoined pass.old.seats other.seats pass.new.seats }
        ensures held { pass.new.held ≡ pass.old.held + other.held }
    {
        let (seats, chain) = other.into_seats();
        self.gates.join(&mut pass.seats, seats);
        pass.hold(chain);
    }

    /// Returns the gates of the objects.
    pub(crate) fn into_gates(self) -> Gates
        ensures { result ≡ self }
    {
        let Service { gates } = self;
        gates
    }
}
