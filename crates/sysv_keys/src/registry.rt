//! The registry: one place for each slot, and an index from keys to slots.

ghost use Rattle.std.specs.Prelude.{◌≡◌, ◌≢◌, ℕ, ℤ, ◌+◌, ◌<◌, ◌≤◌, ◌↔◌, false, [], IsTrue, IsSome, None, Some, MatchOption, IfErr, IfOk, OnOk, MatchResult, length, set};
ghost use Rattle.indexmap.specs.IndexMap.{index_map_len, spare};
ghost use Rattle.sysv_model.specs.declared.limits.TheConstants.{IPC_PRIVATE};
ghost use Rattle.sysv_model.specs.Registry.{RegistryHistory, Begin, Settle, Forget, Changed};
ghost use Rattle.sysv_keys.specs.declared.identifier.TheConstants.{SLOTS, GENERATION_LAST};
ghost use Rattle.sysv_keys.specs.declared.registry.KeyRow.{KeyRow};
ghost use Rattle.sysv_keys.specs.State.{made_in, settled_in, forgotten_in, write, places_in, state_in};
ghost use Rattle.sysv_keys.specs.Rows.{IsUnused, IsVacant, IsLeastVacant};
ghost use Rattle.sysv_keys.specs.LegalReply.{IsBound};
ghost use Rattle.sysv_keys.specs.Represents.{Represents, MakesTurn};
ghost use Rattle.sysv_keys.specs.Replies.{begun_reply, ChangesOnlyIfMade};
ghost use Rattle.sysv_keys.specs.Kept.{IsOpen, age, is_live, IsIndex, IsEntered, IsOnlyAt, MayPut, IsPlaceOf, HasNoRow, Finds, Creating};

use crate::identifier::{GENERATION_LAST, SLOTS, id_of, slot_of_id};
use bitflags::Flags as Set;
use indexmap::IndexMap;
use std::alloc::{AllocError, Global};
use std::marker::Model;
use sysv_model::{Errno, Flags, IPC_PRIVATE};
use thiserror::Error;

/// What `Registry::begin` found or made.
#[derive(Clone, Copy, PartialEq, Eq, Debug)]
pub enum Begun {
    /// The identifier to which the key is bound, and the settled count at that time.
    Found { id: i32, settled: u64 },
    /// A new identifier, whose queue is not installed yet.
    Made { id: i32 },
    /// Another call is creating the queue of the key.
    ///
    /// Its row is neither settled nor forgotten before the settled count is above `settled`. Wait
    /// for that, and call `begin` again.
    Busy { settled: u64 },
    /// `ENOENT` if the key has no row and none is to be made; `ENOSPC` if no slot is vacant.
    Refused(Errno),
}

/// Why a registry was not opened.
#[derive(Clone, Copy, PartialEq, Eq, Debug, Error)]
pub enum RegistryRefused {
    /// Allocation failed.
    #[error("no memory")]
    NoMemory,
    /// The generation is above the last one, `GENERATION_LAST`.
    #[error("the generation is above the last one")]
    BadStart,
}

impl From<AllocError> for RegistryRefused {
    ghost use Rattle.sysv_keys.specs.declared.registry.RegistryRefused.{RegistryRefused};

    ghost from_gives = { λ e r. r ≡ RegistryRefused.NoMemory };

    fn from(_: AllocError) -> Self {
        RegistryRefused::NoMemory
    }
}

/// A row: the key that the identifier of a slot and its generation was made for.
#[derive(Clone, Copy, PartialEq, Eq, Debug)]
struct KeyRow {
    key: i32,
    /// Whether the queue was installed. The row is Making before that and Live afterwards.
    live: bool,
}

/// The state of a slot: the generation of the next identifier to be made in it, or of the row's
/// identifier if there is a row.
#[derive(Clone, Copy, PartialEq, Eq, Debug)]
struct Place {
    generation: u32,
    row: Option<KeyRow>,
}

impl Place {
    /// Returns whether an identifier can be made in the slot.
    fn is_open(&self) -> bool
        ensures { IsTrue result ↔ IsOpen self.now }
    {
        self.row.is_none() && self.generation <= GENERATION_LAST
    }

    /// Returns whether the place has a row that is Live.
    fn is_live(&self) -> bool
        ensures { result ≡ is_live self.now.row }
    {
        matches!(self.row, Some(row) if row.live)
    }

    /// Returns the place once an identifier was made in it for a key.
    fn made(self, key: i32) -> Place
        ensures { result ≡ made_in key self }
    {
        let row = Some(KeyRow { key, live: false });
        Place { row, ..self }
    }

    /// Returns the place once its row was settled.
    fn settled(self) -> Place
        ensures { result ≡ settled_in self }
    {
        let row = self.row.map(|row| KeyRow { live: true, ..row });
        Place { row, ..self }
    }

    /// Returns the place once its row was forgotten.
    fn forgotten(self) -> Place
        requires { self.generation ≤ GENERATION_LAST }
        ensures { result ≡ forgotten_in self }
    {
        Place {
            generation: self.generation + 1,
            row: None,
        }
    }
}

/// The rows of the keys, and the generation of each slot.
///
/// Contracts see the generation and the row of each slot, and the settled count.
#[derive(Drop)]
pub struct Registry {
    places: Vec<Place>,
    /// The slot of each key that has a row. A key whose row was forgotten stays here until the
    /// index is full, so its slot may have the row of another key by then. Private keys are entered
    /// too, but never looked up.
    by_key: IndexMap<i32, usize>,
    settled: u64,
}

impl Model for Registry {
    ghost use Rattle.sysv_keys.specs.State.{Registry as Seen};
    ghost use Rattle.sysv_keys.specs.Kept.{IsKept};

    ghost Value = { Seen };

    ghost view = { λ r. record { places = r.places.items; settled = r.settled } };

    ghost invariant = { λ r. IsKept r.places.items r.by_key r.settled };
}

impl Registry {
    /// Creates a registry without rows. All slots have generation 0.
    ///
    /// Only `open` and `open_at` allocate: they reserve space for one row per slot.
    ///
    /// # Errors
    ///
    /// - `NoMemory` if allocation fails.
    pub fn open(alloc: Global) -> Result<Registry, RegistryRefused>
        ensures stands { IfOk result (Represents 0 []) }
        ensures refused { IfErr result (λ why. why ≡ RegistryRefused.NoMemory) }
    {
        Registry::open_at(alloc, 0)
    }

    /// Creates a registry without rows. All slots have the generation `generation`.
    ///
    /// Only `open` and `open_at` allocate: they reserve space for one row per slot.
    ///
    /// # Errors
    ///
    /// - `BadStart` if and only if `generation` is above `GENERATION_LAST`.
    /// - `NoMemory` if allocation fails.
    pub fn open_at(alloc: Global, generation: u32) -> Result<Registry, RegistryRefused>
        ensures stands { IfOk result (Represents generation []) }
        ensures bad_start { (result ≡ Err RegistryRefused.BadStart) ↔ GENERATION_LAST < generation }
    {
        if generation > GENERATION_LAST {
            return Err(RegistryRefused::BadStart);
        }
        let vacant = Place {
            generation,
            row: None,
        };
        let places = vec![in alloc; vacant; SLOTS]?;
        let by_key = IndexMap::with_capacity(alloc, SLOTS + 1)?;
        Ok(Registry {
            places,
            by_key,
            settled: 0,
        })
    }

    /// Finds the identifier of `key`, or makes a new one (POSIX.1-2017, `msgget`).
    ///
    /// The first case that applies is the result:
    ///
    /// - `Found` if `key` is not `IPC_PRIVATE` and its row is Live;
    /// - `Busy` if `key` is not `IPC_PRIVATE` and its row is Making;
    /// - `Refused` with `ENOENT` if `key` is not `IPC_PRIVATE`, it has no row, and `flags` do not
    ///   have `IPC_CREAT`;
    /// - `Refused` with `ENOSPC` if no slot is vacant;
    /// - otherwise `Made`, with the identifier of the least vacant slot.
    ///
    /// The registry is unchanged unless the result is `Made`.
    pub fn begin(&mut self, key: i32, flags: Flags) -> Begun
        ensures turn { MakesTurn self.old (Begin key flags) (begun_reply result) self.new }
        ensures unless_made { ChangesOnlyIfMade result self.old self.new }
    {
        if key != IPC_PRIVATE {
            if let Some(found) = self.find(key) {
                return found;
            }
            if !flags.contains(Flags::IPC_CREAT) {
                return Begun::Refused(Errno::ENOENT);
            }
        }
        self.create(key)
    }

    /// Returns the result of a `begin` of this key, if the key has a row.
    fn find(&self, key: i32) -> Option<Begun>
        requires { key ≢ IPC_PRIVATE }
        ensures { MatchOption result (¬ IsBound (state_in self.now) key) (Finds self.now key) }
    {
        let slot = *self.by_key.get(&key)?;
        let place = *self.places.get(slot)?;
        let row = place.row?;
        if row.key != key {
            return None;
        }
        let settled = self.settled;
        if row.live {
            let id = id_of(slot, place.generation);
            Some(Begun::Found { id, settled })
        } else {
            Some(Begun::Busy { settled })
        }
    }

    /// Makes the identifier of the least vacant slot, if there is one, for a key without a row.
    fn create(&mut self, key: i32) -> Begun
        requires { key ≢ IPC_PRIVATE → ¬ IsBound (state_in self.old) key }
        ensures turn { Creating self.old key result self.new }
        ensures unless_made { ChangesOnlyIfMade result self.old self.new }
    {
        let Some(slot) = self.least_vacant() else {
            return Begun::Refused(Errno::ENOSPC);
        };
        let place = self.place(slot);
        self.put(slot, place.made(key), 0);
        let id = id_of(slot, place.generation);
        Begun::Made { id }
    }

    /// Returns the least slot in which an identifier can be made, if there is one.
    fn least_vacant(&self) -> Option<usize>
        ensures { MatchOption result ((slot : ℕ) → ¬ IsVacant (state_in self.now) slot)
            (IsLeastVacant (state_in self.now)) }
    {
        self.places.iter().position(|place| place.is_open())
    }

    /// Returns the place of a slot.
    fn place(&self, slot: usize) -> Place
        requires { slot < SLOTS }
        ensures there { slot < length self.now.places }
        ensures is { places_in self.now.places slot ≡ result }
        ensures young { age result ≤ GENERATION_LAST + 1 }
    {
        self.places[slot]
    }

    /// Returns the place of an identifier, if the identifier has a row.
    fn place_of(&self, id: i32) -> Option<Place>
        ensures { MatchOption result (HasNoRow self.now id) (IsPlaceOf self.now id) }
    {
        let slot = slot_of_id(id);
        let place = self.place(slot);
        place.row?;
        if id_of(slot, place.generation) == id {
            Some(place)
        } else {
            None
        }
    }

    /// Puts a place into a slot, enters the key of its row into the index, and adds to the settled
    /// count.
    fn put(&mut self, slot: usize, place: Place, changes: u64)
        requires { MayPut self.old slot place changes }
        ensures { self.new ≡ record {
          places = set self.old.places slot place;
          settled = self.old.settled + changes;
        } }
    {
        index_place(&mut self.by_key, &self.places, slot, place);
        self.places[slot] = place;
        self.settled += changes;
    }

    /// Records that the queue of a new identifier was installed.
    ///
    /// If the identifier has a row that is Making, the row becomes Live, the settled count rises by
    /// one and the result is true. Otherwise nothing changes and the result is false.
    pub fn settle(&mut self, id: i32) -> bool
        ensures turn { MakesTurn self.old (Settle id) (Changed result) self.new }
        ensures refused { result ≡ false → self.new ≡ self.old }
    {
        match self.place_of(id) {
            Some(place) if !place.is_live() => {
                self.put(slot_of_id(id), place.settled(), 1);
                true
            }
            _ => false,
        }
    }

    /// Removes the row of an identifier for good.
    ///
    /// If the identifier has a row, the generation of its slot and the settled count rise by one
    /// and the result is true. Otherwise nothing changes and the result is false.
    pub fn forget(&mut self, id: i32) -> bool
        ensures turn { MakesTurn self.old (Forget id) (Changed result) self.new }
        ensures refused { result ≡ false → self.new ≡ self.old }
    {
        let Some(place) = self.place_of(id) else {
            return false;
        };
        self.put(slot_of_id(id), place.forgotten(), 1);
        true
    }

    /// Returns whether the slot has no row and generation 0. If so, no identifier of it was ever
    /// made.
    ///
    /// In a registry that was opened with a generation above 0 the result is false for every slot.
    ///
    /// # Conditions
    ///
    /// - `slot` is below `SLOTS`.
    pub fn is_unused(&self, slot: usize) -> bool
        requires { slot < SLOTS }
        ensures { (opening : ℕ) (h : RegistryHistory) → Represents opening h self.now →
            IsTrue result
            ↔ IsUnused opening h slot }
    {
        let place = self.places[slot];
        place.row.is_none() && place.generation == 0
    }

    /// Returns the settled count: the number of calls of `settle` and `forget` that returned true.
    pub fn settled(&self) -> u64
        ensures { result ≡ self.now.settled }
    {
        self.settled
    }
}

/// Enters the key of the row of a place that is to be put into a slot. If the index is full, it is
/// built again first, without the keys that have no row.
fn index_place(by_key: &mut IndexMap<i32, usize>, places: &[Place], slot: usize, place: Place)
    requires wide { length places.now ≡ SLOTS }
    requires right { IsIndex (places_in places.now) SLOTS by_key.old }
    requires only { (row : KeyRow) → place.row ≡ Some row → row.key ≢ IPC_PRIVATE →
        IsOnlyAt (places_in places.now) slot row.key }
    ensures { IsIndex (write (places_in places.now) slot place) SLOTS by_key.new }
{
    let Some(row) = place.row else {
        return;
    };
    if by_key.len() > SLOTS {
        index_keys(by_key, places);
    }
    bind(by_key, row.key, slot);
}

/// Builds the index again. An index that was cleared keeps its memory; an index from which a key
/// was removed may not.
fn index_keys(by_key: &mut IndexMap<i32, usize>, places: &[Place])
    requires wide { length places.now ≡ SLOTS }
    requires right { IsIndex (places_in places.now) SLOTS by_key.old }
    ensures right { IsIndex (places_in places.now) SLOTS by_key.new }
    ensures few { index_map_len by_key.new ≤ SLOTS }
{
    by_key.clear();
    for (slot, place) in places.iter().enumerate() {
        if let Some(row) = place.row {
            bind(by_key, row.key, slot);
        }
    }
}

/// Enters a key with its slot into the index. A key that is there already takes no further room.
fn bind(by_key: &mut IndexMap<i32, usize>, key: i32, slot: usize)
    requires { 0 < spare by_key.old }
    ensures { IsEntered key slot by_key.old by_key.new }
{
    match by_key.get_mut(&key) {
        Some(entered) => *entered = slot,
        None => {
            by_key.insert(key, slot).unwrap();
        }
    }
}
