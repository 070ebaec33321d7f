//! Entries in an order. Other modules read the entries that stay in a row only through `probe`,
//! which counts.

ghost use Rattle.std.specs.Prelude.{◌≡◌, ◌≢◌, ◌+◌, ◌<◌, ◌≤◌, ◌↔◌, ◌==◌, not, [], ◌∷◌, ◌++◌, IsTrue, IfOk, IfSome, OnSome, IfNone, IsSome, Some, MatchOption, filter, slice_get, length};
ghost use Rattle.std.specs.List.{All, AllPairs, Contains, remove};
ghost use Rattle.std.specs.VecDeque.{deque_capacity};
ghost use Rattle.sysv_model.specs.declared.limits.TheConstants.{QUEUE_MESSAGES};
ghost use Rattle.sysv_messages.specs.declared.entry.Entry.{Entry};
ghost use Rattle.sysv_messages.specs.Entries.{IsBefore, IsInserted, NumbersDiffer, NumbersRise};

pub mod steps;

use crate::entry::Entry;
use std::alloc::{AllocError, Global};
use std::collections::VecDeque;
use std::sync::ledger::Ledger;
use steps::Steps;
use sysv_model::QUEUE_MESSAGES;

/// Entries in an order, with space for `QUEUE_MESSAGES` from the start.
#[derive(Drop)]
pub(crate) struct Row {
    entries: VecDeque<Entry>,
}

impl Row {
    /// Creates a row without entries.
    pub(crate) fn open(alloc: Global) -> Result<Row, AllocError>
        ensures empty { IfOk result (λ row. row.entries.items ≡ []) }
        ensures roomy { IfOk result (λ row. QUEUE_MESSAGES ≤ deque_capacity row.entries) }
    {
        Ok(Row {
            entries: VecDeque::with_capacity(alloc, QUEUE_MESSAGES)?,
        })
    }

    /// Returns the number of entries.
    pub(crate) fn len(&self) -> usize
        ensures { result ≡ length self.now.entries.items }
    {
        self.entries.len()
    }

    /// Returns whether the row has no entries.
    pub(crate) fn is_empty(&self) -> bool
        ensures { IsTrue result ↔ (self.now.entries.items ≡ []) }
    {
        self.entries.is_empty()
    }

    /// Reads the entry at a place and counts this. An entry that stays in the row can be read in no
    /// other way.
    pub(crate) fn probe<L: Ledger>(&self, at: usize, steps: &mut Steps<L>) -> Entry
        requires { at < length self.now.entries.items }
        ensures read { slice_get self.now.entries.items at ≡ Some result }
        ensures counted { steps.new ≡ steps.old + 1 }
    {
        steps.tick();
        self.entries[at]
    }

    /// Appends an entry.
    pub(crate) fn push(&mut self, entry: Entry)
        requires { length self.old.entries.items < deque_capacity self.old.entries }
        ensures pushed { self.new.entries.items ≡ self.old.entries.items ++ entry ∷ [] }
        ensures roomy { deque_capacity self.old.entries ≤ deque_capacity self.new.entries }
    {
        self.entries.push_back_reserved(entry);
    }

    /// Inserts an entry after those of its type. The row is in the order of types.
    pub(crate) fn insert(&mut self, entry: Entry)
        requires room { length self.old.entries.items < deque_capacity self.old.entries }
        requires sorted { AllPairs IsBefore self.old.entries.items }
        ensures inserted { IsInserted self.old.entries.items entry self.new.entries.items }
        ensures roomy { deque_capacity self.old.entries ≤ deque_capacity self.new.entries }
    {
        let at = self
            .entries
            .partition_point(|other| other.mtype <= entry.mtype);
        self.entries.insert(at, entry).unwrap();
    }

    /// Removes the entry with this number and returns it, or returns `None` if there is no such
    /// entry. The row is in the order of numbers.
    pub(crate) fn remove_number(&mut self, number: u64) -> Option<Entry>
        requires rising { NumbersRise self.old.entries.items }
        ensures others { self.new.entries.items
            ≡ filter (λ (e : Entry). not (e.number == number)) self.old.entries.items }
        ensures removed { MatchOption result
            (All (λ (e : Entry). e.number ≢ number) self.old.entries.items) (λ (e : Entry).
            Contains self.old.entries.items e × (e.number ≡ number)) }
        ensures roomy { deque_capacity self.new.entries ≡ deque_capacity self.old.entries }
    {
        let at = self.entries.partition_point(|other| other.number < number);
        match self.entries.get(at) {
            Some(found) if found.number == number => self.take_at(at),
            _ => None,
        }
    }

    /// Removes this entry. The row is in the order of types.
    pub(crate) fn remove_entry(&mut self, entry: Entry)
        requires sorted { AllPairs IsBefore self.old.entries.items }
        requires differ { NumbersDiffer self.old.entries.items }
        requires held { Contains self.old.entries.items entry }
        ensures others { self.new.entries.items
            ≡ filter (λ (e : Entry). not (e.number == entry.number)) self.old.entries.items }
        ensures roomy { deque_capacity self.new.entries ≡ deque_capacity self.old.entries }
    {
        let at = self
            .entries
            .partition_point(|other| other.is_before(&entry));
        let _removed = self.take_at(at);
    }

    /// Removes the entry at a place and returns it, or returns `None` if no entry is there. No
    /// entry moves if it is the first one.
    #[inline(always)]
    fn take_at(&mut self, at: usize) -> Option<Entry>
        ensures value { IfSome result (λ e. slice_get self.old.entries.items at ≡ Some e) }
        ensures items { OnSome result
            (self.new.entries.items ≡ remove self.old.entries.items at) }
        ensures there { IsSome result ↔ (at < length self.old.entries.items) }
        ensures same { IfNone result (self.new.entries.items ≡ self.old.entries.items) }
        ensures roomy { deque_capacity self.new.entries ≡ deque_capacity self.old.entries }
    {
        if at == 0 {
            self.entries.pop_front()
        } else {
            self.entries.remove(at)
        }
    }

    /// Removes all entries.
    pub(crate) fn clear(&mut self)
        ensures empty { self.new.entries.items ≡ [] }
        ensures roomy { deque_capacity self.new.entries ≡ deque_capacity self.old.entries }
    {
        self.entries.clear();
    }
}
