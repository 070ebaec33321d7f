//! The entries in two orders, and the selection of a message for a receive.

ghost use Rattle.std.specs.Prelude.{◌≡◌, ℕ, ◌+◌, ◌<◌, ◌≤◌, ◌<ℤ◌, ◌≤ℤ◌, ◌↔◌, ◌==◌, not, [], ◌∷◌, ◌++◌, IsTrue, IfOk, Some, MatchOption, length, filter, remove, slice_get};
ghost use Rattle.std.specs.List.{All, AllPairs, AllWithin};
ghost use Rattle.sysv_model.specs.declared.limits.TheConstants.{QUEUE_MESSAGES};
ghost use Rattle.sysv_model.specs.declared.selector.Selector.TheVariants.{Except};
ghost use Rattle.sysv_rules.specs.Qualifies.{NoneQualifies};
ghost use Rattle.sysv_rules.specs.Digits.{digits};
ghost use Rattle.sysv_messages.specs.declared.entry.Entry.{Entry};
ghost use Rattle.sysv_messages.specs.Entries.{types_of, IsBefore, NumbersRise};
ghost use Rattle.sysv_messages.specs.Probes.{IsFoundByFew};
ghost use Rattle.sysv_messages.specs.Selected.{IsSelected, IsLowest, NoneLow, IsFirstOf, NoneOf};

use crate::entry::Entry;
use crate::rows::Row;
use crate::rows::steps::Steps;
use std::alloc::Global;
use std::marker::Model;
use std::sync::ledger::Ledger;
use sysv_model::{NoMemory, QUEUE_MESSAGES};
use sysv_rules::{Selector, qualifies};

/// The messages queued on one queue, at most `QUEUE_MESSAGES`.
///
/// Contracts see the list of their entries in the order of their acceptance numbers.
#[derive(Drop)]
pub struct Index {
    by_number: Row,
    /// The same entries, ordered by type and then by number.
    by_type: Row,
}

impl Model for Index {
    ghost use Rattle.std.specs.Prelude.{List, ◌≤◌};
    ghost use Rattle.std.specs.VecDeque.{deque_capacity};
    ghost use Rattle.sysv_model.specs.declared.limits.TheConstants.{QUEUE_MESSAGES};
    ghost use Rattle.sysv_messages.specs.declared.entry.Entry.{Entry};
    ghost use Rattle.sysv_messages.specs.Entries.{IsIndex};

    ghost Value = { List Entry };

    ghost view = { λ s. s.by_number.entries.items };

    ghost invariant = { λ s. IsIndex s.by_number.entries.items s.by_type.entries.items
        × (QUEUE_MESSAGES ≤ deque_capacity s.by_number.entries)
        × (QUEUE_MESSAGES ≤ deque_capacity s.by_type.entries) };
}

impl Index {
    /// Creates an index without entries.
    ///
    /// It reserves space for `QUEUE_MESSAGES` entries, so no later call allocates.
    ///
    /// # Errors
    ///
    /// - `NoMemory` if allocation fails.
    pub fn open(alloc: Global) -> Result<Index, NoMemory>
        ensures { IfOk result (λ index. index ≡ []) }
    {
        Ok(Index {
            by_number: Row::open(alloc).map_err(|_| NoMemory)?,
            by_type: Row::open(alloc).map_err(|_| NoMemory)?,
        })
    }

    /// Returns the number of entries, at most `QUEUE_MESSAGES`. No two entries have the same
    /// number.
    pub fn len(&self) -> usize
        ensures value { result ≡ length self.now }
        ensures few { result ≤ QUEUE_MESSAGES }
        ensures rising { NumbersRise self.now }
    {
        self.by_number.len()
    }

    /// Returns whether the index has no entries.
    pub fn is_empty(&self) -> bool
        ensures { IsTrue result ↔ (self.now ≡ []) }
    {
        self.by_number.is_empty()
    }

    /// Appends the entry of a message that was accepted after all messages of the index.
    ///
    /// # Conditions
    ///
    /// - The index has fewer than `QUEUE_MESSAGES` entries.
    /// - The number of `entry` is above the number of each entry of the index.
    pub fn push(&mut self, entry: Entry)
        requires room { length self.old < QUEUE_MESSAGES }
        requires last { All (λ (other : Entry). other.number < entry.number) self.old }
        ensures { self.new ≡ self.old ++ entry ∷ [] }
    {
        self.by_number.push(entry);
        self.by_type.insert(entry);
    }

    /// Removes the entry with this acceptance number. Nothing changes if there is no such entry.
    pub fn remove(&mut self, number: u64)
        ensures others { self.new ≡ filter (λ (entry : Entry).
            not (entry.number == number)) self.old }
        ensures removed { (position : ℕ) (entry : Entry) →
            slice_get self.old position ≡ Some entry → entry.number ≡ number →
            self.new ≡ remove self.old position }
    {
        if let Some(entry) = self.by_number.remove_number(number) {
            self.by_type.remove_entry(entry);
        }
    }

    /// Removes all entries.
    pub fn clear(&mut self)
        ensures { self.new ≡ [] }
    {
        self.by_number.clear();
        self.by_type.clear();
    }

    /// Returns the entry that `sel` names (POSIX.1-2017, `msgrcv`, DESCRIPTION): the first that
    /// qualifies, and for a bound the first of the lowest type. Returns `None` if none qualifies.
    ///
    /// `steps` is raised by the number of entries that were read, which is at least one if there
    /// are entries. For any message, an exact type or a bound, it is at most two more than the
    /// number of binary digits of the number of entries. For every type but one, the entries are
    /// read in the order of their numbers up to the first with another type.
    pub fn select<L: Ledger>(&self, sel: Selector, steps: &mut Steps<L>) -> Option<Entry>
        ensures selected { MatchOption result (NoneQualifies sel (types_of self.now))
            (IsSelected sel self.now) }
        ensures few { IsFoundByFew sel → steps.new ≤ steps.old + digits (length self.now) + 2 }
        ensures some { 0 < length self.now → steps.old < steps.new }
        ensures risen { steps.old ≤ steps.new }
    {
        match sel {
            Selector::Any => earliest(&self.by_number, steps),
            Selector::UpTo(_) => lowest(&self.by_type, sel, steps),
            Selector::Exactly(mtype) => first_of(&self.by_type, mtype, steps),
            Selector::Except(refused) => first_except(&self.by_number, refused, steps),
        }
    }
}

/// Returns the entry with the lowest number.
fn earliest<L: Ledger>(by_number: &Row, steps: &mut Steps<L>) -> Option<Entry>
    ensures first { result ≡ slice_get by_number.now.entries.items 0 }
    ensures few { steps.new ≤ steps.old + 1 }
    ensures risen { steps.old ≤ steps.new }
    ensures some { 0 < length by_number.now.entries.items → steps.old < steps.new }
{
    if by_number.is_empty() {
        return None;
    }
    Some(by_number.probe(0, steps))
}

/// Returns the first entry of the lowest type if it qualifies.
fn lowest<L: Ledger>(by_type: &Row, sel: Selector, steps: &mut Steps<L>) -> Option<Entry>
    ensures found { MatchOption result (NoneLow sel by_type.now.entries.items)
        (IsLowest sel by_type.now.entries.items) }
    ensures few { steps.new ≤ steps.old + 1 }
    ensures risen { steps.old ≤ steps.new }
    ensures some { 0 < length by_type.now.entries.items → steps.old < steps.new }
{
    if by_type.is_empty() {
        return None;
    }
    let lowest = by_type.probe(0, steps);
    if qualifies(sel, lowest.mtype) {
        Some(lowest)
    } else {
        None
    }
}

/// Returns the first entry of this type.
fn first_of<L: Ledger>(by_type: &Row, mtype: i64, steps: &mut Steps<L>) -> Option<Entry>
    requires { AllPairs IsBefore by_type.now.entries.items }
    ensures found { MatchOption result (NoneOf mtype by_type.now.entries.items)
        (IsFirstOf mtype by_type.now.entries.items) }
    ensures few { steps.new ≤ steps.old + digits (length by_type.now.entries.items) + 1 }
    ensures risen { steps.old ≤ steps.new }
    ensures some { 0 < length by_type.now.entries.items → steps.old < steps.new }
{
    let at = first_from(by_type, mtype, steps);
    if at == by_type.len() {
        return None;
    }
    let found = by_type.probe(at, steps);
    if found.mtype == mtype {
        Some(found)
    } else {
        None
    }
}

/// Returns the place of the first entry whose type is at least `mtype`, or the number of entries if
/// there is none.
fn first_from<L: Ledger>(by_type: &Row, mtype: i64, steps: &mut Steps<L>) -> usize
    requires { AllPairs IsBefore by_type.now.entries.items }
    ensures within { result ≤ length by_type.now.entries.items }
    ensures below { AllWithin (λ (e : Entry). e.mtype <ℤ mtype) by_type.now.entries.items 0 result }
    ensures above { AllWithin (λ (e : Entry). mtype ≤ℤ e.mtype) by_type.now.entries.items result
        (length by_type.now.entries.items) }
    ensures few { steps.new ≤ steps.old + digits (length by_type.now.entries.items) }
    ensures risen { steps.old ≤ steps.new }
    ensures some { 0 < length by_type.now.entries.items → steps.old < steps.new }
{
    let mut low = 0;
    let mut high = by_type.len();
    while low < high {
        let middle = low + (high - low) / 2;
        if by_type.probe(middle, steps).mtype < mtype {
            low = middle + 1;
        } else {
            high = middle;
        }
    }
    low
}

/// Returns the first entry whose type is not `refused`.
fn first_except<L: Ledger>(by_number: &Row, refused: i64, steps: &mut Steps<L>) -> Option<Entry>
    ensures found { MatchOption result
        (NoneQualifies (Except refused) (types_of by_number.now.entries.items))
        (IsSelected (Except refused) by_number.now.entries.items) }
    ensures risen { steps.old ≤ steps.new }
    ensures some { 0 < length by_number.now.entries.items → steps.old < steps.new }
{
    for at in 0..by_number.len() {
        let entry = by_number.probe(at, steps);
        if entry.mtype != refused {
            return Some(entry);
        }
    }
    None
}
