//! The parked calls of a worker, by what they wait for.
ghost use Rattle.std.specs.Prelude.{◌≡◌, ◌-◌, ◌≢◌, ◌↔◌, ◌++◌, ◌∷◌, ◌<◌, ◌≤◌, ℕ, [], None, Some, true, false, IfSome, IsTrue, IsSome, MatchOption, length, replicate, slice_index, slice_set, vec_len};
ghost use Rattle.sysv_parking.specs.Changes.{Heeds};
ghost use Rattle.sysv_parking.specs.Due.{both, by_all, by_raise, is_due as due, not_due, why_changed};
ghost use Rattle.sysv_parking.specs.Keys.{bounded_sum, line_of, line_room};
ghost use Rattle.sysv_parking.specs.Parking.{AreInLines, MovesOnly, key_at, line_at, parked_at, why_at};
ghost use Rattle.sysv_parking.specs.Parking.{item_at};
ghost use Rattle.sysv_parking.specs.Places.{Appends, EachIsEmpty, IsAt, IsNowhere, Removes, TakesOut, places_in};

use crate::changes::Change;
use crate::due::Why;
use crate::key::{BLOCKS_LINE, Key, LINES, SETTLED_LINE, WORDS, room_line};
use std::alloc::Global;
use std::collections::VecDeque;
use std::marker::Model;

/// The number of places for which an empty line keeps its memory.
const MOST_KEPT: usize = 16;

/// The parked calls of a worker, in lines by what they wait for. In each line they are in the order
/// in which they were parked.
///
/// A call is known by its place. A place is in one line at most.
#[derive(Drop)]
pub struct Lines {
    alloc: Global,
    /// What the call of each place waits for, if it is in a line.
    keys: Vec<Option<Key>>,
    lines: Vec<VecDeque<usize>>,
    /// The number of places in the lines of each word.
    counts: Vec<usize>,
    /// Why the call of each place is due.
    why: Vec<Why>,
    /// The number of places that are due.
    due_count: usize,
    /// The places that are due, in the order in which they are looked at.
    due: VecDeque<usize>,
}

impl Model for Lines {
    ghost use Rattle.sysv_parking.specs.Parking.{Parking};

    ghost Value = { Parking };

    ghost use Rattle.sysv_parking.specs.Lines.{IsKept, parking_in};

    ghost view = { parking_in };

    ghost invariant = { IsKept };
}

impl Lines {
    ghost use Rattle.sysv_parking.specs.Lines.{AreEmpty, Enters, NoneIsDue, NotesAll, NotesChange, NotesLine, SomeIsDue, Takes};

    /// Allocates empty lines for this number of places. Returns `None` if memory is refused.
    pub fn open(alloc: Global, places: usize) -> Option<Lines>
        ensures empty { IfSome result AreEmpty }
        ensures places { IfSome result (λ lines. (length lines.keys ≡ places)
            × (length lines.why ≡ places)) }
    {
        Some(Lines {
            alloc,
            keys: no_keys(alloc, places)?,
            lines: empty_lines(alloc)?,
            counts: no_counts(alloc)?,
            why: none_due(alloc, places)?,
            due_count: 0,
            due: VecDeque::with_capacity(alloc, places).ok()?,
        })
    }

    /// Returns what the call of a place waits for, if it is in a line.
    pub fn key(&self, place: usize) -> Option<Key>
        ensures key { result ≡ key_at self.now place }
        ensures in_lines { AreInLines self.now }
    {
        *self.keys.get(place)?
    }

    /// Returns the number of places in the lines of this word.
    pub fn count(&self, word: usize) -> usize
        ensures { result ≡ parked_at self.now word }
    {
        self.counts.get(word).copied().unwrap_or(0)
    }

    /// Returns the place at this index of a line, if there is one.
    pub(crate) fn at(&self, line: usize, index: usize) -> Option<usize>
        ensures item { result ≡ item_at (line_at self.now line) index }
        ensures in_lines { AreInLines self.now }
    {
        self.lines.get(line)?.get(index).copied()
    }

    /// Puts the place at the end of the line of this key. A place that is in a line is left there.
    /// Returns whether it is in a line; else memory was refused, and the place is due.
    pub fn enter(&mut self, place: usize, key: Key) -> bool
        ensures moves { MovesOnly place self.old self.new }
        ensures entered { key_at self.old place ≡ None → result ≡ true
            → Enters place key self.old self.new }
        ensures stays { IsSome (key_at self.old place) → (result ≡ true) × (self.new ≡ self.old) }
        ensures refused { result ≡ false → (self.new.keys ≡ self.old.keys)
            × (self.new.lines ≡ self.old.lines) }
        ensures due { result ≡ false → self.new.why ≡ slice_set self.old.why place
            (both (why_at self.old place) by_all) }
    {
        if self.key(place).is_some() {
            return true;
        }
        if place >= self.keys.len() || !append(&mut self.lines, key.line(), place) {
            self.make_due(place, Why::ALL);
            return false;
        }
        self.keys[place] = Some(key);
        count_more(&mut self.counts, key.word());
        true
    }

    /// Takes the place out of its line, if it is in one.
    pub fn leave(&mut self, place: usize)
        ensures moves { MovesOnly place self.old self.new }
        ensures left { key_at self.new place ≡ None }
        ensures why { self.new.why ≡ self.old.why }
    {
        let Some(key) = self.key(place) else {
            return;
        };
        remove(&mut self.lines, self.alloc, key.line(), place);
        self.keys[place] = None;
        count_less(&mut self.counts, key.word());
    }

    /// Makes the parked calls due that a change may end.
    pub fn heed(&mut self, change: Change)
        ensures { Heeds change self.old self.new }
    {
        match change {
            Change::Queue { slot } => self.note_change(slot),
            Change::Room { slot } => self.note_room(slot),
            Change::Blocks => self.note_blocks(),
            Change::Settled => self.note_settled(),
            Change::Anything => self.note_everything(),
        }
    }

    /// Notes that the queue of a slot was set or removed: the calls that are parked there are due.
    pub fn note_change(&mut self, slot: usize)
        ensures { NotesChange slot self.old self.new }
    {
        for place in 0..self.keys.len() {
            let Some(key) = self.key(place) else {
                continue;
            };
            if key.is_at(slot) {
                self.make_due(place, changed(key));
            }
        }
    }

    /// Notes that the freed count of a slot rose: the sends that wait for room there are due.
    pub fn note_room(&mut self, slot: usize)
        ensures { NotesLine (line_room slot) self.old self.new }
    {
        self.note_line(room_line(slot));
    }

    /// Notes that the released count rose: the sends that wait for blocks are due.
    pub fn note_blocks(&mut self)
        ensures { NotesLine BLOCKS_LINE self.old self.new }
    {
        self.note_line(BLOCKS_LINE);
    }

    /// Notes that the settled count rose: the gets that wait for it are due.
    pub fn note_settled(&mut self)
        ensures { NotesLine SETTLED_LINE self.old self.new }
    {
        self.note_line(SETTLED_LINE);
    }

    /// Notes that anything may have happened: all parked calls are due.
    pub fn note_everything(&mut self)
        ensures { NotesAll self.old self.new }
    {
        for place in 0..self.keys.len() {
            if self.key(place).is_some() {
                self.make_due(place, Why::ALL);
            }
        }
    }

    /// Notes that the count rose for which the calls of a line wait: they are due.
    fn note_line(&mut self, line: usize)
        ensures { NotesLine line self.old self.new }
    {
        // (so that the proof knows what is true of the lines)
        let _ = &self.alloc;
        for index in 0..self.len_of(line) {
            if let Some(place) = self.at(line, index) {
                self.make_due(place, Why::RAISED);
            }
        }
    }

    /// Returns the number of places in a line.
    fn len_of(&self, line: usize) -> usize
        ensures { result ≡ length (line_at self.now line) }
    {
        match self.lines.get(line) {
            Some(line) => line.len(),
            None => 0,
        }
    }

    /// Returns whether a place is due.
    pub fn has_due(&self) -> bool
        ensures none { result ≡ false → NoneIsDue self.now }
        ensures some { result ≡ true → SomeIsDue self.now }
    {
        self.due_count > 0
    }

    /// Makes a place due for these reasons too.
    pub fn make_due(&mut self, place: usize, why: Why)
        ensures same { (self.new.keys ≡ self.old.keys) × (self.new.lines ≡ self.old.lines) }
        ensures why { self.new.why ≡ slice_set self.old.why place
            (both (why_at self.old place) why) }
    {
        let Some(there) = self.why.get_mut(place) else {
            return;
        };
        if !there.is_due() && why.is_due() {
            self.due_count = self.due_count.saturating_add(1);
            // (there is room: a place that is due is in the queue once)
            let _ = self.due.push_back(place);
        }
        *there = there.and(why);
    }

    /// Takes the first of the places that are due, if there are any. It is not due then. Returns it
    /// with the reasons for which it was.
    pub fn take_due(&mut self) -> Option<(usize, Why)>
        ensures { Takes result self.old self.new }
    {
        if self.due_count == 0 {
            return None;
        }
        let place = self.first_due()?;
        let there = self.why.get_mut(place)?;
        let why = *there;
        *there = Why::NOT;
        self.due_count = self.due_count.saturating_sub(1);
        Some((place, why))
    }

    /// Returns the first of the places that are due, which is not in the queue any more.
    fn first_due(&mut self) -> Option<usize>
        ensures same { self.new ≡ self.old }
        ensures first { MatchOption result (NoneIsDue self.old)
            (λ place. due (why_at self.old place) ≡ true) }
    {
        for _ in 0..self.due.len() {
            let Some(place) = self.due.pop_front() else {
                break;
            };
            if self.is_due(place) {
                return Some(place);
            }
        }
        self.any_due()
    }

    /// Returns the least place that is due, if there is one.
    fn any_due(&self) -> Option<usize>
        ensures { MatchOption result (NoneIsDue self.now)
            (λ place. due (why_at self.now place) ≡ true) }
    {
        for place in 0..self.why.len() {
            if self.is_due(place) {
                return Some(place);
            }
        }
        None
    }

    /// Returns whether a place is due.
    fn is_due(&self, place: usize) -> bool
        ensures { result ≡ due (why_at self.now place) }
    {
        match self.why.get(place) {
            Some(why) => why.is_due(),
            None => false,
        }
    }
}

/// Returns why a call that waits for this is due if its queue was set or removed: a set may make
/// room on the queue.
fn changed(key: Key) -> Why
    ensures { result ≡ why_changed key }
{
    match key {
        Key::Room { .. } => Why::ALL,
        _ => Why::CHANGED,
    }
}

/// Appends the place to a line. Returns `false` if memory is refused, or there is no such line.
fn append(lines: &mut Vec<VecDeque<usize>>, line: usize, place: usize) -> bool
    ensures appended { result ≡ true
        → Appends line place (places_in lines.old) (places_in lines.new) }
    ensures refused { result ≡ false → places_in lines.new ≡ places_in lines.old }
{
    match lines.get_mut(line) {
        Some(line) => line.push_back(place).is_ok(),
        None => false,
    }
}

/// Removes the place from a line, if it is there.
fn remove(lines: &mut Vec<VecDeque<usize>>, alloc: Global, line: usize, place: usize)
    ensures { Removes line place (places_in lines.old) (places_in lines.new) }
{
    let Some(line) = lines.get_mut(line) else {
        return;
    };
    take_out(line, place);
    keep_less(line, alloc);
}

/// Takes the place out of a line, if it is there.
fn take_out(line: &mut VecDeque<usize>, place: usize)
    ensures { TakesOut place line.old.items line.new.items }
{
    if let Some(index) = index_in(line, place) {
        line.remove(index);
    }
}

/// Gives the memory of an empty line back if it is for more than `MOST_KEPT` places.
fn keep_less(line: &mut VecDeque<usize>, alloc: Global)
    ensures { line.new.items ≡ line.old.items }
{
    if line.is_empty() && line.capacity() > MOST_KEPT {
        *line = VecDeque::new(alloc);
    }
}

/// Returns the first index of the place in a line, if it is there.
fn index_in(line: &VecDeque<usize>, place: usize) -> Option<usize>
    ensures { MatchOption result (IsNowhere place line.now.items)
        (λ index. IsAt place line.now.items index) }
{
    line.iter().position(|it| *it == place)
}

/// Counts one place more for a word.
fn count_more(counts: &mut Vec<usize>, word: usize)
    ensures { counts.new.items ≡ slice_set counts.old.items word
        (bounded_sum (slice_index counts.old.items word) 1) }
{
    if let Some(count) = counts.get_mut(word) {
        *count = count.saturating_add(1);
    }
}

/// Counts one place less for a word.
fn count_less(counts: &mut Vec<usize>, word: usize)
    ensures { counts.new.items ≡ slice_set counts.old.items word
        (slice_index counts.old.items word - 1) }
{
    if let Some(count) = counts.get_mut(word) {
        *count = count.saturating_sub(1);
    }
}

/// Returns no key for each place. Returns `None` if memory is refused.
fn no_keys(alloc: Global, places: usize) -> Option<Vec<Option<Key>>>
    ensures { IfSome result (λ keys. keys.items ≡ replicate places None) }
{
    vec![in alloc; None; places].ok()
}

/// Returns a count of no place for each word. Returns `None` if memory is refused.
fn no_counts(alloc: Global) -> Option<Vec<usize>>
    ensures { IfSome result (λ counts. counts.items ≡ replicate WORDS 0) }
{
    vec![in alloc; 0; WORDS].ok()
}

/// Returns that no place is due. Returns `None` if memory is refused.
fn none_due(alloc: Global, places: usize) -> Option<Vec<Why>>
    ensures { IfSome result (λ why. why.items ≡ replicate places not_due) }
{
    vec![in alloc; Why::NOT; places].ok()
}

/// Returns all lines, each of them empty. Returns `None` if memory is refused.
fn empty_lines(alloc: Global) -> Option<Vec<VecDeque<usize>>>
    ensures { IfSome result (λ lines. EachIsEmpty (places_in lines)) }
{
    let mut lines = Vec::with_capacity(alloc, LINES).ok()?;
    for _ in 0..LINES {
        lines.push(VecDeque::new(alloc)).ok()?;
    }
    Some(lines)
}
