//! The word of an eventcount or a sequencer, and all steps on it.
ghost use Rattle.std.specs.Prelude.{◌≡◌, ◌+◌, ◌^◌, ◌<◌, IfOk, OnOk, OnErr, IsErr, IsErrOf, ◌↔◌};
ghost use Rattle.sysv_lists.specs.Numbers.{NoneTwice};
ghost use Rattle.sysv_eventcount.specs.Counter.{opened, saw, added, after_split, split_off, after_join, Learns, MeetsWear};

use crate::refusals::{OpenRefused, TooMany, Worn};
use crate::rule::{Adding, Clearing, Counting, Looking, Merge, Share, Weighing};
use crate::seat::Seat;
use crate::view::View;
use atomic_table::Table;
use std::alloc::Global;
use std::marker::{Model, PhantomData};
use std::sync::Wait;

/// No addition begins once the word has reached this value.
pub(crate) const LIMIT: u64 = 1 << 62;

/// The allowance of the first seat.
const WHOLE: u64 = 1 << 61;

/// A split moves one part in this many of the allowance to the new seat.
const PART: u64 = 64;

/// The bits of the word that a sleep compares: the low 32.
const LOW_BITS: u64 = 0xffff_ffff;

/// What eventcounts and sequencers have in common: a number that only rises, and the seats that
/// step with it. `K` is `Advances` or `Tickets`.
#[derive(Drop)]
pub struct Word<K> {
    table: Table<(), View, u64, Counting, Global>,
    kind: PhantomData<K>,
}

impl<K> Model for Word<K> {
    ghost use Rattle.std.specs.Prelude.{◌≡◌};
    ghost use Rattle.sysv_eventcount.specs.Counter.{Counter};

    ghost Value = { Counter };

    ghost view = { λ w. record { table = w.table.shared.table_id; first = w.table.shared.key } };

    ghost invariant = { λ w. w.table.shared.table_id.words ≡ 1 };
}

impl<K> Word<K> {
    /// Opens a word whose value is `first`. Returns it with its first seat, which has the whole
    /// allowance of 2^61.
    ///
    /// # Errors
    ///
    /// - `BadStart` if and only if `first` is above 2^62.
    /// - `NoMemory` if the word cannot be allocated.
    pub fn open(alloc: Global, first: u64) -> Result<(Word<K>, Seat), OpenRefused>
        ensures ok { IfOk result (λ o. (o.0.first ≡ first) × (o.1 ≡ opened o.0)) }
        ensures bad_start { IsErrOf result OpenRefused.BadStart ↔ (2 ^ 62 < first) }
    {
        if first > LIMIT {
            return Err(OpenRefused::BadStart);
        }
        let Ok((table, token)) = Table::of_words(alloc, &[first], &first) else {
            return Err(OpenRefused::NoMemory);
        };
        let seat = Seat {
            token,
            allowance: WHOLE,
        };
        Ok((
            Word {
                table,
                kind: PhantomData,
            },
            seat,
        ))
    }

    /// Splits a new seat off `seat`. The new seat receives a 64th of the allowance, rounded down.
    /// It has seen the same value and has made no additions.
    ///
    /// # Errors
    ///
    /// - `TooMany` if and only if the allowance is below 64. Nothing changes.
    ///
    /// # Conditions
    ///
    /// - `seat` is a seat of this word.
    pub fn split(&self, seat: &mut Seat) -> Result<Seat, TooMany>
        requires { seat.old.counter ≡ self.now }
        ensures ok { IfOk result (λ s. (s ≡ split_off seat.old)
            × (seat.new ≡ after_split seat.old)) }
        ensures too_many { IsErr result ↔ (seat.old.allowance < 64) }
        ensures err { OnErr result (seat.new ≡ seat.old) }
        ensures same { seat.new.counter ≡ seat.old.counter }
    {
        if seat.allowance < PART {
            return Err(TooMany);
        }
        let given = seat.allowance / PART;
        let token = self.table.shared.split_seat::<Share>(&mut seat.token);
        seat.allowance -= given;
        Ok(Seat {
            token,
            allowance: given,
        })
    }

    /// Merges `other` into `seat`: the values seen, the additions and the allowances of both.
    /// Afterwards no number occurs twice among the additions of `seat`.
    ///
    /// # Conditions
    ///
    /// - `seat` and `other` are seats of this word.
    pub fn join(&self, seat: &mut Seat, other: Seat)
        requires seat { seat.old.counter ≡ self.now }
        requires other { other.counter ≡ self.now }
        ensures joined { seat.new ≡ after_join seat.old other }
        ensures once { NoneTwice seat.new.own }
    {
        let Seat { token, allowance } = other;
        self.table.shared.join_seat::<Merge>(&mut seat.token, token);
        self.table.shared.load::<Weighing>(&mut seat.token, 0);
        seat.allowance += allowance;
    }

    /// Loads the word.
    pub(crate) fn look(&self, seat: &mut Seat) -> u64
        requires { seat.old.counter ≡ self.now }
        ensures seat { seat.new ≡ saw result seat.old }
        ensures learned { Learns seat.old result }
    {
        self.table.shared.load::<Looking>(&mut seat.token, 0)
    }

    /// Adds one and returns the number found. Fails with `Worn`, and adds nothing, only if the word
    /// has reached 2^62.
    pub(crate) fn add(&self, seat: &mut Seat) -> Result<u64, Worn>
        requires { seat.old.counter ≡ self.now }
        ensures ok { IfOk result (λ n. seat.new ≡ added n seat.old) }
        ensures learned { IfOk result (λ n. Learns seat.old n × Learns seat.new (n + 1)) }
        ensures not_worn { OnOk result (seat.old.seen < 2 ^ 62) }
        ensures worn { OnErr result (MeetsWear seat.old seat.new) }
        ensures same { seat.new.counter ≡ seat.old.counter }
    {
        let found = self.table.shared.load::<Clearing>(&mut seat.token, 0);
        if found >= LIMIT {
            return Err(Worn);
        }
        let number = self.table.shared.fetch_add::<Adding>(&mut seat.token, 0, 1);
        Ok(number)
    }

    /// Sleeps until a wake if the low 32 bits of the word are still those of `value`. It may also
    /// return early without a wake. The conditions rule out a sleep on another value than the one
    /// that the seat saw last, and one after the goal was seen.
    pub(crate) fn park(&self, rt: &impl Wait, seat: &Seat, goal: u64, value: u64)
        requires last { value ≡ seat.now.seen }
        requires short { value < goal }
    {
        self.table.shared.park(rt, 0, (value & LOW_BITS) as u32);
    }

    /// Wakes every thread that sleeps on the word. It takes the handle so that no function without
    /// one, as `advance`, wakes threads.
    pub(crate) fn wake_all(&self, _rt: &impl Wait) {
        self.table.shared.wake_all(0);
    }
}
