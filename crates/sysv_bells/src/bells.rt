//! The words, and all calls on them.
ghost use Rattle.std.specs.Prelude.{◌≡◌, ℕ, ◌+◌, ◌/◌, ◌<◌, ◌≤◌, List, [], true, false, cond, IfSome, length};
ghost use Rattle.atomic_table.specs.Seated.{TableId};
ghost use Rattle.sysv_bells.specs.declared.view.Taking.{Taking};
ghost use Rattle.sysv_bells.specs.declared.view.Stage.TheVariants.{Awake};
ghost use Rattle.sysv_bells.specs.Seats.{opened, newcomer, rung, HasTold, fell, woke, stayed, read_to, TookAt, with_bits, joined};
ghost use Rattle.sysv_bells.specs.Steps.{MayRing, after_ring, fresh, IsIdle, ToldOnly};

use crate::rule::{
    Announce, Check, Come, Find, Hear, Look, Meet, Newcomer, Pass, Ring, Ringing, Stay, Take, Tell,
    Wake,
};
use crate::seats::{Sleeper, Teller, Token};
use crate::view::View;
use atomic_table::Table;
use std::alloc::Global;
use std::marker::Model;

/// The word that is 1 while the sleeper says that it sleeps.
const ASLEEP: usize = 0;

/// The word that is 1 if someone has rung since the sleeper last took the rings.
const RUNG: usize = 1;

/// The first word that is told.
const FIRST: usize = 2;

/// The number of bits of a word.
const BITS: usize = 64;

/// The greatest number of words that are told.
const MOST_WORDS: usize = 1 << 20;

/// The words by which one sleeper is told of things and woken.
#[derive(Drop)]
pub struct Bells {
    table: Table<(), View, u64, Ringing, Global>,
}

impl Model for Bells {
    ghost use Rattle.std.specs.Prelude.{◌≡◌, ◌+◌};
    ghost use Rattle.atomic_table.specs.Seated.{TableId};

    ghost Value = { TableId };

    ghost view = { λ b. b.table.shared.table_id };

    ghost invariant = { λ b. b.table.shared.table_id.words ≡ b.table.shared.key + 2 };
}

impl Bells {
    /// Opens words of which this number can be told, at most 2^20, with the seat of the sleeper.
    /// Nothing is told. Returns `None` if there are more, or memory is refused.
    pub fn open(alloc: Global, told: usize) -> Option<(Bells, Sleeper)>
        ensures { IfSome result (λ o. (o.0.words ≡ told + 2) × (o.1 ≡ opened o.0)) }
    {
        if told > MOST_WORDS {
            return None;
        }
        let zeros = vec![in alloc; 0; told + FIRST].ok()?;
        let key = told as u64;
        let (table, token) = Table::of_words(alloc, &zeros, &key).ok()?;
        Some((Bells { table }, Sleeper { token }))
    }

    /// Makes the seat of a teller.
    ///
    /// # Conditions
    ///
    /// - `seat` is the sleeper's seat of these words.
    pub fn teller(&self, seat: &mut Sleeper) -> Teller
        requires { seat.old.table ≡ self.now }
        ensures seat { seat.new ≡ seat.old }
        ensures teller { result ≡ newcomer self.now }
    {
        let token = self.table.shared.split_seat::<Newcomer>(&mut seat.token);
        Teller { token }
    }

    /// Makes the seat of another teller.
    ///
    /// # Conditions
    ///
    /// - `seat` is the seat of a teller of these words.
    pub fn another_teller(&self, seat: &mut Teller) -> Teller
        requires { seat.old.table ≡ self.now }
        ensures seat { seat.new ≡ seat.old }
        ensures teller { result ≡ newcomer self.now }
    {
        let token = self.table.shared.split_seat::<Newcomer>(&mut seat.token);
        Teller { token }
    }

    /// Tells the sleeper of the number, if it is less than 64 times the number of words, and rings.
    /// Returns whether the doorbell is to be written.
    ///
    /// # Conditions
    ///
    /// - `seat` is the seat of a teller of these words.
    pub fn tell(&self, seat: &mut Teller, number: usize) -> bool
        requires { seat.old.table ≡ self.now }
        ensures seat { seat.new ≡ rung result seat.new.told seat.old }
        ensures told { number / 64 + 2 < self.now.words → HasTold number seat.old.told
            seat.new.told }
    {
        let token = &mut seat.token;
        self.add(token, number);
        self.ring_with(token)
    }

    /// Rings, for something that is not told by these words. Returns whether the doorbell is to be
    /// written.
    ///
    /// # Conditions
    ///
    /// - `seat` is the seat of a teller of these words.
    pub fn ring(&self, seat: &mut Teller) -> bool
        requires { seat.old.table ≡ self.now }
        ensures { seat.new ≡ rung result seat.old.told seat.old }
    {
        self.ring_with(&mut seat.token)
    }

    /// Tells and rings like `tell`, with a new seat, which it returns with the result.
    pub fn tell_anew(&self, number: usize) -> (bool, Teller)
        ensures seat { result.1 ≡ rung result.0 result.1.told (newcomer self.now) }
        ensures told { number / 64 + 2 < self.now.words → HasTold number [] result.1.told }
    {
        let word = number / BITS + FIRST;
        if word >= self.table.word_count() {
            return self.ring_anew();
        }
        let mut token = self.meet(word, number);
        let has_to = self.ring_with(&mut token);
        (has_to, Teller { token })
    }

    /// Rings like `ring`, with a new seat, which it returns with the result.
    pub fn ring_anew(&self) -> (bool, Teller)
        ensures { result.1 ≡ rung result.0 [] (newcomer self.now) }
    {
        let (_, mut token) = self.table.shared.swap_new_seat::<Come>(RUNG, 1);
        let has_to = self.table.shared.swap::<Find>(&mut token, ASLEEP, 0) == 1;
        (has_to, Teller { token })
    }

    /// Sets the bit of the number, unless it is set.
    fn add(&self, token: &mut Token, number: usize)
        requires table { token.old.table_id ≡ self.now }
        requires idle { IsIdle token.old.me }
        ensures table { token.new.table_id ≡ token.old.table_id }
        ensures may_ring { MayRing token.new.me.0.stage }
        ensures only { ToldOnly token.old.me token.new.me }
        ensures told { number / 64 + 2 < self.now.words → HasTold number token.old.me.0.told
            token.new.me.0.told }
    {
        let word = number / BITS + FIRST;
        if word >= self.table.word_count() {
            return;
        }
        let bit = 1 << (number % BITS);
        if self.table.shared.load::<Look>(token, word) & bit == 0 {
            self.table.shared.fetch_or::<Tell>(token, word, bit);
        }
    }

    /// Sets the bit of the number in its word, unless it is set, with a new seat.
    fn meet(&self, word: usize, number: usize) -> Token
        requires { (word ≡ number / 64 + 2) × (word < self.now.words) }
        ensures table { result.table_id ≡ self.now }
        ensures may_ring { MayRing result.me.0.stage }
        ensures only { ToldOnly (fresh, []) result.me }
        ensures told { HasTold number [] result.me.0.told }
    {
        let mark = 1 << (number % BITS);
        let (found, mut token) = self.table.shared.load_new_seat::<Meet>(word);
        if found & mark != 0 {
            return token;
        }
        self.table.shared.fetch_or::<Tell>(&mut token, word, mark);
        token
    }

    /// Says that something came, and then takes the sleeper's word that it sleeps.
    fn ring_with(&self, token: &mut Token) -> bool
        requires table { token.old.table_id ≡ self.now }
        requires may_ring { MayRing token.old.me.0.stage }
        ensures table { token.new.table_id ≡ token.old.table_id }
        ensures rung { token.new.me ≡ (after_ring result token.old.me.0, token.old.me.1) }
    {
        self.table.shared.store::<Ring>(token, RUNG, 1);
        self.table.shared.swap::<Find>(token, ASLEEP, 0) == 1
    }

    /// Says that the sleeper is about to sleep. Returns whether it may: nobody has rung since the
    /// last `wake_up`.
    ///
    /// # Conditions
    ///
    /// - `seat` is the sleeper's seat of these words.
    /// - The sleeper is awake, and has taken the changes if the last `wake_up` returned `true`.
    pub fn fall_asleep(&self, seat: &mut Sleeper) -> bool
        requires table { seat.old.table ≡ self.now }
        requires awake { seat.old.stage ≡ Awake }
        requires read { self.now.words ≤ seat.old.from }
        ensures seat { seat.new ≡ fell result seat.new.since seat.new.seen seat.old }
        ensures rung { result ≡ false → seat.old.heard < seat.new.seen }
    {
        let token = &mut seat.token;
        self.table.shared.store::<Announce>(token, ASLEEP, 1);
        self.table.shared.load::<Check>(token, RUNG) == 0
    }

    /// Says that the sleeper is awake, and takes the rings. Returns whether someone has rung since
    /// the last `wake_up`. Then the changes are to be taken.
    ///
    /// # Conditions
    ///
    /// - `seat` is the sleeper's seat of these words.
    pub fn wake_up(&self, seat: &mut Sleeper) -> bool
        requires { seat.old.table ≡ self.now }
        ensures seat { seat.new ≡ woke result seat.new.heard seat.old }
        ensures rung { result ≡ true → seat.old.heard < seat.new.heard }
        ensures not_rung { result ≡ false → seat.new.heard ≡ seat.old.heard }
        ensures seen { seat.old.seen ≤ seat.new.heard }
    {
        self.table.shared.store::<Wake>(&mut seat.token, ASLEEP, 0);
        self.table.shared.swap::<Hear>(&mut seat.token, RUNG, 0) == 1
    }

    /// Returns whether someone has rung since the last `wake_up`.
    pub fn has_come(&self) -> bool {
        self.table.shared.peek(RUNG) == 1
    }

    /// Has the sleeper not sleep before the next `wake_up`.
    ///
    /// # Conditions
    ///
    /// - `seat` is the sleeper's seat of these words, and the sleeper is awake.
    pub fn stay_awake(&self, seat: &mut Sleeper)
        requires table { seat.old.table ≡ self.now }
        requires awake { seat.old.stage ≡ Awake }
        ensures { seat.new ≡ stayed seat.old }
    {
        self.table.shared.store::<Stay>(&mut seat.token, RUNG, 1);
    }

    /// Takes what is told, and joins each word to the one at its place in `changes`.
    ///
    /// # Conditions
    ///
    /// - `seat` is the sleeper's seat of these words. The last `wake_up` returned `true`, and the
    ///   changes were not taken since.
    pub fn take_changes(&self, seat: &mut Sleeper, changes: &mut [u64])
        requires table { seat.old.table ≡ self.now }
        requires awake { seat.old.stage ≡ Awake }
        requires unread { seat.old.from ≡ 2 }
        ensures { (more : List Taking) × (seat.new ≡ read_to self.now.words more seat.old)
            × (changes.new ≡ joined more changes.old) }
    {
        for word in FIRST..self.table.word_count() {
            let found = self.take_word(seat, word);
            join(changes, word - FIRST, found);
        }
    }

    /// Takes the told word of this number in the table.
    fn take_word(&self, seat: &mut Sleeper, word: usize) -> u64
        requires table { seat.old.table ≡ self.now }
        requires awake { seat.old.stage ≡ Awake }
        requires within { (2 ≤ word) × (word < self.now.words) }
        requires next { seat.old.from ≡ word }
        ensures { (more : List Taking) × (seat.new ≡ read_to (word + 1) more seat.old)
            × TookAt word result more }
    {
        if self.table.shared.load::<Pass>(&mut seat.token, word) == 0 {
            return 0;
        }
        self.table.shared.swap::<Take>(&mut seat.token, word, 0)
    }
}

/// Joins bits to the word at this place, if there is one.
fn join(changes: &mut [u64], at: usize, bits: u64)
    ensures { changes.new ≡ with_bits at bits changes.old }
{
    if at < changes.len() {
        changes[at] |= bits;
    }
}
