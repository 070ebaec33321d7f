//! What a worker has still to do for its parked calls.
ghost use Rattle.std.specs.Prelude.{◌≡◌, ◌≤◌, ◌⊎◌, length, true, false, List, IfSome, MatchOption, None, Some};
ghost use Rattle.std.specs.List.{Contains};
ghost use Rattle.sysv_bells.specs.declared.view.Stage.TheVariants.{Awake};
ghost use Rattle.sysv_bells.specs.declared.view.Taking.{Taking};
ghost use Rattle.sysv_bells.specs.Seats.{read_to};
ghost use Rattle.sysv_parking.specs.Agenda.{HeedsChange, IsAtRest, IsHeedful, KeepsWork, TakesFirst};
ghost use Rattle.sysv_parking.specs.Changes.{AreHeld, Holds, IsThere};
ghost use Rattle.sysv_parking.specs.Lines.{AreEmpty, Takes};
ghost use Rattle.sysv_parking.specs.Due.{by_all};
ghost use Rattle.sysv_parking.specs.Parking.{MovesOnly, key_at, why_at};

use crate::changes::{Change, Changes};
use crate::due::Why;
use crate::envelope::Envelope;
use crate::key::Key;
use crate::lines::Lines;
use std::alloc::Global;
use std::collections::VecDeque;
use std::marker::Model;
use sysv_bells::{Bells, Sleeper};

/// The number of envelopes of which a worker reads no more.
const MOST_ENVELOPES: usize = 256;

/// What a worker has still to do for its parked calls.
#[derive(Drop)]
pub struct Agenda {
    lines: Lines,
    /// What has changed, and was not heeded yet.
    changes: Changes,
    /// Messages that have arrived, for which no receive was looked at yet.
    envelopes: VecDeque<Envelope>,
    /// The number of the worker.
    number: usize,
    /// The number of looks at parked calls that the worker may still make in this round.
    looks: u32,
}

impl Model for Agenda {
    ghost use Rattle.sysv_parking.specs.Agenda.{Agenda};

    ghost Value = { Agenda };

    ghost view = { λ agenda. record {
      parking = agenda.lines;
      changes = agenda.changes;
      envelopes = agenda.envelopes.items;
      number = agenda.number;
      looks = agenda.looks;
    } };
}

impl Agenda {
    /// Returns the agenda of the worker of this number, with this number of places and no parked
    /// calls. Returns `None` if memory is refused.
    pub fn open(alloc: Global, number: usize, places: usize) -> Option<Agenda>
        ensures empty { IfSome result (λ agenda. AreEmpty agenda.parking) }
        ensures rest { IfSome result IsAtRest }
        ensures number { IfSome result (λ agenda. agenda.number ≡ number) }
    {
        Some(Agenda {
            lines: Lines::open(alloc, places)?,
            changes: Changes::none(),
            envelopes: VecDeque::new(alloc),
            number,
            looks: 0,
        })
    }

    /// Returns the lines of the parked calls.
    pub fn lines(&self) -> &Lines
        ensures { result.now ≡ self.now.parking }
    {
        &self.lines
    }

    /// Returns the worker's number.
    pub fn number(&self) -> usize
        ensures { result ≡ self.now.number }
    {
        self.number
    }

    /// Puts the place at the end of the line of this key, as `Lines::enter` does.
    pub fn enter(&mut self, place: usize, key: Key) -> bool
        ensures moves { MovesOnly place self.old.parking self.new.parking }
        ensures entered { key_at self.old.parking place ≡ None → result ≡ true
            → key_at self.new.parking place ≡ Some key }
        ensures refused { result ≡ false
            → key_at self.new.parking place ≡ key_at self.old.parking place }
        ensures due { result ≡ false → (why_at self.new.parking place ≡ by_all)
            ⊎ (length self.new.parking.why ≤ place) }
        ensures rest { self.new ≡ record self.old { parking = self.new.parking } }
    {
        self.lines.enter(place, key)
    }

    /// Takes the place out of its line, if it is in one.
    pub fn leave(&mut self, place: usize)
        ensures moves { MovesOnly place self.old.parking self.new.parking }
        ensures left { key_at self.new.parking place ≡ None }
        ensures rest { self.new ≡ record self.old { parking = self.new.parking } }
    {
        self.lines.leave(place);
    }

    /// Takes the first of the places that are due.
    pub fn take_due(&mut self) -> Option<(usize, Why)>
        ensures takes { Takes result self.old.parking self.new.parking }
        ensures rest { self.new ≡ record self.old { parking = self.new.parking } }
    {
        self.lines.take_due()
    }

    /// Takes a change that is to be heeded, if there is one, and makes the parked calls due whose
    /// wait it may end. Returns the change.
    pub fn heed_change(&mut self) -> Option<Change>
        ensures { MatchOption result ((self.new ≡ self.old) × IsHeedful self.old)
            (λ change. HeedsChange self.old self.new) }
    {
        let Some(change) = self.changes.take() else {
            return None;
        };
        self.lines.heed(change);
        Some(change)
    }

    /// Adds a change to those that are to be heeded.
    pub fn add_change(&mut self, change: Change)
        ensures added { IsThere change → Holds self.new.changes change }
        ensures work { KeepsWork self.old self.new }
        ensures parking { self.new.parking ≡ self.old.parking }
    {
        self.changes.add(change);
    }

    /// Takes the changes that the worker is told by these words, and adds them to those that are to
    /// be heeded.
    ///
    /// # Conditions
    ///
    /// - They are those of `Bells::take_changes`.
    pub fn take_told(&mut self, bells: &Bells, seat: &mut Sleeper)
        requires table { seat.old.table ≡ bells.now }
        requires awake { seat.old.stage ≡ Awake }
        requires unread { seat.old.from ≡ 2 }
        ensures taken { (more : List Taking) × (seat.new ≡ read_to bells.now.words more seat.old)
            × AreHeld more self.new.changes }
        ensures work { KeepsWork self.old self.new }
        ensures parking { self.new.parking ≡ self.old.parking }
    {
        self.changes.take_told(bells, seat);
    }

    /// Takes the first of the envelopes.
    pub fn take_envelope(&mut self) -> Option<Envelope>
        ensures takes { TakesFirst result self.old.envelopes self.new.envelopes }
        ensures rest { self.new ≡ record self.old { envelopes = self.new.envelopes } }
    {
        self.envelopes.pop_front()
    }

    /// Keeps an envelope before all others. Returns whether there was memory for it.
    pub fn put_off(&mut self, envelope: Envelope) -> bool
        ensures kept { result ≡ true → Contains self.new.envelopes envelope }
        ensures work { KeepsWork self.old self.new }
        ensures parking { self.new.parking ≡ self.old.parking }
    {
        self.envelopes.push_front(envelope).is_ok()
    }

    /// Keeps an envelope after all others. Returns whether there was memory for it.
    pub fn keep(&mut self, envelope: Envelope) -> bool
        ensures kept { result ≡ true → Contains self.new.envelopes envelope }
        ensures work { KeepsWork self.old self.new }
        ensures parking { self.new.parking ≡ self.old.parking }
    {
        self.envelopes.push_back(envelope).is_ok()
    }

    /// Returns whether there are so many envelopes that the worker reads no more.
    pub fn is_laden(&self) -> bool {
        self.envelopes.len() >= MOST_ENVELOPES
    }

    /// Returns whether the worker may make one more look in this round.
    pub fn may_look(&self) -> bool
        ensures { result ≡ false → self.now.looks ≡ 0 }
    {
        self.looks > 0
    }

    /// Counts a look.
    pub fn count_look(&mut self)
        ensures { self.new ≡ record self.old { looks = self.new.looks } }
    {
        self.looks = self.looks.saturating_sub(1);
    }

    /// Allows this many looks in this round, and no others.
    pub fn begin(&mut self, looks: u32)
        ensures { self.new ≡ record self.old { looks = looks } }
    {
        self.looks = looks;
    }

    /// Allows this many more looks in this round.
    pub fn allow(&mut self, looks: u32)
        ensures { self.new ≡ record self.old { looks = self.new.looks } }
    {
        self.looks = self.looks.saturating_add(looks);
    }

    /// Returns whether there is more to do.
    pub fn has_more(&self) -> bool
        ensures { result ≡ false → IsAtRest self.now }
    {
        self.lines.has_due() || !self.changes.is_empty() || !self.envelopes.is_empty()
    }
}
