//! Banks.
ghost use Rattle.std.specs.Prelude.{◌≡◌, ◌^◌, ◌≤◌, [], ◌∷◌, length, map, IfOk, IfErr, IsOk};
ghost use Rattle.std.specs.List.{All};
ghost use Rattle.sysv_gate.specs.History.{Moves, AreUpTo};
ghost use Rattle.sysv_gate.specs.Gates.{opened, parted, IsSplit, Joins};
ghost use Rattle.sysv_gate.specs.Closings.{Closes};
ghost use Rattle.sysv_bank.specs.Banks.{gates_of, AreOpened, Each2, Each3, GivesBack};
ghost use Rattle.sysv_bank.specs.Passes.{SplitsOff, JoinsOrders};
ghost use Rattle.sysv_bank.specs.Closing.{ClosesInOrder};

use crate::refusals::NoMemory;
use crate::seat::BankSeat;
use std::alloc::Global;
use std::marker::Model;
use std::snapshot::Snapshot;
use sysv_gate::{
    Closing, Object, OpenRefused, PlaceLock, PlaceTable, TableKey, close_place, join_pass,
    lay_table, split_pass,
};

/// The largest first ticket.
const LIMIT: u64 = 1 << 62;

/// Several objects at places from 0 on, each of which threads call one turn at a time. All turns
/// have one order, whatever places they are made at. Threads share the bank by reference, and each
/// thread uses a seat of its own.
pub struct Bank<O: Object> {
    pub(crate) table: PlaceTable<O>,
    key: TableKey<O>,
    pub(crate) locks: Vec<PlaceLock<O>, Global>,
    /// Space for the result of `close`, so that `close` allocates nothing.
    closings: Vec<Closing<O>, Global>,
}

impl<O: Object> Model for Bank<O> {
    ghost use Rattle.std.specs.Prelude.{List};
    ghost use Rattle.sysv_gate.specs.Gates.{Gateway};
    ghost use Rattle.sysv_bank.specs.Resting.{gateways, IsOpen};

    ghost Value = { List (Gateway O) };

    ghost view = { λ b. gateways b.table.shared.table_id b.key.first b.key.openings.value.items };

    ghost invariant = { IsOpen O.counted };
}

impl<O: Object> Bank<O> {
    /// Opens a bank of `objects`, in their order, with tickets from `first` on at each place.
    /// Returns it with its first seat, whose share is the whole bank.
    ///
    /// # Errors
    ///
    /// The error holds the objects in their order.
    ///
    /// - `BadStart` if and only if `first` is above 2^62.
    /// - `NoMemory` if memory is refused.
    ///
    /// # Conditions
    ///
    /// - There is at least one object.
    /// - Both counts of each object are at most 2^61.
    pub fn open(
        alloc: Global,
        mut objects: Vec<O, Global>,
        first: u64,
    ) -> Result<(Bank<O>, BankSeat<O>), OpenRefused<Vec<O, Global>>>
        requires some { 1 ≤ length objects.items }
        requires counts { All (λ o. AreUpTo (2 ^ 61) (O.counted o)) objects.items }
        ensures ok { IfOk result (λ o. AreOpened objects.items first o.0
            × (o.1.seats ≡ map opened o.0) × (first ≤ 2 ^ 62)) }
        ensures fits { IfOk result (λ o. (gates_of o.1.seats ≡ o.0)
            × (length o.0 ≡ length objects.items)) }
        ensures order { IfOk result (λ o. o.1.order ≡ []) }
        ensures numbers { IfOk result (λ o. (o.1.number ≡ 0) × (o.1.numbers ≡ 0 ∷ [])) }
        ensures share { IfOk result (λ o. o.1.shares ≡ 0 ∷ []) }
        ensures err { IfErr result (λ e. GivesBack first objects.items e) }
    {
        if first > LIMIT {
            return Err(OpenRefused::BadStart(objects));
        }
        let Ok(closings) = Vec::with_capacity(alloc, objects.len()) else {
            return Err(OpenRefused::NoMemory(objects));
        };
        let key = TableKey {
            openings: Snapshot::of(&objects),
            first,
        };
        match lay_table(alloc, &mut objects, &key) {
            Some((table, token, locks)) => {
                objects.destroy_empty();
                let seat = BankSeat {
                    token,
                    key: Snapshot::of(&key),
                };
                let bank = Bank {
                    table,
                    key,
                    locks,
                    closings,
                };
                Ok((bank, seat))
            }
            None => {
                closings.destroy_empty();
                Err(OpenRefused::NoMemory(objects))
            }
        }
    }

    /// Returns a new seat, like `split_off`.
    ///
    /// # Errors
    ///
    /// `NoMemory` is never returned: this implementation allocates nothing.
    ///
    /// # Conditions
    ///
    /// - `seat` is a seat of this bank.
    pub fn split(&self, _alloc: Global, seat: &mut BankSeat<O>) -> Result<BankSeat<O>, NoMemory>
        requires { gates_of seat.old.seats ≡ self.now }
        ensures gates { gates_of seat.new.seats ≡ self.now }
        ensures ok { IfOk result (λ s. (gates_of s.seats ≡ self.now)
            × (seat.new.seats ≡ map parted seat.old.seats) × Each2 IsSplit seat.old.seats s.seats) }
        ensures order { IfOk result (λ s. SplitsOff seat.old seat.new s) }
        ensures always { IsOk result }
    {
        Ok(self.split_off(seat))
    }

    /// Returns a new seat. The new seat has seen the same as `seat` at each place and of the order.
    /// It has a number of its own, under which none of the turns that it has seen was made. Each of
    /// the two seats has half of the share that `seat` had. It allocates nothing.
    ///
    /// # Conditions
    ///
    /// - `seat` is a seat of this bank.
    pub fn split_off(&self, seat: &mut BankSeat<O>) -> BankSeat<O>
        requires { gates_of seat.old.seats ≡ self.now }
        ensures gates { gates_of seat.new.seats ≡ self.now }
        ensures seats { (gates_of result.seats ≡ self.now)
            × (seat.new.seats ≡ map parted seat.old.seats)
            × Each2 IsSplit seat.old.seats result.seats }
        ensures order { SplitsOff seat.old seat.new result }
    {
        let token = split_pass(&self.table, &mut seat.token);
        BankSeat {
            token,
            key: Snapshot::of(&self.key),
        }
    }

    /// Merges `other` into `seat`: what both have seen at each place and of the order, their turns,
    /// their numbers and their shares.
    ///
    /// # Conditions
    ///
    /// - `seat` and `other` are seats of this bank.
    pub fn join(&self, seat: &mut BankSeat<O>, other: BankSeat<O>)
        requires seat { gates_of seat.old.seats ≡ self.now }
        requires other { gates_of other.seats ≡ self.now }
        ensures gates { gates_of seat.new.seats ≡ self.now }
        ensures joined { Each3 (Joins (Moves O.meaning O.counted)) seat.old.seats other.seats
            seat.new.seats }
        ensures order { JoinsOrders seat.old other seat.new }
    {
        join_pass(&self.table, &mut seat.token, other.into_token());
    }

    /// Closes the bank. Returns, for each place in order, what `Gate::close` returns: the object
    /// and the number of its turns. It allocates nothing.
    ///
    /// There is one order of all turns. It begins with all that the seat had seen of it, has no
    /// later turn of the seat, and its part at each place is the history there. If the seat's share
    /// is the whole bank, no other seat is left: the seat had seen all turns, each was made by it
    /// or by a seat that was joined into it, and each object is returned.
    ///
    /// # Conditions
    ///
    /// - `seat` is a seat of this bank.
    pub fn close(self, seat: BankSeat<O>) -> Vec<Closing<O>, Global>
        requires { gates_of seat.seats ≡ self }
        ensures closed { Each2 (Closes (Moves O.meaning O.counted)) seat.seats result.items }
        ensures order { ClosesInOrder (Moves O.meaning O.counted) seat result.items }
    {
        let Bank {
            table,
            key,
            locks: _,
            mut closings,
        } = self;
        let mut closed = table.close_with(seat.into_token());
        for place in 0..closed.slot_count() {
            closings.push_reserved(close_place(&mut closed, place, key.first));
        }
        closed.free();
        closings
    }
}
