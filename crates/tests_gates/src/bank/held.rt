//! A turn at one place is held until calls at another place were answered.
ghost use Rattle.std.specs.Prelude.{◌≡◌, length, IfSome};
ghost use Rattle.sysv_bank.specs.Banks.{gates_of};

use super::keeper::{Keeper, Watch};
use super::place::Place;
use crate::parts::assert_is;
use std::alloc::Global;
use std::sync::{Mutex, Wait};
use std::test::Fail;
use std::thread::{Threads, for_each_mut};
use sysv_bank::{Bank, BankSeat};
use sysv_eventcount::Eventcount;

/// The task of a thread.
#[derive(Drop)]
enum Role<'a> {
    /// Calls at place 0, in a turn that lasts until two calls were answered.
    Holds,
    /// Calls at place 1 after that turn has begun, and reports each answer.
    Calls(Watch<'a>),
}

/// A thread, and whether each of its calls was answered correctly.
#[derive(Drop)]
struct Member<'a, 'b> {
    bank: &'b Bank<Keeper<'a>>,
    seat: BankSeat<Keeper<'a>>,
    role: Role<'a>,
    well: bool,
    ghost fits: { gates_of seat.seats ≡ bank.now },
    ghost two: { length bank.now ≡ 2 },
}

impl Member<'_, '_> {
    fn act(&mut self, rt: &impl Wait) {
        match &mut self.role {
            Role::Holds => {
                let reply = self.bank.call(rt, 0, &mut self.seat, 2);
                self.well = matches!(&reply, Ok(true));
            }
            Role::Calls(watch) => {
                let begun = watch.begun.hears(1);
                let tried = self.bank.try_call(1, &mut self.seat, 0);
                watch.answered.say();
                let called = self.bank.call(rt, 1, &mut self.seat, 0);
                watch.answered.say();
                self.well = begun && matches!(&tried, Ok(true)) && matches!(&called, Ok(true));
            }
        }
    }
}

fn act_all<R: Threads + Wait + Sync>(rt: &R, members: &mut [Member]) {
    for_each_mut(rt, members, 2, &|_, member| member.act(rt));
}

/// Returns whether both were answered correctly.
fn hold_and_call<'a, R: Threads + Wait + Sync>(
    rt: &R,
    alloc: Global,
    bank: &Bank<Keeper<'a>>,
    seat: &mut BankSeat<Keeper<'a>>,
    watch: Watch<'a>,
) -> Option<bool>
    requires seat { gates_of seat.old.seats ≡ bank.now }
    requires two { length bank.now ≡ 2 }
    ensures { gates_of seat.new.seats ≡ bank.now }
{
    let one = bank.split(alloc, seat).ok()?;
    let two = bank.split(alloc, seat).ok()?;
    let holds = Member {
        bank,
        seat: one,
        role: Role::Holds,
        well: false,
    };
    let calls = Member {
        bank,
        seat: two,
        role: Role::Calls(watch),
        well: false,
    };
    let mut members = [holds, calls];
    act_all(rt, &mut members);
    Some(members.iter().all(|member| member.well))
}

/// Opens a bank whose first object holds its turns, and a watch for the thread that calls the
/// second.
fn opened<'a>(
    alloc: Global,
    mut begun: Place<'a>,
    mut answered: Place<'a>,
) -> Option<(Bank<Keeper<'a>>, BankSeat<Keeper<'a>>, Watch<'a>)>
    ensures { IfSome result (λ o. (gates_of o.1.seats ≡ o.0) × (length o.0 ≡ 2)) }
{
    let watch = Watch {
        begun: begun.split()?,
        answered: answered.split()?,
    };
    let kept = Watch { begun, answered };
    let objects = [
        Keeper {
            watch: Some(Mutex::new(kept)),
        },
        Keeper { watch: None },
    ];
    let objects = Vec::from_array(alloc, objects).ok()?;
    let (bank, seat) = Bank::open(alloc, objects, 0).ok()?;
    Some((bank, seat, watch))
}

// With one lock for all places, neither call is answered while the turn is held.
#[test]
fn one_lock_round_everything(rt: HostRuntime) -> Result<(), Fail> {
    let alloc = rt.alloc();
    let (begun, begun_seat) = Eventcount::open(alloc, 0)?;
    let (answered, answered_seat) = Eventcount::open(alloc, 0)?;
    let begun = Place::new(&begun, begun_seat);
    let answered = Place::new(&answered, answered_seat);
    let (bank, mut seat, watch) = opened(alloc, begun, answered).ok_or("no memory")?;
    let well = hold_and_call(&rt, alloc, &bank, &mut seat, watch);
    let closings = bank.close(seat);
    assert_is(&rt, well, Some(true));
    assert_is(&rt, closings.len(), 2);
    Ok(())
}
