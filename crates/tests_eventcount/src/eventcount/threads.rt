//! Seats in several threads.
ghost use Rattle.std.specs.Prelude.{◌≡◌, [], IfSome};
ghost use Rattle.std.specs.Thread.{IsSync};
ghost use Rattle.sysv_lists.specs.Numbers.{AreBetween};
ghost use Rattle.sysv_eventcount.specs.Drawn.{HasDrawn, BothHaveDrawn};

use std::alloc::Global;
use std::sync::Wait;
use std::sync::atomic::AtomicU64;
use std::sync::atomic::Ordering::SeqCst;
use std::test::Fail;
use std::thread;
use std::thread::{Threads, join};
use std::time::{Clock, Duration};
use sysv_eventcount::{Awaited, Eventcount, Seat, Sequencer};

/// How often each thread repeats its task.
const TIMES: u64 = 100;

/// The two seats of a thread, at two objects or at one.
#[derive(Drop)]
struct Pair {
    one: Seat,
    two: Seat,
}

/// Draws some tickets with a seat, and returns them with the seat.
fn draw(alloc: Global, turns: &Sequencer, mut seat: Seat) -> Option<(Seat, Vec<u64>)>
    requires { seat.counter ≡ turns.now }
    ensures { IfSome result (λ d. HasDrawn seat d.0 d.1.items) }
{
    let mut drawn = Vec::new(alloc);
    for _ in 0..TIMES {
        let number = turns.ticket(&mut seat).ok()?;
        drawn.push(number).ok()?;
    }
    Some((seat, drawn))
}

/// Draws with two seats, each in a thread of its own, and joins the second into the first.
fn draw_both<R: Threads + Sync>(
    rt: &R,
    alloc: Global,
    turns: &Sequencer,
    one: Seat,
    two: Seat,
) -> Option<(Seat, Vec<u64>)>
    requires one { (one.counter ≡ turns.now) × (one.own ≡ []) }
    requires two { (two.counter ≡ turns.now) × (two.own ≡ []) }
    ensures { IfSome result (λ d. BothHaveDrawn one two d.0 d.1.items) }
{
    let (first, second) = join(
        rt,
        || -> Option<(Seat, Vec<u64>)>
            requires { one.counter ≡ turns.now }
            ensures { IfSome result (λ d. HasDrawn one d.0 d.1.items) }
        { draw(alloc, turns, one) },
        || -> Option<(Seat, Vec<u64>)>
            requires { two.counter ≡ turns.now }
            ensures { IfSome result (λ d. HasDrawn two d.0 d.1.items) }
        { draw(alloc, turns, two) },
    );
    let (mut seat, mut drawn) = first?;
    let (other, mut others) = second?;
    turns.join(&mut seat, other);
    drawn.append(&mut others).ok()?;
    Some((seat, drawn))
}

/// Draws with four threads. The tickets are the numbers below the next ticket, each exactly once.
fn draw_by_four<R: Threads + Sync>(rt: &R, alloc: Global) -> Option<(u64, Vec<u64>)>
    ensures { IfSome result (λ all. AreBetween 0 all.0 all.1.items) }
{
    let (turns, mut first) = Sequencer::open(alloc, 0).ok()?;
    let second = turns.split(&mut first).ok()?;
    let third = turns.split(&mut first).ok()?;
    let fourth = turns.split(&mut first).ok()?;
    let (one, two) = join(
        rt,
        || -> Option<(Seat, Vec<u64>)>
            requires { IsSync R.row × (first.counter ≡ turns) × (second.counter ≡ turns)
                × (first.own ≡ []) × (second.own ≡ []) }
            ensures { IfSome result (λ d. BothHaveDrawn first second d.0 d.1.items) }
        { draw_both(rt, alloc, &turns, first, second) },
        || -> Option<(Seat, Vec<u64>)>
            requires { IsSync R.row × (third.counter ≡ turns) × (fourth.counter ≡ turns)
                × (third.own ≡ []) × (fourth.own ≡ []) }
            ensures { IfSome result (λ d. BothHaveDrawn third fourth d.0 d.1.items) }
        { draw_both(rt, alloc, &turns, third, fourth) },
    );
    let (mut seat, mut drawn) = one?;
    let (other, mut others) = two?;
    turns.join(&mut seat, other);
    drawn.append(&mut others).ok()?;
    let next = turns.ticket(&mut seat).ok()?;
    Some((next, drawn))
}

#[test]
fn four_threads_draw_each_number_once(rt: HostRuntime) -> Result<(), Fail> {
    let (next, mut all) = draw_by_four(&rt, rt.alloc()).ok_or("each thread draws")?;
    all.sort()?;
    assert_eq!(rt; (next, all.len()), (400, 400));
    for (place, number) in all.iter().enumerate() {
        assert_eq!(rt; *number, place as u64);
    }
    Ok(())
}

// A section that one thread is in at a time: a thread draws a turn, waits for it, and passes it on.
#[derive(Drop)]
struct Exclusion {
    turns: Sequencer,
    served: Eventcount,
    total: AtomicU64,
}

impl Exclusion {
    fn enter(&self, rt: &impl Wait, drawing: &mut Seat, serving: &mut Seat) -> Option<()>
        requires drawing { drawing.old.counter ≡ self.now.turns }
        requires serving { serving.old.counter ≡ self.now.served }
        ensures drawing { drawing.new.counter ≡ drawing.old.counter }
        ensures serving { serving.new.counter ≡ serving.old.counter }
    {
        let turn = self.turns.ticket(drawing).ok()?;
        self.served.await_at_least(rt, serving, turn);
        let found = self.total.load(SeqCst);
        self.total.store(found.wrapping_add(1), SeqCst);
        self.served.advance(serving).ok()?;
        self.served.wake(rt);
        Some(())
    }

    fn enter_often(&self, rt: &impl Wait, mut seats: Pair) -> Option<()>
        requires drawing { seats.one.counter ≡ self.now.turns }
        requires serving { seats.two.counter ≡ self.now.served }
    {
        for _ in 0..TIMES {
            self.enter(rt, &mut seats.one, &mut seats.two)?;
        }
        Some(())
    }

    /// Splits off the seats of one more thread.
    fn split(&self, seats: &mut Pair) -> Option<Pair>
        requires drawing { seats.old.one.counter ≡ self.now.turns }
        requires serving { seats.old.two.counter ≡ self.now.served }
        ensures new { IfSome result (λ new. (new.one.counter ≡ self.now.turns)
            × (new.two.counter ≡ self.now.served)) }
        ensures drawing { seats.new.one.counter ≡ seats.old.one.counter }
        ensures serving { seats.new.two.counter ≡ seats.old.two.counter }
    {
        let one = self.turns.split(&mut seats.one).ok()?;
        let two = self.served.split(&mut seats.two).ok()?;
        Some(Pair { one, two })
    }

    fn enter_by_two<R: Threads + Wait + Sync>(&self, rt: &R, mut seats: Pair) -> Option<()>
        requires drawing { seats.one.counter ≡ self.now.turns }
        requires serving { seats.two.counter ≡ self.now.served }
    {
        let others = self.split(&mut seats)?;
        let (first, second) = join(
            rt,
            || self.enter_often(rt, seats),
            || self.enter_often(rt, others),
        );
        first.and(second)
    }

    fn enter_by_four<R: Threads + Wait + Sync>(&self, rt: &R, mut seats: Pair) -> Option<()>
        requires drawing { seats.one.counter ≡ self.now.turns }
        requires serving { seats.two.counter ≡ self.now.served }
    {
        let others = self.split(&mut seats)?;
        let (first, second) = join(
            rt,
            || -> Option<()>
                requires { IsSync R.row × (seats.one.counter ≡ self.now.turns)
                    × (seats.two.counter ≡ self.now.served) }
            { self.enter_by_two(rt, seats) },
            || -> Option<()>
                requires { IsSync R.row × (others.one.counter ≡ self.now.turns)
                    × (others.two.counter ≡ self.now.served) }
            { self.enter_by_two(rt, others) },
        );
        first.and(second)
    }
}

#[test]
fn one_thread_at_a_time_is_in_the_section(rt: HostRuntime) -> Result<(), Fail> {
    let (turns, one) = Sequencer::open(rt.alloc(), 0)?;
    let (served, two) = Eventcount::open(rt.alloc(), 0)?;
    let all = Exclusion {
        turns,
        served,
        total: AtomicU64::new(0),
    };
    let done = all.enter_by_four(&rt, Pair { one, two });
    assert_eq!(rt; (done, all.total.load(SeqCst)), (Some(()), 400));
    Ok(())
}

/// Advances `times` times, with one wake after each. It pauses before each advance, so that the
/// waiting thread has gone to sleep. Returns false if the count is worn out.
fn advance_often<R: Wait + Clock>(rt: &R, count: &Eventcount, mut seat: Seat, times: u64) -> bool
    requires { seat.counter ≡ count.now }
{
    for _ in 0..times {
        thread::sleep(rt, Duration::from_millis(5));
        if count.advance(&mut seat).is_err() {
            return false;
        }
        count.wake(rt);
    }
    true
}

fn wait_for(rt: &impl Wait, count: &Eventcount, mut seat: Seat, goal: u64) -> u64
    requires { seat.counter ≡ count.now }
{
    count.await_at_least(rt, &mut seat, goal)
}

/// Waits for two goals, each in a thread of its own.
fn wait_for_both<R: Threads + Wait + Sync>(rt: &R, count: &Eventcount, seats: Pair) -> (u64, u64)
    requires one { seats.one.counter ≡ count.now }
    requires two { seats.two.counter ≡ count.now }
{
    let Pair { one, two } = seats;
    join(
        rt,
        || wait_for(rt, count, one, 1),
        || wait_for(rt, count, two, 2),
    )
}

/// Waits for the goal 3, while the other thread advances three times.
fn wait_and_advance<R: Threads + Wait + Clock + Sync>(
    rt: &R,
    count: &Eventcount,
    seats: Pair,
) -> (u64, bool)
    requires waiting { seats.one.counter ≡ count.now }
    requires advancing { seats.two.counter ≡ count.now }
{
    let Pair { one, two } = seats;
    join(
        rt,
        || wait_for(rt, count, one, 3),
        || advance_often(rt, count, two, 3),
    )
}

/// Splits off the seats of one more thread at two eventcounts.
fn split_both(first: &Eventcount, second: &Eventcount, seats: &mut Pair) -> Option<Pair>
    requires one { seats.old.one.counter ≡ first.now }
    requires two { seats.old.two.counter ≡ second.now }
    ensures new { IfSome result (λ new. (new.one.counter ≡ first.now)
        × (new.two.counter ≡ second.now)) }
    ensures one { seats.new.one.counter ≡ seats.old.one.counter }
    ensures two { seats.new.two.counter ≡ seats.old.two.counter }
{
    let one = first.split(&mut seats.one).ok()?;
    let two = second.split(&mut seats.two).ok()?;
    Some(Pair { one, two })
}

/// Returns the results of waits for 1, 2 and 3 while a fourth thread advances three times, and
/// whether it could advance.
fn wait_by_three<R: Threads + Wait + Clock + Sync>(
    rt: &R,
    count: &Eventcount,
    mut seats: Pair,
) -> Option<((u64, u64), (u64, bool))>
    requires one { seats.one.counter ≡ count.now }
    requires two { seats.two.counter ≡ count.now }
{
    let others = split_both(count, count, &mut seats)?;
    Some(join(
        rt,
        || -> (u64, u64)
            requires { IsSync R.row × (seats.one.counter ≡ count.now)
                × (seats.two.counter ≡ count.now) }
        { wait_for_both(rt, count, seats) },
        || -> (u64, bool)
            requires { IsSync R.row × (others.one.counter ≡ count.now)
                × (others.two.counter ≡ count.now) }
        { wait_and_advance(rt, count, others) },
    ))
}

#[test]
fn three_waiters_are_woken_at_their_goals(rt: HostRuntime) -> Result<(), Fail> {
    let (count, mut one) = Eventcount::open(rt.alloc(), 0)?;
    let two = count.split(&mut one)?;
    let answers = wait_by_three(&rt, &count, Pair { one, two });
    let ((one, two), last) = answers.ok_or("each seat splits")?;
    assert!(rt; (1..4).contains(&one) && (2..4).contains(&two));
    assert_eq!(rt; last, (3, true));
    Ok(())
}

/// Waits for the first advance, and then sets the mark.
fn wait_and_mark(rt: &impl Wait, count: &Eventcount, mut seat: Seat, mark: &AtomicU64)
    requires { seat.counter ≡ count.now }
{
    count.await_at_least(rt, &mut seat, 1);
    mark.store(1, SeqCst);
}

/// Advances when the other thread has gone to sleep, and wakes that thread some time later. Returns
/// whether it still slept by then.
fn advance_and_look<R: Wait + Clock>(
    rt: &R,
    count: &Eventcount,
    mut seat: Seat,
    mark: &AtomicU64,
) -> bool
    requires { seat.counter ≡ count.now }
{
    thread::sleep(rt, Duration::from_millis(20));
    let advanced = count.advance(&mut seat).is_ok();
    thread::sleep(rt, Duration::from_millis(20));
    let sleeps = mark.load(SeqCst) == 0;
    count.wake(rt);
    advanced && sleeps
}

/// Returns whether a thread that waited for an advance slept on after it.
fn sleeps_on<R: Threads + Wait + Clock + Sync>(
    rt: &R,
    count: &Eventcount,
    seats: Pair,
    mark: &AtomicU64,
) -> bool
    requires waiting { seats.one.counter ≡ count.now }
    requires advancing { seats.two.counter ≡ count.now }
{
    let Pair { one, two } = seats;
    let ((), sleeps) = join(
        rt,
        || wait_and_mark(rt, count, one, mark),
        || advance_and_look(rt, count, two, mark),
    );
    sleeps
}

// The thread that waits may begin late or wake early, so it has some tries to sleep on once.
#[test]
fn an_advance_wakes_no_thread(rt: HostRuntime) -> Result<(), Fail> {
    for _ in 0..10 {
        let (count, mut one) = Eventcount::open(rt.alloc(), 0)?;
        let two = count.split(&mut one)?;
        let mark = AtomicU64::new(0);
        if sleeps_on(&rt, &count, Pair { one, two }, &mark) {
            return Ok(());
        }
    }
    Err("each advance woke the thread that waited".into())
}

/// How often a bounded wait is tried. A single wait could begin after the other thread has
/// advanced.
const TRIES: u64 = 100;

/// Advances ten times whenever that is requested, and wakes no thread.
fn advance_when_asked(
    rt: &impl Wait,
    asked: &Eventcount,
    count: &Eventcount,
    mut seats: Pair,
) -> bool
    requires hearing { seats.one.counter ≡ asked.now }
    requires seat { seats.two.counter ≡ count.now }
{
    for tries in 0..TRIES {
        asked.await_at_least(rt, &mut seats.one, tries + 1);
        if !advance_ten_times(count, &mut seats.two) {
            return false;
        }
    }
    true
}

fn advance_ten_times(count: &Eventcount, seat: &mut Seat) -> bool
    requires { seat.old.counter ≡ count.now }
    ensures { seat.new.counter ≡ seat.old.counter }
{
    for _ in 0..10 {
        if count.advance(seat).is_err() {
            return false;
        }
    }
    true
}

/// Requests the advances, and then waits for the goal for a bounded number of looks. Returns
/// whether the count reached it.
fn ask_and_see(
    rt: &impl Wait,
    asked: &Eventcount,
    asking: &mut Seat,
    count: &Eventcount,
    seat: &mut Seat,
    goal: u64,
) -> bool
    requires asking { asking.old.counter ≡ asked.now }
    requires seat { seat.old.counter ≡ count.now }
    ensures asking { asking.new.counter ≡ asking.old.counter }
    ensures seat { seat.new.counter ≡ seat.old.counter }
{
    let _ = asked.advance(asking);
    asked.wake(rt);
    count.await_turns(seat, goal, 10_000_000) == Awaited::Reached(goal)
}

/// Requests the advances repeatedly, and returns how often the wait that followed saw the tenth
/// advance.
fn see_ten_when_asking(
    rt: &impl Wait,
    asked: &Eventcount,
    count: &Eventcount,
    mut seats: Pair,
) -> u64
    requires asking { seats.one.counter ≡ asked.now }
    requires seat { seats.two.counter ≡ count.now }
{
    let mut seen = 0;
    for tries in 0..TRIES {
        let goal = 10 * (tries + 1);
        let reached = ask_and_see(rt, asked, &mut seats.one, count, &mut seats.two, goal);
        seen += u64::from(reached);
    }
    seen
}

/// One thread requests the advances, and the other makes them.
fn ask_and_advance<R: Threads + Wait + Sync>(
    rt: &R,
    asked: &Eventcount,
    count: &Eventcount,
    mut seats: Pair,
) -> Option<(u64, bool)>
    requires one { seats.one.counter ≡ asked.now }
    requires two { seats.two.counter ≡ count.now }
{
    let others = split_both(asked, count, &mut seats)?;
    Some(join(
        rt,
        || see_ten_when_asking(rt, asked, count, seats),
        || advance_when_asked(rt, asked, count, others),
    ))
}

#[test]
fn turns_see_what_another_thread_advances(rt: HostRuntime) -> Result<(), Fail> {
    let (asked, one) = Eventcount::open(rt.alloc(), 0)?;
    let (count, two) = Eventcount::open(rt.alloc(), 0)?;
    let both = ask_and_advance(&rt, &asked, &count, Pair { one, two });
    assert_eq!(rt; both, Some((TRIES, true)));
    Ok(())
}

/// The number of rounds of a ping-pong.
const ROUNDS: u64 = 2000;

/// Plays all rounds: waits for one count, and advances the other. In every hundredth round it
/// pauses before, so that the other side has gone to sleep.
fn play<R: Wait + Clock>(rt: &R, hear: &Eventcount, say: &Eventcount, mut seats: Pair) -> bool
    requires hearing { seats.one.counter ≡ hear.now }
    requires saying { seats.two.counter ≡ say.now }
{
    for round in 0..ROUNDS {
        hear.await_at_least(rt, &mut seats.one, round + 1);
        pause_at(rt, round);
        if say.advance(&mut seats.two).is_err() {
            return false;
        }
        say.wake(rt);
    }
    true
}

fn pause_at(rt: &impl Clock, round: u64) {
    if round % 100 == 0 {
        thread::sleep(rt, Duration::from_millis(2));
    }
}

/// Plays both sides.
fn play_both<R: Threads + Wait + Clock + Sync>(
    rt: &R,
    ping: &Eventcount,
    pong: &Eventcount,
    mut seats: Pair,
) -> Option<(bool, bool)>
    requires one { seats.one.counter ≡ ping.now }
    requires two { seats.two.counter ≡ pong.now }
{
    let Pair { one, two } = split_both(ping, pong, &mut seats)?;
    let swapped = Pair { one: two, two: one };
    Some(join(
        rt,
        || play(rt, ping, pong, seats),
        || play(rt, pong, ping, swapped),
    ))
}

// Each side sleeps and is woken repeatedly.
#[test]
fn two_threads_wake_each_other(rt: HostRuntime) -> Result<(), Fail> {
    let (ping, one) = Eventcount::open(rt.alloc(), 1)?;
    let (pong, two) = Eventcount::open(rt.alloc(), 0)?;
    let both = play_both(&rt, &ping, &pong, Pair { one, two });
    assert_eq!(rt; both, Some((true, true)));
    Ok(())
}
