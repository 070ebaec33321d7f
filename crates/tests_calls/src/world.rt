//! Two actors that take turns step by step, events that are not possible, sizes out of range, and a
//! list of events with its answers.

mod blocks;
mod growths;
mod keys;
mod no_growths;
mod waits;

use crate::parts::{assert_is, assert_that, open_body};
use bitflags::Flags as _;
use std::alloc::Global;
use std::process::Abort;
use sysv_core::{Answer, Call, Event, OpenRefused, Outcome, Stepped, World};
use sysv_model::{Body, Cred, Errno, Flags, NoMemory, Perm, SetTo, Stat};
use sysv_queue::{Look, Tally};
use sysv_steps::{GetStep, Pending, RemoveStep, SendStep, Step};
use tests_kit::{creating, flags};

/// The wanted answer: the actor, how the call ended, and the contents of the body that is handed
/// back.
type Want<'a> = (u32, Outcome, Option<&'a [u8]>);

/// Opens a world of 1,024 blocks with queue 0. Tolerates one refusal of memory.
fn world_with_queue(rt: &impl Abort, alloc: Global, actors: u32) -> World {
    let mut world = match World::open(alloc, actors, 1024) {
        Ok(world) => world,
        Err(why) => {
            assert_is(rt, why, OpenRefused::NoMemory);
            World::open(alloc, actors, 1024).expect(rt, "a second try")
        }
    };
    assert_is(rt, world.preset(), true);
    assert_is(rt, world.preset(), false);
    world
}

/// Opens a world of four actors and 128 blocks that begins with this step number and this
/// generation. Tolerates one refusal of memory.
fn world_at(rt: &impl Abort, alloc: Global, first_step: u64, generation: u32) -> World {
    match World::open_at(alloc, 4, 128, first_step, generation) {
        Ok(world) => world,
        Err(why) => {
            assert_is(rt, why, OpenRefused::NoMemory);
            World::open_at(alloc, 4, 128, first_step, generation).expect(rt, "a second try")
        }
    }
}

/// Makes steps of the actor until its call is answered.
fn go(rt: &impl Abort, world: &mut World, actor: u32) -> Outcome {
    for _ in 0..8 {
        match world.step(step(actor)) {
            Stepped::Answer(answer) => {
                assert_is(rt, answer.actor, actor);
                return answer.result;
            }
            Stepped::Nothing => {}
            Stepped::Worn => panic!(rt; "worn"),
        }
    }
    panic!(rt; "no answer")
}

/// Starts a call of the actor and makes its steps until it is answered.
fn make(rt: &impl Abort, world: &mut World, actor: u32, call: Call) -> Outcome {
    assert_nothing(rt, world.step(start(actor, call)));
    go(rt, world, actor)
}

/// Returns the attributes of queue 0, of which the actor asks.
fn stat_of(rt: &impl Abort, world: &mut World, actor: u32) -> Stat {
    match make(rt, world, actor, Call::Stat { id: 0 }) {
        Outcome::Stat(stat) => stat,
        _ => panic!(rt; "no attributes"),
    }
}

/// Asserts that a call of the actor ends this way.
fn assert_makes(rt: &impl Abort, world: &mut World, actor: u32, call: Call, wanted: Outcome) {
    assert_eq!(rt; make(rt, world, actor, call), wanted);
}

/// Returns the step before which the get of an actor is, if it is before one.
fn gets_at(world: &World, actor: u32) -> Option<&GetStep> {
    match &world.doing(actor)?.pending {
        Pending::At(Step::Get(step)) => Some(step),
        _ => None,
    }
}

/// Returns the step before which the send of an actor is, if it is before one.
fn sends_at(world: &World, actor: u32) -> Option<&SendStep> {
    match &world.doing(actor)?.pending {
        Pending::At(Step::Send(step)) => Some(step),
        _ => None,
    }
}

/// Returns the step before which the removal of an actor is, if it is before one.
fn removes_at(world: &World, actor: u32) -> Option<&RemoveStep> {
    match &world.doing(actor)?.pending {
        Pending::At(Step::Remove(step)) => Some(step),
        _ => None,
    }
}

/// Returns the name of the step before which the send of an actor is, if it is before one.
fn send_step(world: &World, actor: u32) -> Option<&'static str> {
    match sends_at(world, actor)? {
        SendStep::Look(_) => Some("look"),
        SendStep::Reserve(_) => Some("reserve"),
        SendStep::Place { .. } => Some("place"),
        SendStep::Giveback { .. } => Some("giveback"),
    }
}

fn is_waiting(world: &World, actor: u32) -> bool {
    match world.doing(actor) {
        Some(doing) => matches!(doing.pending, Pending::Waits(_)),
        None => false,
    }
}

/// Asserts that the actor waits.
fn assert_waits(rt: &impl Abort, world: &World, actor: u32) {
    assert_that(rt, is_waiting(world, actor));
}

/// Returns a get of this key, with IPC_CREAT and mode 0600.
fn get_or_make(key: i32) -> Call {
    Call::Get {
        key,
        flags: creating(),
    }
}

/// Returns a body with these bytes. Tolerates one refusal of memory.
fn body_of(rt: &impl Abort, alloc: Global, text: &[u8]) -> Body {
    let mut body = open_body(rt, alloc);
    assert_that(rt, body.push_piece(text));
    body
}

fn start(actor: u32, call: Call) -> Event {
    let cred = Cred {
        uid: 1000,
        gid: 1000,
        pid: actor.saturating_add(100),
    };
    Event::Start { actor, cred, call }
}

/// Returns the start of a send to queue 0 by the actor.
fn send(rt: &impl Abort, alloc: Global, actor: u32, mtype: i64, text: &[u8]) -> Event {
    let call = Call::Send {
        id: 0,
        mtype,
        flags: Flags::IPC_NOWAIT,
        body: body_of(rt, alloc, text),
    };
    start(actor, call)
}

/// Returns the start of a receive of at most 100 bytes from queue 0 by the actor. The body that it
/// hands in is not empty.
fn receive(rt: &impl Abort, alloc: Global, actor: u32) -> Event {
    let call = receive_of(rt, alloc, 100, 0, Flags::IPC_NOWAIT);
    start(actor, call)
}

/// Returns how a receive of a message of this type and this many bytes ends.
fn got(mtype: i64, len: usize) -> Outcome {
    Outcome::Got { mtype, len }
}

/// Returns a receive from queue 0. The body that it hands in is not empty.
fn receive_of(rt: &impl Abort, alloc: Global, size: u32, mtype: i64, flags: Flags) -> Call {
    Call::Receive {
        id: 0,
        size,
        mtype,
        flags,
        body: body_of(rt, alloc, b"old"),
    }
}

fn step(actor: u32) -> Event {
    Event::Step { actor, now: 0 }
}

fn assert_nothing(rt: &impl Abort, stepped: Stepped) {
    assert!(rt; matches!(&stepped, Stepped::Nothing));
}

fn assert_answers(rt: &impl Abort, answer: &Answer, want: Want<'_>) {
    let (actor, outcome, text) = want;
    assert_is(rt, answer.actor, actor);
    assert_is(rt, answer.result, outcome);
    assert_is(rt, answer.body.is_some(), text.is_some());
    if let Some(body) = &answer.body {
        assert_holds(rt, body, text.unwrap_or_default());
    }
}

/// Asserts that the body has these bytes.
fn assert_holds(rt: &impl Abort, body: &Body, text: &[u8]) {
    assert_is(rt, body.len(), text.len());
    for (i, byte) in text.iter().enumerate() {
        assert_is(rt, (i, byte_at(body, i)), (i, Some(*byte)));
    }
}

fn byte_at(body: &Body, i: usize) -> Option<u8> {
    if i < body.len() {
        Some(body.byte(i))
    } else {
        None
    }
}

fn assert_answer(rt: &impl Abort, stepped: Stepped, want: Want<'_>) {
    match stepped {
        Stepped::Answer(answer) => assert_answers(rt, &answer, want),
        _ => panic!(rt; "no answer"),
    }
}

/// Makes steps of the actor until its call is answered, and asserts the answer.
fn assert_ends(rt: &impl Abort, world: &mut World, want: Want<'_>) {
    let (actor, _, _) = want;
    for _ in 0..8 {
        match world.step(step(actor)) {
            Stepped::Answer(answer) => {
                assert_answers(rt, &answer, want);
                return;
            }
            Stepped::Nothing => {}
            Stepped::Worn => panic!(rt; "worn"),
        }
    }
    panic!(rt; "no answer")
}

/// Has the actor receive, from the start of its call to the end.
fn assert_receives(rt: &impl Abort, alloc: Global, world: &mut World, want: Want<'_>) {
    let (actor, _, _) = want;
    assert_nothing(rt, world.step(receive(rt, alloc, actor)));
    assert_ends(rt, world, want);
}

/// Has the actor send, from the start of its call to the end, and asserts that the result is 0.
fn assert_sends(rt: &impl Abort, alloc: Global, world: &mut World, actor: u32, text: &[u8]) {
    assert_sends_type(rt, alloc, world, actor, 7, text);
}

fn assert_sends_type(
    rt: &impl Abort,
    alloc: Global,
    world: &mut World,
    actor: u32,
    mtype: i64,
    text: &[u8],
) {
    assert_nothing(rt, world.step(send(rt, alloc, actor, mtype, text)));
    assert_ends(rt, world, (actor, Outcome::Zero, None));
}

#[test]
fn a_send_and_a_receive_run_between_look_and_place(rt: HostRuntime) {
    let alloc = rt.alloc();
    let mut world = world_with_queue(&rt, alloc, 2);
    let no_message = Outcome::Refused(Errno::ENOMSG);
    assert_nothing(&rt, world.step(send(&rt, alloc, 1, 5, b"hello")));
    assert_nothing(&rt, world.step(step(1)));
    assert_nothing(&rt, world.step(step(1)));
    assert_sends(&rt, alloc, &mut world, 2, b"between");
    let got = Outcome::Got { mtype: 7, len: 7 };
    assert_receives(&rt, alloc, &mut world, (2, got, Some(b"between")));
    assert_receives(&rt, alloc, &mut world, (2, no_message, Some(b"")));
    assert_answer(&rt, world.step(step(1)), (1, Outcome::Zero, None));
    let got = Outcome::Got { mtype: 5, len: 5 };
    assert_receives(&rt, alloc, &mut world, (2, got, Some(b"hello")));
    assert_receives(&rt, alloc, &mut world, (2, no_message, Some(b"")));
    assert_is(&rt, world.end(), 1024);
}

#[test]
fn a_place_finds_that_the_room_is_gone(rt: HostRuntime) {
    let alloc = rt.alloc();
    let mut world = world_with_queue(&rt, alloc, 2);
    let bytes = [b'x'; 8192];
    assert_nothing(&rt, world.step(send(&rt, alloc, 1, 5, b"y")));
    assert_nothing(&rt, world.step(step(1)));
    assert_nothing(&rt, world.step(step(1)));
    assert_sends(&rt, alloc, &mut world, 2, &bytes);
    assert_sends(&rt, alloc, &mut world, 2, &bytes);
    let full = Outcome::Refused(Errno::EAGAIN);
    assert_nothing(&rt, world.step(step(1)));
    assert_is(&rt, send_step(&world, 1), Some("giveback"));
    assert_answer(&rt, world.step(step(1)), (1, full, None));
    assert_sends(&rt, alloc, &mut world, 2, b"");
    assert_is(&rt, world.end(), 1024);
}

#[test]
fn a_receive_takes_what_it_names(rt: HostRuntime) {
    let alloc = rt.alloc();
    let mut world = world_with_queue(&rt, alloc, 2);
    let sent: [(i64, &[u8]); 4] = [(5, b"a"), (2, b"b"), (5, b"c"), (i64::MAX, b"d")];
    for (mtype, text) in sent {
        assert_sends_type(&rt, alloc, &mut world, 1, mtype, text);
    }
    let wait = Flags::IPC_NOWAIT;
    let cut = wait.union(Flags::MSG_NOERROR);
    let none = Outcome::Refused(Errno::ENOMSG);
    let long = Outcome::Refused(Errno::E2BIG);
    let receives: [(i64, u32, Flags, Outcome, &[u8]); 8] = [
        (3, 9, wait, none, b""),
        (5, 0, wait, long, b""),
        (5, 0, cut, got(5, 0), b""),
        (i64::MIN, 9, wait, got(2, 1), b"b"),
        (-4, 9, wait, none, b""),
        (i64::MIN, 1, wait, got(5, 1), b"c"),
        (i64::MIN, 1, wait, got(i64::MAX, 1), b"d"),
        (0, 9, cut, none, b""),
    ];
    for (mtype, size, flags, outcome, text) in receives {
        let call = receive_of(&rt, alloc, size, mtype, flags);
        assert_nothing(&rt, world.step(start(2, call)));
        assert_ends(&rt, &mut world, (2, outcome, Some(text)));
    }
    assert_is(&rt, world.end(), 1024);
}

#[test]
fn a_receive_takes_every_type_but_one(rt: HostRuntime) {
    let alloc = rt.alloc();
    let mut world = world_with_queue(&rt, alloc, 2);
    let sent: [(i64, &[u8]); 3] = [(5, b"a"), (2, b"b"), (5, b"c")];
    for (mtype, text) in sent {
        assert_sends_type(&rt, alloc, &mut world, 1, mtype, text);
    }
    let flags = Flags::IPC_NOWAIT.union(Flags::MSG_EXCEPT);
    let none = Outcome::Refused(Errno::ENOMSG);
    let receives: [(i64, Outcome, &[u8]); 4] = [
        (5, got(2, 1), b"b"),
        (5, none, b""),
        (0, got(5, 1), b"a"),
        (-5, got(5, 1), b"c"),
    ];
    for (mtype, outcome, text) in receives {
        let call = receive_of(&rt, alloc, 9, mtype, flags);
        assert_nothing(&rt, world.step(start(2, call)));
        assert_ends(&rt, &mut world, (2, outcome, Some(text)));
    }
    assert_is(&rt, world.end(), 1024);
}

/// Takes the spare body of the world, and returns its length.
fn spare_len(world: &mut World) -> Option<usize> {
    let body = world.spare()?;
    Some(body.len())
}

#[test]
fn the_body_of_a_send_comes_back_once(rt: HostRuntime) {
    let alloc = rt.alloc();
    let mut world = world_with_queue(&rt, alloc, 2);
    assert_is(&rt, spare_len(&mut world), None);
    assert_nothing(&rt, world.step(send(&rt, alloc, 1, 5, b"kept")));
    assert_is(&rt, spare_len(&mut world), None);
    assert_ends(&rt, &mut world, (1, Outcome::Zero, None));
    assert_is(&rt, spare_len(&mut world), Some(0));
    assert_is(&rt, spare_len(&mut world), None);
    let got = Outcome::Got { mtype: 5, len: 4 };
    assert_receives(&rt, alloc, &mut world, (2, got, Some(b"kept")));
    assert_is(&rt, spare_len(&mut world), None);
    let invalid = Outcome::Refused(Errno::EINVAL);
    assert_answer(
        &rt,
        world.step(send(&rt, alloc, 1, 0, b"x")),
        (1, invalid, None),
    );
    assert_that(&rt, spare_len(&mut world).is_some());
    assert_is(&rt, world.end(), 1024);
}

#[test]
fn the_answer_of_another_call_leaves_the_body_of_a_send(rt: HostRuntime) {
    let alloc = rt.alloc();
    let mut world = world_with_queue(&rt, alloc, 2);
    assert_nothing(&rt, world.step(send(&rt, alloc, 1, 5, b"kept")));
    assert_ends(&rt, &mut world, (1, Outcome::Zero, None));
    let stat = stat_of(&rt, &mut world, 2);
    assert_is(&rt, (stat.qnum, stat.lspid), (1, 101));
    assert_that(&rt, spare_len(&mut world).is_some());
    assert_is(&rt, spare_len(&mut world), None);
    assert_is(&rt, world.end(), 1024);
}

#[test]
fn each_message_that_is_answered_is_counted_as_written(rt: HostRuntime) {
    let alloc = rt.alloc();
    let mut world = world_with_queue(&rt, alloc, 2);
    assert_is(&rt, world.tally(), Tally::open());
    assert_nothing(&rt, world.step(send(&rt, alloc, 1, 5, b"one")));
    assert_ends(&rt, &mut world, (1, Outcome::Zero, None));
    assert_is(&rt, world.tally(), Tally::open());
    let got = Outcome::Got { mtype: 5, len: 3 };
    assert_receives(&rt, alloc, &mut world, (2, got, Some(b"one")));
    assert_is(&rt, world.tally().written(), 1);
    let none = Outcome::Refused(Errno::ENOMSG);
    assert_receives(&rt, alloc, &mut world, (2, none, Some(b"")));
    assert_is(&rt, world.tally().written(), 1);
    assert_is(&rt, world.tally().lost(), 0);
    assert_is(&rt, world.end(), 1024);
}

#[test]
fn what_is_not_possible_gives_nothing(rt: HostRuntime) {
    let alloc = rt.alloc();
    let mut world = world_with_queue(&rt, alloc, 2);
    for actor in [0, 3] {
        assert_nothing(&rt, world.step(send(&rt, alloc, actor, 5, b"none")));
        assert_nothing(&rt, world.step(step(actor)));
        assert_nothing(&rt, world.step(step(actor)));
    }
    assert_nothing(&rt, world.step(step(1)));
    assert_nothing(&rt, world.step(send(&rt, alloc, 1, 5, b"kept")));
    assert_nothing(&rt, world.step(receive(&rt, alloc, 1)));
    assert_nothing(&rt, world.step(step(1)));
    assert_nothing(&rt, world.step(send(&rt, alloc, 1, 6, b"other")));
    assert_ends(&rt, &mut world, (1, Outcome::Zero, None));
    assert_nothing(&rt, world.step(step(1)));
    let got = Outcome::Got { mtype: 5, len: 4 };
    assert_receives(&rt, alloc, &mut world, (2, got, Some(b"kept")));
    let no_message = Outcome::Refused(Errno::ENOMSG);
    assert_receives(&rt, alloc, &mut world, (2, no_message, Some(b"")));
    assert_is(&rt, world.end(), 1024);
}

/// Ends a world that was opened. Returns the number of its free blocks, or why it was not opened.
fn end_of(opened: Result<World, OpenRefused>) -> Result<u32, OpenRefused> {
    opened.map(|world| world.end())
}

#[test]
fn a_size_out_of_range_opens_no_world(rt: HostRuntime) {
    let bad = Err(OpenRefused::BadSize);
    for (actors, blocks) in [(0, 128), (1025, 128), (1, 127), (1, 65_537)] {
        let ends = end_of(World::open(rt.alloc(), actors, blocks));
        assert_is(&rt, (actors, blocks, ends), (actors, blocks, bad));
    }
    for (first_step, generation) in [((1 << 62) + 1, 0), (0, 8_388_608)] {
        let ends = end_of(World::open_at(rt.alloc(), 2, 128, first_step, generation));
        assert_is(
            &rt,
            (first_step, generation, ends),
            (first_step, generation, bad),
        );
    }
    for (actors, blocks) in [(1, 128), (1024, 65_536)] {
        let ends = end_of(World::open(rt.alloc(), actors, blocks));
        if ends != Err(OpenRefused::NoMemory) {
            assert_is(&rt, (actors, ends), (actors, Ok(blocks)));
        }
    }
}

/// Returns an empty list with room for this number of events. Tolerates one refusal of memory.
fn room_for(rt: &impl Abort, alloc: Global, events: usize) -> Vec<Event> {
    match Vec::with_capacity(alloc, events) {
        Ok(room) => room,
        Err(_) => Vec::with_capacity(alloc, events).expect(rt, "a second try"),
    }
}

fn push(rt: &impl Abort, events: &mut Vec<Event>, event: Event) {
    assert_that(rt, events.push(event).is_ok());
}

/// Appends the start of a call and this number of steps of its actor.
fn push_call(rt: &impl Abort, events: &mut Vec<Event>, call: Event, actor: u32, steps: u32) {
    push(rt, events, call);
    for _ in 0..steps {
        push(rt, events, step(actor));
    }
}

/// Runs the events. Tolerates one refusal of memory, after which all events must be handed back.
fn run(rt: &impl Abort, alloc: Global, world: &mut World, events: Vec<Event>) -> Vec<Answer> {
    let count = events.len();
    match world.run(alloc, events) {
        Ok(answers) => answers,
        Err(back) => {
            assert_is(rt, back.len(), count);
            run_back(rt, alloc, world, back)
        }
    }
}

/// Runs the events that were handed back.
fn run_back(rt: &impl Abort, alloc: Global, world: &mut World, back: Vec<Event>) -> Vec<Answer> {
    match world.run(alloc, back) {
        Ok(answers) => answers,
        Err(_) => panic!(rt; "a second try"),
    }
}

/// Returns events: actor 1 receives, sends `hello` and sends an empty body; actor 2 receives three
/// times.
fn six_calls(rt: &impl Abort, alloc: Global) -> Vec<Event> {
    let mut events = room_for(rt, alloc, 19);
    push_call(rt, &mut events, receive(rt, alloc, 1), 1, 1);
    push_call(rt, &mut events, send(rt, alloc, 1, 5, b"hello"), 1, 3);
    push_call(rt, &mut events, send(rt, alloc, 1, 2, b""), 1, 3);
    for _ in 0..3 {
        push_call(rt, &mut events, receive(rt, alloc, 2), 2, 2);
    }
    events
}

/// Asserts that the actor has no pending call.
fn assert_idle(rt: &impl Abort, world: &World, actor: u32) {
    assert_that(rt, world.doing(actor).is_none());
}

#[test]
fn an_actor_stands_before_its_next_step(rt: HostRuntime) {
    let mut world = world_with_queue(&rt, rt.alloc(), 2);
    assert_idle(&rt, &world, 0);
    assert_idle(&rt, &world, 1);
    assert_idle(&rt, &world, 3);
    let _started = world.step(send(&rt, rt.alloc(), 1, 5, b"hello"));
    assert_is(&rt, send_step(&world, 1), Some("look"));
    assert_idle(&rt, &world, 2);
    let _looked = world.step(Event::Step { actor: 1, now: 0 });
    assert_is(&rt, send_step(&world, 1), Some("reserve"));
    let _reserved = world.step(Event::Step { actor: 1, now: 0 });
    assert_is(&rt, send_step(&world, 1), Some("place"));
    assert_is(&rt, world.end(), 1024);
}
