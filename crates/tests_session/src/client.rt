//! A client as a value: its events, one after another.
ghost use Rattle.std.specs.Prelude.{◌≡◌};
ghost use Rattle.sysv_service.specs.Seats.{AreOf};

use crate::parts::{assert_is, assert_that, opened};
use crate::serving::ended;
use crate::settling::Stage;
use std::alloc::Global;
use std::process::Abort;
use std::sync::Wait;
use std::thread::{Threads, join_mut};
use sysv_seats::{
    Client, Keeper, Limit, MemoryStream, Notification, Replies, ServiceHandler, Step, Tools, ZERO,
    Zero,
};
use sysv_service::{Pass, Service};
use sysv_session::{End, Served};
use sysv_wire::Version;
use tests_kit::worked::{ANSWERS, SESSION};

/// A hello, a get of key 7, and a receive that waits for a type of at most 5.
const WAITING: &[u8] = &[
    0, 0, 0, 14, 1, 0, 0, 0, 3, 0xe8, 0, 0, 3, 0xe8, 0, 0, 0, 101, 0, 0, 0, 10, 1, 1, 0, 0, 0, 7,
    0, 0, 3, 0x80, 0, 0, 0, 22, 1, 3, 0, 0, 0, 0, 0, 0, 0, 100, 255, 255, 255, 255, 255, 255, 255,
    251, 0, 0, 0, 0,
];

/// The replies to `WAITING` before its receive is over.
const GREETED: &[u8] = &[0, 0, 0, 3, 1, 0, 0, 0, 0, 0, 7, 1, 1, 0, 0, 0, 0, 0];

/// The replies to `WAITING` after a message of type 5 came.
const RECEIVED: &[u8] = &[
    0, 0, 0, 3, 1, 0, 0, 0, 0, 0, 7, 1, 1, 0, 0, 0, 0, 0, 0, 0, 0, 13, 1, 3, 0, 0, 0, 0, 0, 0, 0,
    0, 5, 104, 105,
];

/// A hello, a get of key 7, a set of its limit to 2 bytes, a send of 3 bytes without waiting, and
/// the same removal twice.
const CONTROLLED: &[u8] = &[
    0, 0, 0, 14, 1, 0, 0, 0, 3, 0xe8, 0, 0, 3, 0xe8, 0, 0, 0, 101, 0, 0, 0, 10, 1, 1, 0, 0, 0, 7,
    0, 0, 3, 0x80, 0, 0, 0, 22, 1, 5, 0, 0, 0, 0, 0, 0, 3, 0xe8, 0, 0, 3, 0xe8, 0, 0, 1, 0x80, 0,
    0, 0, 2, 0, 0, 0, 21, 1, 2, 0, 0, 0, 0, 0, 0, 0, 0, 0, 0, 0, 5, 0, 0, 8, 0, 104, 105, 33, 0, 0,
    0, 6, 1, 6, 0, 0, 0, 0, 0, 0, 0, 6, 1, 6, 0, 0, 0, 0,
];

/// The replies to `CONTROLLED`: the send fails with EAGAIN, and the second removal with EINVAL.
const CONTROLS: &[u8] = &[
    0, 0, 0, 3, 1, 0, 0, 0, 0, 0, 7, 1, 1, 0, 0, 0, 0, 0, 0, 0, 0, 3, 1, 5, 0, 0, 0, 0, 3, 1, 2,
    11, 0, 0, 0, 3, 1, 6, 0, 0, 0, 0, 3, 1, 6, 22,
];

/// A hello, a get of key 7, a set of its limit to 2 bytes, and a send of 3 bytes that waits.
const CROWDED: &[u8] = &[
    0, 0, 0, 14, 1, 0, 0, 0, 3, 0xe8, 0, 0, 3, 0xe8, 0, 0, 0, 101, 0, 0, 0, 10, 1, 1, 0, 0, 0, 7,
    0, 0, 3, 0x80, 0, 0, 0, 22, 1, 5, 0, 0, 0, 0, 0, 0, 3, 0xe8, 0, 0, 3, 0xe8, 0, 0, 1, 0x80, 0,
    0, 0, 2, 0, 0, 0, 21, 1, 2, 0, 0, 0, 0, 0, 0, 0, 0, 0, 0, 0, 5, 0, 0, 0, 0, 104, 105, 33,
];

/// A hello and a get of key 4 without flags.
const GETTING: &[u8] = &[
    0, 0, 0, 14, 1, 0, 0, 0, 3, 0xe8, 0, 0, 3, 0xe8, 0, 0, 0, 101, 0, 0, 0, 10, 1, 1, 0, 0, 0, 4,
    0, 0, 0, 0,
];

/// The replies to `GETTING`: the queue has identifier 0. The first 7 bytes are the reply to the
/// hello.
const GOT: &[u8] = &[0, 0, 0, 3, 1, 0, 0, 0, 0, 0, 7, 1, 1, 0, 0, 0, 0, 0];

/// A message of type 5 has arrived at the first slot.
const ARRIVED: Notification = Notification::Arrived { slot: 0, mtype: 5 };

/// A message of type 5 was taken from the first slot.
const FREED: Notification = Notification::Freed { slot: 0, mtype: 5 };

/// The queue of the first slot was set or removed.
const CHANGED: Notification = Notification::Changed { slot: 0 };

/// Returns the tools of a worker. Tolerates one refusal of memory.
pub(crate) fn tools(rt: &impl Abort, alloc: Global) -> Tools {
    match Tools::open(alloc) {
        Ok(tools) => tools,
        Err(_) => Tools::open(alloc).expect(rt, "a second try"),
    }
}

/// Returns a client that writes these bytes. Its connection takes bytes by these steps. Tolerates
/// one refusal of memory.
fn client<'a>(
    rt: &impl Abort,
    alloc: Global,
    input: &'a [u8],
    writes: &'a [Step],
) -> Client<MemoryStream<'a>> {
    paced(rt, alloc, input, &[], writes)
}

/// Returns a client that writes these bytes. Its connection gives and takes bytes by these steps.
/// Tolerates one refusal of memory.
fn paced<'a>(
    rt: &impl Abort,
    alloc: Global,
    input: &'a [u8],
    reads: &'a [Step],
    writes: &'a [Step],
) -> Client<MemoryStream<'a>> {
    Client::open(alloc, stream(rt, alloc, input, reads, writes), Version::Two)
}

/// Returns a client like that of `client`, which may leave or be cut off.
fn loose<'a>(
    rt: &impl Abort,
    alloc: Global,
    input: &'a [u8],
    writes: &'a [Step],
) -> Client<MemoryStream<'a>> {
    Client::open(
        alloc,
        stream(rt, alloc, input, &[], writes).with_cuts(),
        Version::Two,
    )
}

/// Returns a client that writes these bytes, whose connection takes up to 4,000 bytes. Tolerates one
/// refusal of memory.
fn roomy<'a>(rt: &impl Abort, alloc: Global, input: &'a [u8]) -> Client<MemoryStream<'a>> {
    let stream = match MemoryStream::new(alloc, input, 4_000, &[], &[]) {
        Some(stream) => stream,
        None => MemoryStream::new(alloc, input, 4_000, &[], &[]).expect(rt, "a second try"),
    };
    Client::open(alloc, stream, Version::Two)
}

/// Returns the connection of a client. Tolerates one refusal of memory.
pub(crate) fn stream<'a>(
    rt: &impl Abort,
    alloc: Global,
    input: &'a [u8],
    reads: &'a [Step],
    writes: &'a [Step],
) -> MemoryStream<'a> {
    match MemoryStream::new(alloc, input, 1_000, reads, writes) {
        Some(stream) => stream,
        None => MemoryStream::new(alloc, input, 1_000, reads, writes).expect(rt, "a second try"),
    }
}

/// Asserts that a client has taken up this number of requests, that its connection has taken this
/// number of bytes, whether more bytes have arrived, and whether the client would go on.
fn assert_counts(
    rt: &impl Abort,
    client: &Client<MemoryStream<'_>>,
    counts: (u32, u32),
    is_within: bool,
    has_more: bool,
) {
    assert_is(rt, (client.requests(), client.sent_bytes()), counts);
    assert_is(rt, client.is_within_request(), is_within);
    assert_is(rt, client.has_more(), has_more);
}

/// Asserts that these are the notifications, the last one first, and removes them.
fn assert_notifications(rt: &impl Abort, tools: &mut Tools, expected: &[Notification]) {
    for notification in expected {
        assert_is(rt, tools.take_notification(), Some(*notification));
    }
    assert_is(rt, tools.take_notification(), None);
}

/// Reports that there may be something to read, has the client take a turn, and gives its
/// connection the replies.
pub(crate) fn turn<R: Abort + Wait>(
    handler: &mut Keeper<'_, Zero, R>,
    tools: &mut Tools,
    client: &mut Client<MemoryStream<'_>>,
)
    ensures { handler.new.handler.service ≡ handler.old.handler.service }
{
    client.note_readable();
    client.take_turn(handler, tools);
    client.drain();
}

/// Closes the client, and asserts that its session ended for this reason, after this number of
/// requests, with this number of messages written and lost, and that these replies were taken.
pub(crate) fn assert_closed(
    rt: &impl Abort,
    alloc: Global,
    client: Client<MemoryStream<'_>>,
    end: End,
    counts: (u32, u64, u64),
    replies: &[u8],
) {
    let mut book = book(rt, alloc);
    let served = client.close(&mut book);
    assert_served(rt, &served, end, counts);
    for kept in book.kept() {
        assert_is(rt, kept.as_slice(), replies);
    }
}

/// Closes the client, and returns what its session did.
fn closed_early(rt: &impl Abort, alloc: Global, client: Client<MemoryStream<'_>>) -> Served {
    client.close(&mut book(rt, alloc))
}

/// Returns a book with room for one connection. Tolerates one refusal of memory.
fn book(rt: &impl Abort, alloc: Global) -> Replies {
    match Replies::with_room(alloc, 1) {
        Some(book) => book,
        None => Replies::with_room(alloc, 1).expect(rt, "a second try"),
    }
}

/// Appends bytes. Tolerates one refusal of memory.
fn append(rt: &impl Abort, bytes: &mut Vec<u8>, more: &[u8]) {
    if bytes.extend_from_slice(more).is_err() {
        bytes.extend_from_slice(more).expect(rt, "a second try");
    }
}

/// Asserts that a session ended for this reason, with these counts.
fn assert_served(rt: &impl Abort, served: &Served, end: End, counts: (u32, u64, u64)) {
    let tally = &served.tally;
    assert_is(rt, (served.requests, tally.written(), tally.lost()), counts);
    assert_is(rt, served.end, end);
}

#[test]
fn the_session_of_one_client(rt: HostRuntime) {
    let alloc = rt.alloc();
    let (service, pass) = opened(&rt, alloc, 128, 0);
    let mut handler = Keeper::new(ServiceHandler::new(&rt, &service, &ZERO, pass));
    let mut tools = tools(&rt, alloc);
    let mut client = client(&rt, alloc, SESSION, &[]);
    turn(&mut handler, &mut tools, &mut client);
    turn(&mut handler, &mut tools, &mut client);
    assert_that(&rt, client.is_over());
    assert_closed(&rt, alloc, client, End::Ended, (5, 1, 0), ANSWERS);
    let pass = handler.into_pass();
    ended(&rt, service, pass, 0);
}

// The hello arrives in two pieces. The get and the send arrive with the beginning of a receive.
#[test]
fn the_counts_of_a_client_in_pieces(rt: HostRuntime) {
    let alloc = rt.alloc();
    let (service, pass) = opened(&rt, alloc, 128, 0);
    let mut handler = Keeper::new(ServiceHandler::new(&rt, &service, &ZERO, pass));
    let mut tools = tools(&rt, alloc);
    let reads = [
        Step::AtMost(10),
        Step::AtMost(0),
        Step::AtMost(8),
        Step::AtMost(43),
    ];
    let mut client = paced(&rt, alloc, SESSION, &reads, &[]);
    assert_counts(&rt, &client, (0, 0), false, true);
    turn(&mut handler, &mut tools, &mut client);
    assert_counts(&rt, &client, (0, 0), true, false);
    turn(&mut handler, &mut tools, &mut client);
    assert_counts(&rt, &client, (0, 0), true, false);
    turn(&mut handler, &mut tools, &mut client);
    assert_counts(&rt, &client, (1, 7), false, false);
    turn(&mut handler, &mut tools, &mut client);
    assert_counts(&rt, &client, (3, 25), true, false);
    client.note_readable();
    assert_that(&rt, client.has_more());
    assert_that(&rt, !client.is_over());
    turn(&mut handler, &mut tools, &mut client);
    assert_counts(&rt, &client, (5, 49), false, false);
    turn(&mut handler, &mut tools, &mut client);
    assert_counts(&rt, &client, (5, 49), false, false);
    assert_that(&rt, client.is_over());
    assert_closed(&rt, alloc, client, End::Ended, (5, 1, 0), ANSWERS);
    let pass = handler.into_pass();
    ended(&rt, service, pass, 0);
}

// A turn takes up 64 requests. Those that have arrived and are left are more to do.
#[test]
fn a_client_with_more_than_a_share(rt: HostRuntime) {
    let alloc = rt.alloc();
    let (service, pass) = opened(&rt, alloc, 128, 0);
    let mut handler = Keeper::new(ServiceHandler::new(&rt, &service, &ZERO, pass));
    let mut tools = tools(&rt, alloc);
    let mut input = Vec::new(alloc);
    append(&rt, &mut input, &SESSION[..18]);
    for _ in 0..70 {
        append(&rt, &mut input, &SESSION[18..32]);
    }
    let mut client = paced(&rt, alloc, &input, &[], &[]);
    turn(&mut handler, &mut tools, &mut client);
    assert_counts(&rt, &client, (64, 7 + 63 * 11), true, true);
    client.take_turn(&mut handler, &mut tools);
    assert_counts(&rt, &client, (71, 7 + 63 * 11), false, false);
    assert_that(&rt, client.has_unsent());
    assert_that(&rt, !client.is_over());
    turn(&mut handler, &mut tools, &mut client);
    assert_counts(&rt, &client, (71, 7 + 70 * 11), false, false);
    assert_that(&rt, client.is_over());
    let served = closed_early(&rt, alloc, client);
    assert_served(&rt, &served, End::Ended, (71, 0, 0));
    assert_notifications(&rt, &mut tools, &[Notification::Settled; 70]);
    let pass = handler.into_pass();
    ended(&rt, service, pass, 0);
}

// There is room for the notifications of one event. If others come before they are taken, the last one
// is that anything may have changed.
#[test]
fn more_notifications_than_there_is_room_for(rt: HostRuntime) {
    const ROOM: usize = 204;
    let alloc = rt.alloc();
    let (service, pass) = opened(&rt, alloc, 128, 0);
    let mut handler = Keeper::new(ServiceHandler::new(&rt, &service, &ZERO, pass));
    let mut tools = tools(&rt, alloc);
    let mut input = Vec::new(alloc);
    append(&rt, &mut input, &SESSION[..18]);
    for _ in 0..=ROOM {
        append(&rt, &mut input, &SESSION[18..32]);
    }
    let mut client = roomy(&rt, alloc, &input);
    turn(&mut handler, &mut tools, &mut client);
    turn(&mut handler, &mut tools, &mut client);
    turn(&mut handler, &mut tools, &mut client);
    turn(&mut handler, &mut tools, &mut client);
    turn(&mut handler, &mut tools, &mut client);
    assert_that(&rt, client.is_over());
    let served = closed_early(&rt, alloc, client);
    assert_served(&rt, &served, End::Ended, (206, 0, 0));
    assert_is(&rt, tools.take_notification(), Some(Notification::Anything));
    assert_notifications(&rt, &mut tools, &[Notification::Settled; ROOM]);
    let pass = handler.into_pass();
    ended(&rt, service, pass, 0);
}

#[test]
fn the_notifications_of_a_send_and_a_receive(rt: HostRuntime) {
    let alloc = rt.alloc();
    let (service, pass) = opened(&rt, alloc, 128, 0);
    let mut handler = Keeper::new(ServiceHandler::new(&rt, &service, &ZERO, pass));
    let mut tools = tools(&rt, alloc);
    let mut client = paced(&rt, alloc, SESSION, &[Step::AtMost(56)], &[]);
    turn(&mut handler, &mut tools, &mut client);
    assert_that(&rt, !tools.has_taken(5));
    assert_notifications(&rt, &mut tools, &[ARRIVED, Notification::Settled]);
    turn(&mut handler, &mut tools, &mut client);
    assert_that(&rt, tools.has_taken(5));
    assert_that(&rt, !tools.has_taken(4));
    assert_is(&rt, tools.take_notification(), Some(Notification::Released));
    assert_that(&rt, tools.has_taken(5));
    assert_notifications(&rt, &mut tools, &[FREED]);
    assert_that(&rt, !tools.has_taken(5));
    turn(&mut handler, &mut tools, &mut client);
    assert_notifications(&rt, &mut tools, &[]);
    assert_closed(&rt, alloc, client, End::Ended, (5, 1, 0), ANSWERS);
    let pass = handler.into_pass();
    ended(&rt, service, pass, 0);
}

// A set and a removal are told to all that wait at the slot and to all that wait for blocks. A get
// that may make a queue and a removal are told to the gets that wait. A send that is refused may
// have returned blocks. A removal that fails changes nothing.
#[test]
fn the_notifications_of_a_set_a_refused_send_and_a_removal(rt: HostRuntime) {
    let alloc = rt.alloc();
    let (service, pass) = opened(&rt, alloc, 128, 0);
    let mut handler = Keeper::new(ServiceHandler::new(&rt, &service, &ZERO, pass));
    let mut tools = tools(&rt, alloc);
    let mut client = paced(
        &rt,
        alloc,
        CONTROLLED,
        &[Step::AtMost(58), Step::AtMost(25)],
        &[],
    );
    turn(&mut handler, &mut tools, &mut client);
    assert_notifications(
        &rt,
        &mut tools,
        &[Notification::Released, CHANGED, Notification::Settled],
    );
    turn(&mut handler, &mut tools, &mut client);
    assert_notifications(&rt, &mut tools, &[Notification::Released]);
    turn(&mut handler, &mut tools, &mut client);
    assert_notifications(
        &rt,
        &mut tools,
        &[Notification::Settled, Notification::Released, CHANGED],
    );
    turn(&mut handler, &mut tools, &mut client);
    assert_closed(&rt, alloc, client, End::Ended, (6, 0, 0), CONTROLS);
    let pass = handler.into_pass();
    ended(&rt, service, pass, 0);
}

// A send that waits for room may have returned blocks, and a receive that waits has changed
// nothing.
#[test]
fn the_notifications_of_calls_that_wait(rt: HostRuntime) {
    let alloc = rt.alloc();
    let (service, pass) = opened(&rt, alloc, 128, 0);
    let mut handler = Keeper::new(ServiceHandler::new(&rt, &service, &ZERO, pass));
    let mut tools = tools(&rt, alloc);
    let mut receives = client(&rt, alloc, WAITING, &[]);
    turn(&mut handler, &mut tools, &mut receives);
    assert_that(&rt, receives.waiting().is_some());
    assert_that(&rt, receives.is_within_request());
    assert_notifications(&rt, &mut tools, &[Notification::Settled]);
    let mut sends = paced(&rt, alloc, CROWDED, &[Step::AtMost(58)], &[]);
    turn(&mut handler, &mut tools, &mut sends);
    assert_notifications(
        &rt,
        &mut tools,
        &[Notification::Released, CHANGED, Notification::Settled],
    );
    turn(&mut handler, &mut tools, &mut sends);
    assert_that(&rt, sends.waiting().is_some());
    assert_notifications(&rt, &mut tools, &[Notification::Released]);
    let sent = closed_early(&rt, alloc, sends);
    assert_served(&rt, &sent, End::Left, (4, 0, 0));
    let received = closed_early(&rt, alloc, receives);
    assert_served(&rt, &received, End::Left, (3, 0, 0));
    let pass = handler.into_pass();
    ended(&rt, service, pass, 0);
}

// The receive is parked until another client has sent a message, and then its client reads on.
#[test]
fn a_parked_receive_goes_on(rt: HostRuntime) {
    let alloc = rt.alloc();
    let (service, mut pass) = opened(&rt, alloc, 128, 0);
    let other = split(&rt, alloc, &service, &mut pass);
    let mut handler = Keeper::new(ServiceHandler::new(&rt, &service, &ZERO, pass));
    let mut theirs = Keeper::new(ServiceHandler::new(&rt, &service, &ZERO, other));
    let mut tools = tools(&rt, alloc);
    let mut waits = client(&rt, alloc, WAITING, &[]);
    turn(&mut handler, &mut tools, &mut waits);
    assert_that(&rt, waits.waiting().is_some());
    assert_that(&rt, !waits.has_more());
    waits.go_on(&mut handler, &mut tools);
    assert_that(&rt, waits.waiting().is_some());
    let mut sends = client(&rt, alloc, &SESSION[..56], &[]);
    turn(&mut theirs, &mut tools, &mut sends);
    assert_closed(
        &rt,
        alloc,
        sends,
        End::Fault(sysv_wire::Fault::Read),
        (3, 0, 0),
        &ANSWERS[..25],
    );
    waits.go_on(&mut handler, &mut tools);
    waits.drain();
    assert_that(&rt, waits.waiting().is_none());
    assert_that(&rt, !waits.has_more());
    waits.note_readable();
    turn(&mut handler, &mut tools, &mut waits);
    assert_that(&rt, waits.is_over());
    assert_closed(&rt, alloc, waits, End::Ended, (3, 1, 0), RECEIVED);
    let mut pass = handler.into_pass();
    service.join_pass(&mut pass, theirs.into_pass());
    ended(&rt, service, pass, 0);
}

/// Has a client get the queue that is being made. Its get is parked until the identifier is
/// settled. The get of a second client is left meanwhile.
fn get_settled<R: Abort + Wait>(
    rt: &R,
    alloc: Global,
    handler: &mut Keeper<'_, Zero, R>,
    stage: &Stage,
)
    ensures { handler.new.handler.service ≡ handler.old.handler.service }
{
    let mut tools = tools(rt, alloc);
    let mut gets = client(rt, alloc, GETTING, &[]);
    let mut leaves = loose(rt, alloc, GETTING, &[]);
    stage.await_begun(rt);
    turn(handler, &mut tools, &mut gets);
    turn(handler, &mut tools, &mut leaves);
    leaves.leave();
    assert_closed(rt, alloc, leaves, End::Left, (2, 0, 0), &GOT[..7]);
    gets.go_on(handler, &mut tools);
    assert_that(rt, gets.waiting().is_some());
    assert_counts(rt, &gets, (2, 7), true, false);
    stage.finish(rt);
    gets.go_on(handler, &mut tools);
    assert_that(rt, gets.waiting().is_none());
    assert_notifications(rt, &mut tools, &[]);
    turn(handler, &mut tools, &mut gets);
    assert_closed(rt, alloc, gets, End::Ended, (2, 0, 0), GOT);
}

/// Makes the queue in one thread, and gets it in another one.
fn make_and_get<R: Threads + Abort + Wait + Sync>(
    rt: &R,
    alloc: Global,
    maker: &mut ServiceHandler<'_, Stage, R>,
    getter: &mut Keeper<'_, Zero, R>,
    stage: &Stage,
)
    ensures maker { maker.new.service ≡ maker.old.service }
    ensures getter { getter.new.handler.service ≡ getter.old.handler.service }
{
    // (each closure borrows a variable of its own)
    let other = alloc;
    join_mut(
        rt,
        &mut || stage.make(rt, other, maker),
        &mut || get_settled(rt, alloc, getter, stage),
    );
}

#[test]
fn a_parked_get_goes_on_or_is_left(rt: HostRuntime) {
    let alloc = rt.alloc();
    let (service, mut pass) = opened(&rt, alloc, 128, 0);
    let other = split(&rt, alloc, &service, &mut pass);
    let stage = Stage::new();
    let mut maker = ServiceHandler::new(&rt, &service, &stage, pass);
    let mut getter = Keeper::new(ServiceHandler::new(&rt, &service, &ZERO, other));
    make_and_get(&rt, alloc, &mut maker, &mut getter, &stage);
    let mut pass = maker.into_pass();
    service.join_pass(&mut pass, getter.into_pass());
    ended(&rt, service, pass, 0);
}

#[test]
fn a_parked_receive_is_left(rt: HostRuntime) {
    let alloc = rt.alloc();
    let (service, pass) = opened(&rt, alloc, 128, 0);
    let mut handler = Keeper::new(ServiceHandler::new(&rt, &service, &ZERO, pass));
    let mut tools = tools(&rt, alloc);
    let mut client = loose(&rt, alloc, WAITING, &[]);
    turn(&mut handler, &mut tools, &mut client);
    client.leave();
    assert_that(&rt, client.waiting().is_none());
    assert_that(&rt, client.is_over());
    assert_closed(&rt, alloc, client, End::Left, (3, 0, 0), GREETED);
    let pass = handler.into_pass();
    ended(&rt, service, pass, 0);
}

// A client that may neither leave nor be cut off goes on, and its parked call waits on.
#[test]
fn a_client_that_stays(rt: HostRuntime) {
    let alloc = rt.alloc();
    let (service, pass) = opened(&rt, alloc, 128, 0);
    let mut handler = Keeper::new(ServiceHandler::new(&rt, &service, &ZERO, pass));
    let mut tools = tools(&rt, alloc);
    let mut stays = client(&rt, alloc, WAITING, &[]);
    turn(&mut handler, &mut tools, &mut stays);
    assert_that(&rt, !stays.may_be_cut(Limit::Idle));
    stays.leave();
    stays.cut(Limit::Stall);
    stays.cut(Limit::Drain);
    assert_that(&rt, stays.waiting().is_some());
    assert_that(&rt, !stays.is_over());
    let loose = loose(&rt, alloc, WAITING, &[]);
    assert_that(&rt, loose.may_be_cut(Limit::Stall));
    assert_closed(&rt, alloc, stays, End::Left, (3, 0, 0), GREETED);
    assert_closed(
        &rt,
        alloc,
        loose,
        End::Fault(sysv_wire::Fault::Read),
        (0, 0, 0),
        &[],
    );
    let pass = handler.into_pass();
    ended(&rt, service, pass, 0);
}

// The connection takes the first two replies and a part of the third. The message in the fourth is
// lost.
#[test]
fn a_client_that_is_cut(rt: HostRuntime) {
    let alloc = rt.alloc();
    let (service, pass) = opened(&rt, alloc, 128, 0);
    let mut handler = Keeper::new(ServiceHandler::new(&rt, &service, &ZERO, pass));
    let mut tools = tools(&rt, alloc);
    let steps = [Step::AtMost(20), Step::AtMost(0), Step::AtMost(0)];
    let mut client = loose(&rt, alloc, SESSION, &steps);
    turn(&mut handler, &mut tools, &mut client);
    turn(&mut handler, &mut tools, &mut client);
    assert_that(&rt, client.has_unsent());
    assert_that(&rt, !client.is_over());
    assert_is(&rt, client.sent_bytes(), 20);
    client.cut(Limit::Idle);
    assert_that(&rt, client.is_over());
    assert_closed(&rt, alloc, client, End::Write, (5, 0, 1), &ANSWERS[..20]);
    let pass = handler.into_pass();
    ended(&rt, service, pass, 0);
}

/// Splits off a pass. Tolerates one refusal of memory.
pub(crate) fn split(rt: &impl Abort, alloc: Global, service: &Service, pass: &mut Pass) -> Pass
    requires { AreOf service.now pass.old.seats }
    ensures first { AreOf service.now pass.new.seats }
    ensures other { AreOf service.now result.seats }
{
    match service.split_pass(alloc, pass) {
        Ok(other) => other,
        Err(_) => service.split_pass(alloc, pass).expect(rt, "a second try"),
    }
}
