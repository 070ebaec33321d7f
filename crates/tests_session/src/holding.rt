//! Messages that clients hold: they are spent, or they come back.
ghost use Rattle.std.specs.Prelude.{◌≡◌};

use crate::client::{assert_closed, split, stream, tools, turn};
use crate::parts::{assert_is, assert_that, opened};
use crate::serving::ended;
use std::alloc::Global;
use std::process::Abort;
use std::sync::Wait;
use sysv_seats::{
    Client, Fate, Keeper, MemoryStream, Notification, Return, Returned, ServiceHandler, Tools,
    ZERO, Zero,
};
use sysv_session::End;
use sysv_wire::Version;

/// A hello in version 3, a get of key 7, a send of `hi` with type 5, a hold of a message of any type,
/// a done, and another done.
const SPENDING: &[u8] = &[
    0, 0, 0, 14, 3, 0, 0, 0, 3, 0xe8, 0, 0, 3, 0xe8, 0, 0, 0, 101, 0, 0, 0, 10, 3, 1, 0, 0, 0, 7,
    0, 0, 3, 0x80, 0, 0, 0, 20, 3, 2, 0, 0, 0, 0, 0, 0, 0, 0, 0, 0, 0, 5, 0, 0, 0, 0, 104, 105, 0,
    0, 0, 26, 3, 8, 0, 0, 0, 0, 0, 0, 0, 100, 0, 0, 0, 0, 0, 0, 0, 0, 0, 0, 0, 0, 0, 0, 0, 0, 0, 0,
    0, 2, 3, 9, 0, 0, 0, 2, 3, 9,
];

/// The requests of `SPENDING` up to the hold, which has a limit of 30 seconds.
const TIMED: &[u8] = &[
    0, 0, 0, 14, 3, 0, 0, 0, 3, 0xe8, 0, 0, 3, 0xe8, 0, 0, 0, 101, 0, 0, 0, 10, 3, 1, 0, 0, 0, 7,
    0, 0, 3, 0x80, 0, 0, 0, 20, 3, 2, 0, 0, 0, 0, 0, 0, 0, 0, 0, 0, 0, 5, 0, 0, 0, 0, 104, 105, 0,
    0, 0, 26, 3, 8, 0, 0, 0, 0, 0, 0, 0, 100, 0, 0, 0, 0, 0, 0, 0, 0, 0, 0, 0, 0, 0, 0, 0, 30,
];

/// The number of bytes of `SPENDING` up to the end of the hold.
const HOLDING: usize = 86;

/// The replies to `SPENDING`: the second done fails with EINVAL.
const SPENT: &[u8] = &[
    0, 0, 0, 7, 3, 0, 0, 0, 0, 1, 0, 0, 0, 0, 7, 3, 1, 0, 0, 0, 0, 0, 0, 0, 0, 3, 3, 2, 0, 0, 0, 0,
    13, 3, 8, 0, 0, 0, 0, 0, 0, 0, 0, 5, 104, 105, 0, 0, 0, 3, 3, 9, 0, 0, 0, 0, 3, 3, 9, 22,
];

/// The number of bytes of the replies up to that to the hold.
const HELD: usize = 46;

/// The replies up to that to the hold, if there is no memory for its message: it fails with EAGAIN.
const REFUSED: &[u8] = &[
    0, 0, 0, 7, 3, 0, 0, 0, 0, 1, 0, 0, 0, 0, 7, 3, 1, 0, 0, 0, 0, 0, 0, 0, 0, 3, 3, 2, 0, 0, 0, 0,
    3, 3, 8, 11,
];

/// The requests of `SPENDING` up to the hold, a back, and another back.
const RETURNING: &[u8] = &[
    0, 0, 0, 14, 3, 0, 0, 0, 3, 0xe8, 0, 0, 3, 0xe8, 0, 0, 0, 101, 0, 0, 0, 10, 3, 1, 0, 0, 0, 7,
    0, 0, 3, 0x80, 0, 0, 0, 20, 3, 2, 0, 0, 0, 0, 0, 0, 0, 0, 0, 0, 0, 5, 0, 0, 0, 0, 104, 105, 0,
    0, 0, 26, 3, 8, 0, 0, 0, 0, 0, 0, 0, 100, 0, 0, 0, 0, 0, 0, 0, 0, 0, 0, 0, 0, 0, 0, 0, 0, 0, 0,
    0, 2, 3, 10, 0, 0, 0, 2, 3, 10,
];

/// The replies to `RETURNING`: the second back fails with EINVAL.
const RETURNED: &[u8] = &[
    0, 0, 0, 7, 3, 0, 0, 0, 0, 1, 0, 0, 0, 0, 7, 3, 1, 0, 0, 0, 0, 0, 0, 0, 0, 3, 3, 2, 0, 0, 0, 0,
    13, 3, 8, 0, 0, 0, 0, 0, 0, 0, 0, 5, 104, 105, 0, 0, 0, 3, 3, 10, 0, 0, 0, 0, 3, 3, 10, 22,
];

/// The requests of `SPENDING` up to the hold, a set of the limit of the queue to 1 byte, and a back.
const CROWDING: &[u8] = &[
    0, 0, 0, 14, 3, 0, 0, 0, 3, 0xe8, 0, 0, 3, 0xe8, 0, 0, 0, 101, 0, 0, 0, 10, 3, 1, 0, 0, 0, 7,
    0, 0, 3, 0x80, 0, 0, 0, 20, 3, 2, 0, 0, 0, 0, 0, 0, 0, 0, 0, 0, 0, 5, 0, 0, 0, 0, 104, 105, 0,
    0, 0, 26, 3, 8, 0, 0, 0, 0, 0, 0, 0, 100, 0, 0, 0, 0, 0, 0, 0, 0, 0, 0, 0, 0, 0, 0, 0, 0, 0, 0,
    0, 22, 3, 5, 0, 0, 0, 0, 0, 0, 3, 0xe8, 0, 0, 3, 0xe8, 0, 0, 1, 0x80, 0, 0, 0, 1, 0, 0, 0, 2,
    3, 10,
];

/// The replies to `CROWDING`: the back fails with EIDRM.
const CROWDED_OUT: &[u8] = &[
    0, 0, 0, 7, 3, 0, 0, 0, 0, 1, 0, 0, 0, 0, 7, 3, 1, 0, 0, 0, 0, 0, 0, 0, 0, 3, 3, 2, 0, 0, 0, 0,
    13, 3, 8, 0, 0, 0, 0, 0, 0, 0, 0, 5, 104, 105, 0, 0, 0, 3, 3, 5, 0, 0, 0, 0, 3, 3, 10, 43,
];

/// A hello in version 1, and a set of the limit of the first queue to 1 byte.
const NARROWING: &[u8] = &[
    0, 0, 0, 14, 1, 0, 0, 0, 3, 0xe8, 0, 0, 3, 0xe8, 0, 0, 0, 101, 0, 0, 0, 22, 1, 5, 0, 0, 0, 0,
    0, 0, 3, 0xe8, 0, 0, 3, 0xe8, 0, 0, 1, 0x80, 0, 0, 0, 1,
];

/// A hello in version 1, and a removal of the first queue.
const REMOVING: &[u8] = &[
    0, 0, 0, 14, 1, 0, 0, 0, 3, 0xe8, 0, 0, 3, 0xe8, 0, 0, 0, 101, 0, 0, 0, 6, 1, 6, 0, 0, 0, 0,
];

/// The replies to a hello and a set, and to a hello and a removal, in version 1.
const NARROWED: &[u8] = &[0, 0, 0, 3, 1, 0, 0, 0, 0, 0, 3, 1, 5, 0];

const REMOVED: &[u8] = &[0, 0, 0, 3, 1, 0, 0, 0, 0, 0, 3, 1, 6, 0];

/// Has the client of this connection take its turns, and closes it. Its session may hold messages.
fn serve<R: Abort + Wait>(
    rt: &R,
    alloc: Global,
    handler: &mut Keeper<'_, Zero, R>,
    tools: &mut Tools,
    input: &[u8],
    requests: u32,
    replies: &[u8],
)
    ensures { handler.new.handler.service ≡ handler.old.handler.service }
{
    let connection = stream(rt, alloc, input, &[], &[]);
    let mut client: Client<MemoryStream<'_>> = Client::open(alloc, connection, Version::Three);
    turn(handler, tools, &mut client);
    turn(handler, tools, &mut client);
    assert_closed(rt, alloc, client, End::Ended, (requests, 0, 0), replies);
}

/// Begins to give back what the handler holds.
fn given_back<R: Abort + Wait>(handler: &mut Keeper<'_, Zero, R>, tools: &mut Tools) -> Return
    ensures { handler.new.handler.service ≡ handler.old.handler.service }
{
    handler.give_back(tools)
}

/// Has what gives back a message go on, if it waits.
fn went_on<R: Abort + Wait>(
    handler: &mut Keeper<'_, Zero, R>,
    tools: &mut Tools,
    came: Return,
) -> Return
    ensures { handler.new.handler.service ≡ handler.old.handler.service }
{
    match came {
        Return::Waits(wait) => handler.give_back_on(wait, tools),
        Return::Nothing | Return::Over(_) => came,
    }
}

#[test]
fn a_message_is_spent_once(rt: HostRuntime) {
    let alloc = rt.alloc();
    let (service, pass) = opened(&rt, alloc, 128, 0);
    let mut handler = Keeper::new(ServiceHandler::new(&rt, &service, &ZERO, pass));
    let mut tools = tools(&rt, alloc);
    handler.set_memory(Some(alloc));
    serve(&rt, alloc, &mut handler, &mut tools, SPENDING, 6, SPENT);
    assert_that(&rt, !handler.has_message());
    assert_that(
        &rt,
        matches!(given_back(&mut handler, &mut tools), Return::Nothing),
    );
    let pass = handler.into_pass();
    ended(&rt, service, pass, 0);
}

#[test]
fn a_message_that_is_held_at_the_end_comes_back(rt: HostRuntime) {
    let alloc = rt.alloc();
    let (service, pass) = opened(&rt, alloc, 128, 0);
    let mut handler = Keeper::new(ServiceHandler::new(&rt, &service, &ZERO, pass));
    let mut tools = tools(&rt, alloc);
    handler.set_memory(Some(alloc));
    let (input, replies) = (&SPENDING[..HOLDING], &SPENT[..HELD]);
    serve(&rt, alloc, &mut handler, &mut tools, input, 4, replies);
    assert_that(&rt, handler.has_message());
    assert_is(
        &rt,
        (handler.return_length(), handler.blocks_in_use()),
        (24, 0),
    );
    let came = given_back(&mut handler, &mut tools);
    assert_that(&rt, matches!(came, Return::Over(Fate::Sent)));
    assert_that(&rt, !handler.has_message());
    let pass = handler.into_pass();
    ended(&rt, service, pass, 1);
}

// Clients that wait for a message of this type are told.
#[test]
fn a_back_sends_the_message_again(rt: HostRuntime) {
    let alloc = rt.alloc();
    let (service, pass) = opened(&rt, alloc, 128, 0);
    let mut handler = Keeper::new(ServiceHandler::new(&rt, &service, &ZERO, pass));
    let mut tools = tools(&rt, alloc);
    handler.set_memory(Some(alloc));
    serve(&rt, alloc, &mut handler, &mut tools, RETURNING, 6, RETURNED);
    assert_that(&rt, !handler.has_message());
    let told = Notification::Arrived { slot: 0, mtype: 5 };
    assert_is(&rt, tools.take_notification(), Some(told));
    let pass = handler.into_pass();
    ended(&rt, service, pass, 1);
}

// The message is held until its send is over, here because its queue was removed.
#[test]
fn a_back_waits_like_any_send(rt: HostRuntime) {
    let alloc = rt.alloc();
    let (service, mut pass) = opened(&rt, alloc, 128, 0);
    let other = split(&rt, alloc, &service, &mut pass);
    let mut handler = Keeper::new(ServiceHandler::new(&rt, &service, &ZERO, pass));
    let mut theirs = Keeper::new(ServiceHandler::new(&rt, &service, &ZERO, other));
    let mut tools = tools(&rt, alloc);
    handler.set_memory(Some(alloc));
    let connection = stream(&rt, alloc, CROWDING, &[], &[]);
    let mut client: Client<MemoryStream<'_>> = Client::open(alloc, connection, Version::Three);
    turn(&mut handler, &mut tools, &mut client);
    client.go_on(&mut handler, &mut tools);
    assert_that(&rt, client.awaits_back());
    assert_that(&rt, handler.has_message());
    serve(&rt, alloc, &mut theirs, &mut tools, REMOVING, 2, REMOVED);
    client.go_on(&mut handler, &mut tools);
    assert_that(&rt, !client.awaits_back());
    assert_that(&rt, !handler.has_message());
    turn(&mut handler, &mut tools, &mut client);
    assert_closed(&rt, alloc, client, End::Ended, (6, 0, 0), CROWDED_OUT);
    let mut pass = handler.into_pass();
    service.join_pass(&mut pass, theirs.into_pass());
    ended(&rt, service, pass, 0);
}

#[test]
fn a_hold_without_memory_takes_nothing(rt: HostRuntime) {
    let alloc = rt.alloc();
    let (service, pass) = opened(&rt, alloc, 128, 0);
    let mut handler = Keeper::new(ServiceHandler::new(&rt, &service, &ZERO, pass));
    let mut tools = tools(&rt, alloc);
    serve(
        &rt,
        alloc,
        &mut handler,
        &mut tools,
        &SPENDING[..HOLDING],
        4,
        REFUSED,
    );
    assert_that(&rt, !handler.has_message());
    let pass = handler.into_pass();
    ended(&rt, service, pass, 1);
}

#[test]
fn a_message_is_held_for_its_seconds(rt: HostRuntime) {
    let alloc = rt.alloc();
    let (service, pass) = opened(&rt, alloc, 128, 0);
    let mut handler = Keeper::new(ServiceHandler::new(&rt, &service, &ZERO, pass));
    let mut tools = tools(&rt, alloc);
    handler.set_memory(Some(alloc));
    assert_is(&rt, (handler.is_untimed(), handler.seconds()), (false, 0));
    serve(
        &rt,
        alloc,
        &mut handler,
        &mut tools,
        TIMED,
        4,
        &SPENT[..HELD],
    );
    assert_is(&rt, (handler.is_untimed(), handler.seconds()), (true, 30));
    handler.set_due(Some(5));
    assert_is(&rt, (handler.is_untimed(), handler.due()), (false, Some(5)));
    let came = given_back(&mut handler, &mut tools);
    assert_that(&rt, matches!(came, Return::Over(Fate::Sent)));
    assert_is(&rt, (handler.is_untimed(), handler.seconds()), (false, 0));
    assert_is(&rt, handler.take_returns(), Returned { sent: 1, gone: 0 });
    assert_is(&rt, handler.take_returns(), Returned::NONE);
    let pass = handler.into_pass();
    ended(&rt, service, pass, 1);
}

// The message waits for room, and is discarded once its queue is removed.
#[test]
fn a_return_waits_like_any_send(rt: HostRuntime) {
    let alloc = rt.alloc();
    let (service, mut pass) = opened(&rt, alloc, 128, 0);
    let other = split(&rt, alloc, &service, &mut pass);
    let mut handler = Keeper::new(ServiceHandler::new(&rt, &service, &ZERO, pass));
    let mut theirs = Keeper::new(ServiceHandler::new(&rt, &service, &ZERO, other));
    let mut tools = tools(&rt, alloc);
    handler.set_memory(Some(alloc));
    let (input, replies) = (&SPENDING[..HOLDING], &SPENT[..HELD]);
    serve(&rt, alloc, &mut handler, &mut tools, input, 4, replies);
    serve(&rt, alloc, &mut theirs, &mut tools, NARROWING, 2, NARROWED);
    let mut came = given_back(&mut handler, &mut tools);
    assert_that(&rt, matches!(came, Return::Waits(_)));
    came = went_on(&mut handler, &mut tools, came);
    assert_that(&rt, matches!(came, Return::Waits(_)));
    assert_that(&rt, handler.has_message());
    serve(&rt, alloc, &mut theirs, &mut tools, REMOVING, 2, REMOVED);
    came = went_on(&mut handler, &mut tools, came);
    assert_that(&rt, matches!(came, Return::Over(Fate::Discarded)));
    assert_that(&rt, !handler.has_message());
    let mut pass = handler.into_pass();
    service.join_pass(&mut pass, theirs.into_pass());
    ended(&rt, service, pass, 0);
}

#[test]
fn at_most_seven_eighths_of_the_places_hold_messages(rt: HostRuntime) {
    let mut tools = tools(&rt, rt.alloc());
    tools.share_places(16);
    for _ in 0..14 {
        assert_that(&rt, tools.may_hold_more());
        tools.count_hold(true);
    }
    assert_that(&rt, !tools.may_hold_more());
    tools.count_hold(false);
    assert_that(&rt, tools.may_hold_more());
    tools.share_places(1);
    assert_that(&rt, !tools.may_hold_more());
    tools.count_held(true);
    tools.count_held(true);
    tools.count_held(false);
    assert_is(&rt, tools.held(), 1);
}
