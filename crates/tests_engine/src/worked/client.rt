//! The session by a client as a value, over a connection in memory.
ghost use Rattle.std.specs.Prelude.{◌≡◌};

use super::{
    WHOLE, Wanted, assert_done, is_between_requests, opened, wanted_after, wanted_at_failure,
    whole_requests,
};
use crate::parts::assert_is;
use std::alloc::Global;
use std::process::Abort;
use std::sync::Wait;
use sysv_seats::{Client, Keeper, MemoryStream, Replies, ServiceHandler, Step, Tools, ZERO, Zero};
use sysv_service::Closed;
use sysv_session::{End, Served};
use sysv_wire::{Fault, Version};
use tests_kit::worked::{ANSWERS, SESSION};

/// The room for the replies of a connection.
const ROOM: usize = 512;

/// The number of turns in which a session is over.
const TURNS: u32 = 512;

/// The number of times that the connection is given the replies in a turn. It is more than the
/// number of bytes of the replies.
const DRAINS: u32 = 64;

/// The number of steps of a connection. It is more than twice the number of bytes of the session.
const STEPS: usize = 256;

/// Has the client take turns until it is over. In each turn it reads once, and the connection is
/// given the replies.
fn take_turns<R: Wait>(
    handler: &mut Keeper<'_, Zero, R>,
    tools: &mut Tools,
    client: &mut Client<MemoryStream<'_>>,
)
    ensures { handler.new.handler.service ≡ handler.old.handler.service }
{
    for _ in 0..TURNS {
        if client.is_over() {
            return;
        }
        client.note_readable();
        client.take_turn(handler, tools);
        drain_often(client);
    }
}

/// Gives the connection the replies again and again.
fn drain_often(client: &mut Client<MemoryStream<'_>>) {
    for _ in 0..DRAINS {
        client.drain();
    }
}

/// A connection in memory, by what it reads and by the steps of its reads and its writes.
#[derive(Clone, Copy)]
struct Stream<'a> {
    input: &'a [u8],
    reads: &'a [Step],
    writes: &'a [Step],
}

/// Returns the tools of a worker.
fn tools(rt: &impl Abort, alloc: Global) -> Tools {
    Tools::open(alloc).expect(rt, "memory")
}

/// Returns the client of this connection.
fn client<'a>(rt: &impl Abort, alloc: Global, stream: Stream<'a>) -> Client<MemoryStream<'a>> {
    let Stream {
        input,
        reads,
        writes,
    } = stream;
    let connection = MemoryStream::new(alloc, input, ROOM, reads, writes).expect(rt, "memory");
    Client::open(alloc, connection, Version::Two)
}

/// Serves the client of this connection on a new service until it is over. Returns what its session
/// did, and what is left of the service.
fn served<R: Abort + Wait>(
    rt: &R,
    alloc: Global,
    stream: Stream<'_>,
    book: &mut Replies,
) -> (Served, Closed) {
    let (service, pass) = opened(rt, alloc);
    let mut handler = Keeper::new(ServiceHandler::new(rt, &service, &ZERO, pass));
    let mut client = client(rt, alloc, stream);
    take_turns(&mut handler, &mut tools(rt, alloc), &mut client);
    assert_is(rt, client.is_over(), true);
    let told = client.close(book);
    let pass = handler.into_pass();
    (told, service.close(pass))
}

/// Serves the client of this connection, and asserts what its session did and left.
fn assert_served<R: Abort + Wait>(
    rt: &R,
    alloc: Global,
    stream: Stream<'_>,
    wanted: &Wanted<'_>,
    place: usize,
) {
    let mut book = Replies::with_room(alloc, 1).expect(rt, "memory");
    let (told, closed) = served(rt, alloc, stream, &mut book);
    let replies = book.kept().first().expect(rt, "a connection");
    assert_done(rt, &told, replies.as_slice(), closed, wanted, place);
}

// Nothing has arrived between the two parts.
#[test]
fn the_session_cut_after_each_byte(rt: HostRuntime) {
    for cut in 0..SESSION.len() + 1 {
        let stream = Stream {
            input: SESSION,
            reads: &[Step::AtMost(cut), Step::AtMost(0)],
            writes: &[],
        };
        assert_served(&rt, rt.alloc(), stream, &WHOLE, cut);
    }
}

/// Returns steps that move at most this number of bytes, and nothing between.
fn in_pieces(piece: usize) -> [Step; STEPS] {
    let mut steps = [Step::AtMost(piece); STEPS];
    for step in steps.iter_mut().skip(1).step_by(2) {
        *step = Step::AtMost(0);
    }
    steps
}

#[test]
fn the_session_by_pieces(rt: HostRuntime) {
    for piece in [1, 2, 3, 7, 64] {
        let steps = in_pieces(piece);
        let stream = Stream {
            input: SESSION,
            reads: &steps,
            writes: &steps,
        };
        assert_served(&rt, rt.alloc(), stream, &WHOLE, piece);
    }
}

#[test]
fn the_session_ended_after_each_byte(rt: HostRuntime) {
    for cut in 0..SESSION.len() {
        let end = if is_between_requests(cut) {
            End::Ended
        } else {
            End::Fault(Fault::Truncated)
        };
        let stream = Stream {
            input: &SESSION[..cut],
            reads: &[],
            writes: &[],
        };
        let wanted = wanted_after(whole_requests(cut), end);
        assert_served(&rt, rt.alloc(), stream, &wanted, cut);
    }
}

#[test]
fn the_connection_fails_to_read_after_each_byte(rt: HostRuntime) {
    for good in 0..SESSION.len() + 1 {
        let wanted = wanted_after(whole_requests(good), End::Fault(Fault::Read));
        let stream = Stream {
            input: SESSION,
            reads: &[Step::AtMost(good), Step::Fail],
            writes: &[],
        };
        assert_served(&rt, rt.alloc(), stream, &wanted, good);
    }
}

// After four requests the last byte that the connection has taken is that of a message's frame,
// which the client has not read.
#[test]
fn the_connection_is_reset_after_each_byte(rt: HostRuntime) {
    for good in 0..SESSION.len() + 1 {
        let requests = whole_requests(good);
        let mut wanted = wanted_after(requests, End::Reset);
        if requests == 4 {
            wanted.counts = (4, 1, 0, 1);
        }
        let stream = Stream {
            input: SESSION,
            reads: &[Step::AtMost(good), Step::Reset],
            writes: &[],
        };
        assert_served(&rt, rt.alloc(), stream, &wanted, good);
    }
}

/// Reads that return one request each.
const REQUESTS: &[Step] = &[
    Step::AtMost(18),
    Step::AtMost(14),
    Step::AtMost(24),
    Step::AtMost(26),
    Step::AtMost(26),
];

/// Returns steps of which each moves one byte, and the one after `taken` of them fails.
fn failing_after(taken: usize, failure: Step) -> [Step; STEPS] {
    let mut steps = [Step::AtMost(1); STEPS];
    if let Some(step) = steps.get_mut(taken) {
        *step = failure;
    }
    steps
}

// Each request arrives after the replies to those before it were taken.
#[test]
fn the_connection_fails_to_write_after_each_byte(rt: HostRuntime) {
    for taken in 0..ANSWERS.len() {
        let wanted = wanted_at_failure(taken);
        for failure in [Step::Fail, Step::Reset] {
            let stream = Stream {
                input: SESSION,
                reads: REQUESTS,
                writes: &failing_after(taken, failure),
            };
            assert_served(&rt, rt.alloc(), stream, &wanted, taken);
        }
    }
}

// All requests arrive at once: all replies are gathered before the connection takes any of them.
// The message is written with the 42nd byte.
#[test]
fn the_connection_fails_to_write_gathered_replies(rt: HostRuntime) {
    for taken in 0..ANSWERS.len() {
        let (written, lost) = if taken < 42 { (0, 1) } else { (1, 0) };
        let wanted = Wanted {
            end: End::Write,
            counts: (5, 1, written, lost),
            replies: &ANSWERS[..taken.min(49)],
            queued: 0,
        };
        let stream = Stream {
            input: SESSION,
            reads: &[],
            writes: &failing_after(taken, Step::Fail),
        };
        assert_served(&rt, rt.alloc(), stream, &wanted, taken);
    }
}
