//! The session whose frames were worked out by hand, over a service: cut and ended after each byte,
//! in pieces, and with streams that fail after each byte.
ghost use Rattle.std.specs.Prelude.{◌≡◌};
ghost use Rattle.sysv_service.specs.Seats.{AreOf};

mod client;
mod handler;

use crate::parts::{assert_at, assert_is};
use std::alloc::Global;
use std::process::Abort;
use sysv_service::{Closed, OpenRefused, Pass, Service};
use sysv_session::{End, Served};
use tests_kit::worked::{ANSWERS, REQUEST_ENDS};

/// What a session is to do and to leave.
#[derive(Clone, Copy)]
struct Wanted<'a> {
    end: End,
    /// The numbers of its requests, and of the messages that were taken, written and lost.
    counts: (u32, u64, u64, u64),
    replies: &'a [u8],
    /// The number of messages that are left in the queue.
    queued: u64,
}

/// The whole session.
const WHOLE: Wanted = Wanted {
    end: End::Ended,
    counts: (5, 1, 1, 0),
    replies: ANSWERS,
    queued: 0,
};

/// Returns the number of requests in the first `count` bytes of the session.
fn whole_requests(count: usize) -> usize {
    REQUEST_ENDS.iter().filter(|end| **end <= count).count()
}

/// Returns whether no request is cut by an end after the first `count` bytes.
fn is_between_requests(count: usize) -> bool {
    count == 0 || REQUEST_ENDS.contains(&count)
}

/// Returns what a session does that ends this way after it has replied to `requests` requests. The
/// third request sends a message, and the fourth receives it.
fn wanted_after(requests: usize, end: End) -> Wanted<'static> {
    let (counts, length, queued) = match requests {
        0 => ((0, 0, 0, 0), 0, 0),
        1 => ((1, 0, 0, 0), 7, 0),
        2 => ((2, 0, 0, 0), 18, 0),
        3 => ((3, 0, 0, 0), 25, 1),
        4 => ((4, 1, 1, 0), 42, 0),
        _ => ((5, 1, 1, 0), 49, 0),
    };
    Wanted {
        end,
        counts,
        replies: &ANSWERS[..length.min(49)],
        queued,
    }
}

/// Returns what a session does whose writer fails after this number of bytes, if each reply is
/// written before the next request is taken up.
fn wanted_at_failure(taken: usize) -> Wanted<'static> {
    let (counts, queued) = match taken {
        0..=6 => ((1, 0, 0, 0), 0),
        7..=17 => ((2, 0, 0, 0), 0),
        18..=24 => ((3, 0, 0, 0), 1),
        25..=41 => ((4, 1, 0, 1), 0),
        _ => ((5, 1, 1, 0), 0),
    };
    Wanted {
        end: End::Write,
        counts,
        replies: &ANSWERS[..taken.min(49)],
        queued,
    }
}

/// Asserts that a session did this with these replies, and that this is left of its service.
/// `place` is named if not.
fn assert_done(
    rt: &impl Abort,
    told: &Served,
    replies: &[u8],
    closed: Closed,
    wanted: &Wanted<'_>,
    place: usize,
) {
    let tally = &told.tally;
    let counts = (told.requests, tally.taken(), tally.written(), tally.lost());
    let left = Closed {
        waiting: wanted.queued,
        free: 128,
        held: 0,
    };
    assert_at(rt, told.end, wanted.end, place);
    assert_at(rt, counts, wanted.counts, place);
    assert_at(rt, replies, wanted.replies, place);
    assert_at(rt, closed, left, place);
}

/// Opens a service with 128 blocks. Tolerates one refusal of memory.
fn opened(rt: &impl Abort, alloc: Global) -> (Service, Pass)
    ensures { AreOf result.0 result.1.seats }
{
    match Service::open(alloc, 128) {
        Ok(opened) => opened,
        Err(why) => {
            assert_is(rt, why, OpenRefused::NoMemory);
            match Service::open(alloc, 128) {
                Ok(opened) => opened,
                Err(why) => panic!(rt; "a second try: {why:?}"),
            }
        }
    }
}
