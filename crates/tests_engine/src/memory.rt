//! Servers over connections in memory, whose sessions and replies were worked out by hand.
ghost use Rattle.std.specs.Prelude.{◌≡◌, ◌≤◌, vec_len};

use crate::frames::{CREATE, EMPTY, FOUND, HELLO, KNOWN, RECEIVE, RECEIVED, SEND, SENT, sums};
use crate::parts::assert_is;
use std::alloc::Global;
use std::process::Abort;
use std::sync::Wait;
use std::thread::Threads;
use sysv_engine::{Ended, Fates, Patience, serve_connections};
use sysv_seats::{MemoryStream, Replies, Step};
use sysv_workers::Source;
use tests_kit::worked::{ANSWERS, SESSION};

/// A source of the connections of a list, the last one first.
#[derive(Drop)]
struct Listed<'a> {
    left: Vec<MemoryStream<'a>>,
}

impl<'a> Source<MemoryStream<'a>> for Listed<'a> {
    ghost gives = { λ old given new. old.left.items ≡ new.left.items ++ option_to_list given };

    ghost use Rattle.std.specs.Prelude.{◌≡◌, ◌++◌, option_to_list};

    fn next(&mut self) -> Option<MemoryStream<'a>> {
        self.left.pop()
    }
}

/// Returns these bytes one after another.
fn joined(rt: &impl Abort, alloc: Global, parts: &[&[u8]]) -> Vec<u8> {
    let mut all = Vec::new(alloc);
    for part in parts {
        all.extend_from_slice(part).expect(rt, "memory");
    }
    all
}

/// The room for the replies of a connection.
const ROOM: usize = 512;

/// Serves connections on which clients write these bytes, with a place for each book and this
/// number of workers. Each read and write of a connection goes by the steps.
fn served<R: Threads + Wait + Abort + Sync>(
    rt: &R,
    alloc: Global,
    clients: &[&[u8]],
    steps: &[Step],
    books: &mut Vec<Replies>,
    workers: u32,
) -> Ended
    requires { (1 ≤ workers) × (workers ≤ 16) × (workers ≤ vec_len books.old) }
{
    let mut source = Listed {
        left: Vec::new(alloc),
    };
    for input in clients {
        let connection = MemoryStream::new(alloc, input, ROOM, steps, steps).expect(rt, "memory");
        source.left.push(connection).expect(rt, "memory");
    }
    serve_connections(rt, alloc, &mut source, books, workers, 128).expect(rt, "memory and threads")
}

/// Returns a book with room for two connections.
fn book(rt: &impl Abort, alloc: Global) -> Replies {
    Replies::with_room(alloc, 2).expect(rt, "memory")
}

/// Returns the number of connections in these books to which these replies were written.
fn count(books: &[Replies], replies: &[u8]) -> usize {
    let mut count = 0usize;
    for book in books {
        for kept in book.kept() {
            if kept.as_slice() == replies {
                count = count.saturating_add(1);
            }
        }
    }
    count
}

/// What became of messages that were held, if none was.
const NO_FATES: Fates = Fates {
    sent: 0,
    discarded: 0,
    refused: 0,
    unsent: 0,
};

/// Asserts that the server ended after this number of sessions, in which one message was written,
/// removed one queue without messages, and cut off no call.
fn assert_ended(rt: &impl Abort, ended: Ended, sessions: u64) {
    let wanted = Ended {
        sums: sums(sessions, 1, 0),
        refused: 0,
        fates: NO_FATES,
        removed: Ok(1),
        queued: 0,
        cut: 0,
        closed: EMPTY,
        setting: ended.setting,
    };
    assert_is(rt, ended, wanted);
    assert_is(rt, ended.setting.patience(), Patience::UNBOUNDED);
    assert_is(rt, ended.setting.drain(), 0);
    assert_is(rt, ended.setting.holds(), false);
}

/// Asserts that these replies, one after another, were written to one connection in these books.
fn assert_once(rt: &impl Abort, alloc: Global, books: &[Replies], replies: &[&[u8]]) {
    let found = count(books, joined(rt, alloc, replies).as_slice());
    assert_is(rt, found, 1);
}

// The replies of the session are those that were worked out by hand.
#[test]
fn a_worked_session_in_memory(rt: HostRuntime) {
    let alloc = rt.alloc();
    let mut books = Vec::from_array(alloc, [book(&rt, alloc)]).expect(&rt, "memory");
    let ended = served(&rt, alloc, &[SESSION], &[], &mut books, 1);
    assert_ended(&rt, ended, 1);
    assert_is(&rt, count(books.as_slice(), ANSWERS), 1);
}

// One client sends a message, and the other waits for it. Either may be first, and either may be
// with either worker.
#[test]
fn two_clients_in_memory(rt: HostRuntime) {
    let alloc = rt.alloc();
    let sender = joined(&rt, alloc, &[HELLO, CREATE, SEND]);
    let receiver = joined(&rt, alloc, &[HELLO, CREATE, RECEIVE]);
    let (sender, receiver) = (sender.as_slice(), receiver.as_slice());
    assert_two_are_served(&rt, alloc, &[sender, receiver]);
    assert_two_are_served(&rt, alloc, &[receiver, sender]);
}

/// Asserts that two workers serve these two clients.
fn assert_two_are_served<R: Threads + Wait + Abort + Sync>(
    rt: &R,
    alloc: Global,
    clients: &[&[u8]],
) {
    let books = [book(rt, alloc), book(rt, alloc)];
    let mut books = Vec::from_array(alloc, books).expect(rt, "memory");
    let ended = served(rt, alloc, clients, &[], &mut books, 2);
    assert_ended(rt, ended, 2);
    assert_once(rt, alloc, books.as_slice(), &[KNOWN, FOUND, SENT]);
    assert_once(rt, alloc, books.as_slice(), &[KNOWN, FOUND, RECEIVED]);
}

// With one place, the replies are in the order of the connections. The source returns the last
// client first: the message is there when the other client receives it.
#[test]
fn one_place_serves_in_order(rt: HostRuntime) {
    let alloc = rt.alloc();
    let mut books = Vec::from_array(alloc, [book(&rt, alloc)]).expect(&rt, "memory");
    let sender = joined(&rt, alloc, &[HELLO, CREATE, SEND]);
    let receiver = joined(&rt, alloc, &[HELLO, CREATE, RECEIVE]);
    let clients = [receiver.as_slice(), sender.as_slice()];
    let ended = served(&rt, alloc, &clients, &[], &mut books, 1);
    assert_ended(&rt, ended, 2);
    assert_in_order(&rt, alloc, books.as_slice());
}

/// Asserts that the first of these books has the replies of the sender and then of the receiver.
fn assert_in_order(rt: &impl Abort, alloc: Global, books: &[Replies]) {
    let kept = books.first().expect(rt, "a book").kept();
    assert_eq!(rt; kept.len(), 2);
    let (first, second) = (kept[0].as_slice(), kept[1].as_slice());
    let sent = joined(rt, alloc, &[KNOWN, FOUND, SENT]);
    assert_is(rt, first, sent.as_slice());
    let received = joined(rt, alloc, &[KNOWN, FOUND, RECEIVED]);
    assert_is(rt, second, received.as_slice());
}

/// Steps that move a few bytes at a time, with nothing to move between.
const PIECES: &[Step] = &[
    Step::AtMost(3),
    Step::AtMost(0),
    Step::AtMost(1),
    Step::AtMost(16),
    Step::AtMost(0),
    Step::AtMost(2),
    Step::AtMost(7),
];

// Two workers serve three connections that move in pieces. One client waits for the message of
// another, and the third waits for nobody. Any of them may be first, and any may be with either
// worker.
#[test]
fn three_clients_in_pieces(rt: HostRuntime) {
    let alloc = rt.alloc();
    let sender = joined(&rt, alloc, &[HELLO, CREATE, SEND]);
    let receiver = joined(&rt, alloc, &[HELLO, CREATE, RECEIVE]);
    let finder = joined(&rt, alloc, &[HELLO, CREATE]);
    let (sender, receiver, finder) = (sender.as_slice(), receiver.as_slice(), finder.as_slice());
    assert_three_are_served(&rt, alloc, &[sender, receiver, finder]);
    assert_three_are_served(&rt, alloc, &[receiver, finder, sender]);
    assert_three_are_served(&rt, alloc, &[finder, sender, receiver]);
}

/// Asserts that two workers serve these three clients, whose connections move in pieces.
fn assert_three_are_served<R: Threads + Wait + Abort + Sync>(
    rt: &R,
    alloc: Global,
    clients: &[&[u8]],
) {
    let books = [book(rt, alloc), book(rt, alloc), book(rt, alloc)];
    let mut books = Vec::from_array(alloc, books).expect(rt, "memory");
    let ended = served(rt, alloc, clients, PIECES, &mut books, 2);
    assert_ended(rt, ended, 3);
    assert_once(rt, alloc, books.as_slice(), &[KNOWN, FOUND, SENT]);
    assert_once(rt, alloc, books.as_slice(), &[KNOWN, FOUND, RECEIVED]);
    assert_once(rt, alloc, books.as_slice(), &[KNOWN, FOUND]);
}
