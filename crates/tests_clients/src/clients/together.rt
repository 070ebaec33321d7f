//! Messages that come together.
use super::ahead::{requested, shown};
use super::*;
use std::io::{BufRead, BufReader};
use sysv_clients::{ClientFault, Receiving, Stop, Unshown, receive_all};

const NO_MEMORY: Result<(), Stop> = Err(Stop::Fault(ClientFault::NoMemory));

/// The bytes before the body of a message with 1,000 bytes, of type 5.
const LONG_HEAD: &[u8] = b"\0\0\x03\xf3\x02\x03\0\0\0\0\0\0\0\0\x05";

/// The number of bytes in that body.
const LONG: usize = 1_000;

/// Returns a reader that has the replies of a dialogue, and reads them ahead.
fn ahead_of(rt: &impl Abort, alloc: Global, replies: &[&[u8]]) -> BufReader<Tape, Global> {
    match BufReader::new(alloc, joined(rt, alloc, replies)) {
        Ok(reader) => reader,
        Err(_) => BufReader::new(alloc, joined(rt, alloc, replies)).expect(rt, "a second try"),
    }
}

/// Receives this number of messages, all of which may be requested before they come.
fn receive(
    alloc: Global,
    replies: &mut BufReader<Tape, Global>,
    requests: &mut Tape,
    screen: &mut Tape,
    count: u32,
) -> Result<(), Stop> {
    let receiving = Receiving {
        cred: WHO,
        receipt: ANY,
        count: u64::from(count),
        ahead: count,
    };
    receive_all(alloc, &receiving, replies, requests, screen)
}

#[test]
fn messages_that_came_together_are_one_write(rt: HostRuntime) {
    // (the bytes that one read returns, and the number of writes to the screen)
    let together = WELCOME.len() + GOT.len() + 5 * MESSAGE.len();
    for (piece, flushes) in [(together, 1), (MESSAGE.len(), 5), (together - 1, 2)] {
        let mut replies = ahead_of(
            &rt,
            rt.alloc(),
            &[WELCOME, GOT, MESSAGE, MESSAGE, MESSAGE, MESSAGE, MESSAGE],
        );
        replies.get_mut().piece = piece;
        let (mut requests, mut screen) = (Tape::new(&rt, rt.alloc()), Tape::new(&rt, rt.alloc()));
        let outcome = receive(rt.alloc(), &mut replies, &mut requests, &mut screen, 5);
        if outcome != NO_MEMORY {
            assert_at(&rt, outcome, Ok(()), piece);
            assert_at(&rt, screen.text(), shown(&rt, rt.alloc(), 5).text(), piece);
            assert_at(
                &rt,
                requests.text(),
                requested(&rt, rt.alloc(), 5).text(),
                piece,
            );
            assert_at(&rt, screen.flushed, flushes, piece);
        }
    }
}

/// Returns the replies with this number of long messages.
fn long_replies(rt: &impl Abort, alloc: Global, messages: usize) -> BufReader<Tape, Global> {
    let mut reader = ahead_of(rt, alloc, &[WELCOME, GOT]);
    for _ in 0..messages {
        reader.get_mut().put(LONG_HEAD);
        for _ in 0..LONG / 10 {
            reader.get_mut().put(b"0123456789");
        }
    }
    reader
}

#[test]
fn a_write_of_several_messages_has_at_most_the_bytes_that_a_pipe_takes_at_once(rt: HostRuntime) {
    // (each write has four messages: 4,004 bytes)
    for (messages, flushes) in [(4, 1), (5, 2), (7, 2)] {
        let mut replies = long_replies(&rt, rt.alloc(), messages);
        let (mut requests, mut screen) = (Tape::new(&rt, rt.alloc()), Tape::new(&rt, rt.alloc()));
        let count = messages as u32;
        let outcome = receive(rt.alloc(), &mut replies, &mut requests, &mut screen, count);
        if outcome != NO_MEMORY {
            assert_at(&rt, outcome, Ok(()), messages);
            assert_at(&rt, screen.len(), messages * (LONG + 1), messages);
            assert_at(&rt, screen.flushed, flushes, messages);
        }
    }
}

#[test]
fn messages_before_a_fault_are_shown_at_the_end(rt: HostRuntime) {
    let refused: &[u8] = b"\0\0\0\x03\x02\x03\x2a";
    for last in [refused, b"".as_slice(), b"\0\0\0\x03\x01\x03\x2a"] {
        let mut replies = ahead_of(&rt, rt.alloc(), &[WELCOME, GOT, MESSAGE, MESSAGE, last]);
        let (mut requests, mut screen) = (Tape::new(&rt, rt.alloc()), Tape::new(&rt, rt.alloc()));
        let outcome = receive(rt.alloc(), &mut replies, &mut requests, &mut screen, 3);
        if outcome != NO_MEMORY {
            assert_is(&rt, outcome.is_err(), true);
            assert_is(&rt, screen.text(), shown(&rt, rt.alloc(), 2).text());
        }
    }
}

#[test]
fn a_screen_that_fails_states_how_many_messages_were_taken_and_shown(rt: HostRuntime) {
    // (the bytes that the screen takes, the bytes that one read returns, and the two numbers)
    let first = WELCOME.len() + GOT.len() + MESSAGE.len();
    for (room, piece, taken, written) in [
        (0, usize::MAX, 3, 0),
        (5, usize::MAX, 3, 0),
        (5, first, 3, 1),
        (0, first, 1, 0),
    ] {
        let parts: [&[u8]; 5] = [WELCOME, GOT, MESSAGE, MESSAGE, MESSAGE];
        let mut replies = ahead_of(&rt, rt.alloc(), &parts);
        replies.get_mut().piece = piece;
        let (mut requests, mut screen) = (Tape::new(&rt, rt.alloc()), Tape::new(&rt, rt.alloc()));
        screen.good = room;
        let outcome = receive(rt.alloc(), &mut replies, &mut requests, &mut screen, 3);
        if outcome != NO_MEMORY {
            let unshown = Unshown {
                taken,
                shown: written,
            };
            assert_at(&rt, outcome, Err(Stop::Screen(unshown)), (room, piece));
        }
    }
}

#[test]
fn a_reader_has_a_frame_once_all_of_it_was_read(rt: HostRuntime) {
    for piece in 1..MESSAGE.len() + 3 {
        let mut reader = ahead_of(&rt, rt.alloc(), &[MESSAGE, MESSAGE]);
        reader.get_mut().piece = piece;
        assert_at(&rt, reader.has_frame(), false, piece);
        assert!(rt; reader.fill_buf().is_ok());
        assert_at(&rt, reader.has_frame(), piece >= MESSAGE.len(), piece);
    }
}
