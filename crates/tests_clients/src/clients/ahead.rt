//! Receives that are on their way together.
use super::*;
use sysv_clients::{ClientFault, MAX_AHEAD, Receiving, Stop, Unshown, receive_all};
use sysv_model::Errno;

/// The reply that a receive is refused with E2BIG. `UNTAKEN` is the one with ENOMSG.
const TOO_BIG: &[u8] = b"\0\0\0\x03\x02\x03\x07";

const UNTAKEN: &[u8] = b"\0\0\0\x03\x02\x03\x2a";

/// Receives up to this number of messages, of which so many may be requested before they come.
fn receive(dialogue: &mut Dialogue, alloc: Global, count: u64, ahead: u32) -> Result<(), Stop> {
    receive_as(dialogue, alloc, count, ahead, ANY)
}

fn receive_as(
    dialogue: &mut Dialogue,
    alloc: Global,
    count: u64,
    ahead: u32,
    receipt: Receipt,
) -> Result<(), Stop> {
    let receiving = Receiving {
        cred: WHO,
        receipt,
        count,
        ahead,
    };
    receive_all(
        alloc,
        &receiving,
        &mut dialogue.replies,
        &mut dialogue.requests,
        &mut dialogue.screen,
    )
}

const NO_MEMORY: Result<(), Stop> = Err(Stop::Fault(ClientFault::NoMemory));

/// Returns a dialogue with this number of messages.
fn dialogue_of(rt: &impl Abort, alloc: Global, messages: u64) -> Dialogue {
    let mut dialogue = Dialogue::new(rt, alloc, &[WELCOME, GOT]);
    for _ in 0..messages {
        dialogue.replies.put(MESSAGE);
    }
    dialogue
}

/// Returns the requests of a session with this number of receives.
pub(super) fn requested(rt: &impl Abort, alloc: Global, receives: u64) -> Tape {
    let mut tape = joined(rt, alloc, &[HELLO, GET]);
    for _ in 0..receives {
        tape.put(RECEIVE);
    }
    tape
}

/// Returns what a screen shows of this number of messages.
pub(super) fn shown(rt: &impl Abort, alloc: Global, messages: u64) -> Tape {
    let mut tape = Tape::new(rt, alloc);
    for _ in 0..messages {
        tape.put(b"abc\n");
    }
    tape
}

/// Asserts that so many messages were received, whose requests were flushed so often.
fn assert_received(
    rt: &impl Abort,
    alloc: Global,
    dialogue: &Dialogue,
    count: u64,
    flushes: usize,
) {
    dialogue.assert_requested(rt, requested(rt, alloc, count).text(), count);
    assert_at(rt, dialogue.requests.flushed, flushes.min(9) + 2, count);
    dialogue.assert_shown(rt, shown(rt, alloc, count).text(), count);
    assert_at(rt, dialogue.screen.flushed as u64, count, count);
    assert_is(rt, dialogue.replies.read, dialogue.replies.len());
}

#[test]
fn receives_are_requested_in_a_window(rt: HostRuntime) {
    // (the receives that are flushed together: all, or a window and then half of one each time)
    let table: [(u64, u32, usize); 11] = [
        (0, 64, 0),
        (1, 64, 1),
        (3, 64, 1),
        (64, 64, 1),
        (65, 64, 2),
        (200, 64, 6),
        (256, 256, 1),
        (400, 256, 3),
        (5, 2, 4),
        (5, 1, 5),
        (5, 0, 5),
    ];
    for (count, ahead, flushes) in table {
        let mut dialogue = dialogue_of(&rt, rt.alloc(), count);
        let outcome = receive(&mut dialogue, rt.alloc(), count, ahead);
        if outcome != NO_MEMORY {
            assert_at(&rt, outcome, Ok(()), count);
            assert_received(&rt, rt.alloc(), &dialogue, count, flushes);
        }
    }
}

#[test]
fn no_more_than_a_window_is_requested(rt: HostRuntime) {
    let table: [(u64, u32, u64); 6] = [
        (99, 64, 64),
        (300, 257, 256),
        (300, u32::MAX, 256),
        (7, 64, 7),
        (99, 3, 3),
        (u64::MAX, MAX_AHEAD, 256),
    ];
    for (count, ahead, requests) in table {
        // (there is no reply to a receive)
        let mut dialogue = dialogue_of(&rt, rt.alloc(), 0);
        let outcome = receive(&mut dialogue, rt.alloc(), count, ahead);
        if outcome != NO_MEMORY {
            assert_at(&rt, outcome, Err(Stop::Fault(ClientFault::NoReply)), count);
            let wanted = requested(&rt, rt.alloc(), requests);
            dialogue.assert_requested(&rt, wanted.text(), ahead);
        }
    }
}

#[test]
fn a_receive_that_does_not_wait_is_alone(rt: HostRuntime) {
    let mut dialogue = Dialogue::new(&rt, rt.alloc(), &[WELCOME, GOT, MESSAGE, UNTAKEN, MESSAGE]);
    let receipt = Receipt {
        nowait: true,
        ..ANY
    };
    let outcome = receive_as(&mut dialogue, rt.alloc(), 9, 64, receipt);
    if outcome == NO_MEMORY {
        return;
    }
    assert_is(
        &rt,
        outcome,
        Err(Stop::Fault(ClientFault::Refused(Errno::ENOMSG))),
    );
    assert_is(&rt, dialogue.requests.flushed, 4);
    assert_is(&rt, dialogue.screen.text(), b"abc\n".as_slice());
    let read = WELCOME.len() + GOT.len() + MESSAGE.len() + UNTAKEN.len();
    assert_is(&rt, dialogue.replies.read, read);
}

/// Asserts that a client with these replies is refused with this error, and shows so many messages.
fn assert_shown_after(
    rt: &impl Abort,
    alloc: Global,
    replies: &[&[u8]],
    error: Errno,
    messages: u64,
) {
    let mut dialogue = dialogue_of(rt, alloc, 0);
    for reply in replies {
        dialogue.replies.put(reply);
    }
    let outcome = receive(&mut dialogue, alloc, 99, 4);
    if outcome != NO_MEMORY {
        assert_is(rt, outcome, Err(Stop::Fault(ClientFault::Refused(error))));
        assert_is(rt, dialogue.requests.text(), requested(rt, alloc, 4).text());
        assert_is(
            rt,
            dialogue.screen.text(),
            shown(rt, alloc, messages).text(),
        );
        assert_is(rt, dialogue.replies.read, dialogue.replies.len());
    }
}

#[test]
fn messages_that_come_after_a_refusal_are_shown(rt: HostRuntime) {
    let table: [(&[&[u8]], Errno, u64); 4] = [
        (&[TOO_BIG, MESSAGE, MESSAGE, MESSAGE], Errno::E2BIG, 3),
        (&[MESSAGE, UNTAKEN, TOO_BIG, MESSAGE], Errno::ENOMSG, 2),
        (&[MESSAGE, TOO_BIG, MESSAGE, UNTAKEN], Errno::E2BIG, 2),
        // (there is no reply to the others)
        (&[MESSAGE, TOO_BIG, MESSAGE], Errno::E2BIG, 2),
    ];
    for (replies, error, messages) in table {
        assert_shown_after(&rt, rt.alloc(), replies, error, messages);
    }
}

/// Receives with four requests ahead, by a writer that fails after `room` bytes.
fn receive_within(dialogue: &mut Dialogue, alloc: Global, room: usize) -> Result<(), Stop> {
    dialogue.requests.good = room;
    receive(dialogue, alloc, 99, 4)
}

impl Dialogue {
    /// Asserts that the first `room` bytes of `all` were requested.
    fn assert_requested_within(&self, rt: &impl Abort, all: &[u8], room: usize) {
        assert!(rt; Some(self.requests.text()) == all.get(..room), "{room}");
    }
}

#[test]
fn messages_on_their_way_are_shown_if_the_writer_fails(rt: HostRuntime) {
    let sent = HELLO.len() + GET.len() + 4 * RECEIVE.len();
    let last: [(&[u8], ClientFault, u64); 3] = [
        (MESSAGE, ClientFault::NoReply, 4),
        (TOO_BIG, ClientFault::Refused(Errno::E2BIG), 3),
        (b"", ClientFault::NoReply, 3),
    ];
    for (reply, fault, messages) in last {
        for room in sent..sent + 2 * RECEIVE.len() {
            let mut dialogue = dialogue_of(&rt, rt.alloc(), 3);
            dialogue.replies.put(reply);
            let outcome = receive_within(&mut dialogue, rt.alloc(), room);
            if outcome != NO_MEMORY {
                assert_at(&rt, outcome, Err(Stop::Fault(fault)), room);
                dialogue.assert_requested_within(&rt, requested(&rt, rt.alloc(), 6).text(), room);
                dialogue.assert_shown(&rt, shown(&rt, rt.alloc(), messages).text(), room);
            }
        }
    }
}

#[test]
fn the_writer_fails_before_a_receive_is_on_its_way(rt: HostRuntime) {
    let begun = HELLO.len() + GET.len();
    for room in begun..begun + 4 * RECEIVE.len() {
        let mut dialogue = dialogue_of(&rt, rt.alloc(), 4);
        let outcome = receive_within(&mut dialogue, rt.alloc(), room);
        if outcome != NO_MEMORY {
            assert_at(&rt, outcome, Err(Stop::Fault(ClientFault::NoReply)), room);
            dialogue.assert_requested_within(&rt, requested(&rt, rt.alloc(), 4).text(), room);
            assert_at(&rt, dialogue.replies.read, WELCOME.len() + GOT.len(), room);
        }
    }
}

#[test]
fn a_screen_that_fails_ends_the_receives_on_their_way(rt: HostRuntime) {
    for room in 4..8 {
        let mut dialogue = dialogue_of(&rt, rt.alloc(), 9);
        dialogue.screen.good = room;
        let outcome = receive(&mut dialogue, rt.alloc(), 9, 4);
        if outcome != NO_MEMORY {
            // (the first message is shown, and the second one is not)
            let unshown = Unshown { taken: 2, shown: 1 };
            assert_at(&rt, outcome, Err(Stop::Screen(unshown)), room);
            dialogue.assert_requested(&rt, requested(&rt, rt.alloc(), 4).text(), room);
            dialogue.assert_shown(&rt, &b"abc\nabc\n"[..room], room);
        }
    }
    assert_screen_fails_after_a_refusal(&rt, rt.alloc());
}

/// Asserts that a screen that fails at a message after a refusal ends the receives.
fn assert_screen_fails_after_a_refusal(rt: &impl Abort, alloc: Global) {
    let mut dialogue = Dialogue::new(rt, alloc, &[WELCOME, GOT, TOO_BIG, MESSAGE, MESSAGE]);
    dialogue.screen.good = 6;
    let outcome = receive(&mut dialogue, alloc, 9, 4);
    let unshown = Unshown { taken: 2, shown: 1 };
    assert!(rt; outcome == NO_MEMORY || outcome == Err(Stop::Screen(unshown)));
    assert!(rt; outcome == NO_MEMORY || dialogue.screen.text() == b"abc\nab".as_slice());
}
