//! Messages that a client holds until it has shown them.
use super::several::assert_text;
use super::*;
use sysv_clients::{ClientFault, Receiving, Unheld, Unshown, hold_all, hold_instrumented};
use sysv_model::{Errno, Instrumented};

/// The hello of `WHO`, a `msgget` of key 7 with flags 0, a hold of any type from identifier 64, at
/// most 8,192 bytes with flags 0 and without a limit of time, and a done.
const HELLO_TO_HOLD: &[u8] = b"\0\0\0\x0e\x03\0\0\0\x03\xe8\0\0\x03\xe8\0\0\0\x01";

const FIND: &[u8] = b"\0\0\0\x0a\x03\x01\0\0\0\x07\0\0\0\0";

const HOLD: &[u8] = b"\0\0\0\x1a\x03\x08\0\0\0\x40\0\0\x20\0\0\0\0\0\0\0\0\0\0\0\0\0\0\0\0\0";

const DONE: &[u8] = b"\0\0\0\x02\x03\x09";

/// The replies to these. The message has type 5.
const WELCOME_TO_HOLD: &[u8] = b"\0\0\0\x07\x03\0\0\0\0\0\x40";

const FOUND: &[u8] = b"\0\0\0\x07\x03\x01\0\0\0\0\x40";

const HELD: &[u8] = b"\0\0\0\x0e\x03\x08\0\0\0\0\0\0\0\0\x05abc";

const SPENT: &[u8] = b"\0\0\0\x03\x03\x09\0";

/// The replies to a client that holds two messages.
pub(super) const ROUNDS: [&[u8]; 6] = [WELCOME_TO_HOLD, FOUND, HELD, SPENT, HELD, SPENT];

impl Dialogue {
    /// Holds this number of messages until each was shown.
    fn hold(&mut self, alloc: Global, count: u64) -> Result<(), Unheld> {
        hold_all(
            alloc,
            &Receiving {
                cred: WHO,
                receipt: ANY,
                count,
                ahead: 1,
            },
            &mut self.replies,
            &mut self.requests,
            &mut self.screen,
        )
    }
}

/// No memory for what a client needs.
const NO_MEMORY: Result<(), Unheld> = Err(Unheld::Fault(ClientFault::NoMemory));

#[test]
fn each_message_is_done_once_it_was_shown(rt: HostRuntime) {
    let mut dialogue = Dialogue::new(&rt, rt.alloc(), &ROUNDS);
    let outcome = dialogue.hold(rt.alloc(), 2);
    if outcome != NO_MEMORY {
        assert_is(&rt, outcome, Ok(()));
        let asked: &[&[u8]] = &[HELLO_TO_HOLD, FIND, HOLD, DONE, HOLD, DONE];
        dialogue.assert_requests(&rt, rt.alloc(), asked);
        assert_is(&rt, dialogue.screen.text(), b"abc\nabc\n".as_slice());
        assert_is(&rt, dialogue.screen.flushed, 2);
        assert_is(&rt, dialogue.requests.flushed, 6);
    }
}

#[test]
fn a_message_that_is_not_shown_is_not_done(rt: HostRuntime) {
    for room in 4..8 {
        let mut dialogue = Dialogue::new(&rt, rt.alloc(), &ROUNDS);
        dialogue.screen.good = room;
        let outcome = dialogue.hold(rt.alloc(), 2);
        if outcome != NO_MEMORY {
            let unshown = Unshown { taken: 2, shown: 1 };
            assert_is(&rt, outcome, Err(Unheld::Screen(unshown)));
            let asked: &[&[u8]] = &[HELLO_TO_HOLD, FIND, HOLD, DONE, HOLD];
            dialogue.assert_requests(&rt, rt.alloc(), asked);
            dialogue.assert_shown(&rt, &b"abc\nabc\n"[..room], room);
        }
    }
}

#[test]
fn a_message_that_is_not_flushed_is_not_done(rt: HostRuntime) {
    let mut dialogue = Dialogue::new(&rt, rt.alloc(), &ROUNDS);
    dialogue.screen.flushes = 0;
    let outcome = dialogue.hold(rt.alloc(), 2);
    if outcome != NO_MEMORY {
        let unshown = Unshown { taken: 1, shown: 0 };
        assert_is(&rt, outcome, Err(Unheld::Screen(unshown)));
        dialogue.assert_requests(&rt, rt.alloc(), &[HELLO_TO_HOLD, FIND, HOLD]);
    }
}

/// Asserts how a client that holds a message ends with these replies, and what it requests.
fn assert_ends(rt: &impl Abort, alloc: Global, replies: &[&[u8]], why: Unheld, asked: &[&[u8]]) {
    let mut dialogue = Dialogue::new(rt, alloc, replies);
    let outcome = dialogue.hold(alloc, 2);
    if outcome != NO_MEMORY {
        assert_is(rt, outcome, Err(why));
        dialogue.assert_requests(rt, alloc, asked);
    }
}

#[test]
fn a_request_without_its_reply_ends_the_holds(rt: HostRuntime) {
    let alloc = rt.alloc();
    let unread = Unheld::Fault(ClientFault::NoReply);
    assert_ends(&rt, alloc, &[], unread, &[HELLO_TO_HOLD]);
    let old: &[&[u8]] = &[WELCOME];
    assert_ends(&rt, alloc, old, unread, &[HELLO_TO_HOLD]);
    let empty: &[u8] = b"\0\0\0\x03\x03\x08\x2a";
    let refused = Unheld::Fault(ClientFault::Refused(Errno::ENOMSG));
    let replies: &[&[u8]] = &[WELCOME_TO_HOLD, FOUND, empty];
    assert_ends(&rt, alloc, replies, refused, &[HELLO_TO_HOLD, FIND, HOLD]);
    let undone = Unheld::Undone(ClientFault::NoReply);
    let replies: &[&[u8]] = &[WELCOME_TO_HOLD, FOUND, HELD];
    let asked: &[&[u8]] = &[HELLO_TO_HOLD, FIND, HOLD, DONE];
    assert_ends(&rt, alloc, replies, undone, asked);
    let spent: &[u8] = b"\0\0\0\x03\x03\x09\x16";
    let undone = Unheld::Undone(ClientFault::Refused(Errno::EINVAL));
    let replies: &[&[u8]] = &[WELCOME_TO_HOLD, FOUND, HELD, spent];
    assert_ends(&rt, alloc, replies, undone, asked);
}

#[test]
fn an_instrumented_screen_has_failed_if_it_ended_the_holds(rt: HostRuntime) {
    for room in [3, 4] {
        let mut dialogue = Dialogue::new(&rt, rt.alloc(), &ROUNDS);
        dialogue.screen.good = room;
        let receiving = Receiving {
            cred: WHO,
            receipt: ANY,
            count: 1,
            ahead: 1,
        };
        let mut screen = Instrumented::new(&mut dialogue.screen);
        let outcome = hold_instrumented(
            rt.alloc(),
            &receiving,
            &mut dialogue.replies,
            &mut Instrumented::new(&mut dialogue.requests),
            &mut screen,
        );
        if outcome == NO_MEMORY {
            return;
        }
        let failures = u64::from(room == 3);
        assert_is(&rt, outcome.is_ok(), (failures == 0));
        assert_is(&rt, screen.failures(), failures);
    }
}

#[test]
fn ends_of_holds_have_texts(rt: HostRuntime) {
    let alloc = rt.alloc();
    let refused = ClientFault::Refused(Errno::EPERM);
    let unshown = Unshown { taken: 3, shown: 2 };
    assert_text(&rt, alloc, &Unheld::Fault(refused), "EPERM");
    assert_text(&rt, alloc, &Unheld::Screen(unshown), "cannot write");
    assert_text(&rt, alloc, &Unheld::Undone(refused), "EPERM");
    assert_is(&rt, Unheld::Fault(refused).line(), refused.line());
    assert_is(&rt, Unheld::Screen(unshown).line(), "");
    assert_is(&rt, Unheld::Undone(refused).line(), refused.line());
}
