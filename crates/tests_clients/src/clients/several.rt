//! Lines that are sent as messages, and the removal of all queues.
use super::*;
use std::fmt::Display;
use sysv_clients::{
    ClientFault, Cut, Feed, Refusal, Sending, Stop, Unsent, Unshown, Wording, remove_all,
    send_feed, send_lines,
};
use sysv_model::Errno;

/// `msgget` of key 7 with IPC_CREAT and mode 0600.
pub(super) const MAKE: &[u8] = b"\0\0\0\x0a\x02\x01\0\0\0\x07\0\0\x03\x80";

/// The fields of a send of type 5 to identifier 64 after its length.
const SENDS: &[u8] = b"\x02\x02\0\0\0\x40\0\0\0\0\0\0\0\x05\0\0\0\0";

/// The reply that a send or a removal is refused with EPERM.
const UNSENT: &[u8] = b"\0\0\0\x03\x02\x02\x01";

const DENIED: &[u8] = b"\0\0\0\x03\x02\x06\x01";

/// What ended a session of sends, by its line. It is empty if nothing did.
pub(super) fn line_of(outcome: &Result<(), Unsent>) -> &'static str {
    match outcome {
        Ok(()) => "",
        Err(unsent) => unsent.line(),
    }
}

/// Sends with type 5 to the queue of key 7.
pub(super) const SENDING: Sending = Sending {
    cred: WHO,
    key: 7,
    wording: Wording::Bodies { mtype: 5 },
    nowait: false,
};

/// Sends the lines of `input`, and returns what ended that.
fn send(dialogue: &mut Dialogue, alloc: Global, input: &mut Tape) -> &'static str {
    let outcome = send_lines(
        alloc,
        &SENDING,
        input,
        &mut dialogue.replies,
        &mut dialogue.requests,
    );
    line_of(&outcome)
}

pub(super) const NO_MEMORY: &str = "sysvmsg: no memory\n";

/// Appends the send of a text, which is short.
fn put_send(asked: &mut Tape, text: &[u8]) {
    let len = text.len().min(99) as u8;
    asked.put(&[0, 0, 0, 18 + len]);
    asked.put(SENDS);
    asked.put(text);
}

/// Returns the requests of a session that sends these texts, which are short.
fn sends_of(rt: &impl Abort, alloc: Global, texts: &[&[u8]]) -> Tape {
    let mut asked = joined(rt, alloc, &[HELLO, MAKE]);
    for text in texts {
        put_send(&mut asked, text);
    }
    asked
}

#[test]
fn each_line_is_a_message(rt: HostRuntime) {
    // (the two lines that end in one piece of the last input are flushed together)
    let table: [(&[u8], &[&[u8]], usize); 6] = [
        (b"", &[], 0),
        (b"\n", &[b""], 1),
        (b"a", &[b"a"], 1),
        (b"a\n", &[b"a"], 1),
        (b"a\n\nbc", &[b"a", b"", b"bc"], 3),
        (b"\0\xff\n\nbc\n", &[b"\0\xff", b"", b"bc"], 2),
    ];
    for (lines, texts, flushes) in table {
        assert_lines_are_sent(&rt, rt.alloc(), lines, texts, flushes);
    }
}

/// Asserts that these lines are sent as these messages, which are flushed so often.
fn assert_lines_are_sent(
    rt: &impl Abort,
    alloc: Global,
    lines: &[u8],
    texts: &[&[u8]],
    flushes: usize,
) {
    let mut input = joined(rt, alloc, &[lines]);
    input.piece = 2;
    let mut dialogue = Dialogue::new(rt, alloc, &[WELCOME, GOT, SENT, SENT, SENT]);
    let ended = send(&mut dialogue, alloc, &mut input);
    if ended != NO_MEMORY {
        assert_is(rt, ended, "");
        dialogue.assert_requested(rt, sends_of(rt, alloc, texts).text(), lines);
        assert_is(rt, dialogue.requests.flushed, flushes.min(9) + 2);
        assert_is(rt, input.read, lines.len());
    }
}

#[test]
fn a_line_of_8192_bytes_is_sent(rt: HostRuntime) {
    let bytes = [b'x'; 8192];
    let text: &[u8] = &bytes;
    let ends: [&[u8]; 2] = [b"", b"\n"];
    for end in ends {
        let mut input = joined(&rt, rt.alloc(), &[b"a\n", text, end]);
        let mut dialogue = Dialogue::new(&rt, rt.alloc(), &[WELCOME, GOT, SENT, SENT]);
        let ended = send(&mut dialogue, rt.alloc(), &mut input);
        if ended != NO_MEMORY {
            assert_is(&rt, ended, "");
            let mut asked = sends_of(&rt, rt.alloc(), &[b"a"]);
            asked.put(b"\0\0\x20\x12");
            asked.put(SENDS);
            asked.put(text);
            assert_is(&rt, dialogue.requests.text(), asked.text());
        }
    }
}

#[test]
fn a_longer_line_is_not_sent(rt: HostRuntime) {
    let bytes = [b'x'; 8193];
    let text: &[u8] = &bytes;
    let ends: [&[u8]; 2] = [b"", b"\nmore\n"];
    for end in ends {
        let mut input = joined(&rt, rt.alloc(), &[b"a\n", text, end]);
        let mut dialogue = Dialogue::new(&rt, rt.alloc(), &[WELCOME, GOT, SENT, SENT]);
        let ended = send(&mut dialogue, rt.alloc(), &mut input);
        if ended != NO_MEMORY {
            assert_is(&rt, ended, "sysvmsg: EINVAL\n");
            let asked = sends_of(&rt, rt.alloc(), &[b"a"]);
            assert_is(&rt, dialogue.requests.text(), asked.text());
        }
    }
}

#[test]
fn nothing_is_sent_after_a_fault(rt: HostRuntime) {
    assert_send_ends(&rt, rt.alloc(), UNSENT, "sysvmsg: EPERM\n");
    assert_send_ends(&rt, rt.alloc(), b"", "sysvmsg: no reply\n");
}

/// Asserts that this reply to the second of three sends ends the session with this line.
fn assert_send_ends(rt: &impl Abort, alloc: Global, reply: &[u8], line: &'static str) {
    let mut input = joined(rt, alloc, &[b"a\nb\nc\n"]);
    // (each read returns one line)
    input.piece = 2;
    let mut dialogue = Dialogue::new(rt, alloc, &[WELCOME, GOT, SENT, reply]);
    let ended = send(&mut dialogue, alloc, &mut input);
    if ended != NO_MEMORY {
        assert_is(rt, ended, line);
        let asked = sends_of(rt, alloc, &[b"a", b"b"]);
        assert_is(rt, dialogue.requests.text(), asked.text());
    }
}

/// How a session ends whose second send is refused, and whose third one was done.
const REFUSED: Cut = Cut {
    before: 1,
    fault: ClientFault::Refused(Errno::EPERM),
    after: 1,
    unknown: 0,
};

/// How a session ends whose second and third send have no reply.
const LOST: Cut = Cut {
    before: 1,
    fault: ClientFault::NoReply,
    after: 0,
    unknown: 2,
};

#[test]
fn lines_of_one_read_are_sent_before_a_fault(rt: HostRuntime) {
    assert_sends_end(
        &rt,
        rt.alloc(),
        &[WELCOME, GOT, SENT, UNSENT, SENT],
        REFUSED,
    );
    assert_sends_end(&rt, rt.alloc(), &[WELCOME, GOT, SENT], LOST);
}

/// Returns how a session of sends was cut off.
fn cut_of(outcome: Result<(), Unsent>) -> Option<Cut> {
    match outcome {
        Err(Unsent::Cut(cut)) => Some(cut),
        _ => None,
    }
}

/// Asserts how a session that sends three lines of one read ends with these replies.
fn assert_sends_end(rt: &impl Abort, alloc: Global, replies: &[&[u8]], wanted: Cut) {
    let mut input = joined(rt, alloc, &[b"a\nb\nc\n"]);
    let mut dialogue = Dialogue::new(rt, alloc, replies);
    let outcome = send_lines(
        alloc,
        &SENDING,
        &mut input,
        &mut dialogue.replies,
        &mut dialogue.requests,
    );
    if line_of(&outcome) != NO_MEMORY {
        assert_is(rt, cut_of(outcome), Some(wanted));
        let asked = sends_of(rt, alloc, &[b"a", b"b", b"c"]);
        assert_is(rt, dialogue.requests.text(), asked.text());
    }
}

#[test]
fn an_input_that_fails_ends_the_sends(rt: HostRuntime) {
    for good in 0..4 {
        assert_input_fails(&rt, rt.alloc(), good);
    }
}

/// Asserts how a session ends whose input fails after so many bytes of two lines.
fn assert_input_fails(rt: &impl Abort, alloc: Global, good: usize) {
    let mut input = joined(rt, alloc, &[b"a\nb\n"]);
    input.good = good;
    let mut dialogue = Dialogue::new(rt, alloc, &[WELCOME, GOT, SENT, SENT]);
    let ended = send(&mut dialogue, alloc, &mut input);
    if ended != NO_MEMORY {
        assert_is(rt, ended, "sysvmsg: cannot read\n");
        let mut asked = sends_of(rt, alloc, &[]);
        if good >= 2 {
            put_send(&mut asked, b"a");
        }
        dialogue.assert_requested(rt, asked.text(), good);
    }
}

#[test]
fn a_feed_has_the_failure_that_ended_the_sends(rt: HostRuntime) {
    for good in [1, 9] {
        let mut input = joined(&rt, rt.alloc(), &[b"a\n"]);
        input.good = good;
        let mut feed = Feed::new(&mut input);
        assert!(rt; feed.failure().is_none());
        let mut dialogue = Dialogue::new(&rt, rt.alloc(), &[WELCOME, GOT, SENT]);
        let outcome = send_feed(
            rt.alloc(),
            &SENDING,
            &mut feed,
            &mut dialogue.replies,
            &mut dialogue.requests,
        );
        let ended = line_of(&outcome);
        if ended == NO_MEMORY {
            return;
        }
        assert_is(&rt, ended.is_empty(), (good == 9));
        assert_is(&rt, feed.failure().is_none(), ended.is_empty());
    }
}

/// The row of slot 0 or 1.
const FIRST: &[u8] = b"\0\0\0\x06\x02\x07\0\0\0\0";

const SECOND: &[u8] = b"\0\0\0\x06\x02\x07\0\0\0\x01";

/// The removal of identifier 0 or 2147483647.
const REMOVE_FIRST: &[u8] = b"\0\0\0\x06\x02\x06\0\0\0\0";

const REMOVE_SECOND: &[u8] = b"\0\0\0\x06\x02\x06\x7f\xff\xff\xff";

/// A refusal to remove the queue in slot 0.
const REFUSAL: Refusal = Refusal {
    id: 0,
    error: Errno::EPERM,
};

#[test]
fn all_queues_are_removed(rt: HostRuntime) {
    let welcome: &[u8] = b"\0\0\0\x07\x02\0\0\0\0\0\x02";
    let gone: &[u8] = b"\0\0\0\x03\x02\x06\x16";
    let replies: &[&[u8]] = &[welcome, ROW, REMOVED, WIDE, REMOVED];
    assert_removes(&rt, rt.alloc(), replies, None);
    assert_removes(&rt, rt.alloc(), &[welcome, ROW, gone, WIDE, REMOVED], None);
    let replies: &[&[u8]] = &[welcome, ROW, DENIED, WIDE, REMOVED];
    assert_removes(&rt, rt.alloc(), replies, Some(REFUSAL));
}

/// Asserts that the removal of two queues with these replies is done, but for this refusal.
fn assert_removes(rt: &impl Abort, alloc: Global, replies: &[&[u8]], refusal: Option<Refusal>) {
    let mut dialogue = Dialogue::new(rt, alloc, replies);
    let mut refusals = Vec::new(alloc);
    let outcome = remove_all(
        alloc,
        WHO,
        &mut dialogue.replies,
        &mut dialogue.requests,
        &mut refusals,
    );
    if outcome != Err(ClientFault::NoMemory) {
        assert_is(rt, outcome, Ok(()));
        assert_is(rt, refusals.first().copied(), refusal);
        assert_is(rt, refusals.len() < 2, true);
        let asked: &[&[u8]] = &[HELLO, FIRST, REMOVE_FIRST, SECOND, REMOVE_SECOND];
        dialogue.assert_requests(rt, alloc, asked);
    }
}

#[test]
fn a_removal_without_a_reply_ends_it(rt: HostRuntime) {
    let welcome: &[u8] = b"\0\0\0\x07\x02\0\0\0\0\0\x02";
    let mut dialogue = Dialogue::new(&rt, rt.alloc(), &[welcome, VACANT, WIDE]);
    let mut refusals = Vec::new(rt.alloc());
    let outcome = remove_all(
        rt.alloc(),
        WHO,
        &mut dialogue.replies,
        &mut dialogue.requests,
        &mut refusals,
    );
    if outcome != Err(ClientFault::NoMemory) {
        assert_is(&rt, outcome, Err(ClientFault::NoReply));
        let asked: &[&[u8]] = &[HELLO, FIRST, SECOND, REMOVE_SECOND];
        dialogue.assert_requests(&rt, rt.alloc(), asked);
    }
}

/// Asserts that a fault has this text. Tolerates one refusal of memory.
pub(super) fn assert_text<F: Display>(rt: &impl Abort, alloc: Global, fault: &F, wanted: &str) {
    let text = match format!(in alloc; "{fault}") {
        Ok(text) => text,
        Err(_) => format!(in alloc; "{fault}").expect(rt, "a second try"),
    };
    assert_is(rt, text.as_str(), wanted);
}

#[test]
fn ends_of_sessions_have_texts(rt: HostRuntime) {
    let alloc = rt.alloc();
    let refused = ClientFault::Refused(Errno::EPERM);
    assert_text(&rt, alloc, &Stop::Fault(refused), "EPERM");
    let unshown = Unshown { taken: 3, shown: 2 };
    assert_text(&rt, alloc, &Stop::Screen(unshown), "cannot write");
    assert_text(&rt, alloc, &Unsent::Fault(refused), "EPERM");
    assert_text(&rt, alloc, &Unsent::Cut(LOST), "no reply");
    let long = Unsent::Long { before: 2 };
    assert_text(&rt, alloc, &long, "a line is too long after 2 lines");
    let bad = Unsent::NoObject { before: 2 };
    assert_text(&rt, alloc, &bad, "a line states no message after 2 lines");
    let refused = Unsent::Memory { before: 2 };
    assert_text(&rt, alloc, &refused, "no memory after 2 lines");
    assert_text(&rt, alloc, &Unsent::Many, "too many lines");
    let unread = Unsent::Input(io::Error::from(ErrorKind::NotFound));
    assert_text(&rt, alloc, &unread, "cannot read: entity not found");
}
