//! Queues that a client saves, and a file of queues that it loads.
use super::*;
use sysv_clients::{
    ClientFault, Cut, Feed, Journal, Loading, Refusal, Saving, Unfit, Unheld, Unloaded, load_feed,
    load_lines, save_all, save_instrumented,
};
use sysv_model::{Errno, Instrumented};

/// The hello of `WHO`, the rows of two slots, the attributes of identifier 64, a hold of any type
/// from there, of at most 8,192 bytes with IPC_NOWAIT and without a limit of time, and a done.
const HELLO_TO_SAVE: &[u8] = b"\0\0\0\x0e\x03\0\0\0\x03\xe8\0\0\x03\xe8\0\0\0\x01";

const FIRST_ROW: &[u8] = b"\0\0\0\x06\x03\x07\0\0\0\0";

const SECOND_ROW: &[u8] = b"\0\0\0\x06\x03\x07\0\0\0\x01";

const STAT: &[u8] = b"\0\0\0\x06\x03\x04\0\0\0\x40";

const HOLD: &[u8] = b"\0\0\0\x1a\x03\x08\0\0\0\x40\0\0\x20\0\0\0\0\0\0\0\0\0\0\0\x08\0\0\0\0\0";

const DONE: &[u8] = b"\0\0\0\x02\x03\x09";

/// The replies to these: two slots, the second of which is vacant; a queue of key 7 with two
/// messages, of type 5.
const SLOTS: &[u8] = b"\0\0\0\x07\x03\0\0\0\0\0\x02";

const QUEUE: &[u8] =
    b"\0\0\0\x1a\x03\x07\0\x01\0\0\0\x40\0\0\0\x07\0\0\x03\xe8\x01\x80\0\0\0\x06\0\0\0\x02";

const VACANT: &[u8] = b"\0\0\0\x04\x03\x07\0\0";

const ATTRIBUTES: &[u8] =
    b"\0\0\0\x45\x03\x04\0\0\0\0\x07\0\0\x03\xe8\0\0\x03\xe9\0\0\x03\xea\0\0\x03\xeb\x01\xa0\0\0\
    \0\x06\0\0\0\x02\0\0\x40\0\0\0\0\x01\0\0\0\0\0\0\0\0\0\0\0\0\0\0\0\0\0\0\0\0\0\0\0\0\0\0\0\0";

const HELD: &[u8] = b"\0\0\0\x0e\x03\x08\0\0\0\0\0\0\0\0\x05abc";

const SPENT: &[u8] = b"\0\0\0\x03\x03\x09\0";

const NONE_LEFT: &[u8] = b"\0\0\0\x03\x03\x08\x2a";

/// A hold or a stat that is refused with EACCES.
const NO_HOLD: &[u8] = b"\0\0\0\x03\x03\x08\x0d";

const NO_STAT: &[u8] = b"\0\0\0\x03\x03\x04\x0d";

/// What is written of these.
const FORMAT: &[u8] = b"{\"format\":\"sysvmsg-queues\",\"version\":1}\n";

const LINE: &[u8] =
    b"{\"key\":\"0x00000007\",\"msqid\":64,\"uid\":1000,\"gid\":1001,\"cuid\":1002,\"cgid\":1003,\
    \"perms\":\"640\",\"qbytes\":16384,\"bytes\":6,\"messages\":2}\n";

const MESSAGE: &[u8] = b"{\"type\":5,\"body\":\"abc\"}\n";

/// The get of key 7, and the reply that its queue has identifier 64, or that there is none.
const FIND: &[u8] = b"\0\0\0\x0a\x03\x01\0\0\0\x07\0\0\0\0";

const FOUND: &[u8] = b"\0\0\0\x07\x03\x01\0\0\0\0\x40";

const NOT_FOUND: &[u8] = b"\0\0\0\x03\x03\x01\x02";

/// The hold with type 5 and MSG_EXCEPT, and that with type -5.
const HOLD_OTHER: &[u8] =
    b"\0\0\0\x1a\x03\x08\0\0\0\x40\0\0\x20\0\0\0\0\0\0\0\0\x05\0\0\x28\0\0\0\0\0";

const HOLD_UPTO: &[u8] =
    b"\0\0\0\x1a\x03\x08\0\0\0\x40\0\0\x20\0\xff\xff\xff\xff\xff\xff\xff\xfb\0\0\x08\0\0\0\0\0";

/// A save of all queues.
const SAVING: Saving = Saving {
    cred: WHO,
    key: None,
    mtype: 0,
    except: false,
    syncs: true,
};

/// A queue that is refused.
const REFUSED: Refusal = Refusal {
    id: 64,
    error: Errno::EACCES,
};

/// No memory for what a client needs.
const NO_MEMORY: Result<(), Unheld> = Err(Unheld::Fault(ClientFault::NoMemory));

/// Asserts how a save ends with these replies, what it requests, what it writes and syncs, and which
/// refusal it returns.
fn assert_saves(
    rt: &impl Abort,
    alloc: Global,
    saving: &Saving,
    replies: &[&[u8]],
    ended: Result<(), Unheld>,
    asked: &[&[u8]],
    lines: &[&[u8]],
    refusal: Option<Refusal>,
) {
    let mut dialogue = Dialogue::new(rt, alloc, replies);
    let mut refusals = Vec::new(alloc);
    let outcome = save_all(
        alloc,
        saving,
        &mut dialogue.replies,
        &mut dialogue.requests,
        &mut dialogue.screen,
        &mut refusals,
    );
    if outcome != NO_MEMORY {
        assert_is(rt, outcome, ended);
        assert_is(rt, refusals.first().copied(), refusal);
        assert_is(rt, refusals.len() < 2, true);
        dialogue.assert_requests(rt, alloc, asked);
        let wanted = joined(rt, alloc, lines);
        assert_is(rt, dialogue.screen.text(), wanted.text());
        let synced = if saving.syncs { lines.len() } else { 0 };
        assert_is(rt, dialogue.screen.synced, synced);
    }
}

#[test]
fn queues_are_written_and_their_messages_taken(rt: HostRuntime) {
    let replies: &[&[u8]] = &[
        SLOTS, QUEUE, ATTRIBUTES, HELD, SPENT, HELD, SPENT, NONE_LEFT, VACANT,
    ];
    let asked: &[&[u8]] = &[
        HELLO_TO_SAVE,
        FIRST_ROW,
        STAT,
        HOLD,
        DONE,
        HOLD,
        DONE,
        HOLD,
        SECOND_ROW,
    ];
    let lines: &[&[u8]] = &[FORMAT, LINE, MESSAGE, MESSAGE];
    assert_saves(
        &rt,
        rt.alloc(),
        &SAVING,
        replies,
        Ok(()),
        asked,
        lines,
        None,
    );
}

#[test]
fn a_queue_that_is_refused_is_returned(rt: HostRuntime) {
    let alloc = rt.alloc();
    let replies: &[&[u8]] = &[SLOTS, QUEUE, NO_STAT, VACANT];
    let asked: &[&[u8]] = &[HELLO_TO_SAVE, FIRST_ROW, STAT, SECOND_ROW];
    assert_saves(
        &rt,
        alloc,
        &SAVING,
        replies,
        Ok(()),
        asked,
        &[FORMAT],
        Some(REFUSED),
    );
    let replies: &[&[u8]] = &[SLOTS, QUEUE, ATTRIBUTES, NO_HOLD, VACANT];
    let asked: &[&[u8]] = &[HELLO_TO_SAVE, FIRST_ROW, STAT, HOLD, SECOND_ROW];
    let lines: &[&[u8]] = &[FORMAT, LINE];
    assert_saves(
        &rt,
        alloc,
        &SAVING,
        replies,
        Ok(()),
        asked,
        lines,
        Some(REFUSED),
    );
}

#[test]
fn a_done_without_a_reply_ends_a_save(rt: HostRuntime) {
    let replies: &[&[u8]] = &[SLOTS, QUEUE, ATTRIBUTES, HELD];
    let asked: &[&[u8]] = &[HELLO_TO_SAVE, FIRST_ROW, STAT, HOLD, DONE];
    let lines: &[&[u8]] = &[FORMAT, LINE, MESSAGE];
    let ended = Err(Unheld::Undone(ClientFault::NoReply));
    assert_saves(&rt, rt.alloc(), &SAVING, replies, ended, asked, lines, None);
}

#[test]
fn the_messages_of_one_queue_are_saved(rt: HostRuntime) {
    let alloc = rt.alloc();
    let part = Saving {
        key: Some(7),
        mtype: -5,
        syncs: false,
        ..SAVING
    };
    let replies: &[&[u8]] = &[SLOTS, FOUND, ATTRIBUTES, HELD, SPENT, NONE_LEFT];
    let asked: &[&[u8]] = &[HELLO_TO_SAVE, FIND, STAT, HOLD_UPTO, DONE, HOLD_UPTO];
    let lines: &[&[u8]] = &[FORMAT, LINE, MESSAGE];
    assert_saves(&rt, alloc, &part, replies, Ok(()), asked, lines, None);
    let ended = Err(Unheld::Fault(ClientFault::Refused(Errno::ENOENT)));
    let replies: &[&[u8]] = &[SLOTS, NOT_FOUND];
    let asked: &[&[u8]] = &[HELLO_TO_SAVE, FIND];
    assert_saves(&rt, alloc, &part, replies, ended, asked, &[FORMAT], None);
}

#[test]
fn the_messages_of_other_types_are_saved(rt: HostRuntime) {
    let part = Saving {
        mtype: 5,
        except: true,
        ..SAVING
    };
    let replies: &[&[u8]] = &[SLOTS, QUEUE, ATTRIBUTES, NONE_LEFT, VACANT];
    let asked: &[&[u8]] = &[HELLO_TO_SAVE, FIRST_ROW, STAT, HOLD_OTHER, SECOND_ROW];
    let lines: &[&[u8]] = &[FORMAT, LINE];
    assert_saves(&rt, rt.alloc(), &part, replies, Ok(()), asked, lines, None);
}

/// Asserts that a save ends at the first message, since this screen fails at it, and requests
/// nothing more.
fn assert_not_done(rt: &impl Abort, alloc: Global, dialogue: &mut Dialogue) {
    let mut refusals = Vec::new(alloc);
    let mut screen = Journal::new(&mut dialogue.screen);
    let outcome = save_instrumented(
        alloc,
        &SAVING,
        &mut dialogue.replies,
        &mut Instrumented::new(&mut dialogue.requests),
        &mut screen,
        &mut refusals,
    );
    if outcome != NO_MEMORY {
        assert_is(rt, matches!(outcome, Err(Unheld::Screen(_))), true);
        assert_is(rt, screen.failures(), 1);
        let asked: &[&[u8]] = &[HELLO_TO_SAVE, FIRST_ROW, STAT, HOLD];
        dialogue.assert_requests(rt, alloc, asked);
    }
}

#[test]
fn a_message_that_is_not_written_is_not_done_by_a_save(rt: HostRuntime) {
    let replies: &[&[u8]] = &[SLOTS, QUEUE, ATTRIBUTES, HELD, SPENT];
    let mut dialogue = Dialogue::new(&rt, rt.alloc(), replies);
    dialogue.screen.good = FORMAT.len() + LINE.len() + 3;
    assert_not_done(&rt, rt.alloc(), &mut dialogue);
}

#[test]
fn a_message_that_is_not_synced_is_not_done_by_a_save(rt: HostRuntime) {
    let replies: &[&[u8]] = &[SLOTS, QUEUE, ATTRIBUTES, HELD, SPENT];
    let mut dialogue = Dialogue::new(&rt, rt.alloc(), replies);
    dialogue.screen.syncs = 2;
    assert_not_done(&rt, rt.alloc(), &mut dialogue);
}

/// The msgget of key 7 with IPC_CREAT, IPC_EXCL and mode 0640; the set of identifier 64 to user
/// 1000, group 1001, this mode and 16,384 bytes; and a send of `abc` of type 5 to it.
const MAKE: &[u8] = b"\0\0\0\x0a\x02\x01\0\0\0\x07\0\0\x07\xa0";

const SET: &[u8] = b"\0\0\0\x16\x02\x05\0\0\0\x40\0\0\x03\xe8\0\0\x03\xe9\0\0\x01\xa0\0\0\x40\0";

const SEND: &[u8] = b"\0\0\0\x15\x02\x02\0\0\0\x40\0\0\0\0\0\0\0\x05\0\0\0\0abc";

/// The replies to these.
const MADE: &[u8] = b"\0\0\0\x07\x02\x01\0\0\0\0\x40";

const IS_SET: &[u8] = b"\0\0\0\x03\x02\x05\0";

const SENT: &[u8] = b"\0\0\0\x03\x02\x02\0";

/// The msgget is refused with EEXIST.
const EXISTS: &[u8] = b"\0\0\0\x03\x02\x01\x11";

/// A load of queues of any creator.
const LOADING: Loading = Loading {
    cred: WHO,
    from: 1,
    into: false,
    adopt: true,
    nowait: false,
};

/// Returns how a load ended, if it ended at a line or at a request for one.
fn end_of(outcome: Result<(), Unloaded>) -> Result<(), Result<Cut, (u64, Unfit)>> {
    match outcome {
        Err(Unloaded::Cut(cut)) => Err(Ok(cut)),
        Err(Unloaded::Line { before, why }) => Err(Err((before, why))),
        _ => Ok(()),
    }
}

/// Asserts how a load of these lines ends with these replies, and what it requests.
fn assert_loads(
    rt: &impl Abort,
    alloc: Global,
    loading: &Loading,
    lines: &[&[u8]],
    replies: &[&[u8]],
    ended: Result<(), Result<Cut, (u64, Unfit)>>,
    asked: &[&[u8]],
) {
    let mut input = joined(rt, alloc, lines);
    let mut dialogue = Dialogue::new(rt, alloc, replies);
    let outcome = load_lines(
        alloc,
        loading,
        &mut input,
        &mut dialogue.replies,
        &mut dialogue.requests,
    );
    if !matches!(outcome, Err(Unloaded::Fault(ClientFault::NoMemory))) {
        assert_is(rt, end_of(outcome), ended);
        dialogue.assert_requests(rt, alloc, asked);
    }
}

#[test]
fn a_file_is_loaded(rt: HostRuntime) {
    let lines: &[&[u8]] = &[FORMAT, LINE, MESSAGE, MESSAGE];
    let replies: &[&[u8]] = &[WELCOME, MADE, IS_SET, SENT, SENT];
    let asked: &[&[u8]] = &[HELLO, MAKE, SET, SEND, SEND];
    assert_loads(&rt, rt.alloc(), &LOADING, lines, replies, Ok(()), asked);
}

#[test]
fn a_line_that_is_refused_ends_a_load(rt: HostRuntime) {
    let lines: &[&[u8]] = &[FORMAT, LINE, MESSAGE];
    let cut = Cut {
        before: 1,
        fault: ClientFault::Refused(Errno::EEXIST),
        after: 0,
        unknown: 0,
    };
    let replies: &[&[u8]] = &[WELCOME, EXISTS];
    let asked: &[&[u8]] = &[HELLO, MAKE];
    assert_loads(
        &rt,
        rt.alloc(),
        &LOADING,
        lines,
        replies,
        Err(Ok(cut)),
        asked,
    );
    let own = Loading {
        adopt: false,
        ..LOADING
    };
    let why = Unfit::Creator {
        uid: 1002,
        gid: 1003,
    };
    let ended = Err(Err((1, why)));
    assert_loads(&rt, rt.alloc(), &own, lines, &[WELCOME], ended, &[HELLO]);
}

#[test]
fn a_line_of_the_format_ends_its_queue(rt: HostRuntime) {
    let lines: &[&[u8]] = &[FORMAT, LINE, FORMAT, MESSAGE];
    let replies: &[&[u8]] = &[WELCOME, MADE, IS_SET];
    let ended = Err(Err((3, Unfit::NoQueue)));
    let asked: &[&[u8]] = &[HELLO, MAKE, SET];
    assert_loads(&rt, rt.alloc(), &LOADING, lines, replies, ended, asked);
}

#[test]
fn an_input_that_cannot_be_read_ends_a_load(rt: HostRuntime) {
    let mut input = joined(&rt, rt.alloc(), &[FORMAT]);
    input.good = 9;
    let mut dialogue = Dialogue::new(&rt, rt.alloc(), &[WELCOME]);
    let mut feed = Feed::new(&mut input);
    let outcome = load_feed(
        rt.alloc(),
        &LOADING,
        &mut feed,
        &mut dialogue.replies,
        &mut dialogue.requests,
    );
    if !matches!(outcome, Err(Unloaded::Fault(ClientFault::NoMemory))) {
        assert_is(&rt, matches!(outcome, Err(Unloaded::Input(_))), true);
        assert_is(&rt, feed.failure(), Some(ErrorKind::TimedOut));
    }
}
