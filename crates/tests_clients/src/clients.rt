//! Clients over bytes that were worked out by hand.
mod ahead;
mod connecting;
mod files;
mod growths;
mod holding;
mod objects;
mod options;
mod progress;
mod several;
mod together;

use crate::parts::{assert_at, assert_is};
use std::alloc::Global;
use std::fmt::Debug;
use std::io;
use std::io::{ErrorKind, Read, Write};
use std::process::Abort;
use sysv_clients::{
    Command, Durable, Form, Format, ReadAhead, Receipt, Target, Task, id_of, key_of, run_client,
    type_of,
};
use sysv_model::{BODY_ROOM, Cred};

/// The number of bytes that a tape has space for.
const TAPE_ROOM: usize = 50_000;

/// Bytes to read, or bytes that were written.
#[derive(Drop)]
struct Tape {
    bytes: Vec<u8>,
    /// The number of bytes that were read.
    read: usize,
    /// The number of bytes that it returns or takes before it fails.
    good: usize,
    /// The maximum number of bytes that it returns or takes at once.
    piece: usize,
    /// How often it can be flushed.
    flushes: usize,
    /// How often it was flushed.
    flushed: usize,
    /// How often it can be synced.
    syncs: usize,
    /// How often it was synced.
    synced: usize,
}

impl Tape {
    /// Creates an empty tape. Tolerates one refusal of memory.
    fn new(rt: &impl Abort, alloc: Global) -> Tape {
        let bytes = match Vec::with_capacity(alloc, TAPE_ROOM) {
            Ok(bytes) => bytes,
            Err(_) => Vec::with_capacity(alloc, TAPE_ROOM).expect(rt, "a second try"),
        };
        Tape {
            bytes,
            read: 0,
            good: usize::MAX,
            piece: usize::MAX,
            flushes: usize::MAX,
            flushed: 0,
            syncs: usize::MAX,
            synced: 0,
        }
    }

    /// Appends bytes, for which there is space.
    fn put(&mut self, bytes: &[u8]) {
        let _ = self.bytes.extend_from_slice(bytes);
    }

    fn text(&self) -> &[u8] {
        &self.bytes
    }

    fn len(&self) -> usize {
        self.bytes.len()
    }
}

impl Read for Tape {
    fn read(&mut self, buf: &mut [u8]) -> io::Result<usize> {
        let left = self.bytes.len().saturating_sub(self.read);
        let good = self.good.saturating_sub(self.read);
        if good == 0 {
            return Err(io::Error::from(ErrorKind::TimedOut));
        }
        let count = self.piece.min(good).min(left).min(buf.len());
        let from = self.bytes.len() - left;
        buf[..count].copy_from_slice(&self.bytes[from..from + count]);
        self.read = from + count;
        Ok(count)
    }
}

/// It reads nothing ahead, so each message is shown as it comes.
impl ReadAhead for Tape {
    ghost use Rattle.std.specs.Prelude.{[]};

    ghost ahead = { λ _. [] };

    fn has_frame(&self) -> bool {
        false
    }
}

impl Write for Tape {
    fn write(&mut self, buf: &[u8]) -> io::Result<usize> {
        let left = self.good.min(TAPE_ROOM).saturating_sub(self.bytes.len());
        if left == 0 {
            return Err(io::Error::from(ErrorKind::BrokenPipe));
        }
        let count = self.piece.min(left).min(buf.len());
        self.put(&buf[..count]);
        Ok(count)
    }

    fn flush(&mut self) -> io::Result<()> {
        if self.flushed >= self.flushes {
            return Err(io::Error::from(ErrorKind::BrokenPipe));
        }
        self.flushed = self.flushed.saturating_add(1);
        Ok(())
    }
}

impl Durable for Tape {
    ghost use Rattle.std.specs.Prelude.{None};

    ghost synced = { λ _. None };

    fn sync(&mut self) -> io::Result<()> {
        if self.synced >= self.syncs {
            return Err(io::Error::from(ErrorKind::StorageFull));
        }
        self.synced = self.synced.saturating_add(1);
        Ok(())
    }
}

/// What a client reads, writes and shows.
#[derive(Drop)]
struct Dialogue {
    replies: Tape,
    requests: Tape,
    screen: Tape,
}

impl Dialogue {
    /// Creates the streams of a client whose server sends these replies.
    fn new(rt: &impl Abort, alloc: Global, replies: &[&[u8]]) -> Dialogue {
        Dialogue {
            replies: joined(rt, alloc, replies),
            requests: Tape::new(rt, alloc),
            screen: Tape::new(rt, alloc),
        }
    }

    /// Runs a client and returns its status. Tolerates one refusal of memory, after which nothing
    /// was read or written.
    fn run(&mut self, rt: &impl Abort, alloc: Global, task: Task<'_>) -> i32 {
        if let Task::Send { text, .. } = task {
            assert!(rt; text.len() <= BODY_ROOM);
        }
        let command = Command { cred: WHO, task };
        let status = run_client(
            alloc,
            &command,
            &mut self.replies,
            &mut self.requests,
            &mut self.screen,
        );
        if self.screen.text() != b"sysvmsg: no memory\n".as_slice() {
            return status;
        }
        assert_is(rt, status, 1);
        assert_is(rt, (self.replies.read, self.requests.len()), (0, 0));
        self.screen.bytes.clear();
        self.screen.flushed = 0;
        run_client(
            alloc,
            &command,
            &mut self.replies,
            &mut self.requests,
            &mut self.screen,
        )
    }
}

impl Dialogue {
    /// Asserts that these bytes were requested. A failure says where, and not the bytes, which can
    /// be many.
    fn assert_requested(&self, rt: &impl Abort, bytes: &[u8], at: impl Debug + Drop) {
        assert!(rt; self.requests.text() == bytes, "at {at:?}");
    }

    /// Asserts that this text was shown, in the same way.
    fn assert_shown(&self, rt: &impl Abort, text: &[u8], at: impl Debug + Drop) {
        assert!(rt; self.screen.text() == text, "at {at:?}");
    }

    /// Asserts that these parts were requested, one after another.
    fn assert_requests(&self, rt: &impl Abort, alloc: Global, parts: &[&[u8]]) {
        assert_is(rt, self.requests.text(), joined(rt, alloc, parts).text());
    }

    /// Runs a client with this task, and asserts that it fails and shows that it has no reply.
    fn assert_no_reply(
        &mut self,
        rt: &impl Abort,
        alloc: Global,
        task: Task<'_>,
        at: impl Debug + Copy + Drop,
    ) {
        assert_at(rt, self.run(rt, alloc, task), 1, at);
        self.assert_shown(rt, NO_REPLY, at);
    }
}

/// The credentials of the clients.
const WHO: Cred = Cred {
    uid: 1000,
    gid: 1000,
    pid: 1,
};

/// The hello of `WHO`. The reply to it, `WELCOME`, states 64 slots.
const HELLO: &[u8] = b"\0\0\0\x0e\x02\0\0\0\x03\xe8\0\0\x03\xe8\0\0\0\x01";

const WELCOME: &[u8] = b"\0\0\0\x07\x02\0\0\0\0\0\x40";

/// `msgget` of key 7 with flags 0. `GOT` is the reply with identifier 64.
const GET: &[u8] = b"\0\0\0\x0a\x02\x01\0\0\0\x07\0\0\0\0";

const GOT: &[u8] = b"\0\0\0\x07\x02\x01\0\0\0\0\x40";

/// The reply that a send is done. `REMOVED` is the reply that a removal is done.
const SENT: &[u8] = b"\0\0\0\x03\x02\x02\0";

const REMOVED: &[u8] = b"\0\0\0\x03\x02\x06\0";

/// The removal of identifier 64.
const REMOVE: &[u8] = b"\0\0\0\x06\x02\x06\0\0\0\x40";

/// `msgrcv` of any type from identifier 64, at most 8,192 bytes with flags 0. `MESSAGE` is the
/// reply with a message of type 5.
const RECEIVE: &[u8] = b"\0\0\0\x16\x02\x03\0\0\0\x40\0\0\x20\0\0\0\0\0\0\0\0\0\0\0\0\0";

const MESSAGE: &[u8] = b"\0\0\0\x0e\x02\x03\0\0\0\0\0\0\0\0\x05abc";

/// The reply that the slot has no queue.
const VACANT: &[u8] = b"\0\0\0\x04\x02\x07\0\0";

/// Identifier 0, key 7, user 1000, mode 0640, 3 bytes in 1 message.
const ROW: &[u8] =
    b"\0\0\0\x1a\x02\x07\0\x01\0\0\0\0\0\0\0\x07\0\0\x03\xe8\x01\xa0\0\0\0\x03\0\0\0\x01";

/// The maximum of each number, and the key -2147483648.
const WIDE: &[u8] =
    b"\0\0\0\x1a\x02\x07\0\x01\x7f\xff\xff\xff\x80\0\0\0\xff\xff\xff\xff\x01\xff\xff\xff\xff\xff\xff\xff\xff\xff";

const HEAD: &[u8] = b"key             msqid      owner perms  bytes messages\n";

const LINE: &[u8] = b"0x00000007          0       1000   640      3        1\n";

const WIDE_LINE: &[u8] = b"0x80000000 2147483647 4294967295   777 4294967295 4294967295\n";

const RECEIVE_ANY: Task<'static> = Task::Receive(ANY);

const ANY: Receipt = Receipt {
    key: 7,
    create: false,
    mode: 0o600,
    size: 8192,
    mtype: 0,
    except: false,
    nowait: false,
    noerror: false,
    show_type: false,
    form: Form::Line,
};

/// The task to list the queues as a table.
const LIST: Task<'static> = Task::List(Format::Table);

/// Returns a tape with these bytes, one part after another.
fn joined(rt: &impl Abort, alloc: Global, parts: &[&[u8]]) -> Tape {
    let mut tape = Tape::new(rt, alloc);
    for part in parts {
        tape.put(part);
    }
    tape
}

#[test]
fn a_queue_is_removed_by_its_identifier(rt: HostRuntime) {
    let mut dialogue = Dialogue::new(&rt, rt.alloc(), &[WELCOME, REMOVED]);
    let status = dialogue.run(&rt, rt.alloc(), Task::Remove(Target::Id(2147483647)));
    assert_is(&rt, status, 0);
    let wanted = joined(
        &rt,
        rt.alloc(),
        &[HELLO, b"\0\0\0\x06\x02\x06\x7f\xff\xff\xff"],
    );
    assert_is(&rt, dialogue.requests.text(), wanted.text());
    assert_is(&rt, dialogue.requests.flushed, 2);
    assert_is(&rt, dialogue.replies.read, 18);
    assert_is(&rt, dialogue.screen.len(), 0);
}

#[test]
fn a_queue_is_removed_by_its_key(rt: HostRuntime) {
    let mut dialogue = Dialogue::new(&rt, rt.alloc(), &[WELCOME, GOT, REMOVED, b"more"]);
    let status = dialogue.run(&rt, rt.alloc(), Task::Remove(Target::Key(7)));
    assert_is(&rt, status, 0);
    assert_is(
        &rt,
        dialogue.requests.text(),
        joined(&rt, rt.alloc(), &[HELLO, GET, REMOVE]).text(),
    );
    assert_is(&rt, dialogue.requests.flushed, 3);
    assert_is(&rt, dialogue.replies.read, 29);
    assert_is(&rt, dialogue.screen.len(), 0);
}

/// Asserts what is requested to send `abc` with this type, if its last fields are these.
fn assert_sends(rt: &impl Abort, alloc: Global, mtype: i64, nowait: bool, fields: &[u8]) {
    let mut dialogue = Dialogue::new(rt, alloc, &[WELCOME, GOT, SENT]);
    let task = Task::Send {
        key: 7,
        text: b"abc",
        mtype,
        nowait,
    };
    assert_is(rt, dialogue.run(rt, alloc, task), 0);
    let wanted = joined(
        rt,
        alloc,
        &[
            HELLO,
            b"\0\0\0\x0a\x02\x01\0\0\0\x07\0\0\x03\x80",
            b"\0\0\0\x15\x02\x02\0\0\0\x40",
            fields,
            b"abc",
        ],
    );
    dialogue.assert_requested(rt, wanted.text(), mtype);
    assert_is(rt, dialogue.screen.len(), 0);
}

#[test]
fn a_message_is_sent(rt: HostRuntime) {
    let least = b"\0\0\0\0\0\0\0\x01\0\0\0\0";
    assert_sends(&rt, rt.alloc(), 1, false, least);
    let unwaited = b"\0\0\0\0\0\0\0\x05\0\0\x08\0";
    assert_sends(&rt, rt.alloc(), 5, true, unwaited);
    let greatest = b"\x7f\xff\xff\xff\xff\xff\xff\xff\0\0\0\0";
    assert_sends(&rt, rt.alloc(), i64::MAX, false, greatest);
}

#[test]
fn the_longest_text_is_sent(rt: HostRuntime) {
    let text = [b'x'; BODY_ROOM];
    let mut dialogue = Dialogue::new(&rt, rt.alloc(), &[WELCOME, GOT, b"\0\0\0\x03\x02\x02\x16"]);
    let task = Task::Send {
        key: 7,
        text: &text,
        mtype: 1,
        nowait: false,
    };
    assert_is(&rt, dialogue.run(&rt, rt.alloc(), task), 1);
    let wanted = joined(
        &rt,
        rt.alloc(),
        &[
            HELLO,
            b"\0\0\0\x0a\x02\x01\0\0\0\x07\0\0\x03\x80",
            b"\0\0\x20\x52\x02\x02\0\0\0\x40\0\0\0\0\0\0\0\x01\0\0\0\0",
            &text,
        ],
    );
    assert_is(&rt, dialogue.requests.text(), wanted.text());
    assert_is(&rt, dialogue.screen.text(), b"sysvmsg: EINVAL\n".as_slice());
}

#[test]
fn a_message_is_received(rt: HostRuntime) {
    let mut dialogue = Dialogue::new(&rt, rt.alloc(), &[WELCOME, GOT, MESSAGE]);
    assert_is(&rt, dialogue.run(&rt, rt.alloc(), RECEIVE_ANY), 0);
    assert_is(
        &rt,
        dialogue.requests.text(),
        joined(&rt, rt.alloc(), &[HELLO, GET, RECEIVE]).text(),
    );
    assert_is(&rt, dialogue.requests.flushed, 3);
    assert_is(&rt, dialogue.screen.text(), b"abc\n".as_slice());
    assert_is(&rt, dialogue.screen.flushed, 1);
}

#[test]
fn a_receive_says_what_is_wanted(rt: HostRuntime) {
    let mut dialogue = Dialogue::new(
        &rt,
        rt.alloc(),
        &[WELCOME, GOT, b"\0\0\0\x0b\x02\x03\0\0\0\0\0\0\0\0\x05"],
    );
    let task = Task::Receive(Receipt {
        size: u32::MAX,
        mtype: -5,
        nowait: true,
        noerror: true,
        ..ANY
    });
    assert_is(&rt, dialogue.run(&rt, rt.alloc(), task), 0);
    let wanted = joined(
        &rt,
        rt.alloc(),
        &[
            HELLO,
            GET,
            b"\0\0\0\x16\x02\x03\0\0\0\x40\xff\xff\xff\xff\xff\xff\xff\xff\xff\xff\xff\xfb\0\0\x18\0",
        ],
    );
    assert_is(&rt, dialogue.requests.text(), wanted.text());
    assert_is(&rt, dialogue.screen.text(), b"\n".as_slice());
}

#[test]
fn the_longest_message_is_received(rt: HostRuntime) {
    let text = [b'y'; 8192];
    let front = b"\0\0\x20\x0b\x02\x03\0\0\0\0\0\0\0\0\x05";
    let mut dialogue = Dialogue::new(&rt, rt.alloc(), &[WELCOME, GOT, front, &text]);
    dialogue.replies.piece = 100;
    assert_is(&rt, dialogue.run(&rt, rt.alloc(), RECEIVE_ANY), 0);
    assert_is(
        &rt,
        dialogue.screen.text(),
        joined(&rt, rt.alloc(), &[&text, b"\n"]).text(),
    );
}

/// Returns the streams of a client whose server has queues in slots 0 and 63.
fn listed(rt: &impl Abort, alloc: Global) -> Dialogue {
    let mut dialogue = Dialogue::new(rt, alloc, &[WELCOME, ROW]);
    for _ in 0..62 {
        dialogue.replies.put(VACANT);
    }
    dialogue.replies.put(WIDE);
    dialogue
}

#[test]
fn queues_are_listed(rt: HostRuntime) {
    let mut dialogue = listed(&rt, rt.alloc());
    assert_is(&rt, dialogue.run(&rt, rt.alloc(), LIST), 0);
    let mut wanted = joined(&rt, rt.alloc(), &[HELLO]);
    for slot in 0..64 {
        wanted.put(b"\0\0\0\x06\x02\x07\0\0\0");
        wanted.put(&[slot]);
    }
    assert_is(&rt, dialogue.requests.text(), wanted.text());
    assert_is(&rt, dialogue.requests.flushed, 2);
    assert_is(
        &rt,
        dialogue.screen.text(),
        joined(&rt, rt.alloc(), &[HEAD, LINE, WIDE_LINE]).text(),
    );
}

#[test]
fn no_queue_is_listed(rt: HostRuntime) {
    let mut dialogue = Dialogue::new(&rt, rt.alloc(), &[WELCOME]);
    for _ in 0..64 {
        dialogue.replies.put(VACANT);
    }
    dialogue.replies.piece = 3;
    dialogue.requests.piece = 5;
    dialogue.screen.piece = 1;
    assert_is(&rt, dialogue.run(&rt, rt.alloc(), LIST), 0);
    assert_is(&rt, dialogue.screen.text(), HEAD);
}

/// Returns a tape with a hello and the requests for the rows of this number of slots.
fn requested_rows(rt: &impl Abort, alloc: Global, slots: u16) -> Tape {
    let mut tape = joined(rt, alloc, &[HELLO]);
    for slot in 0..slots {
        tape.put(b"\0\0\0\x06\x02\x07\0\0");
        tape.put(&slot.to_be_bytes());
    }
    tape
}

/// Asserts that a client lists no queue if the server, whose slots have none, replies this to the
/// hello. Returns how often its requests are flushed.
fn flushes_of_rows(rt: &impl Abort, alloc: Global, welcome: &[u8], slots: u16) -> usize {
    let mut dialogue = Dialogue::new(rt, alloc, &[welcome]);
    for _ in 0..slots {
        dialogue.replies.put(VACANT);
    }
    assert_is(rt, dialogue.run(rt, alloc, LIST), 0);
    dialogue.assert_requested(rt, requested_rows(rt, alloc, slots).text(), slots);
    dialogue.assert_shown(rt, HEAD, slots);
    dialogue.requests.flushed
}

#[test]
fn as_many_rows_are_asked_for_as_the_server_has_slots(rt: HostRuntime) {
    flushes_of_rows(&rt, rt.alloc(), b"\0\0\0\x07\x02\0\0\0\0\0\0", 0);
    flushes_of_rows(&rt, rt.alloc(), b"\0\0\0\x07\x02\0\0\0\0\0\x01", 1);
    flushes_of_rows(&rt, rt.alloc(), b"\0\0\0\x07\x02\0\0\0\0\0\x05", 5);
}

#[test]
fn a_server_says_that_it_has_the_most_slots(rt: HostRuntime) {
    let welcome = b"\0\0\0\x07\x02\0\0\xff\xff\xff\xff";
    let mut dialogue = Dialogue::new(&rt, rt.alloc(), &[welcome, ROW, VACANT]);
    assert_is(&rt, dialogue.run(&rt, rt.alloc(), LIST), 1);
    assert_is(&rt, dialogue.screen.text(), NO_REPLY);
    assert_is(&rt, dialogue.requests.flushed, 2);
    let rows = requested_rows(&rt, rt.alloc(), 256);
    assert_is(&rt, dialogue.requests.text(), rows.text());
}

#[test]
fn rows_are_requested_in_a_window(rt: HostRuntime) {
    let table: [(&[u8], u16, usize); 4] = [
        (b"\0\0\0\x07\x02\0\0\0\0\0\xff", 255, 2),
        (b"\0\0\0\x07\x02\0\0\0\0\x01\0", 256, 2),
        (b"\0\0\0\x07\x02\0\0\0\0\x01\x01", 257, 3),
        (b"\0\0\0\x07\x02\0\0\0\0\x02\x58", 600, 4),
    ];
    for (welcome, slots, flushes) in table {
        let found = flushes_of_rows(&rt, rt.alloc(), welcome, slots);
        assert_at(&rt, found, flushes, slots);
    }
}

/// Asserts how a list ends if the writer takes no more than `wanted`.
fn assert_list_ends_after(rt: &impl Abort, alloc: Global, wanted: &[u8]) {
    let room = wanted.len();
    let mut dialogue = Dialogue::new(rt, alloc, &[WELCOME, ROW, VACANT]);
    dialogue.requests.good = room;
    dialogue.assert_no_reply(rt, alloc, LIST, room);
    dialogue.assert_requested(rt, wanted, room);
    assert_at(rt, dialogue.replies.read, WELCOME.len(), room);
}

#[test]
fn the_writer_fails_between_rows(rt: HostRuntime) {
    let rows = requested_rows(&rt, rt.alloc(), 64);
    let all = rows.text();
    for room in 18..all.len() {
        assert_list_ends_after(&rt, rt.alloc(), &all[..room]);
    }
}

#[test]
fn a_row_is_refused_with_others_on_their_way(rt: HostRuntime) {
    let refusal = b"\0\0\0\x03\x02\x07\x0d";
    let mut dialogue = Dialogue::new(&rt, rt.alloc(), &[WELCOME, ROW, refusal, VACANT]);
    assert_is(&rt, dialogue.run(&rt, rt.alloc(), LIST), 1);
    assert_is(&rt, dialogue.screen.text(), b"sysvmsg: EACCES\n".as_slice());
    let all = requested_rows(&rt, rt.alloc(), 64);
    assert_is(&rt, dialogue.requests.text(), all.text());
}

#[test]
fn a_table_takes_memory_as_its_rows_come(rt: HostRuntime) {
    let welcome = b"\0\0\0\x07\x02\0\0\0\0\0\xa0";
    let mut dialogue = Dialogue::new(&rt, rt.alloc(), &[welcome]);
    let mut shown = joined(&rt, rt.alloc(), &[HEAD]);
    for _ in 0..160 {
        dialogue.replies.put(ROW);
        shown.put(LINE);
    }
    let command = Command {
        cred: WHO,
        task: LIST,
    };
    let status = run_client(
        rt.alloc(),
        &command,
        &mut dialogue.replies,
        &mut dialogue.requests,
        &mut dialogue.screen,
    );
    if dialogue.screen.text() == b"sysvmsg: no memory\n".as_slice() {
        assert_is(&rt, status, 1);
        return;
    }
    assert_is(&rt, status, 0);
    assert_is(&rt, dialogue.screen.text(), shown.text());
}

/// Asserts that a hello that is refused with this number is shown by this line.
fn assert_refusal(rt: &impl Abort, alloc: Global, number: u8, line: &[u8]) {
    let mut dialogue = Dialogue::new(rt, alloc, &[b"\0\0\0\x03\x02\0", &[number], WELCOME]);
    assert_is(rt, dialogue.run(rt, alloc, LIST), 1);
    dialogue.assert_shown(rt, line, number);
    assert_is(rt, dialogue.requests.text(), HELLO);
    assert_is(rt, dialogue.replies.read, 7);
}

#[test]
fn a_refusal_is_named(rt: HostRuntime) {
    let table: [(u8, &[u8]); 11] = [
        (1, b"sysvmsg: EPERM\n"),
        (2, b"sysvmsg: ENOENT\n"),
        (7, b"sysvmsg: E2BIG\n"),
        (11, b"sysvmsg: EAGAIN\n"),
        (13, b"sysvmsg: EACCES\n"),
        (17, b"sysvmsg: EEXIST\n"),
        (22, b"sysvmsg: EINVAL\n"),
        (28, b"sysvmsg: ENOSPC\n"),
        (42, b"sysvmsg: ENOMSG\n"),
        (43, b"sysvmsg: EIDRM\n"),
        (75, b"sysvmsg: EOVERFLOW\n"),
    ];
    for (number, line) in table {
        assert_refusal(&rt, rt.alloc(), number, line);
    }
}

#[test]
fn a_later_request_is_refused(rt: HostRuntime) {
    let mut dialogue = Dialogue::new(
        &rt,
        rt.alloc(),
        &[WELCOME, b"\0\0\0\x03\x02\x01\x02", MESSAGE],
    );
    assert_is(&rt, dialogue.run(&rt, rt.alloc(), RECEIVE_ANY), 1);
    assert_is(
        &rt,
        dialogue.requests.text(),
        joined(&rt, rt.alloc(), &[HELLO, GET]).text(),
    );
    assert_is(&rt, dialogue.screen.text(), b"sysvmsg: ENOENT\n".as_slice());
}

/// The one line that is shown if the server does not reply.
const NO_REPLY: &[u8] = b"sysvmsg: no reply\n";

/// Asserts how a receive ends if the replies end or fail after this number of bytes.
fn assert_cut(rt: &impl Abort, alloc: Global, cut: usize, fails: bool) {
    let mut dialogue = Dialogue::new(rt, alloc, &[WELCOME, GOT, MESSAGE]);
    if fails {
        dialogue.replies.good = cut;
    } else {
        dialogue.replies.bytes.truncate(cut);
    }
    dialogue.assert_no_reply(rt, alloc, RECEIVE_ANY, cut);
    let asked: &[&[u8]] = match cut {
        0..=10 => &[HELLO],
        11..=21 => &[HELLO, GET],
        _ => &[HELLO, GET, RECEIVE],
    };
    dialogue.assert_requested(rt, joined(rt, alloc, asked).text(), cut);
}

#[test]
fn the_replies_are_cut_after_each_byte(rt: HostRuntime) {
    for cut in 0..40 {
        assert_cut(&rt, rt.alloc(), cut, false);
        assert_cut(&rt, rt.alloc(), cut, true);
    }
}

#[test]
fn a_table_that_is_cut_leaves_one_line(rt: HostRuntime) {
    let mut dialogue = listed(&rt, rt.alloc());
    let len = dialogue.replies.len();
    dialogue.replies.bytes.truncate(len.saturating_sub(1));
    assert_is(&rt, dialogue.run(&rt, rt.alloc(), LIST), 1);
    assert_is(&rt, dialogue.screen.text(), NO_REPLY);
}

/// Asserts that these bytes are no reply to a hello.
fn assert_is_no_reply(rt: &impl Abort, alloc: Global, bytes: &[u8]) {
    let mut dialogue = Dialogue::new(rt, alloc, &[bytes, WELCOME]);
    dialogue.assert_no_reply(rt, alloc, Task::Remove(Target::Id(0)), bytes);
    assert_is(rt, dialogue.requests.text(), HELLO);
}

#[test]
fn a_reply_to_another_request_is_none(rt: HostRuntime) {
    let table: [&[u8]; 10] = [
        REMOVED,
        GOT,
        MESSAGE,
        b"\0\0\0\x03\x02\x06\x0d",
        b"\0\0\0\x03\x01\0\0",
        b"\0\0\0\x03\x02\0\0",
        b"\0\0\0\x07\x01\0\0\0\0\0\x40",
        b"\0\0\0\x07\x03\0\0\0\0\0\x40",
        b"\0\0\0\x03\x02\0\x03",
        b"\0\0\x20\x0c\x02\0\0",
    ];
    for reply in table {
        assert_is_no_reply(&rt, rt.alloc(), reply);
    }
}

/// Asserts how a receive ends if the writer fails after `room` bytes of `all`.
fn assert_writer_fails(rt: &impl Abort, alloc: Global, room: usize, all: &[u8]) {
    let mut dialogue = Dialogue::new(rt, alloc, &[WELCOME, GOT, MESSAGE]);
    dialogue.requests.good = room;
    dialogue.assert_no_reply(rt, alloc, RECEIVE_ANY, room);
    dialogue.assert_requested(rt, &all[..room.min(all.len())], room);
    let read = match room {
        0..=17 => 0,
        18..=31 => 11,
        _ => 22,
    };
    assert_at(rt, dialogue.replies.read, read, room);
}

#[test]
fn the_writer_fails(rt: HostRuntime) {
    let all = joined(&rt, rt.alloc(), &[HELLO, GET, RECEIVE]);
    for room in 0..58 {
        assert_writer_fails(&rt, rt.alloc(), room, all.text());
    }
}

/// Asserts that a receive ends after this number of bytes of the replies if its requests can be
/// flushed so often.
fn assert_ends_unflushed(rt: &impl Abort, alloc: Global, flushes: usize, read: usize) {
    let mut dialogue = Dialogue::new(rt, alloc, &[WELCOME, GOT, MESSAGE]);
    dialogue.requests.flushes = flushes;
    dialogue.assert_no_reply(rt, alloc, RECEIVE_ANY, flushes);
    assert_at(rt, dialogue.replies.read, read, flushes);
}

#[test]
fn the_writer_cannot_be_flushed(rt: HostRuntime) {
    assert_ends_unflushed(&rt, rt.alloc(), 0, 0);
    assert_ends_unflushed(&rt, rt.alloc(), 1, 11);
    assert_ends_unflushed(&rt, rt.alloc(), 2, 22);
}

/// Asserts how a list ends if the screen fails after `room` bytes of `all`.
fn assert_screen_fails(rt: &impl Abort, alloc: Global, room: usize, all: &[u8]) {
    let mut dialogue = listed(rt, alloc);
    dialogue.screen.good = room;
    assert_at(rt, dialogue.run(rt, alloc, LIST), 1, room);
    dialogue.assert_shown(rt, &all[..room.min(all.len())], room);
}

/// Asserts how a list ends if the screen, which shows `all`, cannot be flushed.
fn assert_screen_is_unflushed(rt: &impl Abort, alloc: Global, all: &[u8]) {
    let mut dialogue = listed(rt, alloc);
    dialogue.screen.flushes = 0;
    assert_is(rt, dialogue.run(rt, alloc, LIST), 1);
    assert_is(rt, dialogue.screen.text(), all);
}

#[test]
fn the_screen_fails(rt: HostRuntime) {
    let shown = joined(&rt, rt.alloc(), &[HEAD, LINE, WIDE_LINE]);
    for room in [0, 1, 54, 55, 56, 170] {
        assert_screen_fails(&rt, rt.alloc(), room, shown.text());
    }
    assert_screen_is_unflushed(&rt, rt.alloc(), shown.text());
}

#[test]
fn keys(rt: HostRuntime) {
    let table: [(&[u8], Option<i32>); 24] = [
        (b"1", Some(1)),
        (b"007", Some(7)),
        (b"2147483647", Some(2147483647)),
        (b"0x7", Some(7)),
        (b"0x00000007", Some(7)),
        (b"0x7fffffff", Some(2147483647)),
        (b"0x80000000", Some(-2147483648)),
        (b"0xFFFFFFFF", Some(-1)),
        (b"0xaBc", Some(2748)),
        (b"0", None),
        (b"-0", None),
        (b"0x0", None),
        (b"0x00000000", None),
        (b"2147483648", None),
        (b"-1", None),
        (b"+1", None),
        (b"", None),
        (b"0x", None),
        (b"0x000000007", None),
        (b"0x+7", None),
        (b"0x-7", None),
        (b"0X7", None),
        (b"0xg", None),
        (b"7 ", None),
    ];
    for (word, key) in table {
        assert_at(&rt, key_of(word), key, word);
    }
}

#[test]
fn identifiers(rt: HostRuntime) {
    let table: [(&[u8], Option<i32>); 9] = [
        (b"0", Some(0)),
        (b"64", Some(64)),
        (b"2147483647", Some(2147483647)),
        (b"2147483648", None),
        (b"-1", None),
        (b"+1", None),
        (b"0x1", None),
        (b"", None),
        (b"\xff", None),
    ];
    for (word, id) in table {
        assert_at(&rt, id_of(word), id, word);
    }
}

#[test]
fn types(rt: HostRuntime) {
    let table: [(&[u8], Option<i64>); 8] = [
        (b"1", Some(1)),
        (b"9223372036854775807", Some(9223372036854775807)),
        (b"9223372036854775808", None),
        (b"0", None),
        (b"-1", None),
        (b"+1", None),
        (b"1.0", None),
        (b"", None),
    ];
    for (word, mtype) in table {
        assert_at(&rt, type_of(word), mtype, word);
    }
}
