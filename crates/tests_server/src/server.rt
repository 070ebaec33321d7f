//! Servers on a socket, whose clients write frames that were worked out by hand.
ghost use Rattle.std.specs.Prelude.{◌≤◌};

mod growths;
mod in_memory;

use crate::commands::five_sessions;
use crate::parts::{assert_is, assert_that};
use std::alloc::Global;
use std::io::{ErrorKind, Read, Write};
use std::net::{Net, SocketAddr, TcpListener, TcpStream};
use std::os::unix::net::{UnixListener, UnixStream};
use std::process::Abort;
use std::rt::Files;
use std::sync::Wait;
use std::thread::Threads;
use std::time::{Clock, Duration};
use std::{fs, io, thread};
use sysv_keys::SLOTS;
use sysv_server::{
    Ended, Fates, Host, Notice, Patience, Reason, ServeFault, Sums, Terms, serve_listener, serve_on,
};
use sysv_service::Closed;

/// What is left of a service of 128 blocks when it is closed: no message, all blocks, no held gate.
const EMPTY: Closed = Closed {
    waiting: 0,
    free: 128,
    held: 0,
};

/// A hello of user and group 1000, pid 101.
pub(crate) const HELLO: &[u8] = &[
    0x00, 0x00, 0x00, 0x0e, 0x01, 0x00, 0x00, 0x00, 0x03, 0xe8, 0x00, 0x00, 0x03, 0xe8, 0x00, 0x00,
    0x00, 0x65,
];

/// A hello of user and group 2000, pid 102.
const OTHER: &[u8] = &[
    0x00, 0x00, 0x00, 0x0e, 0x01, 0x00, 0x00, 0x00, 0x07, 0xd0, 0x00, 0x00, 0x07, 0xd0, 0x00, 0x00,
    0x00, 0x66,
];

/// The reply to a hello.
pub(crate) const KNOWN: &[u8] = &[0x00, 0x00, 0x00, 0x03, 0x01, 0x00, 0x00];

/// A get of key 7 with IPC_CREAT and mode 0640.
pub(crate) const CREATE: &[u8] = &[
    0x00, 0x00, 0x00, 0x0a, 0x01, 0x01, 0x00, 0x00, 0x00, 0x07, 0x00, 0x00, 0x03, 0xa0,
];

/// A get of key 7 without flags.
const FIND: &[u8] = &[
    0x00, 0x00, 0x00, 0x0a, 0x01, 0x01, 0x00, 0x00, 0x00, 0x07, 0x00, 0x00, 0x00, 0x00,
];

/// The reply to a get: identifier 0.
pub(crate) const FOUND: &[u8] = &[
    0x00, 0x00, 0x00, 0x07, 0x01, 0x01, 0x00, 0x00, 0x00, 0x00, 0x00,
];

/// The reply to a get: ENOENT.
const NOT_FOUND: &[u8] = &[0x00, 0x00, 0x00, 0x03, 0x01, 0x01, 0x02];

/// A send of `abc`, of type 5, to queue 0.
pub(crate) const SEND: &[u8] = &[
    0x00, 0x00, 0x00, 0x15, 0x01, 0x02, 0x00, 0x00, 0x00, 0x00, 0x00, 0x00, 0x00, 0x00, 0x00, 0x00,
    0x00, 0x05, 0x00, 0x00, 0x00, 0x00, 0x61, 0x62, 0x63,
];

/// The reply to a send.
pub(crate) const SENT: &[u8] = &[0x00, 0x00, 0x00, 0x03, 0x01, 0x02, 0x00];

/// A receive of at most 100 bytes of any type from queue 0, which waits.
const RECEIVE: &[u8] = &[
    0x00, 0x00, 0x00, 0x16, 0x01, 0x03, 0x00, 0x00, 0x00, 0x00, 0x00, 0x00, 0x00, 0x64, 0x00, 0x00,
    0x00, 0x00, 0x00, 0x00, 0x00, 0x00, 0x00, 0x00, 0x00, 0x00,
];

/// The same receive without waiting.
const RECEIVE_NOW: &[u8] = &[
    0x00, 0x00, 0x00, 0x16, 0x01, 0x03, 0x00, 0x00, 0x00, 0x00, 0x00, 0x00, 0x00, 0x64, 0x00, 0x00,
    0x00, 0x00, 0x00, 0x00, 0x00, 0x00, 0x00, 0x00, 0x08, 0x00,
];

/// The reply to a receive: `abc`, of type 5.
const RECEIVED: &[u8] = &[
    0x00, 0x00, 0x00, 0x0e, 0x01, 0x03, 0x00, 0x00, 0x00, 0x00, 0x00, 0x00, 0x00, 0x00, 0x05, 0x61,
    0x62, 0x63,
];

/// IPC_RMID of queue 0.
const REMOVE: &[u8] = &[0x00, 0x00, 0x00, 0x06, 0x01, 0x06, 0x00, 0x00, 0x00, 0x00];

/// The replies to IPC_RMID: done, and EPERM.
const REMOVED: &[u8] = &[0x00, 0x00, 0x00, 0x03, 0x01, 0x06, 0x00];

const NOT_REMOVED: &[u8] = &[0x00, 0x00, 0x00, 0x03, 0x01, 0x06, 0x01];

/// The row of queue 0: key 7, user 1000, mode 0640, three bytes in one message.
const ROW: &[u8] = &[
    0x00, 0x00, 0x00, 0x1a, 0x01, 0x07, 0x00, 0x01, 0x00, 0x00, 0x00, 0x00, 0x00, 0x00, 0x00, 0x07,
    0x00, 0x00, 0x03, 0xe8, 0x01, 0xa0, 0x00, 0x00, 0x00, 0x03, 0x00, 0x00, 0x00, 0x01,
];

/// The reply that the slot has no queue.
const NO_ROW: &[u8] = &[0x00, 0x00, 0x00, 0x04, 0x01, 0x07, 0x00, 0x00];

/// Returns whether the requests could be written and these replies were read.
fn asks(stream: &mut UnixStream, requests: &[&[u8]], replies: &[&[u8]]) -> bool {
    for request in requests {
        if stream.write_all(request).is_err() {
            return false;
        }
    }
    replies.iter().all(|reply| gives(stream, reply))
}

/// Returns whether these bytes are read next.
fn gives(stream: &mut UnixStream, reply: &[u8]) -> bool {
    let mut read = [0u8; 64];
    let read = &mut read[..reply.len().min(64)];
    stream.read_exact(read).is_ok() && &*read == reply
}

/// Returns whether a session has these replies.
pub(crate) fn converses(rt: &impl Net, path: &str, requests: &[&[u8]], replies: &[&[u8]]) -> bool {
    match UnixStream::connect(rt, path) {
        Ok(mut stream) => asks(&mut stream, requests, replies),
        Err(_) => false,
    }
}

// Each client below makes all its connections, answered or not, since the server waits for that
// number of them.

/// A message passes from one session to another.
fn passing(rt: &impl Net, path: &str) -> bool {
    converses(rt, path, &[HELLO, CREATE, SEND], &[KNOWN, FOUND, SENT])
        & converses(rt, path, &[HELLO, RECEIVE_NOW], &[KNOWN, RECEIVED])
}

/// A queue is created, shown, kept from another user, and removed.
fn commanding(rt: &impl Net, path: &str) -> bool {
    converses(rt, path, &[HELLO, CREATE, SEND], &[KNOWN, FOUND, SENT])
        & listing(rt, path)
        & converses(rt, path, &[OTHER, REMOVE], &[KNOWN, NOT_REMOVED])
        & converses(rt, path, &[HELLO, REMOVE], &[KNOWN, REMOVED])
        & converses(rt, path, &[HELLO, FIND], &[KNOWN, NOT_FOUND])
}

/// Requests the rows of all slots, of which only the first has a queue.
fn listing(rt: &impl Net, path: &str) -> bool {
    let Ok(mut stream) = UnixStream::connect(rt, path) else {
        return false;
    };
    if !asks(&mut stream, &[HELLO], &[KNOWN]) {
        return false;
    }
    for slot in 0..SLOTS as u32 {
        let [a, b, c, d] = slot.to_be_bytes();
        let request: &[u8] = &[0x00, 0x00, 0x00, 0x06, 0x01, 0x07, a, b, c, d];
        let reply = if slot == 0 { ROW } else { NO_ROW };
        if !asks(&mut stream, &[request], &[reply]) {
            return false;
        }
    }
    true
}

/// One session waits for the messages of two others, and receives the first.
fn waiting(rt: &impl Net, path: &str) -> bool {
    let Ok(mut first) = UnixStream::connect(rt, path) else {
        return false;
    };
    asks(&mut first, &[HELLO, CREATE, RECEIVE], &[KNOWN, FOUND])
        & converses(rt, path, &[HELLO, SEND], &[KNOWN, SENT])
        & converses(rt, path, &[HELLO, SEND], &[KNOWN, SENT])
        & gives(&mut first, RECEIVED)
}

/// One session waits for the message of another, and its client is gone before it is sent. A third
/// session receives the message.
fn vanishing(rt: &(impl Net + Wait + Clock), path: &str) -> bool {
    let begun = converses(rt, path, &[HELLO, CREATE, RECEIVE], &[KNOWN, FOUND]);
    thread::sleep(rt, Duration::from_millis(300));
    begun
        & converses(rt, path, &[HELLO, SEND], &[KNOWN, SENT])
        & converses(rt, path, &[HELLO, RECEIVE_NOW], &[KNOWN, RECEIVED])
}

/// A client goes away within a frame, and another before it writes anything.
fn breaking(rt: &impl Net, path: &str) -> bool {
    converses(rt, path, &[HELLO, &CREATE[..5]], &[KNOWN]) & converses(rt, path, &[], &[])
}

/// A hello of version 2, of user and group 1000, pid 101.
const SECOND_HELLO: &[u8] = &[
    0x00, 0x00, 0x00, 0x0e, 0x02, 0x00, 0x00, 0x00, 0x03, 0xe8, 0x00, 0x00, 0x03, 0xe8, 0x00, 0x00,
    0x00, 0x65,
];

/// A get of key 7 in version 2, and the reply with identifier 0.
const SECOND_GET: &[u8] = &[
    0x00, 0x00, 0x00, 0x0a, 0x02, 0x01, 0x00, 0x00, 0x00, 0x07, 0x00, 0x00, 0x03, 0x80,
];

const SECOND_FOUND: &[u8] = &[
    0x00, 0x00, 0x00, 0x07, 0x02, 0x01, 0x00, 0x00, 0x00, 0x00, 0x00,
];

/// Returns whether nothing more can be read.
fn ends(stream: &mut UnixStream) -> bool {
    let mut byte = [0u8; 1];
    matches!(stream.read(&mut byte), Ok(0))
}

/// A session of version 2 and a session of version 1 at once, and then a request of version 1 in
/// the first.
fn both_versions(rt: &impl Net, path: &str) -> bool {
    let [a, b, c, d] = (SLOTS as u32).to_be_bytes();
    let known = [0x00, 0x00, 0x00, 0x07, 0x02, 0x00, 0x00, a, b, c, d];
    let Ok(mut second) = UnixStream::connect(rt, path) else {
        return false;
    };
    asks(&mut second, &[SECOND_HELLO], &[&known])
        & converses(rt, path, &[HELLO, CREATE], &[KNOWN, FOUND])
        & asks(&mut second, &[SECOND_GET], &[SECOND_FOUND])
        & asks(&mut second, &[FIND], &[])
        & ends(&mut second)
}

/// The last session creates a queue, and leaves it.
fn leaving(rt: &impl Net, path: &str) -> bool {
    converses(rt, path, &[HELLO, FIND], &[KNOWN, NOT_FOUND])
        & converses(rt, path, &[HELLO, CREATE, SEND], &[KNOWN, FOUND, SENT])
}

/// The path of the socket on which a server shows its state.
const STATE_PATH: &str = "state.socket";

/// The first bytes of the state of a server. A version follows, and the time of the start.
const STATE_BEGINS: &[u8] = b"{\"version\":\"";

/// The rest of the state of a server with one session, which has sent a message of three bytes to
/// queue 0 of key 7.
const STATE_ENDS: &[u8] = b",\"sessions\":1,\"sessions_max\":2,\"sessions_total\":1,\
    \"has_waiting_clients\":0,\"waiting_receives\":0,\"waiting_sends\":0,\"waiting_for_blocks\":0,\
    \"sent_total\":1,\"taken_total\":0,\"written_total\":0,\"lost_total\":0,\"blocks\":128,\
    \"free_blocks\":127,\"held\":0,\"back_total\":0,\"gone_total\":0,\"unwatched_total\":0,\
    \"queues\":[{\"key\":\"0x00000007\",\"msqid\":0,\"slot\":0,\"bytes\":3,\"messages\":1,\
    \"waiting_receives\":0,\"waiting_sends\":0}],\
    \"slots\":[{\"slot\":0,\"sent_total\":1,\"taken_total\":0}]}\n";

/// Returns whether a reader that asks for a JSON object reads that state.
fn shows(rt: &impl Net) -> bool {
    let mut read = [0u8; 1024];
    let Ok(mut reader) = UnixStream::connect(rt, STATE_PATH) else {
        return false;
    };
    if reader.write_all(b"json\n").is_err() {
        return false;
    }
    let length = read_to_end(&mut reader, &mut read);
    match read.get(..length) {
        Some(state) => state.starts_with(STATE_BEGINS) && state.ends_with(STATE_ENDS),
        None => false,
    }
}

/// Reads to the end, or until the buffer is full. Returns the number of bytes.
fn read_to_end(reader: &mut UnixStream, buf: &mut [u8]) -> usize {
    let mut length: usize = 0;
    for _ in 0..buf.len() {
        let Some(room) = buf.get_mut(length..) else {
            return length;
        };
        match reader.read(room) {
            Ok(0) | Err(_) => return length,
            Ok(count) => length = length.saturating_add(count),
        }
    }
    length
}

/// The state is read while a session is open. The reader tries again, since the server closes the
/// connection if memory for the state is refused.
fn looking(rt: &impl Net, path: &str) -> bool {
    let Ok(mut session) = UnixStream::connect(rt, path) else {
        return false;
    };
    let sent = asks(&mut session, &[HELLO, CREATE, SEND], &[KNOWN, FOUND, SENT]);
    let shown = shows(rt) || shows(rt);
    sent & shown & converses(rt, path, &[HELLO, RECEIVE_NOW], &[KNOWN, RECEIVED])
}

/// The clients of a test.
#[derive(Clone, Copy)]
enum Clients {
    Looking,
    Leaving,
    Passing,
    Commanding,
    Waiting,
    Vanishing,
    Breaking,
    Asking,
    BothVersions,
}

impl Clients {
    /// Runs the clients, and returns whether they had the right replies.
    fn run(self, rt: &(impl Net + Wait + Clock), alloc: Global, path: &str) -> bool {
        match self {
            Clients::Looking => looking(rt, path),
            Clients::Leaving => leaving(rt, path),
            Clients::Passing => passing(rt, path),
            Clients::Commanding => commanding(rt, path),
            Clients::Waiting => waiting(rt, path),
            Clients::Vanishing => vanishing(rt, path),
            Clients::Breaking => breaking(rt, path),
            Clients::Asking => five_sessions(rt, alloc, path),
            Clients::BothVersions => both_versions(rt, path),
        }
    }
}

/// The handle of a server in a thread of its own. It may wait and start threads if `R` may. Its
/// network opens nothing: a server accepts connections from a listener that is open.
#[derive(Drop)]
struct Apart<'a, R> {
    rt: &'a R,
}

impl<R: Threads> Threads for Apart<'_, R> {}

impl<R: Wait> Wait for Apart<'_, R> {}

impl<R> Net for Apart<'_, R> {
    type Stream = TcpStream;

    type Listener = TcpListener;

    fn bind(&self, _addr: SocketAddr) -> io::Result<TcpListener> {
        Err(io::Error::from(ErrorKind::Unsupported))
    }

    fn connect(&self, _addr: SocketAddr) -> io::Result<TcpStream> {
        Err(io::Error::from(ErrorKind::Unsupported))
    }
}

/// Returns the result of a server with this number of workers and sessions, and whether its clients
/// had the right replies.
fn served<R: Threads + Wait + Net + Files + Abort + Clock + Sync>(
    rt: &R,
    alloc: Global,
    workers: u32,
    sessions: u64,
    clients: Clients,
) -> (Result<Sums, ServeFault>, bool)
    requires { (1 ≤ workers) × (workers ≤ 16) }
{
    let path = "server.socket";
    let _old = fs::remove_file(rt, path);
    let listener = UnixListener::bind(rt, path).expect(rt, "a socket");
    thread::join(
        rt,
        move || -> Result<Sums, ServeFault>
            requires { (1 ≤ workers) × (workers ≤ 16) }
        {
            let apart = Apart { rt };
            let sums = serve_on(&apart, alloc, &listener, 128, workers, sessions);
            drop(listener);
            sums
        },
        move || clients.run(rt, alloc, path),
    )
}

/// Asserts that the server returns these sums and that its clients had the right replies. Tries
/// again if memory or a thread was refused before a session began.
fn adds_up<R: Threads + Wait + Net + Files + Abort + Clock + Sync>(
    rt: &R,
    alloc: Global,
    workers: u32,
    clients: Clients,
    all: Sums,
)
    requires { (1 ≤ workers) × (workers ≤ 16) }
{
    let first = served(rt, alloc, workers, all.sessions, clients);
    if matches!(&first.0, Err(ServeFault::NoMemory | ServeFault::Thread)) {
        let second = served(rt, alloc, workers, all.sessions, clients);
        assert_is(rt, second, (Ok(all), true));
    } else {
        assert_is(rt, first, (Ok(all), true));
    }
}

/// The host of a server, with listeners of which the server gets copies.
#[derive(Drop)]
struct Bound {
    listener: UnixListener,
    readers: UnixListener,
}

impl Host for Bound {
    fn listen(&self, _number: usize) -> io::Result<UnixListener> {
        self.listener.try_clone()
    }

    fn listen_for_readers(&self) -> io::Result<Option<UnixListener>> {
        Ok(Some(self.readers.try_clone()?))
    }

    fn note(&self, _notice: Notice) {}
}

/// The host of a server, which has no listener.
#[derive(Drop)]
struct Unbound;

impl Host for Unbound {
    fn listen(&self, _number: usize) -> io::Result<UnixListener> {
        Err(io::Error::from(ErrorKind::AddrInUse))
    }

    fn note(&self, _notice: Notice) {}
}

/// Returns how a server on these terms ends, and whether that was because all its connections were
/// accepted, and whether its clients had the right replies.
fn ended<R: Threads + Wait + Net + Files + Abort + Clock + Sync>(
    rt: &R,
    alloc: Global,
    terms: Terms,
    clients: Clients,
) -> ((Result<Ended, ServeFault>, bool), bool)
    requires { (128 ≤ terms.blocks) × (terms.blocks ≤ 65536) × (1 ≤ terms.workers)
        × (terms.workers ≤ 16) × (1 ≤ terms.at_once) × (terms.at_once ≤ 16384) }
{
    let path = "server.socket";
    let _old = fs::remove_file(rt, path);
    let listener = UnixListener::bind(rt, path).expect(rt, "a socket");
    let _old = fs::remove_file(rt, STATE_PATH);
    let readers = UnixListener::bind(rt, STATE_PATH).expect(rt, "a socket");
    let host = Bound { listener, readers };
    thread::join(
        rt,
        move || -> (Result<Ended, ServeFault>, bool)
            requires { (128 ≤ terms.blocks) × (terms.blocks ≤ 65536) × (1 ≤ terms.workers)
                × (terms.workers ≤ 16) × (1 ≤ terms.at_once) × (terms.at_once ≤ 16384) }
        {
            let mut reason = None;
            let apart = Apart { rt };
            let end = serve_listener(&apart, alloc, host, None::<UnixStream>, terms, &mut reason);
            (end, matches!(reason, Some(Reason::Full)))
        },
        move || clients.run(rt, alloc, path),
    )
}

/// Asserts that a server with these many clients at once ends with these sums, after it has removed
/// this number of queues with this number of messages, and that its clients had the right replies.
/// Tries again if memory or a thread was refused before a session began.
fn ends_with<R: Threads + Wait + Net + Files + Abort + Clock + Sync>(
    rt: &R,
    alloc: Global,
    at_once: u32,
    clients: Clients,
    all: Sums,
    left: (u32, u64),
)
    requires { (1 ≤ at_once) × (at_once ≤ 16384) }
{
    let terms = Terms {
        blocks: 128,
        workers: 4,
        at_once,
        sessions: all.sessions,
        patience: Patience {
            idle: 60,
            stall: 61,
        },
        drain: 62,
        stats: matches!(clients, Clients::Looking),
        hold: false,
        sockets: 1,
        alone: false,
    };
    let first = ended(rt, alloc, terms, clients);
    if matches!(&first.0.0, Err(ServeFault::NoMemory | ServeFault::Thread)) {
        assert_end(rt, ended(rt, alloc, terms, clients), terms, all, left);
    } else {
        assert_end(rt, first, terms, all, left);
    }
}

/// What became of messages that were held, if none was.
const NO_FATES: Fates = Fates {
    sent: 0,
    discarded: 0,
    refused: 0,
    unsent: 0,
};

/// Asserts that a server on these terms ended with these sums because all its connections were
/// accepted, after it had removed this number of queues with this number of messages, and that its
/// clients had the right replies.
fn assert_end(
    rt: &impl Abort,
    run: ((Result<Ended, ServeFault>, bool), bool),
    terms: Terms,
    all: Sums,
    left: (u32, u64),
) {
    let ((end, is_full), are_right) = run;
    assert_is(rt, (is_full, are_right), (true, true));
    let end = end.expect(rt, "a server that ends");
    let (removed, queued) = left;
    let wanted = Ended {
        sums: all,
        refused: 0,
        fates: NO_FATES,
        removed: Ok(removed),
        queued,
        cut: 0,
        closed: EMPTY,
        setting: end.setting,
    };
    assert_is(rt, end, wanted);
    let workers = terms.workers.min(terms.at_once) as usize;
    assert_is(rt, end.setting.workers(), workers);
    assert_is(rt, end.setting.patience(), terms.patience);
    assert_is(rt, end.setting.drain(), terms.drain);
    assert_is(rt, end.setting.holds(), terms.hold);
}

/// Returns the sums of this number of sessions, with these numbers of messages written and lost.
fn sums(sessions: u64, written: u64, lost: u64) -> Sums {
    Sums {
        sessions,
        taken: written.saturating_add(lost),
        written,
        lost,
    }
}

#[test]
fn a_message_goes_from_one_session_to_another(rt: HostRuntime) {
    adds_up(&rt, rt.alloc(), 1, Clients::Passing, sums(2, 1, 0));
    adds_up(&rt, rt.alloc(), 4, Clients::Passing, sums(2, 1, 0));
}

#[test]
fn a_queue_is_made_and_removed(rt: HostRuntime) {
    adds_up(&rt, rt.alloc(), 1, Clients::Commanding, sums(5, 0, 0));
}

#[test]
fn a_session_waits_for_another(rt: HostRuntime) {
    adds_up(&rt, rt.alloc(), 2, Clients::Waiting, sums(3, 1, 0));
}

#[test]
fn a_client_is_gone_when_its_message_comes(rt: HostRuntime) {
    adds_up(&rt, rt.alloc(), 2, Clients::Vanishing, sums(3, 1, 0));
}

#[test]
fn clients_go_away_early(rt: HostRuntime) {
    adds_up(&rt, rt.alloc(), 1, Clients::Breaking, sums(2, 0, 0));
}

#[test]
fn a_server_and_its_clients(rt: HostRuntime) {
    adds_up(&rt, rt.alloc(), 1, Clients::Asking, sums(5, 0, 0));
}

#[test]
fn sessions_of_both_versions(rt: HostRuntime) {
    adds_up(&rt, rt.alloc(), 2, Clients::BothVersions, sums(2, 0, 0));
}

#[test]
fn the_queue_that_the_last_session_made_is_removed_with_its_message(rt: HostRuntime) {
    ends_with(&rt, rt.alloc(), 1, Clients::Leaving, sums(2, 0, 0), (1, 1));
}

#[test]
fn a_server_shows_its_state(rt: HostRuntime) {
    ends_with(&rt, rt.alloc(), 2, Clients::Looking, sums(2, 1, 0), (1, 0));
}

#[test]
fn no_queue_is_left(rt: HostRuntime) {
    ends_with(
        &rt,
        rt.alloc(),
        40,
        Clients::Commanding,
        sums(5, 0, 0),
        (0, 0),
    );
}

#[test]
fn a_server_without_a_listener_serves_nobody(rt: HostRuntime) {
    let terms = Terms {
        blocks: 128,
        workers: 2,
        at_once: 2,
        sessions: 3,
        patience: Patience::UNBOUNDED,
        drain: 0,
        stats: false,
        hold: false,
        sockets: 1,
        alone: false,
    };
    let mut reason = None;
    let end = serve_listener(
        &rt,
        rt.alloc(),
        Unbound,
        None::<UnixStream>,
        terms,
        &mut reason,
    );
    match end {
        Ok(end) => {
            assert_is(&rt, end.sums, sums(0, 0, 0));
            assert_that(&rt, matches!(reason, Some(Reason::NoSocket(_))));
        }
        Err(fault) => assert_that(&rt, is_for_want(&fault)),
    }
}

/// Returns whether memory or a thread was refused to a server.
fn is_for_want(fault: &ServeFault) -> bool {
    matches!(fault, ServeFault::NoMemory | ServeFault::Thread)
}
