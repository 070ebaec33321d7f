//! A server on a listener in memory, which tells what it has accepted, and with an input in memory.
ghost use Rattle.std.specs.Prelude.{◌≡◌};

use super::*;
use std::net::Shutdown;
use std::snapshot::Snapshot;
use sysv_seats::{Callers, Limits, SocketStream};
use sysv_server::{Input, Listens, serve_from};
use sysv_system::{Several, Watched};

/// A listener to which some clients have connected. It is open until it is closed.
#[derive(Drop)]
struct Connected {
    /// The server's ends of the connections, the first one last.
    waiting: Vec<UnixStream>,
    accepted: Vec<Snapshot<SocketStream>>,
    is_closed: bool,
    /// A stream whose other end is closed, which can therefore be read.
    readable: UnixStream,
}

impl Listens for Connected {
    ghost use Rattle.std.specs.Prelude.{IfSome, map, not, Some, ⊤};
    ghost use Rattle.sysv_seats.specs.declared.callers.Callers.TheVariants as Callers;
    ghost use Rattle.sysv_seats.specs.Untold.{callers_of};

    ghost accepted = { λ l. Some (map (λ s. s.value) l.accepted.items) };

    ghost listens = { λ l. not l.is_closed };

    ghost fails = { λ _ _ _. ⊤ };

    ghost steps = { λ _ step _. IfSome step (λ stream. callers_of stream ≡ Callers.Anyone) };

    fn is_open(&self) -> bool {
        !self.is_closed
    }

    fn open(&mut self) -> io::Result<()> {
        self.is_closed = false;
        Ok(())
    }

    fn watch(&self, _room: u64, listeners: &mut Several) -> bool {
        listeners.add(Watched::of(&self.readable));
        true
    }

    fn accept(&mut self, _room: u64, limits: Limits) -> io::Result<SocketStream> {
        let Some(stream) = self.waiting.pop() else {
            return Err(io::Error::from(ErrorKind::NotConnected));
        };
        let socket = SocketStream::new(stream, limits, Callers::Anyone, None)?;
        match self.accepted.push(Snapshot::of(&socket)) {
            Ok(()) => Ok(socket),
            Err(_) => Err(io::Error::from(ErrorKind::OutOfMemory)),
        }
    }

    fn close(&mut self) {
        self.is_closed = true;
    }
}

/// An input of some bytes, which can be read at any time.
#[derive(Drop)]
struct Typed {
    left: usize,
    readable: UnixStream,
}

impl Input for Typed {
    ghost use Rattle.std.specs.Prelude.{◌≡◌, ◌-◌, min, Ok};

    ghost reads = { λ old room told new. (told ≡ Ok (min old.left room))
        × (new.left ≡ old.left - min old.left room) };

    fn descriptor(&self) -> Watched {
        Watched::of(&self.readable)
    }

    fn read(&mut self, piece: &mut [u8]) -> io::Result<usize> {
        let count = self.left.min(piece.len());
        self.left -= count;
        Ok(count)
    }
}

/// Returns a stream that can be read.
fn readable<R: Net + Abort>(rt: &R) -> UnixStream {
    let (stream, other) = UnixStream::pair(rt).expect(rt, "two sockets");
    drop(other);
    stream
}

/// Connects a client that has written these requests, and returns it.
fn client<R: Net + Abort>(rt: &R, listener: &mut Connected, requests: &[&[u8]]) -> UnixStream {
    let (mut stream, other) = UnixStream::pair(rt).expect(rt, "two sockets");
    for request in requests {
        assert_that(rt, stream.write_all(request).is_ok());
    }
    assert_that(rt, stream.shutdown(Shutdown::Write).is_ok());
    listener.waiting.insert(0, other).expect(rt, "memory");
    stream
}

/// Returns a listener to which nobody has connected.
fn listener<R: Net + Abort>(rt: &R, alloc: Global) -> Connected {
    Connected {
        waiting: Vec::new(alloc),
        accepted: Vec::new(alloc),
        is_closed: true,
        readable: readable(rt),
    }
}

/// Terms of a server that has one client at a time, up to this number.
fn terms(sessions: u64) -> Terms
    ensures { (result.blocks ≡ 128) × (result.workers ≡ 1) × (result.at_once ≡ 1) }
{
    Terms {
        blocks: 128,
        workers: 1,
        at_once: 1,
        sessions,
        patience: Patience::UNBOUNDED,
        drain: 0,
        stats: false,
        hold: false,
        sockets: 1,
        alone: false,
    }
}

/// Asserts that the server ended with these sums, if it was not for want of memory or of a thread.
fn assert_sums(rt: &impl Abort, end: Result<Ended, ServeFault>, sums: Sums) {
    match end {
        Ok(end) => assert_is(rt, end.sums, sums),
        Err(fault) => assert_that(rt, is_for_want(&fault)),
    }
}

/// Asserts that the server has closed the listener, and left one client waiting.
fn assert_closed(rt: &impl Abort, listener: &Connected) {
    assert_that(rt, listener.is_closed);
    assert_is(rt, listener.waiting.len(), 1);
}

/// Asserts that the client had these replies, and nothing more.
fn assert_had(rt: &impl Abort, client: &mut UnixStream, replies: &[&[u8]]) {
    assert_that(rt, asks(client, &[], replies));
    assert_that(rt, ends(client));
}

// The first client sends a message, the second receives it, and the third is not accepted: its
// connection is closed with the listener.
#[test]
fn each_connection_that_was_accepted_is_served(rt: HostRuntime) {
    let mut listener = listener(&rt, rt.alloc());
    let mut first = client(&rt, &mut listener, &[HELLO, CREATE, SEND]);
    let mut second = client(&rt, &mut listener, &[HELLO, RECEIVE_NOW]);
    let mut third = client(&rt, &mut listener, &[]);
    let mut reason = None;
    let end = serve_from(
        &rt,
        rt.alloc(),
        &mut listener,
        &Unbound,
        None::<Typed>,
        terms(2),
        &mut reason,
    );
    let is_served = end.is_ok();
    assert_sums(&rt, end, sums(2, 1, 0));
    if is_served {
        assert_that(&rt, matches!(reason, Some(Reason::Full)));
        assert_closed(&rt, &listener);
        assert_is(&rt, listener.accepted.len(), 2);
        assert_had(&rt, &mut first, &[KNOWN, FOUND, SENT]);
        assert_had(&rt, &mut second, &[KNOWN, RECEIVED]);
    }
    drop(listener);
    assert_that(&rt, !is_served || ends(&mut third));
}

// The input has one byte, which is read before the first client is accepted. It is over before the
// second is.
#[test]
fn a_server_ends_at_the_end_of_its_input(rt: HostRuntime) {
    let mut listener = listener(&rt, rt.alloc());
    let mut first = client(&rt, &mut listener, &[HELLO]);
    let _second = client(&rt, &mut listener, &[HELLO]);
    let input = Typed {
        left: 1,
        readable: readable(&rt),
    };
    let mut reason = None;
    let end = serve_from(
        &rt,
        rt.alloc(),
        &mut listener,
        &Unbound,
        Some(input),
        terms(0),
        &mut reason,
    );
    let is_served = end.is_ok();
    assert_sums(&rt, end, sums(1, 0, 0));
    if is_served {
        assert_that(&rt, matches!(reason, Some(Reason::InputOver)));
        assert_closed(&rt, &listener);
        assert_had(&rt, &mut first, &[KNOWN]);
    }
}

// The first client is served. Nobody else has connected, which is an error that does not pass.
#[test]
fn a_server_ends_with_the_error_of_an_accept(rt: HostRuntime) {
    let mut listener = listener(&rt, rt.alloc());
    let mut first = client(&rt, &mut listener, &[HELLO]);
    let mut reason = None;
    let end = serve_from(
        &rt,
        rt.alloc(),
        &mut listener,
        &Unbound,
        None::<Typed>,
        terms(0),
        &mut reason,
    );
    let is_served = end.is_ok();
    assert_sums(&rt, end, sums(1, 0, 0));
    if is_served {
        let kind = match reason {
            Some(Reason::Accept(why)) => Some(why.kind()),
            _ => None,
        };
        assert_that(&rt, kind == Some(ErrorKind::NotConnected));
        assert_that(&rt, listener.is_closed);
        assert_had(&rt, &mut first, &[KNOWN]);
    }
}
