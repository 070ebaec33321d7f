//! Connections that never wait, in memory and on a pair of sockets.
use crate::parts::{assert_is, assert_that};
use std::alloc::Global;
use std::io::{Read, Write};
use std::net::Net;
use std::os::unix::net::UnixStream;
use std::process::Abort;
use sysv_seats::{
    Callers, Drained, Filled, Limits, MemoryStream, NonBlocking, Over, Replies, SocketStream, Step,
};

/// Returns whether a read with room for 4 bytes gives these.
fn gives<T: NonBlocking>(stream: &mut T, bytes: &[u8]) -> bool {
    let mut buf = [0u8; 4];
    stream.fill(&mut buf) == Filled::Bytes(bytes.len()) && buf.starts_with(bytes)
}

/// Returns what a read with room for 4 bytes returns.
fn reads<T: NonBlocking>(stream: &mut T) -> Filled {
    let mut buf = [0u8; 4];
    stream.fill(&mut buf)
}

/// Returns a connection in memory with room for 6 bytes.
fn memory<'a>(
    rt: &impl Abort,
    alloc: Global,
    input: &'a [u8],
    reads: &'a [Step],
    writes: &'a [Step],
) -> MemoryStream<'a> {
    MemoryStream::new(alloc, input, 6, reads, writes).expect(rt, "memory")
}

/// Returns a connection on a socket, and its client.
fn socket<R: Net + Abort>(rt: &R) -> (SocketStream, UnixStream) {
    let (ours, client) = UnixStream::pair(rt).expect(rt, "a pair of sockets");
    let stream = SocketStream::new(ours, Limits::all_or_none(true), Callers::Anyone, None).expect(
        rt,
        "a socket that does not wait",
    );
    (stream, client)
}

// The bytes come in the pieces of the steps, and then as many as the buffer has room for.
#[test]
fn pieces_with_nothing_between(rt: HostRuntime) {
    let steps = [Step::AtMost(3), Step::AtMost(0), Step::AtMost(2)];
    let mut stream = memory(&rt, rt.alloc(), b"abcdefghijk", &steps, &[]);
    assert_that(&rt, gives(&mut stream, b"abc"));
    assert_is(&rt, reads(&mut stream), Filled::NothingNow);
    assert_that(&rt, gives(&mut stream, b"de"));
    assert_that(&rt, gives(&mut stream, b"fghi"));
    assert_is(&rt, stream.fill(&mut []), Filled::NothingNow);
    assert_that(&rt, gives(&mut stream, b"jk"));
    assert_is(&rt, reads(&mut stream), Filled::Over(Over::End));
    assert_is(&rt, reads(&mut stream), Filled::Over(Over::End));
}

// A write takes part of its bytes, then none, and then as many as there is room for.
#[test]
fn parts_of_a_write(rt: HostRuntime) {
    let steps = [Step::AtMost(2), Step::AtMost(0)];
    let mut stream = memory(&rt, rt.alloc(), b"", &[], &steps);
    assert_is(&rt, stream.drain(b"abcde"), Drained::Took(2));
    assert_is(&rt, stream.drain(b"cde"), Drained::NothingNow);
    assert_is(&rt, stream.drain(b"cde"), Drained::Took(3));
    assert_is(&rt, stream.drain(b"fg"), Drained::Took(1));
    assert_is(&rt, stream.drain(b"g"), Drained::NothingNow);
    assert_is(&rt, stream.written(), b"abcdef".as_slice());
    assert_keeps(&rt, rt.alloc(), stream, b"abcdef");
}

/// Closes the connection, and asserts that its book has these bytes alone.
fn assert_keeps(rt: &impl Abort, alloc: Global, stream: MemoryStream<'_>, bytes: &[u8]) {
    let mut book = Replies::with_room(alloc, 1).expect(rt, "memory");
    stream.close(&mut book);
    let kept = book.kept();
    assert_is(rt, kept.len(), 1);
    assert_that(rt, kept.iter().all(|reply| reply.as_slice() == bytes));
}

// After a read or a write has failed, each later one fails. The other direction goes on.
#[test]
fn failures_stay(rt: HostRuntime) {
    let steps = [Step::AtMost(1), Step::Fail];
    let mut stream = memory(&rt, rt.alloc(), b"abc", &steps, &steps);
    assert_that(&rt, gives(&mut stream, b"a"));
    assert_is(&rt, reads(&mut stream), Filled::Over(Over::Failed));
    assert_is(&rt, reads(&mut stream), Filled::Over(Over::Failed));
    assert_is(&rt, stream.drain(b"xyz"), Drained::Took(1));
    assert_is(&rt, stream.drain(b"yz"), Drained::Failed);
    assert_is(&rt, stream.drain(b"yz"), Drained::Failed);
    assert_is(&rt, stream.written(), b"x".as_slice());
    let mut reset = memory(&rt, rt.alloc(), b"abc", &[Step::Reset], &[Step::Reset]);
    assert_is(&rt, reads(&mut reset), Filled::Over(Over::Reset));
    assert_is(&rt, reset.drain(b"x"), Drained::Failed);
}

// A socket whose client shuts down: bytes in both directions, then the end.
#[test]
fn a_socket_that_ends(rt: HostRuntime) {
    let (mut stream, mut client) = socket(&rt);
    assert_that(&rt, !stream.watched().is_standard());
    assert_is(&rt, reads(&mut stream), Filled::NothingNow);
    assert_that(&rt, client.write_all(b"abcdef").is_ok());
    assert_that(&rt, gives(&mut stream, b"abcd"));
    assert_is(&rt, stream.fill(&mut []), Filled::NothingNow);
    assert_that(&rt, gives(&mut stream, b"ef"));
    assert_is(&rt, reads(&mut stream), Filled::NothingNow);
    assert_is(&rt, stream.drain(b"xyz"), Drained::Took(3));
    assert_is(&rt, stream.drain(b""), Drained::NothingNow);
    let mut reply = [0u8; 3];
    assert_that(&rt, client.read_exact(&mut reply).is_ok());
    assert_is(&rt, &reply, b"xyz");
    drop(client);
    assert_is(&rt, reads(&mut stream), Filled::Over(Over::End));
    assert_is(&rt, reads(&mut stream), Filled::Over(Over::End));
    stream.close(&mut ());
}

// A client that closes the socket with a reply unread: the system reports that once, and the
// connection keeps it.
#[test]
fn a_socket_that_is_reset(rt: HostRuntime) {
    let (mut stream, mut client) = socket(&rt);
    assert_that(&rt, client.write_all(b"ab").is_ok());
    assert_is(&rt, stream.drain(b"xyz"), Drained::Took(3));
    drop(client);
    assert_that(&rt, gives(&mut stream, b"ab"));
    assert_is(&rt, reads(&mut stream), Filled::Over(Over::Reset));
    assert_is(&rt, reads(&mut stream), Filled::Over(Over::Reset));
    assert_is(&rt, stream.drain(b"x"), Drained::Failed);
    assert_is(&rt, stream.drain(b"x"), Drained::Failed);
}

// A client that does not read: the socket takes bytes until the system has no more room.
#[test]
fn a_socket_that_is_full(rt: HostRuntime) {
    let (mut stream, _client) = socket(&rt);
    let bytes = [0u8; 4096];
    let mut last = stream.drain(&bytes);
    for _ in 0..4096 {
        if last == Drained::NothingNow {
            break;
        }
        last = stream.drain(&bytes);
    }
    assert_is(&rt, last, Drained::NothingNow);
}
