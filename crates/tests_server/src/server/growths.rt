//! A server, with a growth of it refused: it then accepted nothing, or a session whose bodies were
//! refused is counted and has no reply.
use super::*;
use std::net::Shutdown;
use tests_kit::mark;

/// A client that has written a hello, and nothing more.
fn greeting<R: Net + Abort>(rt: &R, path: &str) -> UnixStream {
    let mut stream = UnixStream::connect(rt, path).expect(rt, "a connection");
    assert_that(rt, stream.write_all(HELLO).is_ok());
    assert_that(rt, stream.shutdown(Shutdown::Write).is_ok());
    stream
}

/// Returns whether the client has its reply, or has nothing to read.
fn is_answered<R: Abort>(rt: &R, stream: &mut UnixStream) -> bool {
    let mut bytes = [0; 64];
    let mut len = 0;
    for _ in 0..64 {
        match stream.read(&mut bytes[len.min(64)..]) {
            Ok(count) if count > 0 => len = len.saturating_add(count),
            _ => break,
        }
    }
    if len == 0 {
        return false;
    }
    assert_is(rt, &bytes[..len.min(64)], KNOWN);
    true
}

// A server that had no memory leaves the connection to the next server.
#[test]
fn run_of_server(rt: HostRuntime) {
    let path = "growths.socket";
    let _old = fs::remove_file(&rt, path);
    let listener = UnixListener::bind(&rt, path).expect(&rt, "a socket");
    let mut first = greeting(&rt, path);
    let _marked = mark(rt.alloc());
    match serve_on(&rt, rt.alloc(), &listener, 128, 1, 1) {
        Ok(all) => {
            assert_is(&rt, all, sums(1, 0, 0));
            if is_answered(&rt, &mut first) {
                return;
            }
            first = greeting(&rt, path);
        }
        Err(why) => assert_that(&rt, is_for_want(&why)),
    }
    let second = serve_on(&rt, rt.alloc(), &listener, 128, 1, 1);
    assert_is(&rt, second, Ok(sums(1, 0, 0)));
    assert_that(&rt, is_answered(&rt, &mut first));
}
