//! A client whose growth of memory may be refused. It then reports that, and nothing was read or
//! written.
use super::*;
use sysv_clients::{
    ClientFault, Receiving, Sending, Stop, Unheld, Unsent, Wording, hold_all, receive_all,
    remove_all, send_lines,
};
use tests_kit::mark;

#[test]
fn run_of_client(rt: HostRuntime) {
    let mut dialogue = Dialogue::new(&rt, rt.alloc(), &[WELCOME, GOT, MESSAGE]);
    let command = Command {
        cred: WHO,
        task: RECEIVE_ANY,
    };
    let _marked = mark(rt.alloc());
    let status = run_client(
        rt.alloc(),
        &command,
        &mut dialogue.replies,
        &mut dialogue.requests,
        &mut dialogue.screen,
    );
    if status == 0 {
        assert_is(&rt, dialogue.screen.text(), b"abc\n".as_slice());
        assert_is(&rt, dialogue.replies.read, dialogue.replies.len());
    } else {
        assert_is(&rt, status, 1);
        assert_is(
            &rt,
            dialogue.screen.text(),
            b"sysvmsg: no memory\n".as_slice(),
        );
        assert_is(
            &rt,
            (dialogue.replies.read, dialogue.requests.len()),
            (0, 0),
        );
    }
}

#[test]
fn receives_of_client(rt: HostRuntime) {
    let mut dialogue = Dialogue::new(&rt, rt.alloc(), &[WELCOME, GOT, MESSAGE, MESSAGE]);
    let receiving = Receiving {
        cred: WHO,
        receipt: ANY,
        count: 2,
        ahead: 1,
    };
    let _marked = mark(rt.alloc());
    let outcome = receive_all(
        rt.alloc(),
        &receiving,
        &mut dialogue.replies,
        &mut dialogue.requests,
        &mut dialogue.screen,
    );
    if outcome.is_ok() {
        assert_is(&rt, dialogue.screen.text(), b"abc\nabc\n".as_slice());
        assert_is(&rt, dialogue.replies.read, dialogue.replies.len());
    } else {
        assert_is(&rt, outcome, Err(Stop::Fault(ClientFault::NoMemory)));
        assert_is(
            &rt,
            (dialogue.replies.read, dialogue.requests.len()),
            (0, 0),
        );
        assert_is(&rt, dialogue.screen.len(), 0);
    }
}

#[test]
fn holds_of_client(rt: HostRuntime) {
    let mut dialogue = Dialogue::new(&rt, rt.alloc(), &holding::ROUNDS);
    let receiving = Receiving {
        cred: WHO,
        receipt: ANY,
        count: 2,
        ahead: 1,
    };
    let _marked = mark(rt.alloc());
    let outcome = hold_all(
        rt.alloc(),
        &receiving,
        &mut dialogue.replies,
        &mut dialogue.requests,
        &mut dialogue.screen,
    );
    if outcome.is_ok() {
        assert_is(&rt, dialogue.screen.text(), b"abc\nabc\n".as_slice());
        assert_is(&rt, dialogue.replies.read, dialogue.replies.len());
    } else {
        assert_is(&rt, outcome, Err(Unheld::Fault(ClientFault::NoMemory)));
        assert_is(
            &rt,
            (dialogue.replies.read, dialogue.requests.len()),
            (0, 0),
        );
    }
}

#[test]
fn sends_of_objects_of_client(rt: HostRuntime) {
    let mut dialogue = Dialogue::new(&rt, rt.alloc(), &[WELCOME, GOT, SENT, SENT]);
    let lines = b"{\"type\":5,\"body\":\"one\"}\n{\"type\":6,\"base64\":\"dHdv\"}\n";
    let mut input = joined(&rt, rt.alloc(), &[lines]);
    let sending = Sending {
        cred: WHO,
        key: 7,
        wording: Wording::Objects,
        nowait: false,
    };
    let _marked = mark(rt.alloc());
    let outcome = send_lines(
        rt.alloc(),
        &sending,
        &mut input,
        &mut dialogue.replies,
        &mut dialogue.requests,
    );
    match outcome {
        Ok(()) => assert_is(&rt, dialogue.replies.read, dialogue.replies.len()),
        Err(Unsent::Memory { before }) => assert_is(&rt, before, 1),
        Err(unsent) => {
            assert_is(&rt, unsent.line(), ClientFault::NoMemory.line());
            assert_is(
                &rt,
                (dialogue.replies.read, dialogue.requests.len()),
                (0, 0),
            );
            assert_is(&rt, input.read, 0);
        }
    }
}

#[test]
fn sends_of_client(rt: HostRuntime) {
    let mut dialogue = Dialogue::new(&rt, rt.alloc(), &[WELCOME, GOT, SENT, SENT]);
    let mut input = joined(&rt, rt.alloc(), &[b"one\ntwo\n"]);
    let sending = Sending {
        cred: WHO,
        key: 7,
        wording: Wording::Bodies { mtype: 1 },
        nowait: false,
    };
    let _marked = mark(rt.alloc());
    let outcome = send_lines(
        rt.alloc(),
        &sending,
        &mut input,
        &mut dialogue.replies,
        &mut dialogue.requests,
    );
    match outcome {
        Ok(()) => assert_is(&rt, dialogue.replies.read, dialogue.replies.len()),
        Err(unsent) => {
            assert_is(&rt, unsent.line(), ClientFault::NoMemory.line());
            assert_is(
                &rt,
                (dialogue.replies.read, dialogue.requests.len()),
                (0, 0),
            );
            assert_is(&rt, input.read, 0);
        }
    }
}

#[test]
fn removals_of_client(rt: HostRuntime) {
    let welcome: &[u8] = b"\0\0\0\x07\x02\0\0\0\0\0\x01";
    let denied: &[u8] = b"\0\0\0\x03\x02\x06\x01";
    let mut dialogue = Dialogue::new(&rt, rt.alloc(), &[welcome, ROW, denied]);
    let mut refusals = Vec::new(rt.alloc());
    let _marked = mark(rt.alloc());
    let outcome = remove_all(
        rt.alloc(),
        WHO,
        &mut dialogue.replies,
        &mut dialogue.requests,
        &mut refusals,
    );
    if outcome.is_ok() {
        assert_is(&rt, refusals.len(), 1);
        assert_is(&rt, dialogue.replies.read, dialogue.replies.len());
    } else {
        assert_is(&rt, outcome, Err(ClientFault::NoMemory));
        assert!(rt; refusals.is_empty());
        let read = dialogue.replies.read;
        assert!(rt; read == 0 || read == dialogue.replies.len());
    }
}
