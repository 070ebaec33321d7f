//! What the options and the further commands of clients request and show.
use super::ahead::{requested, shown};
use super::*;
use sysv_clients::{
    ClientFault, Making, Receiving, Stop, Unshown, receive_all, receive_instrumented,
};
use sysv_model::{Errno, Instrumented, MESSAGE_BYTES};

/// The reply with a message of type -3 and of these four bytes: `a`, LF, NUL, `b`.
const ODD: &[u8] = b"\0\0\0\x0f\x02\x03\0\xff\xff\xff\xff\xff\xff\xff\xfda\n\0b";

/// `msgget` of key 7 with IPC_CREAT and mode 0640.
const GET_OR_MAKE: &[u8] = b"\0\0\0\x0a\x02\x01\0\0\0\x07\0\0\x03\xa0";

/// The fields of a receive of any type before its flags.
const WANTS: &[u8] = b"\0\0\0\x16\x02\x03\0\0\0\x40\0\0\x20\0\0\0\0\0\0\0\0\0";

#[test]
fn a_message_is_shown_as_the_options_say(rt: HostRuntime) {
    let table: [(bool, Form, u32, &[u8]); 12] = [
        (false, Form::Line, 8192, b"a\n\0b\n"),
        (false, Form::Raw, 8192, b"a\n\0b"),
        (true, Form::Line, 8192, b"-3\ta\n\0b\n"),
        (true, Form::Raw, 8192, b"-3\ta\n\0b"),
        (false, Form::Line, 3, b"a\n\0\n"),
        (true, Form::Raw, 0, b"-3\t"),
        (false, Form::Line, u32::MAX, b"a\n\0b\n"),
        (false, Form::Zero, 8192, b"a\n\0b\0"),
        (true, Form::Zero, 1, b"-3\ta\0"),
        (
            false,
            Form::Object,
            8192,
            b"{\"type\":-3,\"body\":\"a\\u000a\\u0000b\"}\n",
        ),
        (true, Form::Object, 1, b"{\"type\":-3,\"body\":\"a\"}\n"),
        (false, Form::Object, 0, b"{\"type\":-3,\"body\":\"\"}\n"),
    ];
    for (show_type, form, size, shown) in table {
        let receipt = Receipt {
            show_type,
            form,
            size,
            ..ANY
        };
        let mut dialogue = Dialogue::new(&rt, rt.alloc(), &[WELCOME, GOT, ODD]);
        let status = dialogue.run(&rt, rt.alloc(), Task::Receive(receipt));
        assert_is(&rt, status, 0);
        dialogue.assert_shown(&rt, shown, size);
    }
}

/// Asserts that a message of type 7 with this body is shown as this JSON object.
fn is_object(rt: &(impl Abort + AllocGlobal), body: &[u8], wanted: &[u8]) {
    let len = body.len().min(MESSAGE_BYTES) as u32 + 11;
    let alloc = rt.alloc();
    let front = joined(
        rt,
        alloc,
        &[&len.to_be_bytes(), b"\x02\x03\0\0\0\0\0\0\0\0\x07"],
    );
    let mut dialogue = Dialogue::new(rt, alloc, &[WELCOME, GOT, front.text(), body]);
    let receipt = Receipt {
        form: Form::Object,
        ..ANY
    };
    assert_is(rt, dialogue.run(rt, alloc, Task::Receive(receipt)), 0);
    assert_is(rt, dialogue.screen.text(), wanted);
}

#[test]
fn a_json_object_has_the_body_as_a_string_or_in_base64(rt: HostRuntime) {
    let table: [(&[u8], &[u8]); 8] = [
        (b"plain", b"\"body\":\"plain\""),
        (b"\"\\/", b"\"body\":\"\\\"\\\\/\""),
        (
            b"\x01\t\x1f \x7f",
            b"\"body\":\"\\u0001\\u0009\\u001f \x7f\"",
        ),
        (
            b"\xc3\xa9\xf0\x9f\x98\x80",
            b"\"body\":\"\xc3\xa9\xf0\x9f\x98\x80\"",
        ),
        (b"\xff", b"\"base64\":\"/w==\""),
        (b"\xfb\xef\xbe", b"\"base64\":\"++++\""),
        (b"ab\xc3", b"\"base64\":\"YWLD\""),
        (b"\xed\xa0\x80\0", b"\"base64\":\"7aCAAA==\""),
    ];
    for (body, member) in table {
        let wanted = joined(&rt, rt.alloc(), &[b"{\"type\":7,", member, b"}\n"]);
        is_object(&rt, body, wanted.text());
    }
}

#[test]
fn the_longest_message_is_shown_as_a_json_object(rt: HostRuntime) {
    let escaped = [*b"\\u0000"; 8192];
    let text = joined(
        &rt,
        rt.alloc(),
        &[b"{\"type\":7,\"body\":\"", escaped.as_flattened(), b"\"}\n"],
    );
    is_object(&rt, &[0; 8192], text.text());
    let encoded = [*b"////"; 2730];
    let text = joined(
        &rt,
        rt.alloc(),
        &[
            b"{\"type\":7,\"base64\":\"",
            encoded.as_flattened(),
            b"//8=\"}\n",
        ],
    );
    is_object(&rt, &[0xff; 8192], text.text());
}

#[test]
fn the_longest_message_is_shown_with_its_type(rt: HostRuntime) {
    let text = [b'y'; 8192];
    let front = b"\0\0\x20\x0b\x02\x03\0\x80\0\0\0\0\0\0\0";
    let mut dialogue = Dialogue::new(&rt, rt.alloc(), &[WELCOME, GOT, front, &text]);
    let receipt = Receipt {
        show_type: true,
        ..ANY
    };
    assert_is(
        &rt,
        dialogue.run(&rt, rt.alloc(), Task::Receive(receipt)),
        0,
    );
    let wanted = joined(&rt, rt.alloc(), &[b"-9223372036854775808\t", &text, b"\n"]);
    assert_is(&rt, dialogue.screen.text(), wanted.text());
}

#[test]
fn a_receive_may_except_a_type_and_create_the_queue(rt: HostRuntime) {
    let table: [(bool, &[u8], bool, bool, &[u8]); 4] = [
        (false, GET, true, false, b"\0\0\x20\0"),
        (true, GET_OR_MAKE, false, false, b"\0\0\0\0"),
        (true, GET_OR_MAKE, true, true, b"\0\0\x30\0"),
        (false, GET, false, true, b"\0\0\x10\0"),
    ];
    for (create, get, except, noerror, flags) in table {
        let receipt = Receipt {
            create,
            mode: 0o640,
            except,
            noerror,
            ..ANY
        };
        let mut dialogue = Dialogue::new(&rt, rt.alloc(), &[WELCOME, GOT, MESSAGE]);
        let status = dialogue.run(&rt, rt.alloc(), Task::Receive(receipt));
        assert_is(&rt, status, 0);
        dialogue.assert_requests(&rt, rt.alloc(), &[HELLO, get, WANTS, flags]);
    }
}

#[test]
fn queues_are_listed_as_json(rt: HostRuntime) {
    let mut dialogue = listed(&rt, rt.alloc());
    assert_is(
        &rt,
        dialogue.run(&rt, rt.alloc(), Task::List(Format::Json)),
        0,
    );
    let wanted = joined(
        &rt,
        rt.alloc(),
        &[
            b"{\"key\":\"0x00000007\",\"msqid\":0,\"owner\":1000,\"perms\":\"640\",\"bytes\":3,\"messages\":1}\n",
            b"{\"key\":\"0x80000000\",\"msqid\":2147483647,\"owner\":4294967295,\"perms\":\"777\",",
            b"\"bytes\":4294967295,\"messages\":4294967295}\n",
        ],
    );
    assert_is(&rt, dialogue.screen.text(), wanted.text());
}

#[test]
fn the_attributes_of_a_queue_are_shown(rt: HostRuntime) {
    let told: &[u8] =
        b"\0\0\0\x45\x02\x04\0\0\0\0\x07\0\0\x03\xe8\0\0\x03\xe9\0\0\x03\xea\0\0\x03\xeb\x01\xa0\0\0\0\x03";
    let more: &[u8] =
        b"\0\0\0\x01\0\0\x40\0\0\0\0\x65\0\0\0\0\0\0\0\0\0\0\0\x09\0\0\0\0\0\0\0\0\0\0\0\0\0\0\0\x08";
    let mut dialogue = Dialogue::new(&rt, rt.alloc(), &[WELCOME, told, more]);
    assert_is(&rt, dialogue.run(&rt, rt.alloc(), Task::Show(64)), 0);
    let asked = joined(&rt, rt.alloc(), &[HELLO, b"\0\0\0\x06\x02\x04\0\0\0\x40"]);
    assert_is(&rt, dialogue.requests.text(), asked.text());
    let shown: &[u8] =
        b"key 0x00000007\nuid 1000\ngid 1001\ncuid 1002\ncgid 1003\nmode 640\ncbytes 3\nqnum 1\nqbytes 16384\nlspid 101\nlrpid 0\nstime 9\nrtime 0\nctime 8\n";
    assert_is(&rt, dialogue.screen.text(), shown);
}

#[test]
fn a_queue_is_made(rt: HostRuntime) {
    let get: &[u8] = b"\0\0\0\x0a\x02\x01\0\0\0\x07\0\0\x07\xa0";
    let set: &[u8] = b"\0\0\0\x16\x02\x05\0\0\0\x40\0\0\x03\xe8\0\0\x03\xe8\0\0\x01\xa0\0\0\0\x63";
    let done: &[u8] = b"\0\0\0\x03\x02\x05\0";
    let making = Making {
        key: 7,
        mode: 0o640,
        qbytes: None,
    };
    assert_makes(&rt, rt.alloc(), making, &[WELCOME, GOT], &[HELLO, get]);
    let limited = Making {
        qbytes: Some(99),
        ..making
    };
    assert_makes(
        &rt,
        rt.alloc(),
        limited,
        &[WELCOME, GOT, done],
        &[HELLO, get, set],
    );
}

/// Asserts what is requested to make a queue, whose identifier, 64, is shown.
fn assert_makes(
    rt: &impl Abort,
    alloc: Global,
    making: Making,
    replies: &[&[u8]],
    requests: &[&[u8]],
) {
    let mut dialogue = Dialogue::new(rt, alloc, replies);
    assert_is(rt, dialogue.run(rt, alloc, Task::Make(making)), 0);
    dialogue.assert_requests(rt, alloc, requests);
    assert_is(rt, dialogue.screen.text(), b"64\n".as_slice());
}

impl Dialogue {
    /// Receives this number of messages.
    fn receive(&mut self, alloc: Global, count: u64) -> Result<(), Stop> {
        let receiving = Receiving {
            cred: WHO,
            receipt: ANY,
            count,
            ahead: 1,
        };
        receive_all(
            alloc,
            &receiving,
            &mut self.replies,
            &mut self.requests,
            &mut self.screen,
        )
    }
}

#[test]
fn each_of_several_messages_is_shown_as_it_comes(rt: HostRuntime) {
    for count in 0..4 {
        let mut dialogue = Dialogue::new(
            &rt,
            rt.alloc(),
            &[WELCOME, GOT, MESSAGE, MESSAGE, MESSAGE],
        );
        if dialogue.receive(rt.alloc(), count).is_err() {
            assert_is(
                &rt,
                [dialogue.requests.len(), dialogue.screen.len()],
                [0, 0],
            );
        } else {
            assert_shows(&rt, rt.alloc(), &dialogue, count);
        }
    }
}

/// Asserts that a client requested and showed this number of messages.
fn assert_shows(rt: &impl Abort, alloc: Global, dialogue: &Dialogue, count: u64) {
    dialogue.assert_requested(rt, requested(rt, alloc, count).text(), count);
    dialogue.assert_shown(rt, shown(rt, alloc, count).text(), count);
    assert_at(rt, dialogue.screen.flushed as u64, count, count);
}

#[test]
fn only_the_messages_before_a_fault_are_shown(rt: HostRuntime) {
    let refused: &[u8] = b"\0\0\0\x03\x02\x03\x2a";
    let table: [(&[u8], ClientFault); 2] = [
        (refused, ClientFault::Refused(Errno::ENOMSG)),
        (b"", ClientFault::NoReply),
    ];
    for (last, fault) in table {
        let mut dialogue = Dialogue::new(&rt, rt.alloc(), &[WELCOME, GOT, MESSAGE, MESSAGE, last]);
        let outcome = dialogue.receive(rt.alloc(), u64::MAX);
        if outcome != Err(Stop::Fault(ClientFault::NoMemory)) {
            assert_is(&rt, outcome, Err(Stop::Fault(fault)));
            assert_is(&rt, dialogue.screen.text(), b"abc\nabc\n".as_slice());
            assert_is(&rt, Stop::Fault(fault).line(), fault.line());
        }
    }
    let unshown = Unshown { taken: 3, shown: 2 };
    assert!(rt; Stop::Screen(unshown).line().is_empty());
}

#[test]
fn a_screen_that_fails_ends_the_receives(rt: HostRuntime) {
    for room in 4..8 {
        let mut dialogue = Dialogue::new(
            &rt,
            rt.alloc(),
            &[WELCOME, GOT, MESSAGE, MESSAGE, MESSAGE],
        );
        dialogue.screen.good = room;
        assert_is(&rt, dialogue.receive(rt.alloc(), 3).is_err(), true);
        if dialogue.requests.len() != 0 {
            dialogue.assert_requests(&rt, rt.alloc(), &[HELLO, GET, RECEIVE, RECEIVE]);
            dialogue.assert_shown(&rt, &b"abc\nabc\n"[..room], room);
        }
    }
    assert_unflushed_screen_ends(&rt, rt.alloc());
}

/// Asserts that a screen that cannot be flushed ends the receives at its first message.
fn assert_unflushed_screen_ends(rt: &impl Abort, alloc: Global) {
    let mut dialogue = Dialogue::new(rt, alloc, &[WELCOME, GOT, MESSAGE, MESSAGE]);
    dialogue.screen.flushes = 0;
    assert_is(rt, dialogue.receive(alloc, 2).is_err(), true);
    if dialogue.requests.len() != 0 {
        dialogue.assert_requests(rt, alloc, &[HELLO, GET, RECEIVE]);
    }
}

#[test]
fn a_instrumented_screen_has_failed_if_it_ended_the_receives(rt: HostRuntime) {
    for room in [4, 8] {
        let mut dialogue = Dialogue::new(&rt, rt.alloc(), &[WELCOME, GOT, MESSAGE, MESSAGE]);
        dialogue.screen.good = room;
        let receiving = Receiving {
            cred: WHO,
            receipt: ANY,
            count: 2,
            ahead: 1,
        };
        let mut screen = Instrumented::new(&mut dialogue.screen);
        let outcome = receive_instrumented(
            rt.alloc(),
            &receiving,
            &mut dialogue.replies,
            &mut Instrumented::new(&mut dialogue.requests),
            &mut screen,
        );
        if outcome == Err(Stop::Fault(ClientFault::NoMemory)) {
            return;
        }
        let failures = u64::from(room == 4);
        assert_is(&rt, outcome.is_ok(), (failures == 0));
        assert_is(&rt, screen.failures(), failures);
    }
}
