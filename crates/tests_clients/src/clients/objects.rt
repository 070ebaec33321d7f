//! Lines that are JSON objects, each of which states a message.
use super::several::{MAKE, NO_MEMORY, SENDING, line_of};
use super::*;
use sysv_clients::{OBJECT_BYTES, Receiving, Sending, Wording, receive_all, send_lines};

/// Sends what objects state to the queue of key 7.
const OBJECTS: Sending = Sending {
    wording: Wording::Objects,
    ..SENDING
};

/// Sends what the lines of `input` state, and returns the line of what ended that.
fn send(dialogue: &mut Dialogue, alloc: Global, input: &mut Tape) -> &'static str {
    let outcome = send_lines(
        alloc,
        &OBJECTS,
        input,
        &mut dialogue.replies,
        &mut dialogue.requests,
    );
    line_of(&outcome)
}

/// Appends the send of a text with this type to identifier 64.
fn put_send(asked: &mut Tape, mtype: i64, text: &[u8]) {
    let len = text.len().min(8192) as u32 + 18;
    asked.put(&len.to_be_bytes());
    asked.put(b"\x02\x02\0\0\0\x40");
    asked.put(&mtype.to_be_bytes());
    asked.put(b"\0\0\0\0");
    asked.put(text);
}

/// Asserts that this line states a message of this type with this body.
fn assert_states(rt: &impl Abort, alloc: Global, line: &[u8], mtype: i64, text: &[u8]) {
    let ends: [&[u8]; 2] = [b"", b"\n"];
    for end in ends {
        let mut input = joined(rt, alloc, &[line, end]);
        let mut dialogue = Dialogue::new(rt, alloc, &[WELCOME, GOT, SENT]);
        let ended = send(&mut dialogue, alloc, &mut input);
        if ended != NO_MEMORY {
            assert_is(rt, ended, "");
            let mut asked = joined(rt, alloc, &[HELLO, MAKE]);
            put_send(&mut asked, mtype, text);
            assert_is(rt, dialogue.requests.text(), asked.text());
        }
    }
}

#[test]
fn an_object_states_a_message(rt: HostRuntime) {
    let table: [(&[u8], i64, &[u8]); 11] = [
        (b"{\"type\":5,\"body\":\"abc\"}", 5, b"abc"),
        (b"{\"body\":\"abc\",\"type\":5}", 5, b"abc"),
        (b"{\"type\":1,\"body\":\"\"}", 1, b""),
        (
            b" {\t\"type\" : 9223372036854775807 , \"body\":\" a \" } \r",
            i64::MAX,
            b" a ",
        ),
        (
            b"{\"type\":5,\"body\":\"\\\"\\\\\\/\\b\\f\\n\\r\\t\"}",
            5,
            b"\"\\/\x08\x0c\n\r\t",
        ),
        (
            b"{\"type\":5,\"body\":\"\\u0000\\u00e9\\u20AC\\ud83d\\ude00\"}",
            5,
            b"\0\xc3\xa9\xe2\x82\xac\xf0\x9f\x98\x80",
        ),
        (
            b"{\"type\":5,\"body\":\"\xc3\xa9\x7f\"}",
            5,
            b"\xc3\xa9\x7f",
        ),
        (b"{\"type\":5,\"base64\":\"/w==\"}", 5, b"\xff"),
        (
            b"{\"base64\":\"\\u002b+\\/+\",\"type\":5}",
            5,
            b"\xfb\xef\xfe",
        ),
        (b"{\"type\":5,\"base64\":\"\"}", 5, b""),
        (b"{\"ty\\u0070e\":5,\"body\":\"a\"}", 5, b"a"),
    ];
    for (line, mtype, text) in table {
        assert_states(&rt, rt.alloc(), line, mtype, text);
    }
}

#[test]
fn the_longest_message_is_stated(rt: HostRuntime) {
    let escaped = [*b"\\u0000"; 8192];
    let line = joined(
        &rt,
        rt.alloc(),
        &[b"{\"type\":7,\"body\":\"", escaped.as_flattened(), b"\"}"],
    );
    assert_states(&rt, rt.alloc(), line.text(), 7, &[0; 8192]);
    let encoded = [*b"////"; 2730];
    let line = joined(
        &rt,
        rt.alloc(),
        &[
            b"{\"type\":7,\"base64\":\"",
            encoded.as_flattened(),
            b"//8=\"}",
        ],
    );
    assert_states(&rt, rt.alloc(), line.text(), 7, &[0xff; 8192]);
}

/// Asserts that this line after another one states no message, so that only that other one is sent.
fn assert_states_none(rt: &impl Abort, alloc: Global, line: &[u8], wanted: &'static str) {
    let first = b"{\"type\":5,\"body\":\"a\"}\n";
    let mut input = joined(rt, alloc, &[first, line, b"\n", first]);
    let mut dialogue = Dialogue::new(rt, alloc, &[WELCOME, GOT, SENT, SENT]);
    let ended = send(&mut dialogue, alloc, &mut input);
    if ended != NO_MEMORY {
        assert_at(rt, ended, wanted, &line[..line.len().min(60)]);
        let mut asked = joined(rt, alloc, &[HELLO, MAKE]);
        put_send(&mut asked, 5, b"a");
        assert_is(rt, dialogue.requests.text(), asked.text());
    }
}

#[test]
fn any_other_line_states_none(rt: HostRuntime) {
    let table: [&[u8]; 24] = [
        b"",
        b" ",
        b"{}",
        b"abc",
        b"{\"type\":5}",
        b"{\"body\":\"a\"}",
        b"{\"type\":0,\"body\":\"a\"}",
        b"{\"type\":-1,\"body\":\"a\"}",
        b"{\"type\":9223372036854775808,\"body\":\"a\"}",
        b"{\"type\":5.0,\"body\":\"a\"}",
        b"{\"type\":05,\"body\":\"a\"}",
        b"{\"type\":\"5\",\"body\":\"a\"}",
        b"{\"type\":5,\"body\":6}",
        b"{\"type\":5,\"body\":\"a\",\"id\":1}",
        b"{\"type\":5,\"body\":\"a\",\"base64\":\"\"}",
        b"{\"type\":5,\"body\":\"a\"} x",
        b"{\"type\":5,\"body\":\"a\",}",
        b"[{\"type\":5,\"body\":\"a\"}]",
        b"{\"type\":5,\"body\":\"a}",
        b"{\"type\":5,\"body\":\"\x09\"}",
        b"{\"type\":5,\"body\":\"\xff\"}",
        b"{\"type\":5,\"body\":\"\\ud800\"}",
        b"{\"type\":5,\"base64\":\"/w=\"}",
        b"{\"type\":5,\"base64\":\"/x==\"}",
    ];
    for line in table {
        assert_states_none(&rt, rt.alloc(), line, "sysvmsg: bad line\n");
    }
}

#[test]
fn a_body_that_is_too_long_is_not_stated(rt: HostRuntime) {
    let text = [b'x'; 8193];
    let line = joined(
        &rt,
        rt.alloc(),
        &[b"{\"type\":7,\"body\":\"", &text, b"\"}"],
    );
    assert_states_none(&rt, rt.alloc(), line.text(), "sysvmsg: bad line\n");
    let encoded = [*b"AAAA"; 2731];
    let line = joined(
        &rt,
        rt.alloc(),
        &[b"{\"type\":7,\"base64\":\"", encoded.as_flattened(), b"\"}"],
    );
    assert_states_none(&rt, rt.alloc(), line.text(), "sysvmsg: bad line\n");
}

#[test]
fn a_line_that_is_too_long_states_nothing(rt: HostRuntime) {
    // (the tape of an input has no space for so long a line)
    let spaces = [b' '; OBJECT_BYTES + 1];
    let mut input = &spaces[..];
    let mut dialogue = Dialogue::new(&rt, rt.alloc(), &[WELCOME, GOT]);
    let outcome = send_lines(
        rt.alloc(),
        &OBJECTS,
        &mut input,
        &mut dialogue.replies,
        &mut dialogue.requests,
    );
    let ended = line_of(&outcome);
    if ended != NO_MEMORY {
        assert_is(&rt, ended, "sysvmsg: EINVAL\n");
        dialogue.assert_requests(&rt, rt.alloc(), &[HELLO, MAKE]);
    }
}

#[test]
fn what_a_receive_shows_is_sent_again(rt: HostRuntime) {
    let odd: &[u8] = b"\0\0\0\x10\x02\x03\0\0\0\0\0\0\0\0\x07a\n\"\\\x1f";
    let coded: &[u8] = b"\0\0\0\x0d\x02\x03\0\0\0\0\0\0\0\0\x09\xffb";
    let mut shown = Dialogue::new(&rt, rt.alloc(), &[WELCOME, GOT, MESSAGE, odd, coded]);
    let receiving = Receiving {
        cred: WHO,
        receipt: Receipt {
            form: Form::Object,
            ..ANY
        },
        count: 3,
        ahead: 1,
    };
    let received = receive_all(
        rt.alloc(),
        &receiving,
        &mut shown.replies,
        &mut shown.requests,
        &mut shown.screen,
    );
    if received.is_err() {
        return;
    }
    let mut dialogue = Dialogue::new(&rt, rt.alloc(), &[WELCOME, GOT, SENT, SENT, SENT]);
    let ended = send(&mut dialogue, rt.alloc(), &mut shown.screen);
    if ended != NO_MEMORY {
        assert_is(&rt, ended, "");
        let mut asked = joined(&rt, rt.alloc(), &[HELLO, MAKE]);
        put_send(&mut asked, 5, b"abc");
        put_send(&mut asked, 7, b"a\n\"\\\x1f");
        put_send(&mut asked, 9, b"\xffb");
        assert_is(&rt, dialogue.requests.text(), asked.text());
    }
}
