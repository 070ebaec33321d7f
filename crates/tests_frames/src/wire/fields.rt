//! Each field of a frame with values that have no meaning there.
use crate::parts::{assert_at, assert_is, open_body};
use std::process::Abort;
use sysv_model::{Body, Instrumented};
use sysv_wire::{Fault, Reply, ReplyContent, Request, read_reply, read_request};
use tests_kit::Pieces;

/// The number of bytes in the fields of each request, by its operation. A send has no body.
const ASKED: [u8; 8] = [12, 8, 16, 20, 4, 20, 4, 4];

/// The number of bytes in the fields of each reply, by its operation. A receive has no body, and a
/// row reports that the slot has no queue.
const TOLD: [u8; 8] = [0, 4, 0, 8, 66, 0, 0, 1];

/// The numbers of the errors.
const ERRORS: [u8; 11] = [1, 2, 7, 11, 13, 17, 22, 28, 42, 43, 75];

/// Returns a frame of this length, with zeros after its head.
fn frame(length: u8, version: u8, op: u8, error: u8) -> [u8; 96] {
    let mut bytes = [0; 96];
    bytes[3] = length;
    bytes[4] = version;
    bytes[5] = op;
    bytes[6] = error;
    bytes
}

/// Returns the result of reading a request from the first `len` bytes, one at a time.
fn asked(text: &mut Body, bytes: &[u8; 96], len: u8) -> Result<Option<Request>, Fault> {
    let mut reader = Pieces::new(&bytes[..usize::from(len).min(96)], 1);
    read_request(&mut Instrumented::new(&mut reader), text)
}

/// Returns the result of reading a reply from the first `len` bytes, one at a time.
fn told(text: &mut Body, bytes: &[u8; 96], len: u8) -> Result<Option<Reply>, Fault> {
    let mut reader = Pieces::new(&bytes[..usize::from(len).min(96)], 1);
    read_reply(&mut Instrumented::new(&mut reader), text)
}

/// Returns `BadField` unless `is_good` is true.
fn bad_field_unless(is_good: bool) -> Option<Fault> {
    if is_good { None } else { Some(Fault::BadField) }
}

#[test]
fn versions_and_operations_of_requests(rt: HostRuntime) {
    let mut text = open_body(&rt, rt.alloc());
    for version in 0..=255u8 {
        for op in 0..=255u8 {
            let bytes = frame(2, version, op, 0);
            let fault = if matches!(version, 1 | 2) && op > 7 {
                Fault::BadOp
            } else {
                Fault::BadField
            };
            assert_at(&rt, asked(&mut text, &bytes, 6), Err(fault), [version, op]);
        }
    }
}

#[test]
fn versions_and_operations_of_replies(rt: HostRuntime) {
    let mut text = open_body(&rt, rt.alloc());
    for version in 0..=255u8 {
        for op in 0..=255u8 {
            let bytes = frame(3, version, op, 22);
            let fault = if matches!(version, 1 | 2) && op > 7 {
                Some(Fault::BadOp)
            } else {
                bad_field_unless(matches!(version, 1 | 2))
            };
            assert_at(&rt, told(&mut text, &bytes, 7).err(), fault, [version, op]);
        }
    }
}

#[test]
fn lengths_of_requests(rt: HostRuntime) {
    let mut text = open_body(&rt, rt.alloc());
    for op in 0..8u8 {
        let wanted = ASKED[usize::from(op)].saturating_add(2);
        for length in 2..90u8 {
            let fault = bad_field_unless(length == wanted || (op == 2 && length > wanted));
            assert_asked(&rt, &mut text, &frame(length, 1, op, 0), fault);
            assert_asked(&rt, &mut text, &frame(length, 2, op, 0), fault);
        }
    }
}

/// Asserts the fault that is found in a frame when it is read as a request.
fn assert_asked(rt: &impl Abort, text: &mut Body, frame: &[u8; 96], fault: Option<Fault>) {
    let answer = asked(text, frame, frame[3].saturating_add(4));
    assert_at(rt, answer.err(), fault, [frame[3], frame[4], frame[5]]);
}

/// Asserts the fault that is found in a frame when it is read as a reply.
fn assert_told(rt: &impl Abort, text: &mut Body, frame: &[u8; 96], fault: Option<Fault>) {
    let answer = told(text, frame, frame[3].saturating_add(4));
    assert_at(rt, answer.err(), fault, [frame[3], frame[4], frame[5]]);
}

#[test]
fn lengths_of_replies(rt: HostRuntime) {
    let mut text = open_body(&rt, rt.alloc());
    for op in 0..8u8 {
        let fields = TOLD[usize::from(op)].saturating_add(3);
        let slots = if op == 0 { 4 } else { 0 };
        for length in 3..90u8 {
            for (version, wanted) in [(1, fields), (2, fields.saturating_add(slots))] {
                let fault = bad_field_unless(length == wanted || (op == 3 && length > wanted));
                assert_told(&rt, &mut text, &frame(length, version, op, 0), fault);
            }
        }
    }
}

#[test]
fn lengths_of_refusals(rt: HostRuntime) {
    let mut text = open_body(&rt, rt.alloc());
    for op in 0..8u8 {
        for length in 4..90u8 {
            let bytes = frame(length, 1, op, 22);
            let answer = told(&mut text, &bytes, length.saturating_add(4));
            assert_at(&rt, answer, Err(Fault::BadField), [op, length]);
        }
    }
}

#[test]
fn errors_of_replies(rt: HostRuntime) {
    let mut text = open_body(&rt, rt.alloc());
    for op in 0..8u8 {
        for error in 1..=255u8 {
            let bytes = frame(3, 1, op, error);
            match told(&mut text, &bytes, 7) {
                Ok(
                    Some(
                        Reply {
                            result: ReplyContent::Refused(why),
                            ..
                        },
                    ),
                ) => {
                    assert_is(&rt, why.number(), error);
                    assert!(rt; ERRORS.contains(&error), "{error}");
                }
                other => {
                    assert_eq!(rt; other, Err(Fault::BadField), "{error}");
                    assert!(rt; !ERRORS.contains(&error), "{error}");
                }
            }
        }
    }
}

#[test]
fn marks_of_rows(rt: HostRuntime) {
    let mut text = open_body(&rt, rt.alloc());
    for mark in 0..=255u8 {
        for (length, wanted) in [(4, 0), (26, 1)] {
            let mut bytes = frame(length, 1, 7, 0);
            bytes[7] = mark;
            let answer = told(&mut text, &bytes, length.saturating_add(4));
            let fault = bad_field_unless(mark == wanted);
            assert_at(&rt, answer.err(), fault, [mark, length]);
        }
    }
}

#[test]
fn modes_of_replies(rt: HostRuntime) {
    let mut text = open_body(&rt, rt.alloc());
    for high in 0..=255u8 {
        for low in [0, 0o177, 255] {
            let mut attributes = frame(69, 1, 4, 0);
            attributes[27] = high;
            attributes[28] = low;
            let mut row = frame(26, 1, 7, 0);
            row[7] = 1;
            row[20] = high;
            row[21] = low;
            let one = told(&mut text, &attributes, 73);
            let two = told(&mut text, &row, 30);
            let fault = bad_field_unless(high < 2);
            assert_at(&rt, one.err(), fault, [high, low]);
            assert_at(&rt, two.err(), fault, [high, low]);
        }
    }
}

/// Asserts what both readers return for these four bytes followed by the end of the input.
fn lengths_are(rt: &impl Abort, text: &mut Body, bytes: [u8; 4], request: Fault, reply: Fault) {
    let mut reader = Pieces::new(&bytes, 1);
    let answer = read_request(&mut Instrumented::new(&mut reader), text);
    assert_at(rt, answer, Err(request), bytes);
    let mut reader = Pieces::new(&bytes, 1);
    let answer = read_reply(&mut Instrumented::new(&mut reader), text);
    assert_at(rt, answer, Err(reply), bytes);
}

#[test]
fn lengths_at_the_limits(rt: HostRuntime) {
    use Fault::{BadField, TooLong, Truncated};
    let mut text = open_body(&rt, rt.alloc());
    let text = &mut text;
    lengths_are(&rt, text, [0, 0, 0, 0], BadField, BadField);
    lengths_are(&rt, text, [0, 0, 0, 1], BadField, BadField);
    lengths_are(&rt, text, [0, 0, 0, 2], Truncated, BadField);
    lengths_are(&rt, text, [0, 0, 0, 3], Truncated, Truncated);
    lengths_are(&rt, text, [0, 0, 0x20, 0x0b], Truncated, Truncated);
    lengths_are(&rt, text, [0, 0, 0x20, 0x0c], Truncated, TooLong);
    lengths_are(&rt, text, [0, 0, 0x20, 0x52], Truncated, TooLong);
    lengths_are(&rt, text, [0, 0, 0x20, 0x53], TooLong, TooLong);
    lengths_are(&rt, text, [0x80, 0, 0, 0], TooLong, TooLong);
    lengths_are(&rt, text, [0xff, 0xff, 0xff, 0xff], TooLong, TooLong);
}
