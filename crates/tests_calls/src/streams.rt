//! Reading line by line, and writing.

use crate::parts::{assert_is, assert_that};
use std::alloc::Global;
use std::process::Abort;
use sysv_model::{Body, Instrumented};
use sysv_script::{Found, Head, Input, Output, ScriptFault, next_line, read_on};

/// Asserts that a line of this length was found.
fn assert_found(
    rt: &impl Abort,
    found: Result<Option<Found>, ScriptFault>,
    len: usize,
    is_last: bool,
) {
    match found {
        Ok(Some(line)) => assert_is(rt, (line.len, line.is_last), (len, is_last)),
        _ => panic!(rt; "no line"),
    }
}

#[test]
fn lines_are_found_one_by_one(rt: HostRuntime) {
    let Ok(mut input) = Input::open(rt.alloc()) else {
        return;
    };
    let Ok(mut output) = Output::open(rt.alloc()) else {
        return;
    };
    let mut text = b"ab\ncde".as_slice();
    let mut reader = Instrumented::new(&mut text);
    let mut written = Vec::new(rt.alloc());
    let mut writer = Instrumented::new(&mut written);
    let first = next_line(&mut input, &mut output, &mut reader, &mut writer);
    assert_found(&rt, first, 2, false);
    assert!(rt; input.waiting().len() > 2);
    input.pass_line(2);
    assert_is(&rt, input.waiting(), b"cde".as_slice());
    let last = next_line(&mut input, &mut output, &mut reader, &mut writer);
    assert_found(&rt, last, 3, true);
    assert!(rt; input.waiting().len() < 9001);
    assert_is(
        &rt,
        read_on(&mut input, &mut output, &mut reader, &mut writer),
        Ok(0),
    );
    assert_is(&rt, (reader.failures(), writer.failures()), (0, 0));
}

/// Composes an answer, and an answer with a text. Returns false if memory is refused.
fn tell_both(rt: &impl Abort, alloc: Global, output: &mut Output) -> bool {
    let Ok(mut text) = Body::open(alloc) else {
        return false;
    };
    assert_that(rt, text.push_piece(b"hello"));
    assert_that(rt, output.tell(Head::Worn { actor: 1 }).is_ok());
    assert_that(rt, output.tell_text(Head::Bad { number: 2 }, &text).is_ok());
    true
}

#[test]
fn answers_are_written(rt: HostRuntime) {
    let Ok(mut output) = Output::open(rt.alloc()) else {
        return;
    };
    let Ok(mut written) = Vec::with_capacity(rt.alloc(), 64) else {
        return;
    };
    if !tell_both(&rt, rt.alloc(), &mut output) {
        return;
    }
    let made = output.make_room(&mut Instrumented::new(&mut written));
    assert_that(&rt, made.is_ok());
    assert_that(&rt, written.is_empty());
    let mut writer = Instrumented::new(&mut written);
    assert_that(&rt, output.write_to(&mut writer).is_ok());
    assert_is(&rt, writer.failures(), 0);
    assert_is(
        &rt,
        written.as_slice(),
        b"1 worn\nline 2: badhello\n".as_slice(),
    );
}
