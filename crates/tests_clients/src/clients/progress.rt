//! Inputs that know how many of their lines were sent.
use super::*;
use std::io::Eprint;
use sysv_connect::{Lines, Progress};

/// Reads up to four bytes of an input, and asserts what is known of its lines then.
fn assert_knows<E: Eprint>(
    rt: &impl Abort,
    input: &mut Progress<'_, E, Tape>,
    sent: usize,
    unknown: usize,
    is_open: bool,
) {
    let mut buffer = [0; 4];
    let _ = input.read(&mut buffer);
    let wanted = Lines {
        sent,
        unknown,
        is_open,
    };
    assert_is(rt, input.lines, wanted);
}

#[test]
fn lines_of_earlier_reads_were_sent(rt: HostRuntime) {
    let tape = joined(&rt, rt.alloc(), &[b"a\nb\ncd\n\nef\rg"]);
    let mut input = Progress::new(&rt, tape, false);
    assert_knows(&rt, &mut input, 0, 2, false);
    assert_knows(&rt, &mut input, 2, 2, false);
    assert_knows(&rt, &mut input, 4, 0, true);
    assert_knows(&rt, &mut input, 4, 1, false);
    assert_knows(&rt, &mut input, 5, 0, false);
}

#[test]
fn a_read_that_fails_changes_nothing(rt: HostRuntime) {
    let mut tape = joined(&rt, rt.alloc(), &[b"a\nbcd\n"]);
    tape.good = 4;
    let mut input = Progress::new(&rt, tape, false);
    assert_knows(&rt, &mut input, 0, 1, true);
    assert_knows(&rt, &mut input, 0, 1, true);
}
