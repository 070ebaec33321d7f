//! A stage on which lines run.

use crate::parts::assert_is;
use std::alloc::Global;
use std::process::Abort;
use sysv_model::{Instrumented, NoMemory};
use sysv_script::{Output, Stage, line_of};
use tests_kit::mark;

/// Runs one line. Returns false if the line is bad.
fn run(
    stage: &mut Stage,
    alloc: Global,
    text: &[u8],
    output: &mut Output,
) -> Result<bool, NoMemory> {
    let Some(line) = line_of(text) else {
        return Ok(false);
    };
    stage.run(alloc, line, output)
}

/// Creates the queue, sends a message and receives it, each in a line of its own. Returns true if
/// each line was understood.
fn send_and_receive(
    stage: &mut Stage,
    alloc: Global,
    output: &mut Output,
) -> Result<bool, NoMemory> {
    let made = run(stage, alloc, b"preset", output)?;
    let sent = run(stage, alloc, b"1 snd 0 5 - =hello", output)?;
    let received = run(stage, alloc, b"2 rcv 0 9 0 -", output)?;
    Ok(made && sent && received)
}

#[test]
fn a_message_goes_through_the_stage(rt: HostRuntime) {
    let Ok(mut output) = Output::open(rt.alloc()) else {
        return;
    };
    let Ok(mut written) = Vec::with_capacity(rt.alloc(), 64) else {
        return;
    };
    let Ok(mut stage) = Stage::open(rt.alloc()) else {
        return;
    };
    let understood = send_and_receive(&mut stage, rt.alloc(), &mut output);
    let late = run(&mut stage, rt.alloc(), b"preset", &mut output);
    stage.end();
    if understood == Err(NoMemory) || late == Err(NoMemory) {
        return;
    }
    assert_is(&rt, understood, Ok(true));
    assert_is(&rt, late, Ok(false));
    let mut writer = Instrumented::new(&mut written);
    assert!(rt; output.write_to(&mut writer).is_ok());
    assert_is(
        &rt,
        written.as_slice(),
        b"1 snd = 0\n2 rcv = 5 type 5 =hello\n".as_slice(),
    );
}

/// Asserts that a send and a receive are understood.
fn assert_goes(rt: &impl Abort, alloc: Global, stage: &mut Stage, output: &mut Output) {
    let sent = run(stage, alloc, b"1 snd 0 5 - =hello", output);
    let received = run(stage, alloc, b"2 rcv 0 9 0 -", output);
    assert_is(rt, (sent, received), (Ok(true), Ok(true)));
}

// The bodies of the first send and the first receive are used again, and the output has its memory
// from the start.
#[test]
fn no_growths_after_the_first_messages(rt: HostRuntime) {
    let Ok(mut output) = Output::open(rt.alloc()) else {
        return;
    };
    let Ok(mut stage) = Stage::open(rt.alloc()) else {
        return;
    };
    if send_and_receive(&mut stage, rt.alloc(), &mut output) == Err(NoMemory) {
        stage.end();
        return;
    }
    let _marked = mark(rt.alloc());
    for _ in 0..100 {
        assert_goes(&rt, rt.alloc(), &mut stage, &mut output);
    }
    stage.end();
}
