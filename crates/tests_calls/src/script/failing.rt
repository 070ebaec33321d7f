//! Scripts over readers and writers that fail, stall or transfer few bytes at once.
use super::ends::{Asker, Counter, Endless};
use crate::parts::assert_is;
use std::alloc::Global;
use std::cell::Cell;
use std::io::{Read, Write};
use std::process::Abort;
use std::test::Fail;
use sysv_model::Instrumented;
use sysv_script::{ScriptFault, run_script};
use tests_kit::{Page, Pieces};

const SCRIPT: &[u8] = b"preset
1 rcv 0 100 0 NOWAIT
1 snd 0 5 NOWAIT =hello
1 snd 0 2 NOWAIT =
2 rcv 0 100 0 NOWAIT
2 rcv 0 100 0 NOWAIT
2 rcv 0 100 0 NOWAIT
";

const ANSWERS: &[u8] = b"1 rcv ! ENOMSG
1 snd = 0
1 snd = 0
2 rcv = 5 type 5 =hello
2 rcv = 0 type 2 =
2 rcv ! ENOMSG
";

/// Runs a script, and asserts that its end states which stream has failed.
fn run<R: Read, W: Write>(
    rt: &impl Abort,
    alloc: Global,
    reader: &mut R,
    writer: &mut W,
) -> Result<(), ScriptFault> {
    let mut reader = Instrumented::new(reader);
    let mut writer = Instrumented::new(writer);
    let end = run_script(alloc, &mut reader, &mut writer);
    assert_is(rt, reader.failures() > 0, end == Err(ScriptFault::Read));
    assert_is(rt, writer.failures() > 0, end == Err(ScriptFault::Write));
    end
}

fn is_front(part: &[u8], whole: &[u8]) -> bool {
    whole.starts_with(part)
}

fn lines_in(bytes: &[u8]) -> usize {
    bytes.iter().filter(|byte| **byte == b'\n').count()
}

#[test]
fn takes_any_pieces(rt: HostRuntime) -> Result<(), Fail> {
    for piece in [1usize, 2, 3, 7, 20, 9000, 9001, 100_000] {
        let mut reader = Pieces::new(SCRIPT, piece);
        let mut writer = Page::taking(piece, 512, false);
        let end = run(&rt, rt.alloc(), &mut reader, &mut writer);
        assert_is(&rt, (piece, end), (piece, Ok(())));
        assert_is(&rt, (piece, writer.written()), (piece, ANSWERS));
    }
    Ok(())
}

#[test]
fn says_that_the_reader_failed(rt: HostRuntime) -> Result<(), Fail> {
    for good in 0..=SCRIPT.len() {
        let mut reader = Pieces::new(SCRIPT, 5);
        reader.good = good;
        let mut writer = Page::taking(512, 512, false);
        let end = run(&rt, rt.alloc(), &mut reader, &mut writer);
        assert_is(&rt, (good, end), (good, Err(ScriptFault::Read)));
        let lines = lines_in(&SCRIPT[..good]);
        let answers = lines_in(writer.written());
        assert_is(&rt, (good, answers), (good, lines.saturating_sub(1)));
        assert_is(
            &rt,
            (good, is_front(writer.written(), ANSWERS)),
            (good, true),
        );
    }
    Ok(())
}

#[test]
fn says_that_the_writer_failed(rt: HostRuntime) -> Result<(), Fail> {
    for room in 0..ANSWERS.len() {
        for stalls in [false, true] {
            for piece in [1, 512] {
                let mut reader = SCRIPT;
                let mut writer = Page::taking(piece, room, stalls);
                let end = run(&rt, rt.alloc(), &mut reader, &mut writer);
                assert_is(&rt, (room, end), (room, Err(ScriptFault::Write)));
                assert_is(&rt, writer.written().len(), room);
                assert_is(
                    &rt,
                    (room, is_front(writer.written(), ANSWERS)),
                    (room, true),
                );
            }
        }
    }
    let mut reader = b"x".as_slice();
    let mut writer = Page::taking(512, 5, false);
    let end = run(&rt, rt.alloc(), &mut reader, &mut writer);
    assert_is(&rt, end, Err(ScriptFault::Write));
    assert_is(&rt, writer.written(), b"line ".as_slice());
    Ok(())
}

#[test]
fn holds_a_conversation(rt: HostRuntime) -> Result<(), Fail> {
    for at_once in [1, 2, 3] {
        let answers = Cell::new(0u32);
        let mut reader = Asker {
            rest: SCRIPT,
            at_once,
            lines: 0,
            answers: &answers,
            missing: 0,
        };
        let mut writer = Counter { answers: &answers };
        let end = run(&rt, rt.alloc(), &mut reader, &mut writer);
        assert_is(&rt, end, Ok(()));
        assert_is(&rt, (at_once, reader.missing), (at_once, 0));
        assert_is(&rt, reader.lines, 7);
        assert_is(&rt, answers.get(), 6);
    }
    Ok(())
}

#[test]
fn the_writer_is_not_flushed(rt: HostRuntime) {
    let mut reader = SCRIPT;
    let mut writer = Page::new();
    writer.flushes = 0;
    let end = run(&rt, rt.alloc(), &mut reader, &mut writer);
    if end != Err(ScriptFault::NoMemory) {
        assert_is(&rt, end, Ok(()));
        assert_is(&rt, writer.written(), ANSWERS);
        assert!(rt; writer.flushed().is_empty());
    }
}

#[test]
fn stops_in_a_line_that_never_ends(rt: HostRuntime) -> Result<(), Fail> {
    for byte in [b'a', b'#', b' '] {
        let mut reader = Endless { byte, given: 0 };
        let mut writer = Page::taking(512, 512, false);
        let end = run(&rt, rt.alloc(), &mut reader, &mut writer);
        assert_is(&rt, end, Err(ScriptFault::Line(1)));
        assert_is(&rt, reader.given, 9001);
        assert_is(&rt, writer.written(), b"line 1: bad\n".as_slice());
    }
    Ok(())
}
