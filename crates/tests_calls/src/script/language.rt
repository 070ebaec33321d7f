//! What each line of a script does, and which lines are bad.
use crate::parts::assert_is;
use std::alloc::Global;
use std::process::Abort;
use std::test::Fail;
use sysv_model::Instrumented;
use sysv_script::{ScriptFault, run_script};

/// The output of a script, and how the script ends.
#[derive(Drop)]
pub(super) struct Ending {
    pub(super) written: Vec<u8>,
    pub(super) end: Result<(), ScriptFault>,
}

pub(super) fn run(alloc: Global, script: &[u8]) -> Ending {
    let mut written = Vec::new(alloc);
    let mut reader = script;
    let end = run_script(
        alloc,
        &mut Instrumented::new(&mut reader),
        &mut Instrumented::new(&mut written),
    );
    Ending { written, end }
}

/// Asserts that a script ends this way, with this output.
pub(super) fn assert_runs(
    rt: &(impl Abort + AllocGlobal),
    script: &[u8],
    end: Result<(), ScriptFault>,
    written: &[u8],
) {
    let ending = run(rt.alloc(), script);
    assert_is(rt, (script, ending.end), (script, end));
    let is_written = ending.written.as_slice() == written;
    assert_is(rt, (script, is_written), (script, true));
}

/// Returns a script of `preset` and this line.
fn after_preset(alloc: Global, line: &[u8]) -> Result<Vec<u8>, Fail> {
    let mut script = Vec::new(alloc);
    script.extend_from_slice(b"preset\n")?;
    script.extend_from_slice(line)?;
    script.push(b'\n')?;
    Ok(script)
}

/// Returns a line that ends in this number of letters.
fn lettered(alloc: Global, start: &[u8], letters: usize) -> Result<Vec<u8>, Fail> {
    let mut line = Vec::new(alloc);
    line.extend_from_slice(start)?;
    for _ in 0..letters {
        line.push(b'a')?;
    }
    Ok(line)
}

const BAD: [&[u8]; 101] = [
    b"hello",
    b"preset ",
    b" preset",
    b"preset preset",
    b"Preset",
    b"preset\r",
    b"preset",
    b" ",
    b" # no comment",
    b"pool 128",
    b"go",
    b"go 0",
    b"go 1 ",
    b"all ",
    b"all 1",
    b"step",
    b"step 17",
    b"now",
    b"now -1",
    b"now 18446744073709551616",
    b"+",
    b"+ 1 rm 0",
    b"++1 rm 0",
    b"+go 1",
    b"1 get",
    b"1 get 4",
    b"1 get 4 CREAT+0600 ",
    b"1 get 2147483648 -",
    b"1 rm",
    b"1 rm 0 ",
    b"1 stat -",
    b"1 set 0 1 1 600",
    b"1 set 0 1 1 1000 5",
    b"1 set 0 1 1 00600 5",
    b"1 set 0 1 1 608 5",
    b"1 set 0 -1 1 600 5",
    b"pool",
    b"pool 127",
    b"pool 65537",
    b"pool 128 ",
    b"as",
    b"as 1",
    b"as 1 2 3",
    b"as 0 1 1 1",
    b"as 17 1 1 1",
    b"as 1 4294967296 1 1",
    b"as 1 -1 1 1",
    b"as 1 1 1 1 ",
    b"as  1 1 1 1",
    b"as 1 1 1 +1",
    b"AS 1 1 1 1",
    b"as 1 1 1 1 1",
    b"snd",
    b"snd 0 1 NOWAIT =a",
    b"1",
    b"1 snd",
    b"1 snd 0",
    b"1 snd 0 1",
    b"1 snd 0 1 NOWAIT",
    b"1 snd 0 1 NOWAIT ",
    b"1 rcv",
    b"1 rcv 0 100 0",
    b"1 rcv 0 100 0 ",
    b"1 rcv 0 100 0 NOWAIT ",
    b"1 rcv 0 100 0 NOWAIT 1",
    b"1 rcv 0 100 0 NOWAIT\r",
    b" 1 rcv 0 100 0 NOWAIT",
    b"1  rcv 0 100 0 NOWAIT",
    b"1 rcv 0  100 0 NOWAIT",
    b"1\trcv 0 100 0 NOWAIT",
    b"1 SND 0 1 NOWAIT =a",
    b"0 rcv 0 100 0 NOWAIT",
    b"17 rcv 0 100 0 NOWAIT",
    b"-1 rcv 0 100 0 NOWAIT",
    b"one rcv 0 100 0 NOWAIT",
    b"4294967297 rcv 0 100 0 NOWAIT",
    b"1 snd 0 9223372036854775808 NOWAIT =a",
    b"1 snd 0 -9223372036854775809 NOWAIT =a",
    b"1 snd 0 +1 NOWAIT =a",
    b"1 snd 0 - NOWAIT =a",
    b"1 snd 0 1x NOWAIT =a",
    b"1 snd 2147483648 1 NOWAIT =a",
    b"1 snd -2147483649 1 NOWAIT =a",
    b"1 rcv 0 4294967296 0 NOWAIT",
    b"1 rcv 0 -1 0 NOWAIT",
    b"1 snd 0 1 NOWAIT *8257",
    b"1 snd 0 1 NOWAIT *-1",
    b"1 snd 0 1 NOWAIT *",
    b"1 snd 0 1 NOWAIT * 5",
    b"1 snd 0 1 NOWAIT *5 ",
    b"1 snd 0 1 NOWAIT a",
    b"1 snd 0 1  =a",
    b"1 snd 0 1 NOWAIT+ =a",
    b"1 snd 0 1 +NOWAIT =a",
    b"1 snd 0 1 CREAT++EXCL =a",
    b"1 snd 0 1 NOWAIT+- =a",
    b"1 snd 0 1 nowait =a",
    b"1 snd 0 1 0648 =a",
    b"1 snd 0 1 00644 =a",
    b"1 snd 0 1 644 =a",
    b"1 snd 0 1 0-64 =a",
];

/// Asserts that this line behind `preset` is bad.
fn assert_bad(rt: &(impl Abort + AllocGlobal), line: &[u8]) -> Result<(), Fail> {
    let script = after_preset(rt.alloc(), line)?;
    let end = Err(ScriptFault::Line(2));
    assert_runs(rt, script.as_slice(), end, b"line 2: bad\n");
    Ok(())
}

/// Asserts that a line of this start and this number of letters is bad.
fn assert_bad_letters(
    rt: &(impl Abort + AllocGlobal),
    start: &[u8],
    letters: usize,
) -> Result<(), Fail> {
    let line = lettered(rt.alloc(), start, letters)?;
    assert_bad(rt, line.as_slice())
}

#[test]
fn names_bad_lines(rt: HostRuntime) -> Result<(), Fail> {
    for line in BAD.iter() {
        assert_bad(&rt, line)?;
    }
    assert_bad_letters(&rt, b"1 snd 0 1 NOWAIT =", 8257)?;
    assert_bad_letters(&rt, b"#", 9000)?;
    let script = b"# one\n\n1 rcv 0 1 0 -\n#\nx\n1 rcv 0 1 0 -\n";
    let written = b"1 rcv ! EINVAL\nline 5: bad\n";
    assert_runs(&rt, script, Err(ScriptFault::Line(5)), written);
    Ok(())
}

const ANSWERED: [(&[u8], &[u8]); 49] = [
    (b"go 1", b"1 idle\n"),
    (b"step 16", b"16 idle\n"),
    (b"all", b""),
    (b"now 18446744073709551615", b""),
    (b"+1 snd 0 1 NOWAIT =a", b"1 snd at look\n"),
    (
        b"+1 rcv 0 9 0 -\n1 stat 0\nstep 1\nstep 1\ngo 1",
        b"1 rcv at take\n1 busy\n1 rcv waits\n1 rcv waits\n1 rcv waits\n",
    ),
    (b"1 get -4 -", b"1 get ! ENOENT\n"),
    (b"1 get 4 CREAT+0600", b"1 get = 1\n"),
    (b"1 rm -1", b"1 rm ! EINVAL\n"),
    (
        b"1 set 0 1000 1000 7 16384\n1 snd 0 1 - =a",
        b"1 set = 0\n1 snd ! EACCES\n",
    ),
    (b"", b""),
    (b"# preset", b""),
    (b"as 1 0 0 1", b""),
    (b"as 1 0 0 0", b""),
    (b"as 16 4294967295 4294967295 4294967295", b""),
    (b"as 01 007 -0 1", b""),
    (b"1 snd 0 0 NOWAIT =a", b"1 snd ! EINVAL\n"),
    (b"1 snd 0 -1 NOWAIT =a", b"1 snd ! EINVAL\n"),
    (b"1 snd 0 -9223372036854775808 - =", b"1 snd ! EINVAL\n"),
    (b"1 snd 0 1 NOWAIT *8192", b"1 snd = 0\n"),
    (b"1 snd 0 1 NOWAIT *8193", b"1 snd ! EINVAL\n"),
    (b"1 snd 0 1 NOWAIT *8256", b"1 snd ! EINVAL\n"),
    (b"1 snd 0 1 NOWAIT *0008256", b"1 snd ! EINVAL\n"),
    (b"1 snd 0 1 NOWAIT *-0", b"1 snd = 0\n"),
    (b"1 snd -1 1 NOWAIT =a", b"1 snd ! EINVAL\n"),
    (b"1 snd 7 1 NOWAIT =a", b"1 snd ! EINVAL\n"),
    (b"1 snd 2147483647 1 NOWAIT =a", b"1 snd ! EINVAL\n"),
    (b"1 snd -2147483648 1 NOWAIT =a", b"1 snd ! EINVAL\n"),
    (b"01 snd 000 0001 NOWAIT =a", b"1 snd = 0\n"),
    (b"16 snd -0 9223372036854775807 0 =a b  c ", b"16 snd = 0\n"),
    (
        b"1 snd 0 1 CREAT+EXCL+NOWAIT+0777+NOWAIT+07+0 =",
        b"1 snd = 0\n",
    ),
    (b"1 snd 0 1 EXCEPT =a", b"1 snd = 0\n"),
    (b"1 snd 0 1 NOERROR =a", b"1 snd = 0\n"),
    (b"1 snd 0 1 - ==", b"1 snd = 0\n"),
    (
        b"1 snd 0 2 - *03\n2 rcv 0 9 0 NOWAIT",
        b"1 snd = 0\n2 rcv = 3 type 2 =xxx\n",
    ),
    (b"1 rcv 0 100 0 NOWAIT", b"1 rcv ! ENOMSG\n"),
    (b"1 rcv 0 4294967295 -0 NOWAIT", b"1 rcv ! ENOMSG\n"),
    (
        b"0000000000000000000000016 rcv 0 -0 0 NOWAIT",
        b"16 rcv ! ENOMSG\n",
    ),
    (b"1 rcv 0 100 0 00+NOWAIT", b"1 rcv ! ENOMSG\n"),
    (b"1 rcv -1 100 0 NOWAIT", b"1 rcv ! EINVAL\n"),
    (b"1 rcv 7 100 0 NOWAIT", b"1 rcv ! EINVAL\n"),
    (b"1 rcv 0 100 0 EXCEPT", b"1 rcv waits\n"),
    (b"1 rcv 0 100 5 EXCEPT+NOWAIT", b"1 rcv ! ENOMSG\n"),
    (b"1 rcv 0 100 5 NOWAIT", b"1 rcv ! ENOMSG\n"),
    (b"1 rcv 0 100 -5 NOWAIT", b"1 rcv ! ENOMSG\n"),
    (b"1 rcv 0 100 0 NOERROR+NOWAIT", b"1 rcv ! ENOMSG\n"),
    (
        b"1 snd 0 5 - =\r\n2 rcv 0 1 0 NOWAIT",
        b"1 snd = 0\n2 rcv = 1 type 5 =\r\n",
    ),
    (
        b"1 snd 0 5 - =a\0\xff\xfe=\r\n2 rcv 0 9 0 NOWAIT",
        b"1 snd = 0\n2 rcv = 6 type 5 =a\0\xff\xfe=\r\n",
    ),
    (
        b"1 snd 0 7 - =hello\n2 rcv 0 4 0 NOWAIT\n2 rcv 0 5 0 NOWAIT\n2 rcv 0 5 0 NOWAIT",
        b"1 snd = 0\n2 rcv ! E2BIG\n2 rcv = 5 type 7 =hello\n2 rcv ! ENOMSG\n",
    ),
];

#[test]
fn answers_calls(rt: HostRuntime) -> Result<(), Fail> {
    for (line, answer) in ANSWERED.iter() {
        let script = after_preset(rt.alloc(), line)?;
        assert_runs(&rt, script.as_slice(), Ok(()), answer);
    }
    for script in ["1 snd 0 1 NOWAIT =a\n", "1 snd 0 1 NOWAIT =a"] {
        assert_runs(&rt, script.as_bytes(), Ok(()), b"1 snd ! EINVAL\n");
    }
    assert_runs(&rt, b"16 rcv 0 1 0 NOWAIT", Ok(()), b"16 rcv ! EINVAL\n");
    let longest = lettered(rt.alloc(), b"1 snd 0 1 - =", 8256)?;
    let script = after_preset(rt.alloc(), longest.as_slice())?;
    assert_runs(&rt, script.as_slice(), Ok(()), b"1 snd ! EINVAL\n");
    let comment = lettered(rt.alloc(), b"#", 8999)?;
    let script = after_preset(rt.alloc(), comment.as_slice())?;
    assert_runs(&rt, script.as_slice(), Ok(()), b"");
    Ok(())
}

const FULL_IN: &[u8] = b"preset
1 snd 0 1 NOWAIT *8192
1 snd 0 1 NOWAIT *8192
1 snd 0 1 NOWAIT =x
1 snd 0 1 NOWAIT =
";

const FULL_OUT: &[u8] = b"1 snd = 0
1 snd = 0
1 snd ! EAGAIN
1 snd = 0
";

#[test]
fn keeps_the_limits_of_a_queue(rt: HostRuntime) -> Result<(), Fail> {
    assert_runs(&rt, FULL_IN, Ok(()), FULL_OUT);
    let mut script = Vec::new(rt.alloc());
    let mut answers = Vec::new(rt.alloc());
    script.extend_from_slice(b"preset\n")?;
    for _ in 0..256 {
        script.extend_from_slice(b"1 snd 0 1 NOWAIT =\n")?;
        answers.extend_from_slice(b"1 snd = 0\n")?;
    }
    script.extend_from_slice(b"1 snd 0 1 NOWAIT =\n")?;
    answers.extend_from_slice(b"1 snd ! EAGAIN\n")?;
    assert_runs(&rt, script.as_slice(), Ok(()), answers.as_slice());
    Ok(())
}

/// Returns a script of a receive in the millionth line, and these bytes behind it.
fn long_script(alloc: Global, behind: &[u8]) -> Result<Vec<u8>, Fail> {
    let mut script = Vec::from_elem(alloc, b'\n', 999_999)?;
    script.extend_from_slice(b"1 rcv 0 1 0 -")?;
    script.extend_from_slice(behind)?;
    Ok(script)
}

#[test]
fn ends_behind_the_millionth_line(rt: HostRuntime) -> Result<(), Fail> {
    let ends = [
        (b"".as_slice(), Ok(())),
        (b"\n".as_slice(), Ok(())),
        (b"\n#".as_slice(), Err(ScriptFault::Bound)),
        (b"\n\n".as_slice(), Err(ScriptFault::Bound)),
        (b"\nx\n".as_slice(), Err(ScriptFault::Bound)),
    ];
    for (behind, end) in ends {
        let script = long_script(rt.alloc(), behind)?;
        let ending = run(rt.alloc(), script.as_slice());
        assert_is(&rt, (behind, ending.end), (behind, end));
        assert_is(
            &rt,
            ending.written.as_slice(),
            b"1 rcv ! EINVAL\n".as_slice(),
        );
    }
    Ok(())
}

#[test]
fn gives_long_texts_back(rt: HostRuntime) -> Result<(), Fail> {
    let mut script = Vec::new(rt.alloc());
    let mut answers = Vec::new(rt.alloc());
    script.extend_from_slice(b"preset\n")?;
    for _ in 0..40 {
        script.extend_from_slice(b"1 snd 0 1 NOWAIT *8192\n2 rcv 0 8192 0 NOWAIT\n")?;
        answers.extend_from_slice(b"1 snd = 0\n2 rcv = 8192 type 1 =")?;
        for _ in 0..8192 {
            answers.push(b'x')?;
        }
        answers.push(b'\n')?;
    }
    assert_runs(&rt, script.as_slice(), Ok(()), answers.as_slice());
    Ok(())
}

// Eight messages of 128 blocks each are all that the first pool has room for.
#[test]
fn the_first_pool_has_1024_blocks(rt: HostRuntime) {
    let script = b"1 get 0 0600
1 get 0 0600
1 get 0 0600
1 get 0 0600
1 get 0 0600
1 snd 0 1 NOWAIT *8192
1 snd 0 1 NOWAIT *8192
1 snd 1 1 NOWAIT *8192
1 snd 1 1 NOWAIT *8192
1 snd 2 1 NOWAIT *8192
1 snd 2 1 NOWAIT *8192
1 snd 3 1 NOWAIT *8192
1 snd 3 1 NOWAIT *8192
1 snd 4 1 NOWAIT =a
1 rm 0
1 snd 4 1 NOWAIT =a
"
        .as_slice();
    let written = b"1 get = 0
1 get = 1
1 get = 2
1 get = 3
1 get = 4
1 snd = 0
1 snd = 0
1 snd = 0
1 snd = 0
1 snd = 0
1 snd = 0
1 snd = 0
1 snd = 0
1 snd ! EAGAIN
1 rm = 0
1 snd = 0
"
        .as_slice();
    assert_runs(&rt, script, Ok(()), written);
}

// Its giveback, the end of its wait, a look, a reserve and a place.
#[test]
fn a_line_makes_five_steps_of_a_send(rt: HostRuntime) {
    let script = b"preset
1 set 0 1000 1000 600 1
+2 snd 0 1 - =a
step 2
step 2
1 snd 0 1 - =b
step 2
3 rcv 0 9 0 -
go 2
"
        .as_slice();
    let written = b"1 set = 0
2 snd at look
2 snd at reserve
2 snd at place
1 snd = 0
2 snd at giveback
3 rcv = 1 type 1 =b
2 snd = 0
"
        .as_slice();
    assert_runs(&rt, script, Ok(()), written);
}
