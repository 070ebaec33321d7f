//! A script, with a growth of it refused: it has then printed a prefix of its output.
use crate::parts::assert_is;
use std::alloc::Global;
use std::process::Abort;
use sysv_model::Instrumented;
use sysv_script::{ScriptFault, run_script};
use tests_kit::{Page, Pieces, mark};

const SCRIPT: &[u8] = b"preset
1 rcv 0 100 0 NOWAIT
1 snd 0 5 - =hello
1 stat 0
2 rcv 0 9 0 -
2 rm 0
line
";

const PRINTED: &[u8] = b"1 rcv ! ENOMSG
1 snd = 0
1 stat = key 0 uid 1000 gid 1000 cuid 1000 cgid 1000 mode 600 bytes 5 num 1 qbytes 16384 lspid 101 lrpid 0 stime 0 rtime 0 ctime 0
2 rcv = 5 type 5 =hello
2 rm = 0
line 7: bad
";

/// Runs the script over two streams that do not fail.
fn run(rt: &impl Abort, alloc: Global, page: &mut Page) -> Result<(), ScriptFault> {
    let mut text = Pieces::new(SCRIPT, usize::MAX);
    let mut reader = Instrumented::new(&mut text);
    let mut writer = Instrumented::new(page);
    let ended = run_script(alloc, &mut reader, &mut writer);
    assert_is(rt, (reader.failures(), writer.failures()), (0, 0));
    ended
}

#[test]
fn run_of_script(rt: HostRuntime) {
    let mut page = Page::new();
    let _marked = mark(rt.alloc());
    match run(&rt, rt.alloc(), &mut page) {
        Err(ScriptFault::Line(7)) => assert!(rt; page.written() == PRINTED),
        ended => {
            assert_is(&rt, ended, Err(ScriptFault::NoMemory));
            assert!(rt; PRINTED.starts_with(page.written()));
        }
    }
}
