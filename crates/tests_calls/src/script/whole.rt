//! A script from its first byte to its last answer. Memory may be refused.
use crate::parts::{assert_is, assert_that};
use sysv_model::Instrumented;
use sysv_script::{ScriptFault, run_script};

#[test]
fn runs_a_script(rt: HostRuntime) {
    let answers = b"1 snd = 0\n2 rcv = 5 type 5 =hello\n".as_slice();
    let mut script = b"preset\n1 snd 0 5 - =hello\n2 rcv 0 9 0 -".as_slice();
    let Ok(mut written) = Vec::with_capacity(rt.alloc(), answers.len()) else {
        return;
    };
    let mut reader = Instrumented::new(&mut script);
    let mut writer = Instrumented::new(&mut written);
    let ended = run_script(rt.alloc(), &mut reader, &mut writer);
    assert_is(&rt, (reader.failures(), writer.failures()), (0, 0));
    match ended {
        Ok(()) => assert_is(&rt, written.as_slice(), answers),
        Err(fault) => {
            assert_is(&rt, fault, ScriptFault::NoMemory);
            assert_that(&rt, answers.starts_with(written.as_slice()));
        }
    }
}
