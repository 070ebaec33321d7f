//! The examples in the documentation of the world and of the script language, line by line.
use crate::parts::assert_is;
use std::test::Fail;
use sysv_core::{Call, Event, Outcome, Stepped, World};
use sysv_model::{Errno, Instrumented};
use sysv_script::run_script;
use tests_kit::USER;

#[test]
fn a_call_takes_two_steps(rt: HostRuntime) -> Result<(), Fail> {
    let mut world = World::open(rt.alloc(), 2, 128)?;
    let call = Call::Stat { id: 0 };
    let start = world.step(Event::Start {
        actor: 1,
        cred: USER,
        call,
    });
    let step = world.step(Event::Step { actor: 1, now: 0 });
    let free = world.end();
    assert!(rt; matches!(start, Stepped::Nothing));
    match step {
        Stepped::Answer(answer) => {
            assert_is(&rt, answer.result, Outcome::Refused(Errno::EINVAL));
        }
        _ => panic!(rt; "no queue is there, so the call is answered"),
    }
    assert_is(&rt, free, 128);
    Ok(())
}

#[test]
fn a_script_prints_its_answers(rt: HostRuntime) -> Result<(), Fail> {
    let mut script = b"preset\n1 snd 0 5 - =hello\n2 rcv 0 9 0 -\n".as_slice();
    let mut printed = Vec::new(rt.alloc());
    let mut reader = Instrumented::new(&mut script);
    let mut writer = Instrumented::new(&mut printed);
    run_script(rt.alloc(), &mut reader, &mut writer)?;
    let answers = b"1 snd = 0\n2 rcv = 5 type 5 =hello\n".as_slice();
    assert_is(&rt, printed.as_slice(), answers);
    Ok(())
}
