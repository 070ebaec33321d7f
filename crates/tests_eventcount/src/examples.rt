//! The example in the documentation of eventcounts, line by line.
use std::test::Fail;
use sysv_eventcount::{Eventcount, Sequencer};

#[test]
fn one_thread_at_a_time(rt: HostRuntime) -> Result<(), Fail> {
    let (turns, mut drawing) = Sequencer::open(rt.alloc(), 0)?;
    let (served, mut serving) = Eventcount::open(rt.alloc(), 0)?;
    let turn = turns.ticket(&mut drawing)?;
    served.await_at_least(&rt, &mut serving, turn);
    // One thread at a time is here.
    let number = served.advance(&mut serving)?;
    served.wake(&rt);
    assert_eq!(rt; (turn, number), (0, 1));
    Ok(())
}
