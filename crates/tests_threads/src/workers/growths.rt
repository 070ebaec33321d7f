//! A run of workers, with a growth of it refused: the states are then handed back, and the source
//! was not called. If a thread is refused, the workers that wait for their first items end.
use super::first::{Awaited, Beginning};
use super::*;
use tests_kit::mark;

#[test]
fn run_of_workers(rt: HostRuntime) {
    let job = Awaited::new();
    let mut source = Beginning {
        job: &job,
        numbers: Numbers::below(40),
    };
    let states = tickets(&rt, rt.alloc(), 2);
    let _marked = mark(rt.alloc());
    match run_workers(&rt, rt.alloc(), states, &mut source, &job) {
        Ok(states) => assert_eq!(rt; items_of(&rt, states, 2), 40),
        Err(refused) => {
            let WorkersRefused { why, states } = refused;
            assert!(rt; matches!(&why, WorkersFault::NoMemory | WorkersFault::Thread));
            assert_eq!(rt; (items_of(&rt, states, 2), source.numbers.asked), (0, 0));
        }
    }
    assert_is(&rt, job.given_up(), 0);
}
