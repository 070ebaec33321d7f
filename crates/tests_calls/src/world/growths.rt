//! A run of events, with a growth of it refused: the events are then handed back, and the world is
//! unchanged.
use super::*;
use tests_kit::mark;

// The events that are handed back are run again, and have the answers of a first run.
#[test]
fn run_of_events(rt: HostRuntime) {
    let alloc = rt.alloc();
    let mut world = world_with_queue(&rt, alloc, 16);
    let events = six_calls(&rt, alloc);
    let _marked = mark(alloc);
    assert_is(&rt, events.len(), 19);
    let answers = run(&rt, alloc, &mut world, events);
    let no_message = Outcome::Refused(Errno::ENOMSG);
    let wants: [Want<'_>; 6] = [
        (1, no_message, Some(b"")),
        (1, Outcome::Zero, None),
        (1, Outcome::Zero, None),
        (2, Outcome::Got { mtype: 5, len: 5 }, Some(b"hello")),
        (2, Outcome::Got { mtype: 2, len: 0 }, Some(b"")),
        (2, no_message, Some(b"")),
    ];
    assert_is(&rt, answers.len(), wants.len());
    let mut rest = answers.iter();
    for want in wants {
        assert_answers(&rt, rest.next().expect(&rt, "an answer"), want);
    }
    assert_is(&rt, world.end(), 1024);
}
