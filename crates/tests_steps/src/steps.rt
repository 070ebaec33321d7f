//! The steps of calls at objects.

ghost use Rattle.std.specs.Prelude.{◌≡◌};
ghost use Rattle.sysv_steps.specs.Bodies.{StillCanSend};
ghost use Rattle.sysv_objects.specs.Objects.{CountsUpTo};

use crate::objects::{end, objects_at, turn};
use crate::parts::{assert_holds, assert_is, open_body};
use std::alloc::Global;
use std::process::Abort;
use sysv_model::{Body, Selector, SetTo};
use sysv_objects::{ObjectCall, ObjectReply, Objects, Turns};
use sysv_pool::Chain;
use sysv_queue::Tally;
use sysv_steps::{
    Clock, GetState, GetStep, Getting, ReceiveState, ReceiveStep, Receiving, RemoveState,
    RemoveStep, SendState, SendStep, Sending, SetState, SetStep, StatStep, State, get_step,
    receive_step, remove_step, send_step, set_step, stat_step,
};
use tests_kit::{USER, creating};

pub(crate) const SEND: Sending = Sending {
    cred: USER,
    id: 0,
    mtype: 5,
    nowait: true,
    released: 0,
    live_seen: false,
};

pub(crate) const RECEIVE: Receiving = Receiving {
    cred: USER,
    id: 0,
    selector: Selector::Any,
    size: 9,
    noerror: false,
    nowait: true,
    live_seen: false,
};

pub(crate) const TO: SetTo = SetTo {
    uid: 1000,
    gid: 1000,
    mode: 0o600,
    qbytes: 9,
};

/// Objects, and how far a count of theirs was raised at most.
pub(crate) struct Counted {
    pub(crate) objects: Objects,
    pub(crate) raised: u64,
}

/// Makes turns at objects, and counts them.
pub(crate) struct AtObjects;

impl Turns for AtObjects {
    ghost use Rattle.std.specs.Prelude.{◌<◌};
    ghost use Rattle.sysv_objects.specs.Objects.{CountsUpTo};
    ghost use Rattle.sysv_objects.specs.Represents.{MakesTurn};

    type At = Counted;

    ghost ready = { λ _ at. (at.raised < 100) × CountsUpTo at.raised at.objects };

    ghost stays = { λ _ at. CountsUpTo at.raised at.objects };

    ghost takes = { λ old op new. MakesTurn old.objects op new.objects };

    ghost misses = { λ _ _ _. ⊥ };

    fn make(&self, at: &mut Counted, call: ObjectCall) -> Result<ObjectReply, ObjectCall> {
        let reply = turn(&mut at.objects, call, at.raised);
        at.raised += 1;
        Ok(reply)
    }
}

/// A clock that always returns the same time.
pub(crate) struct Still;

impl Clock for Still {
    ghost use Rattle.std.specs.Prelude.{◌≡◌};

    ghost may = { λ _ now. now ≡ 50 };

    fn now(&self) -> u64 {
        50
    }
}

/// Returns the step that the call makes next.
fn at_step<S, W, T>(rt: &impl Abort, state: State<S, W, T>) -> S
    ensures { state ≡ State.Goes result }
{
    match state {
        State::Goes(step) => step,
        _other => panic!(rt; "the call does not go on"),
    }
}

/// Asserts that the call is over and succeeded.
fn assert_done<S, W>(rt: &impl Abort, state: State<S, W, ()>) {
    match state {
        State::Over(Ok(())) => {}
        _other => panic!(rt; "another end"),
    }
}

/// Returns the state of a get that begins, and that makes the queue of a key without one.
fn getting() -> GetState {
    State::Goes(GetStep::Begin(Getting {
        cred: USER,
        key: 7,
        flags: creating(),
    }))
}

/// Asserts that a get is over with this identifier.
fn assert_id(rt: &impl Abort, state: GetState, want: i32) {
    match state {
        State::Over(Ok(id)) => assert_is(rt, id, want),
        _other => panic!(rt; "another end"),
    }
}

/// Makes the next step of a get.
fn get_on(rt: &impl Abort, at: &mut Counted, state: GetState) -> GetState
    requires { CountsUpTo at.old.raised at.old.objects }
    ensures { CountsUpTo at.new.raised at.new.objects }
{
    assert!(rt; at.raised < 100);
    get_step(&AtObjects, at, &Still, at_step(rt, state))
}

/// Makes the next step of a send of this body.
fn send_on(rt: &impl Abort, at: &mut Counted, text: &Body, state: SendState) -> SendState
    requires low { CountsUpTo at.old.raised at.old.objects }
    requires body { StillCanSend state text.now }
    ensures low { CountsUpTo at.new.raised at.new.objects }
    ensures body { StillCanSend result text.now }
{
    assert!(rt; at.raised < 100);
    let mut kept = Chain::empty();
    let state = send_step(&AtObjects, at, &mut kept, &Still, text, at_step(rt, state));
    assert_is(rt, kept.end(), 0);
    state
}

/// Makes the next step of a receive into this body.
fn receive_on(
    rt: &impl Abort,
    at: &mut Counted,
    out: &mut Body,
    state: ReceiveState,
) -> ReceiveState
    requires { CountsUpTo at.old.raised at.old.objects }
    ensures { CountsUpTo at.new.raised at.new.objects }
{
    assert!(rt; at.raised < 100);
    let mut kept = Chain::empty();
    let state = receive_step(&AtObjects, at, &mut kept, &Still, out, at_step(rt, state));
    assert_is(rt, kept.end(), 0);
    state
}

/// Makes the next step of an IPC_SET.
fn set_on(rt: &impl Abort, at: &mut Counted, state: SetState) -> SetState
    requires { CountsUpTo at.old.raised at.old.objects }
    ensures { CountsUpTo at.new.raised at.new.objects }
{
    assert!(rt; at.raised < 100);
    let mut kept = Chain::empty();
    let state = set_step(&AtObjects, at, &mut kept, &Still, at_step(rt, state));
    assert_is(rt, kept.end(), 0);
    state
}

/// Makes the next step of an IPC_RMID.
fn remove_on(rt: &impl Abort, at: &mut Counted, state: RemoveState) -> RemoveState
    requires { CountsUpTo at.old.raised at.old.objects }
    ensures { CountsUpTo at.new.raised at.new.objects }
{
    assert!(rt; at.raised < 100);
    let mut kept = Chain::empty();
    let state = remove_step(&AtObjects, at, &mut kept, at_step(rt, state));
    assert_is(rt, kept.end(), 0);
    state
}

/// Returns objects without a queue.
pub(crate) fn without_queue(rt: &impl Abort, alloc: Global) -> Counted
    ensures { CountsUpTo result.raised result.objects }
{
    Counted {
        objects: objects_at(rt, alloc, 0),
        raised: 0,
    }
}

/// Returns objects in which the key has queue 0.
pub(crate) fn with_queue(rt: &impl Abort, alloc: Global) -> Counted
    ensures { CountsUpTo result.raised result.objects }
{
    let mut at = without_queue(rt, alloc);
    let begun = get_on(rt, &mut at, getting());
    let installed = get_on(rt, &mut at, begun);
    let settled = get_on(rt, &mut at, installed);
    assert_id(rt, settled, 0);
    at
}

/// Ends the objects, and asserts that all blocks are free.
pub(crate) fn end_all(rt: &impl Abort, at: Counted)
    requires { CountsUpTo at.raised at.objects }
{
    let Counted { objects, raised } = at;
    assert!(rt; raised < 100);
    end(rt, objects, Chain::empty(), raised);
}

#[test]
fn a_get_finds_the_queue_that_one_made(rt: HostRuntime) {
    let mut at = with_queue(&rt, rt.alloc());
    let found = get_on(&rt, &mut at, getting());
    let granted = get_on(&rt, &mut at, found);
    assert_id(&rt, granted, 0);
    end_all(&rt, at);
}

#[test]
fn a_message_is_sent_and_received(rt: HostRuntime) {
    let mut text = open_body(&rt, rt.alloc());
    let mut out = open_body(&rt, rt.alloc());
    let mut at = with_queue(&rt, rt.alloc());
    assert!(rt; text.push_piece(b"hello"));
    assert!(rt; text.len() < 8193);
    let looked = send_on(&rt, &mut at, &text, State::Goes(SendStep::Look(SEND)));
    let reserved = send_on(&rt, &mut at, &text, looked);
    let placed = send_on(&rt, &mut at, &text, reserved);
    assert_done(&rt, placed);
    let taken = receive_on(
        &rt,
        &mut at,
        &mut out,
        State::Goes(ReceiveStep::Take(RECEIVE)),
    );
    let given = receive_on(&rt, &mut at, &mut out, taken);
    let State::Over(Ok(delivery)) = given else {
        panic!(rt; "no message");
    };
    assert_is(&rt, delivery.mtype(), 5);
    delivery.written(&mut Tally::open());
    assert_holds(&rt, &out, b"hello");
    end_all(&rt, at);
}

#[test]
fn a_queue_is_told_set_and_removed(rt: HostRuntime) {
    let mut at = with_queue(&rt, rt.alloc());
    let (cred, id) = (USER, 0);
    assert!(rt; at.raised < 100);
    let told = stat_step(&AtObjects, &mut at, StatStep { cred, id });
    let State::Over(Ok(stat)) = told else {
        panic!(rt; "another end");
    };
    assert_is(&rt, (stat.key, stat.qnum), (7, 0));
    let set = set_on(&rt, &mut at, State::Goes(SetStep::Set { cred, id, to: TO }));
    let set = set_on(&rt, &mut at, set);
    assert_done(&rt, set);
    let removed = remove_on(&rt, &mut at, State::Goes(RemoveStep::Remove { cred, id }));
    let forgotten = remove_on(&rt, &mut at, removed);
    let released = remove_on(&rt, &mut at, forgotten);
    assert_done(&rt, released);
    end_all(&rt, at);
}
