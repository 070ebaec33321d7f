//! The steps of calls at gates that are all worn out.

use crate::parts::{assert_is, open_body, open_pool};
use crate::steps::{RECEIVE, SEND, Still, TO};
use std::process::Abort;
use sysv_model::{Errno, Flags};
use sysv_objects::{ObjectCall, ObjectReply, Turns};
use sysv_pool::{Chain, Pool};
use sysv_steps::{
    Afterwards, GetStep, Getting, ReceiveState, ReceiveStep, RemoveState, RemoveStep, SendState,
    SendStep, SetStep, StatStep, State, get_step, receive_step, remove_step, send_step, set_step,
    stat_step,
};
use tests_kit::USER;

pub(crate) const GET: Getting = Getting {
    cred: USER,
    key: 7,
    flags: Flags::IPC_CREAT,
};

/// Gates that are worn out. They count the calls that they hand back.
pub(crate) struct WornGates;

impl Turns for WornGates {
    type At = u32;

    ghost ready = { λ _ _. Unit {0} };

    ghost stays = { λ _ _. Unit {0} };

    ghost takes = { λ _ _ _. ⊥ };

    ghost misses = { λ _ _ _. Unit {0} };

    fn make(&self, at: &mut u32, call: ObjectCall) -> Result<ObjectReply, ObjectCall> {
        *at = at.wrapping_add(1);
        Err(call)
    }
}

/// Reserves the chain of a body of 65 bytes, which takes two blocks.
fn two_blocks(rt: &impl Abort, pool: &mut Pool) -> Chain {
    match pool.reserve(65) {
        Some(chain) => chain,
        None => panic!(rt; "too few blocks"),
    }
}

/// Asserts that the call is over, with this error, or with success if there is none.
fn assert_over<S, W, T: Drop>(rt: &impl Abort, state: State<S, W, T>, why: Option<Errno>) {
    match state {
        State::Over(Err(errno)) => assert_is(rt, Some(errno), why),
        State::Over(Ok(_told)) if why.is_none() => {}
        _other => panic!(rt; "the call goes on"),
    }
}

#[test]
fn gets_at_worn_gates(rt: HostRuntime) {
    let mut back = 0;
    let worn = Some(Errno::EOVERFLOW);
    let id = 1;
    let begun = get_step(&WornGates, &mut back, &Still, GetStep::Begin(GET));
    assert_over(&rt, begun, worn);
    let settled = get_step(&WornGates, &mut back, &Still, GetStep::Settle { id });
    assert_over(&rt, settled, worn);
    let probe = GetStep::Probe {
        get: GET,
        id,
        settled: 3,
    };
    assert_over(&rt, get_step(&WornGates, &mut back, &Still, probe), worn);
    assert_is(&rt, back, 3);
    // The identifier of a queue that was not installed is forgotten, and the result of a call whose
    // queue was unmade stays.
    let install = GetStep::Install { get: GET, id };
    assert_over(&rt, get_step(&WornGates, &mut back, &Still, install), worn);
    assert_is(&rt, back, 5);
    let unmade = get_step(&WornGates, &mut back, &Still, GetStep::Unmake { id });
    assert_over(&rt, unmade, Some(Errno::ENOSPC));
    assert_is(&rt, back, 6);
}

#[test]
fn sends_at_worn_gates(rt: HostRuntime) {
    let mut back = 0;
    let mut kept = Chain::empty();
    let worn = Some(Errno::EOVERFLOW);
    let text = open_body(&rt, rt.alloc());
    assert!(rt; text.len() == 0);
    let mut pool = open_pool(&rt, rt.alloc(), 128);
    let look = SendStep::Look(SEND);
    let looked = send_step(&WornGates, &mut back, &mut kept, &Still, &text, look);
    assert_over(&rt, looked, worn);
    let reserve = SendStep::Reserve(SEND);
    let reserved = send_step(&WornGates, &mut back, &mut kept, &Still, &text, reserve);
    assert_over(&rt, reserved, worn);
    // A send at its place first gives its chain back, and a chain that cannot be given back is
    // kept.
    let place = SendStep::Place {
        send: SEND,
        chain: Chain::empty(),
    };
    let placed = send_step(&WornGates, &mut back, &mut kept, &Still, &text, place);
    assert_gives_nothing_back(&rt, placed);
    let chain = two_blocks(&rt, &mut pool);
    let giveback = SendStep::Giveback {
        chain,
        afterwards: Afterwards::Refused(Errno::EAGAIN),
    };
    let given = send_step(&WornGates, &mut back, &mut kept, &Still, &text, giveback);
    assert_over(&rt, given, Some(Errno::EAGAIN));
    assert_is(&rt, (back, kept.end()), (4, 2));
    pool.end();
}

/// Asserts that a send gives back a chain of no blocks, and then fails with EOVERFLOW.
fn assert_gives_nothing_back(rt: &impl Abort, state: SendState) {
    match state {
        State::Goes(SendStep::Giveback { chain, afterwards }) => {
            assert_is(rt, afterwards, Afterwards::Refused(Errno::EOVERFLOW));
            assert_is(rt, chain.end(), 0);
        }
        _other => panic!(rt; "another step"),
    }
}

/// Asserts that a receive is over, with EOVERFLOW.
fn assert_untaken(rt: &impl Abort, state: ReceiveState) {
    match state {
        State::Over(Err(why)) => assert_is(rt, why, Errno::EOVERFLOW),
        State::Over(Ok(delivery)) => panic!(rt; "a message of type {}", delivery.mtype()),
        _other => panic!(rt; "the receive goes on"),
    }
}

#[test]
fn receives_at_worn_gates(rt: HostRuntime) {
    let mut back = 0;
    let mut kept = Chain::empty();
    let mut out = open_body(&rt, rt.alloc());
    let take = ReceiveStep::Take(RECEIVE);
    let taken = receive_step(&WornGates, &mut back, &mut kept, &Still, &mut out, take);
    assert_untaken(&rt, taken);
    assert_is(&rt, (back, kept.end()), (1, 0));
}

#[test]
fn commands_at_worn_gates(rt: HostRuntime) {
    let mut back = 0;
    let mut kept = Chain::empty();
    let worn = Some(Errno::EOVERFLOW);
    let (cred, id) = (USER, 1);
    let stat = StatStep { cred, id };
    assert_over(&rt, stat_step(&WornGates, &mut back, stat), worn);
    let set = SetStep::Set { cred, id, to: TO };
    let done = set_step(&WornGates, &mut back, &mut kept, &Still, set);
    assert_over(&rt, done, worn);
    let given = set_step(&WornGates, &mut back, &mut kept, &Still, SetStep::Giveback);
    assert_over(&rt, given, None);
    let remove = RemoveStep::Remove { cred, id };
    let removed = remove_step(&WornGates, &mut back, &mut kept, remove);
    assert_over(&rt, removed, worn);
    // The result of a removal stays, even if a gate is worn out after it.
    let mut pool = open_pool(&rt, rt.alloc(), 128);
    let chain = two_blocks(&rt, &mut pool);
    let forget = RemoveStep::Forget { id, chain };
    match remove_step(&WornGates, &mut back, &mut kept, forget) {
        State::Goes(giveback) => {
            let over = after_giveback(&rt, &mut back, &mut kept, giveback);
            assert_over(&rt, over, None);
        }
        _other => panic!(rt; "no chain goes back"),
    }
    assert_is(&rt, (back, kept.end()), (6, 2));
    pool.end();
}

/// Makes the step in which the chain of a removal is given back, and returns the state after it.
fn after_giveback(
    rt: &impl Abort,
    back: &mut u32,
    kept: &mut Chain,
    step: RemoveStep,
) -> RemoveState {
    match step {
        RemoveStep::Giveback { chain } => {
            remove_step(&WornGates, back, kept, RemoveStep::Giveback { chain })
        }
        _other => panic!(rt; "another step"),
    }
}
