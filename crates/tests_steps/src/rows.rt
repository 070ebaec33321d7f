//! The rows of the step table, worked out by hand from the standard's errors.

ghost use Rattle.std.specs.Prelude.{◌≡◌};
ghost use Rattle.sysv_model.specs.Pool.{blocks_for};

use crate::parts::{assert_is, open_body, open_pool};
use crate::shown::{Shown, ShownReceive, ShownRemoval, ShownSend, Shows, Told, failed, show};
use bitflags::Flags as _;
use std::alloc::Global;
use std::process::Abort;
use sysv_keys::Begun;
use sysv_model::{Errno, Flags, NoMemory, Perm, Selector, SetTo, Stat};
use sysv_pool::{Chain, Pool};
use sysv_queue::{Look, PlaceRefused, Probe, QueueSlot, TakeRefused, Unplaced};
use sysv_steps::{
    Afterwards, GetStep, GetWait, Getting, ReceiveState, ReceiveStep, ReceiveWait, Receiving,
    RemoveState, RemoveStep, SendState, SendStep, SendWait, Sending, SetStep, StatStep, State,
};
use tests_kit::USER;

/// Returns a send before its look, which has found the queue live before or not.
fn sending(live_seen: bool) -> Sending {
    Sending {
        cred: USER,
        id: 0,
        mtype: 5,
        nowait: true,
        released: 7,
        live_seen,
    }
}

/// Returns a receive before its take.
fn receiving(live_seen: bool) -> Receiving {
    Receiving {
        cred: USER,
        id: 0,
        selector: Selector::UpTo(4),
        size: 9,
        noerror: false,
        nowait: true,
        live_seen,
    }
}

/// Returns a get of the queue of key 7.
fn getting(flags: Flags) -> Getting {
    Getting {
        cred: USER,
        key: 7,
        flags,
    }
}

/// Opens a vacant slot. Tolerates one refusal of memory.
fn open_slot(rt: &impl Abort, alloc: Global) -> QueueSlot {
    match QueueSlot::open(alloc) {
        Ok(slot) => slot,
        Err(NoMemory) => match QueueSlot::open(alloc) {
            Ok(slot) => slot,
            Err(NoMemory) => panic!(rt; "a second try"),
        },
    }
}

/// Opens a slot with queue 0, which belongs to its caller.
fn open_queue(rt: &impl Abort, alloc: Global) -> QueueSlot {
    let mut slot = open_slot(rt, alloc);
    assert_is(rt, slot.install(0, 7, USER, 0o600, 0), true);
    slot
}

/// Reserves the chain of a body of 130 bytes, which takes three blocks.
fn three_blocks(rt: &impl Abort, pool: &mut Pool) -> Chain
    ensures { result.blocks ≡ blocks_for 130 }
{
    match pool.reserve(130) {
        Some(chain) => chain,
        None => panic!(rt; "too few blocks"),
    }
}

/// Places a body of 130 letters on queue 0, as a message of type 2.
fn send_text(rt: &impl Abort, slot: &mut QueueSlot, pool: &mut Pool, alloc: Global) {
    let mut text = open_body(rt, alloc);
    assert!(rt; text.push_piece(&[b'x'; 130]));
    assert_eq!(rt; text.len(), 130);
    let mut chain = three_blocks(rt, pool);
    chain.fill(&text);
    let (arrived, _) = slot.counts();
    assert!(rt; arrived < 100);
    match slot.place(0, USER, 2, chain, 130, 0) {
        Ok(number) => assert_is(rt, number, arrived),
        Err(PlaceRefused { why, chain }) => {
            panic!(rt; "{} blocks came back: {why:?}", chain.end())
        }
    }
}

/// Returns the chain of a send at its giveback, and its state afterwards.
fn send_giveback(rt: &impl Abort, state: SendState) -> (Chain, SendState) {
    match state {
        State::Goes(SendStep::Giveback { chain, afterwards }) => (chain, afterwards.given_back()),
        state => {
            show(state);
            panic!(rt; "no giveback")
        }
    }
}

/// Returns the chain of a receive at its giveback, and its state afterwards.
fn receive_giveback(rt: &impl Abort, state: ReceiveState) -> (Chain, ReceiveState) {
    match state {
        State::Goes(ReceiveStep::Giveback { chain, delivery }) => {
            (chain, Receiving::given_back(delivery))
        }
        state => {
            show(state);
            panic!(rt; "no giveback")
        }
    }
}

/// Returns the chain of a removal at its giveback, and its state afterwards.
fn remove_giveback(rt: &impl Abort, state: RemoveState) -> (Chain, RemoveState) {
    match state {
        State::Goes(RemoveStep::Giveback { chain }) => (chain, RemoveStep::given_back()),
        state => {
            show(state);
            panic!(rt; "no giveback")
        }
    }
}

/// Releases a chain at the pool, and shows the state of its call afterwards.
fn release<S: Shows>(rt: &impl Abort, pool: &mut Pool, held: (Chain, S)) -> Shown {
    let (chain, after) = held;
    let released = pool.released();
    assert!(rt; released < 100);
    if let Err(chain) = pool.release(chain) {
        panic!(rt; "a chain of {} blocks came back", chain.end());
    }
    assert_is(rt, pool.released(), released + 1);
    show(after)
}

#[test]
fn a_get_begins(rt: HostRuntime) {
    let get = getting(Flags::IPC_CREAT);
    let begun = |begun| show(get.begun(begun));
    assert_is(
        &rt,
        show(Getting::begin(USER, 7, Flags::IPC_CREAT)),
        Shown::Get(GetStep::Begin(get)),
    );
    assert_is(
        &rt,
        begun(Begun::Made { id: 259 }),
        Shown::Get(GetStep::Install { get, id: 259 }),
    );
    assert_is(
        &rt,
        begun(Begun::Found {
            id: 259,
            settled: 5,
        }),
        Shown::Get(GetStep::Probe {
            get,
            id: 259,
            settled: 5,
        }),
    );
    let wait = GetWait { above: 5, get };
    assert_is(
        &rt,
        begun(Begun::Busy { settled: 5 }),
        Shown::WaitsToGet(wait),
    );
    assert_is(
        &rt,
        begun(Begun::Refused(Errno::ENOSPC)),
        failed(Errno::ENOSPC),
    );
}

#[test]
fn a_get_makes_a_queue(rt: HostRuntime) {
    assert_is(
        &rt,
        show(Getting::installed(259, true)),
        Shown::Get(GetStep::Settle { id: 259 }),
    );
    assert_is(&rt, show(Getting::settled(259)), Shown::Over(Told::Id(259)));
    assert_is(
        &rt,
        show(Getting::installed(259, false)),
        Shown::Get(GetStep::Unmake { id: 259 }),
    );
    assert_is(&rt, show(Getting::unmade()), failed(Errno::ENOSPC));
}

#[test]
fn a_get_probes_what_it_found(rt: HostRuntime) {
    let get = getting(Flags::IPC_CREAT);
    let wait = GetWait { above: 5, get };
    let probed = |found| show(get.probed(259, 5, found));
    assert_is(&rt, probed(Probe::Gone), Shown::WaitsToGet(wait));
    assert_is(&rt, probed(Probe::Denied), failed(Errno::EACCES));
    assert_is(&rt, probed(Probe::Granted), Shown::Over(Told::Id(259)));
    let get = getting(Flags::IPC_CREAT | Flags::IPC_EXCL);
    let wait = GetWait { above: 5, get };
    let probed = |found| show(get.probed(259, 5, found));
    assert_is(&rt, probed(Probe::Gone), Shown::WaitsToGet(wait));
    assert_is(&rt, probed(Probe::Denied), failed(Errno::EEXIST));
    assert_is(&rt, probed(Probe::Granted), failed(Errno::EEXIST));
    let old = getting(Flags::IPC_EXCL);
    assert_is(
        &rt,
        show(old.probed(259, 5, Probe::Granted)),
        Shown::Over(Told::Id(259)),
    );
}

#[test]
fn the_attributes_are_told(rt: HostRuntime) {
    let stat = Stat {
        key: 7,
        perm: Perm {
            uid: 1,
            gid: 2,
            cuid: 3,
            cgid: 4,
            mode: 0o600,
        },
        cbytes: 5,
        qnum: 6,
        qbytes: 7,
        lspid: 8,
        lrpid: 9,
        stime: 10,
        rtime: 11,
        ctime: 12,
    };
    let read = Shown::Stat(StatStep {
        cred: USER,
        id: 259,
    });
    assert_is(&rt, show(StatStep::begin(USER, 259)), read);
    assert_is(&rt, show(StatStep::begin(USER, -1)), failed(Errno::EINVAL));
    assert_is(
        &rt,
        show(StatStep::told(Ok(stat))),
        Shown::Over(Told::Stat(stat)),
    );
    assert_is(
        &rt,
        show(StatStep::told(Err(Errno::EACCES))),
        failed(Errno::EACCES),
    );
}

#[test]
fn a_queue_is_changed(rt: HostRuntime) {
    let to = SetTo {
        uid: 1,
        gid: 2,
        mode: 0o640,
        qbytes: 4096,
    };
    let set = Shown::Set(SetStep::Set {
        cred: USER,
        id: 259,
        to,
    });
    assert_is(&rt, show(SetStep::begin(USER, 259, to)), set);
    assert_is(
        &rt,
        show(SetStep::begin(USER, -1, to)),
        failed(Errno::EINVAL),
    );
    assert_is(
        &rt,
        show(SetStep::done(Ok(()))),
        Shown::Set(SetStep::Giveback),
    );
    assert_is(
        &rt,
        show(SetStep::done(Err(Errno::EPERM))),
        failed(Errno::EPERM),
    );
    let mut pool = open_pool(&rt, rt.alloc(), 128);
    assert_is(
        &rt,
        release(&rt, &mut pool, (Chain::empty(), SetStep::given_back())),
        Shown::Over(Told::Zero),
    );
    assert_is(&rt, pool.free(), 128);
    pool.end();
}

#[test]
fn a_removal_begins(rt: HostRuntime) {
    let remove = Shown::Remove(ShownRemoval::Remove {
        cred: USER,
        id: 259,
    });
    assert_is(&rt, show(RemoveStep::begin(USER, 259)), remove);
    assert_is(
        &rt,
        show(RemoveStep::begin(USER, -1)),
        failed(Errno::EINVAL),
    );
    assert_is(
        &rt,
        show(RemoveStep::removed(259, Err(Errno::EPERM))),
        failed(Errno::EPERM),
    );
}

#[test]
fn a_removal_gives_back_what_it_discarded(rt: HostRuntime) {
    let mut pool = open_pool(&rt, rt.alloc(), 128);
    let mut slot = open_queue(&rt, rt.alloc());
    send_text(&rt, &mut slot, &mut pool, rt.alloc());
    let (arrived, freed) = slot.counts();
    assert!(rt; arrived < 100 && freed < 100);
    let chain = match RemoveStep::removed(0, slot.remove(0, USER)) {
        State::Goes(RemoveStep::Forget { id: 0, chain }) => chain,
        state => {
            show(state);
            panic!(rt; "no forget")
        }
    };
    assert_is(&rt, chain.blocks(), 3);
    assert_is(
        &rt,
        release(
            &rt,
            &mut pool,
            remove_giveback(&rt, RemoveStep::forgotten(chain)),
        ),
        Shown::Over(Told::Zero),
    );
    assert_is(&rt, pool.free(), 128);
    pool.end();
    assert_is(&rt, slot.end().end(), 0);
    assert_is(
        &rt,
        show(RemoveStep::forgotten(Chain::empty())),
        Shown::Remove(ShownRemoval::Giveback { blocks: 0 }),
    );
}

#[test]
fn a_wait_ends_above_its_value(rt: HostRuntime) {
    let get = getting(Flags::IPC_CREAT);
    let settled = GetWait { above: 5, get };
    assert_is(&rt, (settled.is_over(5), settled.is_over(6)), (false, true));
    assert_is(
        &rt,
        (settled.is_over(0), settled.is_over(u64::MAX)),
        (false, true),
    );
    assert_is(
        &rt,
        settled.resume().shown(),
        Shown::Get(GetStep::Begin(get)),
    );
    let arrived = ReceiveWait {
        above: 0,
        receive: receiving(true),
    };
    assert_is(&rt, (arrived.is_over(0), arrived.is_over(1)), (false, true));
    assert_is(
        &rt,
        arrived.resume().shown(),
        Shown::Receive(ShownReceive::Take(receiving(true))),
    );
}

#[test]
fn the_released_count_is_read_by_its_own_wait_alone(rt: HostRuntime) {
    let freed = SendWait::Room {
        above: u64::MAX,
        send: sending(true),
    };
    assert_is(&rt, freed.is_over(u64::MAX), false);
    assert_is(
        &rt,
        freed.resume(9).shown(),
        Shown::Send(ShownSend::Look(sending(true))),
    );
    let released = SendWait::Blocks {
        above: 7,
        send: sending(true),
    };
    assert_is(
        &rt,
        (released.is_over(7), released.is_over(8)),
        (false, true),
    );
    let later = Sending {
        released: 9,
        ..sending(true)
    };
    assert_is(
        &rt,
        released.resume(9).shown(),
        Shown::Send(ShownSend::Look(later)),
    );
}

#[test]
fn a_send_waits_for_room(rt: HostRuntime) {
    let waiting = |live_seen| Sending {
        nowait: false,
        ..sending(live_seen)
    };
    let wait = SendWait::Room {
        above: 3,
        send: waiting(true),
    };
    let full = Look::Full { freed: 3 };
    assert_is(
        &rt,
        show(waiting(false).looked(full)),
        Shown::WaitsToSend(wait),
    );
    let mut pool = open_pool(&rt, rt.alloc(), 128);
    let chain = three_blocks(&rt, &mut pool);
    let refused = waiting(true).unplaced(Unplaced::Full { freed: 3 }, chain);
    assert_is(
        &rt,
        release(&rt, &mut pool, send_giveback(&rt, refused)),
        Shown::WaitsToSend(wait),
    );
    assert_is(&rt, pool.free(), 128);
    pool.end();
}

#[test]
fn a_send_waits_for_blocks(rt: HostRuntime) {
    let waiting = Sending {
        nowait: false,
        ..sending(true)
    };
    let wait = SendWait::Blocks {
        above: 7,
        send: waiting,
    };
    assert_is(&rt, show(waiting.reserved(None)), Shown::WaitsToSend(wait));
    assert_is(
        &rt,
        show(sending(true).reserved(None)),
        failed(Errno::EAGAIN),
    );
    let mut pool = open_pool(&rt, rt.alloc(), 128);
    let chain = three_blocks(&rt, &mut pool);
    let place = Shown::Send(ShownSend::Place {
        send: waiting,
        blocks: 3,
    });
    assert_is(&rt, show(waiting.reserved(Some(chain))), place);
    pool.end();
}

#[test]
fn a_receive_waits_for_a_message(rt: HostRuntime) {
    let waiting = |live_seen| Receiving {
        nowait: false,
        ..receiving(live_seen)
    };
    let wait = ReceiveWait {
        above: 1,
        receive: waiting(true),
    };
    let none = TakeRefused::NoMatch { arrived: 1 };
    assert_is(
        &rt,
        show(waiting(false).untaken(none)),
        Shown::WaitsToReceive(wait),
    );
    let gone = waiting(true).untaken(TakeRefused::Gone);
    assert_is(&rt, show(gone), failed(Errno::EIDRM));
}

#[test]
fn a_send_begins(rt: HostRuntime) {
    let begin = |id, mtype, size| show(Sending::begin(USER, id, mtype, Flags::IPC_NOWAIT, size, 7));
    assert_is(
        &rt,
        begin(0, 5, 8192),
        Shown::Send(ShownSend::Look(sending(false))),
    );
    assert_is(&rt, begin(0, 0, 1), failed(Errno::EINVAL));
    assert_is(&rt, begin(0, 5, 8193), failed(Errno::EINVAL));
    assert_is(&rt, begin(-1, 5, 1), failed(Errno::EINVAL));
}

#[test]
fn a_send_looks(rt: HostRuntime) {
    let looked = |found| show(sending(false).looked(found));
    assert_is(
        &rt,
        looked(Look::Fits),
        Shown::Send(ShownSend::Reserve(sending(true))),
    );
    assert_is(&rt, looked(Look::Gone), failed(Errno::EINVAL));
    assert_is(&rt, looked(Look::Denied), failed(Errno::EACCES));
    assert_is(&rt, looked(Look::Full { freed: 3 }), failed(Errno::EAGAIN));
    let again = sending(true).looked(Look::Gone);
    assert_is(&rt, show(again), failed(Errno::EIDRM));
}

#[test]
fn a_send_is_refused_at_its_place(rt: HostRuntime) {
    let table = [
        (Unplaced::Gone, Errno::EIDRM),
        (Unplaced::Denied, Errno::EACCES),
        (Unplaced::Full { freed: 3 }, Errno::EAGAIN),
    ];
    let mut pool = open_pool(&rt, rt.alloc(), 128);
    for (why, errno) in table {
        let chain = three_blocks(&rt, &mut pool);
        let refused = sending(true).unplaced(why, chain);
        assert_is(&rt, pool.free(), 125);
        assert_is(
            &rt,
            release(&rt, &mut pool, send_giveback(&rt, refused)),
            failed(errno),
        );
        assert_is(&rt, pool.free(), 128);
    }
    pool.end();
    let giveback = Shown::Send(ShownSend::Giveback {
        blocks: 0,
        afterwards: Afterwards::Refused(Errno::EIDRM),
    });
    let refused = sending(true).unplaced(Unplaced::Gone, Chain::empty());
    assert_is(&rt, show(refused), giveback);
    assert_is(&rt, show(Sending::placed()), Shown::Over(Told::Zero));
}

#[test]
fn a_receive_begins(rt: HostRuntime) {
    let begin = |id, flags| show(Receiving::begin(USER, id, 9, -4, flags));
    assert_is(
        &rt,
        begin(0, Flags::IPC_NOWAIT),
        Shown::Receive(ShownReceive::Take(receiving(false))),
    );
    assert_is(&rt, begin(-1, Flags::IPC_NOWAIT), failed(Errno::EINVAL));
    let except = Flags::IPC_NOWAIT.union(Flags::MSG_EXCEPT);
    assert_is(
        &rt,
        begin(0, except),
        Shown::Receive(ShownReceive::Take(receiving(false))),
    );
    let another = Receiving {
        selector: Selector::Except(5),
        ..receiving(false)
    };
    let begun = show(Receiving::begin(USER, 0, 9, 5, except));
    assert_is(&rt, begun, Shown::Receive(ShownReceive::Take(another)));
}

#[test]
fn a_receive_gives_back_what_it_took(rt: HostRuntime) {
    let mut pool = open_pool(&rt, rt.alloc(), 128);
    let mut slot = open_queue(&rt, rt.alloc());
    send_text(&rt, &mut slot, &mut pool, rt.alloc());
    let mut out = open_body(&rt, rt.alloc());
    let (_, freed) = slot.counts();
    assert!(rt; freed < 100);
    let given = match slot.take(0, USER, Selector::UpTo(4), 9, true, 0) {
        Ok(taken) => {
            let (delivery, chain) = taken.finish(9, &mut out);
            receiving(true).given(delivery, chain)
        }
        Err(why) => panic!(rt; "not taken: {why:?}"),
    };
    assert_is(&rt, pool.free(), 125);
    assert_is(
        &rt,
        release(&rt, &mut pool, receive_giveback(&rt, given)),
        Shown::Over(Told::Got { mtype: 2 }),
    );
    assert_is(&rt, pool.free(), 128);
    assert_is(&rt, out.len(), 9);
    pool.end();
    assert_is(&rt, slot.end().end(), 0);
}

#[test]
fn a_receive_is_given_no_message(rt: HostRuntime) {
    let untaken = |live_seen, why| show(receiving(live_seen).untaken(why));
    assert_is(
        &rt,
        untaken(false, TakeRefused::Gone),
        failed(Errno::EINVAL),
    );
    assert_is(&rt, untaken(true, TakeRefused::Gone), failed(Errno::EIDRM));
    assert_is(
        &rt,
        untaken(false, TakeRefused::Denied),
        failed(Errno::EACCES),
    );
    assert_is(
        &rt,
        untaken(false, TakeRefused::NoMatch { arrived: 1 }),
        failed(Errno::ENOMSG),
    );
    assert_is(
        &rt,
        untaken(false, TakeRefused::TooLong),
        failed(Errno::E2BIG),
    );
}
