//! What the tests of the step table show of states, so that they can be compared.
use sysv_model::{Cred, Errno, Stat};
use sysv_queue::{Delivery, Tally};
use sysv_steps::{
    Afterwards, GetStep, GetWait, NoWait, ReceiveStep, ReceiveWait, Receiving, RemoveStep,
    SendStep, SendWait, Sending, SetStep, StatStep, State,
};

/// A state that can be compared: a chain is shown as its number of blocks, and a delivery as its
/// type.
#[derive(Clone, Copy, PartialEq, Eq, Debug)]
pub(crate) enum Shown {
    Get(GetStep),
    Send(ShownSend),
    Receive(ShownReceive),
    Stat(StatStep),
    Set(SetStep),
    Remove(ShownRemoval),
    WaitsToGet(GetWait),
    WaitsToSend(SendWait),
    WaitsToReceive(ReceiveWait),
    Over(Told),
}

/// A step of a send.
#[derive(Clone, Copy, PartialEq, Eq, Debug)]
pub(crate) enum ShownSend {
    Look(Sending),
    Reserve(Sending),
    Place { send: Sending, blocks: u32 },
    Giveback { blocks: u32, afterwards: Afterwards },
}

/// A step of a receive.
#[derive(Clone, Copy, PartialEq, Eq, Debug)]
pub(crate) enum ShownReceive {
    Take(Receiving),
    Giveback { blocks: u32, mtype: i64 },
}

/// A step of a removal.
#[derive(Clone, Copy, PartialEq, Eq, Debug)]
pub(crate) enum ShownRemoval {
    Remove { cred: Cred, id: i32 },
    Forget { id: i32, blocks: u32 },
    Giveback { blocks: u32 },
}

/// The end of a call.
#[derive(Clone, Copy, PartialEq, Eq, Debug)]
pub(crate) enum Told {
    Id(i32),
    Zero,
    Got { mtype: i64 },
    Stat(Stat),
    Refused(Errno),
}

/// Returns the type of a delivery, and spends the delivery as lost.
fn mtype_of(delivery: Delivery) -> i64 {
    let mtype = delivery.mtype();
    delivery.lost(&mut Tally::open());
    mtype
}

/// A state, a step, a wait or a result that can be shown.
pub(crate) trait Shows {
    fn shown(self) -> Shown;
}

impl Shows for GetStep {
    fn shown(self) -> Shown {
        Shown::Get(self)
    }
}

impl Shows for GetWait {
    fn shown(self) -> Shown {
        Shown::WaitsToGet(self)
    }
}

impl Shows for i32 {
    fn shown(self) -> Shown {
        Shown::Over(Told::Id(self))
    }
}

impl Shows for SendStep {
    fn shown(self) -> Shown {
        match self {
            SendStep::Look(send) => Shown::Send(ShownSend::Look(send)),
            SendStep::Reserve(send) => Shown::Send(ShownSend::Reserve(send)),
            SendStep::Place { send, chain } => Shown::Send(ShownSend::Place {
                send,
                blocks: chain.end(),
            }),
            SendStep::Giveback { chain, afterwards } => Shown::Send(ShownSend::Giveback {
                blocks: chain.end(),
                afterwards,
            }),
        }
    }
}

impl Shows for SendWait {
    fn shown(self) -> Shown {
        Shown::WaitsToSend(self)
    }
}

impl Shows for () {
    fn shown(self) -> Shown {
        Shown::Over(Told::Zero)
    }
}

impl Shows for ReceiveStep {
    fn shown(self) -> Shown {
        match self {
            ReceiveStep::Take(receive) => Shown::Receive(ShownReceive::Take(receive)),
            ReceiveStep::Giveback { chain, delivery } => Shown::Receive(ShownReceive::Giveback {
                blocks: chain.end(),
                mtype: mtype_of(delivery),
            }),
        }
    }
}

impl Shows for ReceiveWait {
    fn shown(self) -> Shown {
        Shown::WaitsToReceive(self)
    }
}

impl Shows for Delivery {
    fn shown(self) -> Shown {
        Shown::Over(Told::Got {
            mtype: mtype_of(self),
        })
    }
}

impl Shows for StatStep {
    fn shown(self) -> Shown {
        Shown::Stat(self)
    }
}

impl Shows for Stat {
    fn shown(self) -> Shown {
        Shown::Over(Told::Stat(self))
    }
}

impl Shows for SetStep {
    fn shown(self) -> Shown {
        Shown::Set(self)
    }
}

impl Shows for RemoveStep {
    fn shown(self) -> Shown {
        match self {
            RemoveStep::Remove { cred, id } => Shown::Remove(ShownRemoval::Remove { cred, id }),
            RemoveStep::Forget { id, chain } => Shown::Remove(ShownRemoval::Forget {
                id,
                blocks: chain.end(),
            }),
            RemoveStep::Giveback { chain } => Shown::Remove(ShownRemoval::Giveback {
                blocks: chain.end(),
            }),
        }
    }
}

impl<S: Shows, T: Shows> Shows for State<S, GetWait, T> {
    fn shown(self) -> Shown {
        match self {
            State::Goes(step) => step.shown(),
            State::Waits(wait) => wait.shown(),
            State::Over(told) => show_end(told),
        }
    }
}

impl<S: Shows, T: Shows> Shows for State<S, SendWait, T> {
    fn shown(self) -> Shown {
        match self {
            State::Goes(step) => step.shown(),
            State::Waits(wait) => wait.shown(),
            State::Over(told) => show_end(told),
        }
    }
}

impl<S: Shows, T: Shows> Shows for State<S, ReceiveWait, T> {
    fn shown(self) -> Shown {
        match self {
            State::Goes(step) => step.shown(),
            State::Waits(wait) => wait.shown(),
            State::Over(told) => show_end(told),
        }
    }
}

impl<S: Shows, T: Shows> Shows for State<S, NoWait, T> {
    fn shown(self) -> Shown {
        match self {
            State::Goes(step) => step.shown(),
            State::Waits(never) => match never {},
            State::Over(told) => show_end(told),
        }
    }
}

fn show_end<T: Shows>(told: Result<T, Errno>) -> Shown {
    match told {
        Ok(told) => told.shown(),
        Err(why) => failed(why),
    }
}

/// Shows a state.
pub(crate) fn show(state: impl Shows) -> Shown {
    state.shown()
}

/// Returns what is shown of a call that failed with this error.
pub(crate) fn failed(why: Errno) -> Shown {
    Shown::Over(Told::Refused(why))
}
