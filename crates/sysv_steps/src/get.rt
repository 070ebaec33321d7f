//! The steps of `msgget`.

ghost use Rattle.std.specs.Prelude.{◌≡◌, ◌≤◌, ◌↔◌, ℕ, Bool, Some, IsTrue};
ghost use Rattle.sysv_model.specs.History.{Installed};
ghost use Rattle.sysv_model.specs.Registry.{Changed};
ghost use Rattle.sysv_keys.specs.Replies.{begun_reply};
ghost use Rattle.sysv_queue.specs.Replies.{probe_reply};
ghost use Rattle.sysv_steps.specs.Begin.{begin as begins};
ghost use Rattle.sysv_steps.specs.Call.{Msgget};
ghost use Rattle.sysv_steps.specs.Next.{after_begin as follows_begin, after_install as follows_install, after_settle as follows_settle, after_unmake as follows_unmake, after_probe as follows_probe, wants_new as is_new_wanted};
ghost use Rattle.sysv_steps.specs.Resume.{goal_of, resume as resumes};
ghost use Rattle.sysv_steps.specs.Seen.{getting, get_phase, get_wait, get_state};
ghost use Rattle.sysv_steps.specs.State.{AtBegin, AtInstall, AtSettle, AtProbe, AtUnmake};
ghost use Rattle.sysv_steps.specs.Stepping.{StepsOn, no_moment};

use crate::clock::Clock;
use crate::state::State;
use crate::worn::{forget, overflow};
use bitflags::Flags as _;
use sysv_keys::Begun;
use sysv_model::{Cred, Errno, Flags};
use sysv_objects::{
    ObjectCall, ObjectReply, RegistryCall, RegistryReply, SlotCall, SlotReply, Turns,
};
use sysv_queue::Probe;

/// A call that finds the queue of a key or makes one (POSIX.1-2017, `msgget`).
#[derive(Clone, Copy, PartialEq, Eq, Debug)]
pub struct Getting {
    /// The caller's credentials.
    pub cred: Cred,
    /// The key, or 0 for a private queue.
    pub key: i32,
    /// The flags: IPC_CREAT, IPC_EXCL and the mode of a new queue.
    pub flags: Flags,
}

/// The step before which a `msgget` is.
#[derive(Clone, Copy, PartialEq, Eq, Debug)]
pub enum GetStep {
    /// The registry finds the queue of a key, or makes an identifier for it.
    Begin(Getting),
    /// The queue of a new identifier is installed in its slot.
    Install { get: Getting, id: i32 },
    /// The registry records that the queue of the new identifier was installed.
    Settle { id: i32 },
    /// The slot reports whether the queue that was found is live and may be used. `settled` is the
    /// settled count that the registry reported with the identifier.
    Probe { get: Getting, id: i32, settled: u64 },
    /// The registry forgets a new identifier whose slot was occupied.
    Unmake { id: i32 },
}

/// A `msgget` that waits while another call creates or removes the queue of its key: until the
/// settled count of the registry is above `above` (this project's profile).
#[derive(Clone, Copy, PartialEq, Eq, Debug)]
pub struct GetWait {
    /// The value above which the count must rise.
    pub above: u64,
    /// The get as it continues after the wait.
    pub get: Getting,
}

/// The state of a `msgget`. Its result is the identifier of the queue.
pub type GetState = State<GetStep, GetWait, i32>;

impl GetWait {
    /// Returns whether the value `value` of the settled count ends the wait: it is above `above`.
    pub fn is_over(&self, value: u64) -> bool
        ensures { IsTrue result ↔ goal_of (get_wait self.now) ≤ value }
    {
        value > self.above
    }

    /// Returns the step at which the get continues after its wait: it begins again.
    pub fn resume(self) -> GetStep
        ensures { (value : ℕ) → resumes (get_wait self) value ≡ get_phase result }
    {
        GetStep::Begin(self.get)
    }
}

impl Getting {
    /// Returns the state of a call at its start: before its begin, with any arguments.
    pub fn begin(cred: Cred, key: i32, flags: Flags) -> GetState
        ensures { (released : ℕ) → begins cred (Msgget key flags) released ≡ get_state result }
    {
        State::Goes(GetStep::Begin(Getting { cred, key, flags }))
    }

    /// Returns the state of the call after its begin.
    ///
    /// - If the key has a queue, the call is before the probe of its identifier.
    /// - If an identifier was made, the call is before its install.
    /// - If another call is making the queue of the key, the call waits until the settled count
    ///   rises above the reported value.
    /// - Otherwise the call is over with the error that the registry reported: ENOENT or ENOSPC
    ///   (POSIX.1-2017, `msgget`, ERRORS).
    pub fn begun(self, begun: Begun) -> GetState
        ensures { follows_begin (getting self) (begun_reply begun) ≡ Some (get_state result) }
    {
        match begun {
            Begun::Found { id, settled } => State::Goes(GetStep::Probe {
                get: self,
                id,
                settled,
            }),
            Begun::Made { id } => State::Goes(GetStep::Install { get: self, id }),
            Begun::Busy { settled } => State::Waits(GetWait {
                above: settled,
                get: self,
            }),
            Begun::Refused(errno) => State::refused(errno),
        }
    }

    /// Returns the state of the call after the install of its identifier `id`. If `made` is false,
    /// another queue was live in the slot: the call then gives the identifier up. No run of a world
    /// reaches that case.
    pub fn installed(id: i32, made: bool) -> GetState
        ensures { follows_install id (Installed made) ≡ Some (get_state result) }
    {
        if made {
            State::Goes(GetStep::Settle { id })
        } else {
            State::Goes(GetStep::Unmake { id })
        }
    }

    /// Returns the state of the call after its settle: over, with the identifier. The result is the
    /// same if a removal came first and the settle changed no row.
    pub fn settled(id: i32) -> GetState
        ensures { (done : Bool) → follows_settle id (Changed done) ≡ Some (get_state result) }
    {
        State::Over(Ok(id))
    }

    /// Returns the state of the call after the probe of the identifier `id` that its begin found.
    /// `settled` is the settled count that the begin reported.
    ///
    /// - If the queue is gone or not yet installed, the call waits until the settled count is above
    ///   `settled`.
    /// - If the queue is live and the flags have both IPC_CREAT and IPC_EXCL, the call fails with
    ///   EEXIST, whether or not permission is granted (POSIX.1-2017, `msgget`, ERRORS).
    /// - Otherwise the call fails with EACCES if permission is denied, and returns the identifier
    ///   if it is granted.
    pub fn probed(self, id: i32, settled: u64, found: Probe) -> GetState
        ensures { follows_probe (getting self) id settled (probe_reply found)
            ≡ Some (get_state result) }
    {
        match found {
            Probe::Gone => State::Waits(GetWait {
                above: settled,
                get: self,
            }),
            Probe::Denied | Probe::Granted if self.wants_new() => State::refused(Errno::EEXIST),
            Probe::Denied => State::refused(Errno::EACCES),
            Probe::Granted => State::Over(Ok(id)),
        }
    }

    /// Returns the state of the call after it gave up an identifier whose slot was occupied: it
    /// fails with ENOSPC (this project's profile).
    pub fn unmade() -> GetState
        ensures { (done : Bool) → follows_unmake (Changed done) ≡ Some (get_state result) }
    {
        State::refused(Errno::ENOSPC)
    }

    /// Returns whether the flags request a queue that did not exist before: both IPC_CREAT and
    /// IPC_EXCL.
    fn wants_new(&self) -> bool
        ensures { result ≡ is_new_wanted self.now.flags }
    {
        self.flags.contains(Flags::IPC_CREAT) && self.flags.contains(Flags::IPC_EXCL)
    }
}

/// Makes one step of a msgget and returns the state that follows.
///
/// If the gate of the step's turn is worn out, the call is over with EOVERFLOW. If that happens at
/// the install, the identifier is also forgotten, unless the gate of the registry is worn out too.
/// If it happens while the identifier of an occupied slot is given up, the call is over with
/// ENOSPC.
///
/// # Conditions
///
/// - `turns` must be ready for a turn at `at`.
pub fn get_step<T: Turns, C: Clock>(turns: &T, at: &mut T::At, clock: &C, step: GetStep) -> GetState
    requires ready { T.ready turns.now at.old }
    ensures stays { T.stays turns.now at.new }
    ensures steps { (kept : ℕ) → StepsOn T.takes T.misses (C.may clock.now) (get_phase step)
        at.old kept (get_state result) at.new kept }
{
    match step {
        GetStep::Begin(get) => begin(turns, at, get),
        GetStep::Install { get, id } => install(turns, at, clock, get, id),
        GetStep::Settle { id } => settle(turns, at, id),
        GetStep::Probe { get, id, settled } => probe(turns, at, get, id, settled),
        GetStep::Unmake { id } => unmake(turns, at, id),
    }
}

/// Makes the step that finds the queue of the key or makes an identifier.
fn begin<T: Turns>(turns: &T, at: &mut T::At, get: Getting) -> GetState
    requires { T.ready turns.now at.old }
    ensures stays { T.stays turns.now at.new }
    ensures steps { (kept : ℕ) → StepsOn T.takes T.misses no_moment (AtBegin (getting get))
        at.old kept (get_state result) at.new kept }
{
    let Getting { key, flags, .. } = get;
    let call = ObjectCall::Registry(RegistryCall::Begin { key, flags });
    match turns.make(at, call) {
        Ok(ObjectReply::Registry(RegistryReply::Begun(begun))) => get.begun(begun),
        Err(back) => overflow(back),
        _other => unreachable!(),
    }
}

/// Makes the step that installs the queue. If the gate of the slot is worn out, the identifier is
/// forgotten, unless the gate of the registry is worn out too.
fn install<T: Turns, C: Clock>(
    turns: &T,
    at: &mut T::At,
    clock: &C,
    get: Getting,
    id: i32,
) -> GetState
    requires { T.ready turns.now at.old }
    ensures stays { T.stays turns.now at.new }
    ensures steps { (kept : ℕ) → StepsOn T.takes T.misses (C.may clock.now)
        (AtInstall (getting get) id) at.old kept (get_state result) at.new kept }
{
    let call = SlotCall::Install {
        id,
        key: get.key,
        cred: get.cred,
        mode: get.flags.bits(),
        now: clock.now(),
    };
    match turns.make(at, ObjectCall::Slot(call)) {
        Ok(ObjectReply::Slot(SlotReply::Installed(made))) => Getting::installed(id, made),
        Err(back) => {
            forget(turns, at, id);
            overflow(back)
        }
        _other => unreachable!(),
    }
}

/// Makes the step that settles the identifier.
fn settle<T: Turns>(turns: &T, at: &mut T::At, id: i32) -> GetState
    requires { T.ready turns.now at.old }
    ensures stays { T.stays turns.now at.new }
    ensures steps { (kept : ℕ) → StepsOn T.takes T.misses no_moment (AtSettle id)
        at.old kept (get_state result) at.new kept }
{
    match turns.make(at, ObjectCall::Registry(RegistryCall::Settle { id })) {
        Ok(ObjectReply::Registry(RegistryReply::Changed(_done))) => Getting::settled(id),
        Err(back) => overflow(back),
        _other => unreachable!(),
    }
}

/// Makes the step that probes the queue that was found.
fn probe<T: Turns>(turns: &T, at: &mut T::At, get: Getting, id: i32, settled: u64) -> GetState
    requires { T.ready turns.now at.old }
    ensures stays { T.stays turns.now at.new }
    ensures steps { (kept : ℕ) → StepsOn T.takes T.misses no_moment
        (AtProbe (getting get) id settled) at.old kept (get_state result) at.new kept }
{
    let Getting { cred, flags, .. } = get;
    let call = SlotCall::Probe { id, cred, flags };
    match turns.make(at, ObjectCall::Slot(call)) {
        Ok(ObjectReply::Slot(SlotReply::Probed(found))) => get.probed(id, settled, found),
        Err(back) => overflow(back),
        _other => unreachable!(),
    }
}

/// Makes the step that gives the identifier up. If the gate of the registry is worn out, the result
/// is the same.
fn unmake<T: Turns>(turns: &T, at: &mut T::At, id: i32) -> GetState
    requires { T.ready turns.now at.old }
    ensures stays { T.stays turns.now at.new }
    ensures steps { (kept : ℕ) → StepsOn T.takes T.misses no_moment (AtUnmake id)
        at.old kept (get_state result) at.new kept }
{
    forget(turns, at, id);
    Getting::unmade()
}
