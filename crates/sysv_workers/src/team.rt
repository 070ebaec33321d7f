//! The threads of all workers.
ghost use Rattle.std.specs.Prelude.{◌≡◌, ◌+◌, ◌-◌, ◌^◌, ◌≤◌, ◌<◌, ◌&&◌, true, min, List, [], ◌∷◌, ◌++◌, length, map, vec_len, vec_capacity, IfOk, IfErr, IfSome, MatchOption};
ghost use Rattle.std.specs.List.{All};
ghost use Rattle.std.specs.Mem.{manually_drop_value};
ghost use Rattle.std.specs.Thread.{IsSync};
ghost use Rattle.sysv_buffer.specs.ManyEnds.{Joins};
ghost use Rattle.sysv_workers.specs.Teams.{AreOn};
ghost use Rattle.sysv_workers.specs.Doing.{Did, Gathered};
ghost use Rattle.sysv_workers.specs.Feeding.{IsMarked};
ghost use Rattle.sysv_workers.specs.declared.feed.Feed.{Feed};
ghost use Rattle.sysv_workers.specs.Parts.{Part};
ghost use Rattle.sysv_workers.specs.declared.workers.TheConstants.{MAX_WORKERS};

use crate::feed::{Feed, put_marks};
use crate::job::Job;
use crate::worker::{Done, Working, work};
use std::mem::ManuallyDrop;
use std::snapshot::Snapshot;
use std::sync::Wait;
use std::thread::{PromisedHandle, Scope, Threads};
use sysv_buffer::{ManyBuffer, Seat};

/// The handle of a worker's thread.
pub(crate) type Handle<W, T, J> = PromisedHandle<Done<W, T>, Working<W, T, J>>;

/// What the workers that have been joined did.
#[derive(Drop)]
pub(crate) struct Tally {
    /// The number of items that they ran over. It stays at the greatest value once it reaches it.
    pub(crate) ran: u64,
    /// Whether each of them took an end mark.
    pub(crate) ended: bool,
}

impl Tally {
    /// Returns the tally before any worker is joined.
    pub(crate) fn new() -> Tally
        ensures { (result.ran ≡ 0) × (result.ended ≡ true) }
    {
        Tally {
            ran: 0,
            ended: true,
        }
    }
}

/// Starts a worker on `state`. If the thread cannot be started, one end mark is put for this worker
/// and one for each worker that was started, and this worker runs in the calling thread until it
/// takes a mark. The error is what that run left.
pub(crate) fn start<
    's,
    E,
    W: Send + 's,
    T: Drop + Send + 's,
    J: Job<W, T> + Sync + 's,
    R: Threads + Wait + Sync,
>(
    rt: &'s R,
    scope: &Scope<'s, E>,
    buffer: &'s ManyBuffer<Feed<T>>,
    job: &'s J,
    seat: &mut Seat<Feed<T>>,
    state: W,
    started: usize,
) -> Result<Handle<W, T, J>, Done<W, T>>
    requires buffer { seat.old.buffer ≡ buffer.now }
    requires fits { J.fits job.now state }
    requires few { started < MAX_WORKERS }
    ensures buffer { seat.new.buffer ≡ buffer.now }
    ensures takes { seat.new.takes ≡ seat.old.takes }
    ensures ok { IfOk result (λ h. (h.promise.state.value ≡ state) × (h.promise.job.value ≡ job.now)
        × (h.promise.buffer.value ≡ buffer.now)) }
    ensures err { IfErr result (λ d.
        Did (J.runs job.now) (J.fits job.now) buffer.now state d.ended
        (manually_drop_value d.state) d.seat d.ran) }
    ensures marked { IfErr result (λ _. IsMarked (started + 1) seat.new) }
{
    let theirs = buffer.split(seat);
    let promise = Working {
        job: Snapshot::of(job),
        buffer: Snapshot::of(buffer),
        state: Snapshot::of(&state),
    };
    let kept = unsafe { ManuallyDrop::new_unchecked(state) };
    let run = move || -> Done<W, T>
        requires { IsSync R.row × (theirs.buffer ≡ buffer.now) × (theirs.takes ≡ [])
            × J.fits job.now (manually_drop_value kept) }
        ensures { Did (J.runs job.entry.now) (J.fits job.entry.now) buffer.entry.now
            (manually_drop_value kept) result.ended
            (manually_drop_value result.state) result.seat result.ran }
    { work(rt, buffer, job, theirs, ManuallyDrop::into_inner(kept)) };
    match scope.spawn_with(promise, run) {
        Ok(handle) => Ok(handle),
        Err(refused) => {
            let _put = put_marks(rt, buffer, seat, started + 1);
            job.call_off();
            Err((refused.value)())
        }
    }
}

/// Starts a worker on each state, the last state first. If one cannot be started, returns what it
/// left after its run in the calling thread; the states before it stay in `states`.
pub(crate) fn start_all<
    's,
    E,
    W: Send + 's,
    T: Drop + Send + 's,
    J: Job<W, T> + Sync + 's,
    R: Threads + Wait + Sync,
>(
    rt: &'s R,
    scope: &Scope<'s, E>,
    buffer: &'s ManyBuffer<Feed<T>>,
    job: &'s J,
    seat: &mut Seat<Feed<T>>,
    states: &mut Vec<W>,
    handles: &mut Vec<Handle<W, T, J>>,
) -> Option<Done<W, T>>
    requires buffer { seat.old.buffer ≡ buffer.now }
    requires fits { All (J.fits job.now) states.old.items }
    requires none { handles.old.items ≡ [] }
    requires room { (length states.old.items ≤ MAX_WORKERS)
        × (length states.old.items ≤ vec_capacity handles.old) }
    ensures buffer { seat.new.buffer ≡ buffer.now }
    ensures takes { seat.new.takes ≡ seat.old.takes }
    ensures capacity { vec_capacity states.new ≡ vec_capacity states.old }
    ensures fits { All (J.fits job.now) states.new.items }
    ensures started { MatchOption result
        ((states.new.items ≡ []) × AreOn job.now buffer.now states.old.items handles.new.items)
        (λ d. (state : W) × (rest : List W) × (states.old.items ≡ states.new.items ++ state ∷ rest)
        × AreOn job.now buffer.now rest handles.new.items
        × Did (J.runs job.now) (J.fits job.now) buffer.now state d.ended
        (manually_drop_value d.state) d.seat d.ran) }
    ensures marked { IfSome result (λ _. IsMarked (vec_len handles.new + 1) seat.new) }
{
    while let Some(state) = states.pop() {
        match start(rt, scope, buffer, job, seat, state, handles.len()) {
            Ok(handle) => handles.push_reserved(handle),
            Err(done) => return Some(done),
        }
    }
    None
}

/// Collects what one worker left: joins its seat, adds its count, and appends its state.
pub(crate) fn collect<W, T: Drop>(
    buffer: &ManyBuffer<Feed<T>>,
    seat: &mut Seat<Feed<T>>,
    states: &mut Vec<W>,
    tally: &mut Tally,
    done: Done<W, T>,
)
    requires buffer { seat.old.buffer ≡ buffer.now }
    requires theirs { done.seat.buffer ≡ buffer.now }
    requires room { vec_len states.old < vec_capacity states.old }
    ensures buffer { seat.new.buffer ≡ buffer.now }
    ensures joined { Joins seat.old done.seat seat.new }
    ensures states { states.new.items ≡ states.old.items ++ manually_drop_value done.state ∷ [] }
    ensures room { (vec_len states.new ≡ vec_len states.old + 1)
        × (vec_capacity states.new ≡ vec_capacity states.old) }
    ensures tally { (tally.new.ran ≡ min (tally.old.ran + done.ran) (2 ^ 64 - 1))
        × (tally.new.ended ≡ (tally.old.ended && done.ended)) }
{
    let Done {
        state,
        seat: theirs,
        ran,
        ended,
    } = done;
    buffer.join(seat, theirs);
    states.push_reserved(ManuallyDrop::into_inner(state));
    tally.ran = tally.ran.saturating_add(ran);
    tally.ended = tally.ended && ended;
}

/// Waits for all workers, and collects what each left.
pub(crate) fn join_all<W, T: Drop, J: Job<W, T>, R: Threads>(
    rt: &R,
    buffer: &ManyBuffer<Feed<T>>,
    seat: &mut Seat<Feed<T>>,
    states: &mut Vec<W>,
    handles: &mut Vec<Handle<W, T, J>>,
    tally: &mut Tally,
)
    requires buffer { seat.old.buffer ≡ buffer.now }
    requires on { (job : J) × (states : List W) × AreOn job buffer.now states handles.old.items }
    requires room { vec_len states.old + length handles.old.items ≤ vec_capacity states.old }
    ensures buffer { seat.new.buffer ≡ buffer.now }
    ensures grown { (more : List (Feed T)) × (seat.new.seen ≡ seat.old.seen ++ more) }
    ensures gathered { (job : J) (others : List W) (parts : List (Part W T)) (rest : List W) →
        AreOn job buffer.now rest handles.old.items →
        Gathered (J.runs job) (J.fits job) others parts seat.old states.old.items tally.old.ran
        tally.old.ended
        → (more : List (Part W T)) × (map (λ p. p.before) more ≡ rest)
        × Gathered (J.runs job) (J.fits job) others
        (parts ++ more) seat.new states.new.items tally.new.ran tally.new.ended }
{
    while let Some(handle) = handles.pop() {
        let done = handle.join(rt);
        collect(buffer, seat, states, tally, done);
    }
}
