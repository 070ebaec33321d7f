//! Runs of workers.
ghost use Rattle.std.specs.Prelude.{◌≡◌, ◌+◌, ◌-◌, ◌^◌, ◌<◌, ◌≤◌, ◌⊎◌, ◌↔◌, true, min, List, [], ◌∷◌, ◌++◌, vec_len, vec_capacity, IfOk, IfErr, IfSome, IfNone, OnOk, Some};
ghost use Rattle.std.specs.List.{All};
ghost use Rattle.std.specs.Mem.{manually_drop_value};
ghost use Rattle.std.specs.Thread.{IsSync};
ghost use Rattle.sysv_workers.specs.Teams.{AreOn, CanStart, HasDone};
ghost use Rattle.sysv_workers.specs.Causes.{Told, HasCause, FailsBy};
ghost use Rattle.sysv_workers.specs.Running.{RunsAll, GivesBack, GivesUp, LeavesSource, Ends, Fails};
ghost use Rattle.sysv_workers.specs.declared.workers.TheConstants.{MAX_WORKERS};

use crate::feed::{Feed, WEAR, put_all, put_marks};
use crate::job::Job;
use crate::refusals::{WorkersFault, WorkersRefused};
use crate::source::Source;
use crate::team::{Handle, Tally, collect, join_all, start_all};
use crate::worker::Done;
use std::alloc::Global;
use std::mem::ManuallyDrop;
use std::sync::Wait;
use std::thread;
use std::thread::{Scope, Threads};
use sysv_buffer::{ManyBuffer, Seat};

/// The largest number of workers of `run_workers`. The smallest is one.
pub const MAX_WORKERS: usize = 16;

/// Runs the job over all items of the source, in one thread per state. Returns the states that the
/// runs leave, in their order.
///
/// The calling thread alone reads the source, after all threads have started. Each item goes to the
/// next free worker, through a buffer with one cell per worker. Each worker has a list of items,
/// its state is one to which the job's runs over that list lead, and together the lists are the
/// items of the source, each once. Each list is in the order in which the source returned its
/// items, so a worker that is alone runs over all items in that order.
///
/// # Errors
///
/// The error holds all states.
///
/// - `BadCount` if and only if there are not 1 to 16 states.
/// - `NoMemory` if memory is refused.
/// - `Thread` if a thread cannot be started and no item was run.
/// - `Worn` only if the items of the source and an end mark for each worker are at least 2^62,
///   which wear out the buffer.
/// - `Missed` only if the number of items that were run differs from the number of items of the
///   source, or the number of items and end marks that were put differs from the number that was to
///   be put.
///
/// After `BadCount`, `NoMemory` and `Thread` the states are unchanged, and the source was not read.
/// After `Worn` and `Missed` each state is one to which runs over some items lead. After `Worn` the
/// source has returned some items, and may have reported its end. After `Missed` it is at its end
/// or was not read.
///
/// # Conditions
///
/// - Each state is one that the job works with (`fits`).
pub fn run_workers<W: Send, T: Drop + Send, S: Source<T>, J: Job<W, T> + Sync, R>(
    rt: &R,
    alloc: Global,
    states: Vec<W>,
    source: &mut S,
    job: &J,
) -> Result<Vec<W>, WorkersRefused<W>>
where
    R: Threads + Wait + Sync,
    requires { All (J.fits job.now) states.items }
    ensures count { OnOk result ((1 ≤ vec_len states) × (vec_len states ≤ MAX_WORKERS)) }
    ensures bad_count { IfErr result (λ e. (e.why ≡ WorkersFault.BadCount)
        ↔ ((vec_len states < 1) ⊎ (MAX_WORKERS < vec_len states))) }
    ensures ok { IfOk result (λ after.
        RunsAll (J.runs job.now) S.gives states.items source.old after.items source.new) }
    ensures fits { IfOk result (λ after. All (J.fits job.now) after.items) }
    ensures err { IfErr result (λ e. GivesBack (J.runs job.now) states.items e.why e.states.items
        × All (J.fits job.now) e.states.items) }
    ensures asked { IfErr result (λ e.
        LeavesSource S.gives (vec_len states) source.old e.why source.new) }
{
    let count = states.len();
    if count < 1 || count > MAX_WORKERS {
        let why = WorkersFault::BadCount;
        return Err(WorkersRefused { why, states });
    }
    let why = WorkersFault::NoMemory;
    let Ok((buffer, mut seat)) = ManyBuffer::open(alloc, count) else {
        return Err(WorkersRefused { why, states });
    };
    let Ok(handles) = Vec::with_capacity(alloc, count) else {
        return Err(WorkersRefused { why, states });
    };
    run_scoped(rt, &buffer, job, source, &mut seat, states, handles)
}

/// Runs everything in one scope of threads.
fn run_scoped<W: Send, T: Drop + Send, S: Source<T>, J: Job<W, T> + Sync, R>(
    rt: &R,
    buffer: &ManyBuffer<Feed<T>>,
    job: &J,
    source: &mut S,
    seat: &mut Seat<Feed<T>>,
    states: Vec<W>,
    handles: Vec<Handle<W, T, J>>,
) -> Result<Vec<W>, WorkersRefused<W>>
where
    R: Threads + Wait + Sync,
    requires seat { (seat.old.buffer ≡ buffer.now) × (seat.old.takes ≡ []) }
    requires cells { buffer.now.room ≡ vec_len states }
    requires fits { All (J.fits job.now) states.items }
    requires handles { handles.items ≡ [] }
    requires room { (1 ≤ vec_len states) × (vec_len states ≤ MAX_WORKERS)
        × (vec_len states ≤ vec_capacity handles) }
    ensures ok { IfOk result (λ v.
        Ends (J.runs job.now) (J.fits job.now) S.gives states.items source.old v.items source.new) }
    ensures err { IfErr result (λ e.
        Fails (J.runs job.now) (J.fits job.now) S.gives states.items source.old e.why e.states.items
        source.new) }
    ensures cause { IfErr result (λ e.
        HasCause (J.runs job.now) S.gives states.items source.old
        (vec_len states) e.why e.states.items source.new seat.new) }
{
    let kept = unsafe { ManuallyDrop::new_unchecked(states) };
    let (outcome, asked, used) = thread::scope(
        thread::scope_env(),
        rt,
        move |scope| -> (
            Result<Vec<W>, WorkersRefused<W>>,
            &mut S,
            &mut Seat<Feed<T>>,
        )
            requires { IsSync R.row × (handles.items ≡ [])
                × CanStart (J.fits job.now) buffer.now seat.now (manually_drop_value kept).items
                (vec_len (manually_drop_value kept)) (vec_capacity handles) }
            ensures lent { (result.1.ghost_name ≡ source.entry.ghost_name)
                × (result.2.ghost_name ≡ seat.entry.ghost_name) }
            ensures ok { IfOk result.0 (λ v.
                Ends (J.runs job.entry.now) (J.fits job.entry.now) S.gives
                (manually_drop_value kept).items source.entry.now v.items result.1.now) }
            ensures err { IfErr result.0 (λ e.
                FailsBy (J.runs job.entry.now) (J.fits job.entry.now) S.gives
                (manually_drop_value kept).items source.entry.now
                (vec_len (manually_drop_value kept)) e.why e.states.items result.1.now
                result.2.now) }
        {
            let states = ManuallyDrop::into_inner(kept);
            let outcome = run_in(rt, scope, buffer, job, source, seat, states, handles);
            (outcome, source, seat)
        },
    );
    given_back(asked);
    given_back(used);
    outcome
}

/// Uses the reference once more. This use ties it to the parameter that lent it.
fn given_back<S>(source: &mut S)
    ensures { source.new ≡ source.old }
{}

/// Starts the workers, feeds them, and waits for them.
fn run_in<
    's,
    E,
    W: Send + 's,
    T: Drop + Send + 's,
    S: Source<T>,
    J: Job<W, T> + Sync + 's,
    R: Threads + Wait + Sync,
>(
    rt: &'s R,
    scope: &Scope<'s, E>,
    buffer: &'s ManyBuffer<Feed<T>>,
    job: &'s J,
    source: &mut S,
    seat: &mut Seat<Feed<T>>,
    mut states: Vec<W>,
    mut handles: Vec<Handle<W, T, J>>,
) -> Result<Vec<W>, WorkersRefused<W>>
    requires seat { (seat.old.buffer ≡ buffer.now) × (seat.old.takes ≡ []) }
    requires fits { All (J.fits job.now) states.items }
    requires handles { handles.items ≡ [] }
    requires room { (1 ≤ vec_len states) × (vec_len states ≤ MAX_WORKERS)
        × (vec_len states ≤ vec_capacity handles) }
    ensures ok { IfOk result (λ v.
        Ends (J.runs job.now) (J.fits job.now) S.gives states.items source.old v.items source.new) }
    ensures err { IfErr result (λ e.
        Fails (J.runs job.now) (J.fits job.now) S.gives states.items source.old e.why e.states.items
        source.new) }
    ensures cause { IfErr result (λ e.
        HasCause (J.runs job.now) S.gives states.items source.old
        (vec_len states) e.why e.states.items source.new seat.new) }
{
    let count = states.len();
    if let Some(done) = start_all(rt, scope, buffer, job, seat, &mut states, &mut handles) {
        return Err(give_up(rt, buffer, seat, states, handles, done));
    }
    let items = put_all(rt, buffer, seat, source);
    let marked = put_marks(rt, buffer, seat, count);
    let mut tally = Tally::new();
    join_all(rt, buffer, seat, &mut states, &mut handles, &mut tally);
    let put = buffer.put_count(seat);
    match fault(count as u64, items, marked, put, &tally) {
        None => Ok(states),
        Some(why) => Err(WorkersRefused { why, states }),
    }
}

/// Ends the workers that were started after another could not be started. That worker has run in
/// the calling thread, and `done` is what it left.
fn give_up<W, T: Drop, J: Job<W, T>, R: Threads>(
    rt: &R,
    buffer: &ManyBuffer<Feed<T>>,
    seat: &mut Seat<Feed<T>>,
    mut states: Vec<W>,
    mut handles: Vec<Handle<W, T, J>>,
    done: Done<W, T>,
) -> WorkersRefused<W>
    requires seat { (seat.old.buffer ≡ buffer.now) × (seat.old.takes ≡ []) }
    requires theirs { done.seat.buffer ≡ buffer.now }
    requires on { (job : J) × (rest : List W) × AreOn job buffer.now rest handles.items }
    requires room { vec_len states + 1 + vec_len handles ≤ vec_capacity states }
    ensures back { (job : J) (state : W) (rest : List W) → AreOn job buffer.now rest handles.items →
        All (J.fits job) states.items →
        HasDone (J.runs job) (J.fits job) buffer.now state done →
        GivesUp (J.runs job) (J.fits job) (states.items ++ state ∷ rest) result.why
        result.states.items }
    ensures why { (result.why ≡ WorkersFault.Thread) ⊎ (result.why ≡ WorkersFault.Missed) }
{
    let mut tally = Tally::new();
    collect(buffer, seat, &mut states, &mut tally, done);
    join_all(rt, buffer, seat, &mut states, &mut handles, &mut tally);
    let why = if tally.ran == 0 {
        WorkersFault::Thread
    } else {
        WorkersFault::Missed
    };
    WorkersRefused { why, states }
}

/// Returns what is wrong after all workers have ended, if anything is. `items` is the number of
/// items put, if all were put; `marked` is whether all end marks were put.
fn fault(
    marks: u64,
    items: Option<u64>,
    marked: bool,
    put: u64,
    tally: &Tally,
) -> Option<WorkersFault>
    ensures none { IfNone result ((marked ≡ true) × (tally.now.ended ≡ true)
        × (items ≡ Some tally.now.ran) × (put ≡ min (tally.now.ran + marks) (2 ^ 64 - 1))) }
    ensures some { IfSome result (λ why.
        Told items marked tally.now.ended tally.now.ran put marks why) }
{
    let Some(items) = items else {
        return Some(WorkersFault::Worn);
    };
    let all = items.saturating_add(marks);
    if !marked || !tally.ended {
        // (fewer wear out no buffer: if fewer were to be put, others were put)
        return Some(if all < WEAR {
            WorkersFault::Missed
        } else {
            WorkersFault::Worn
        });
    }
    if tally.ran != items || put != all {
        return Some(WorkersFault::Missed);
    }
    None
}
