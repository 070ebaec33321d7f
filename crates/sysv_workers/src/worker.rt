//! One worker.
ghost use Rattle.std.specs.Prelude.{◌≡◌, []};
ghost use Rattle.std.specs.Mem.{manually_drop_value};
ghost use Rattle.sysv_workers.specs.Doing.{Did};

use crate::feed::Feed;
use crate::job::Job;
use std::mem::ManuallyDrop;
use std::snapshot::Snapshot;
use std::sync::Wait;
use std::thread::Promise;
use sysv_buffer::{ManyBuffer, Seat};

/// What a worker's thread leaves. The result of a thread must be a value that can be dropped, and a
/// state may be linear. The state is therefore kept from drops, and is taken out again after the
/// thread is joined.
#[derive(Drop)]
pub(crate) struct Done<W, T> {
    pub(crate) state: ManuallyDrop<W>,
    pub(crate) seat: Seat<Feed<T>>,
    /// The number of items that the worker ran over. It stays at the greatest value once it reaches
    /// it.
    pub(crate) ran: u64,
    /// Whether the worker took an end mark. If it did not, the buffer is worn out.
    pub(crate) ended: bool,
}

/// What a worker's thread promises: it runs the job with this state over the items that it takes
/// from the buffer.
#[derive(Drop)]
pub(crate) struct Working<W, T, J> {
    pub(crate) job: Snapshot<J>,
    pub(crate) buffer: Snapshot<ManyBuffer<Feed<T>>>,
    pub(crate) state: Snapshot<W>,
}

impl<W, T, J: Job<W, T>> Promise<Done<W, T>> for Working<W, T, J> {
    ghost kept_by = { λ p d. Did (J.runs p.job.value)
        (J.fits p.job.value) p.buffer.value p.state.value d.ended
        (manually_drop_value d.state) d.seat d.ran };
}

/// Runs the job over the items that it takes, in the order in which they were put, until it takes
/// an end mark or the buffer is worn out.
pub(crate) fn work<W, T: Drop, J: Job<W, T>, R: Wait>(
    rt: &R,
    buffer: &ManyBuffer<Feed<T>>,
    job: &J,
    mut seat: Seat<Feed<T>>,
    mut state: W,
) -> Done<W, T>
    requires buffer { seat.buffer ≡ buffer.now }
    requires fresh { seat.takes ≡ [] }
    requires fits { J.fits job.now state }
    ensures { Did (J.runs job.now) (J.fits job.now) buffer.now state result.ended
        (manually_drop_value result.state) result.seat result.ran }
{
    job.await_first(&state);
    let mut ran = 0_u64;
    for _ in rt.forever() {
        match buffer.take(rt, &mut seat) {
            Ok(Feed::Item(item)) => {
                job.run(&mut state, item);
                ran = ran.saturating_add(1);
            }
            Ok(Feed::End) => return left_by(state, seat, ran, true),
            Err(_) => return left_by(state, seat, ran, false),
        }
    }
    unreachable!()
}

/// Returns what a worker's thread leaves.
fn left_by<W, T>(state: W, seat: Seat<Feed<T>>, ran: u64, ended: bool) -> Done<W, T>
    ensures { (manually_drop_value result.state ≡ state) × (result.seat ≡ seat) × (result.ran ≡ ran)
        × (result.ended ≡ ended) }
{
    Done {
        state: unsafe { ManuallyDrop::new_unchecked(state) },
        seat,
        ran,
        ended,
    }
}
