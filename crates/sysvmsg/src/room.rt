//! The number of clients for which a process has descriptors.
ghost use Rattle.std.specs.Prelude.{◌≡◌, ◌≤◌};
ghost use Rattle.sysvmsg.specs.Room.{places_within};

use sysv_server::Terms;

/// The number of descriptors of a server with one socket beside those of its workers and its clients:
/// the standard streams, the listener and a doorbell.
const OWN: u64 = 5;

/// The number of descriptors of a server that shows its state, for that: a listener and a reader.
const OF_STATS: u64 = 2;

/// The number of descriptors of a worker: its doorbell and its poll.
const OF_WORKER: u64 = 2;

/// Returns how many clients a server on these terms serves at once under this limit of open files: as
/// many as they say, or fewer if it has fewer descriptors, but at least 1. If the limit is not known,
/// the descriptors suffice.
pub(crate) fn room(limit: Option<u64>, terms: &Terms) -> u32
    requires { 1 ≤ terms.now.at_once }
    ensures exact { result ≡ places_within limit terms.now.stats terms.now.workers
        terms.now.sockets terms.now.at_once }
    ensures range { (1 ≤ result) × (result ≤ terms.now.at_once) }
{
    let Terms {
        stats,
        workers,
        at_once,
        sockets,
        ..
    } = *terms;
    let Some(limit) = limit else {
        return at_once;
    };
    let stats = if stats { OF_STATS } else { 0 };
    let more = u64::from(sockets.saturating_sub(1));
    let used = OWN + stats + more + OF_WORKER * u64::from(workers);
    let left = limit.saturating_sub(used).max(1);
    match u32::try_from(left) {
        Ok(left) => left.min(at_once),
        Err(_) => at_once,
    }
}
