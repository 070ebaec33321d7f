//! What looks at parked calls have shown of others.
ghost use Rattle.std.specs.Prelude.{◌≡◌, None, true};
ghost use Rattle.sysv_parking.specs.Barriers.{IsGranted, IsLacking, IsStopped, learned, least_blocks, least_room};

use crate::due::Why;
use crate::key::{Caller, Key};

/// There is no room on this queue for a frame of this length.
#[derive(Clone, Copy)]
pub(crate) struct Shortage {
    pub(crate) id: i32,
    pub(crate) least: usize,
}

/// What looks at calls that still wait have shown of other calls, which are not looked at then.
#[derive(Clone, Copy)]
pub(crate) struct Barriers {
    /// A caller whose receives find their queue, and may read it.
    reads: Option<Caller>,
    /// A caller whose sends find their queue, and may write to it.
    writes: Option<Caller>,
    /// A queue that lacks room.
    room: Option<Shortage>,
    /// The length of a frame for which there are too few blocks.
    blocks: Option<usize>,
}

impl Barriers {
    /// Returns what is known before any look.
    pub(crate) fn new() -> Barriers
        ensures { result ≡ record { reads = None; writes = None; room = None; blocks = None } }
    {
        Barriers {
            reads: None,
            writes: None,
            room: None,
            blocks: None,
        }
    }

    /// Learns that a call which waits for this was looked at, and still waits for it.
    pub(crate) fn learn(&mut self, key: Key)
        ensures { self.new ≡ learned key self.old }
    {
        match key {
            Key::Message { caller, .. } => self.reads = Some(caller),
            Key::Room { caller, length } => {
                self.writes = Some(caller);
                self.room = Some(Shortage {
                    id: caller.id,
                    least: shortest(self.room, caller.id, length),
                });
            }
            Key::Blocks { caller, length } => {
                self.writes = Some(caller);
                self.blocks = Some(fewest(self.blocks, length));
            }
            Key::Settled => {}
        }
    }

    /// Returns whether a call that waits for this and is due for these reasons would still wait, as
    /// looks at other calls have shown.
    pub(crate) fn stops(&self, why: Why, key: Key) -> bool
        ensures { result ≡ true → IsStopped self.now why key }
    {
        (!why.changed || self.grants(key)) && (!why.raised || self.lacks(key))
    }

    /// Returns whether a call that waits for this finds its queue, and has its permission.
    fn grants(&self, key: Key) -> bool
        ensures { result ≡ true → IsGranted self.now key }
    {
        match key {
            Key::Message { caller, .. } => is_of(self.reads, caller),
            Key::Room { caller, .. } | Key::Blocks { caller, .. } => is_of(self.writes, caller),
            Key::Settled => false,
        }
    }

    /// Returns whether what a call waits for is not there.
    fn lacks(&self, key: Key) -> bool
        ensures { result ≡ true → IsLacking self.now key }
    {
        match (key, self.room, self.blocks) {
            (Key::Room { caller, length }, Some(shortage), _) => {
                shortage.id == caller.id && shortage.least <= length
            }
            (Key::Blocks { length, .. }, _, Some(least)) => least <= length,
            _ => false,
        }
    }
}

/// Returns whether this is the caller.
fn is_of(known: Option<Caller>, caller: Caller) -> bool
    ensures { result ≡ true → known ≡ Some caller }
{
    match known {
        Some(known) => known == caller,
        None => false,
    }
}

/// Returns the shorter of this length and of one for which there is no room on the same queue.
fn shortest(known: Option<Shortage>, id: i32, length: usize) -> usize
    ensures { result ≡ least_room known id length }
{
    match known {
        Some(shortage) if shortage.id == id => shortage.least.min(length),
        _ => length,
    }
}

/// Returns the shorter of this length and of one for which there are too few blocks.
fn fewest(known: Option<usize>, length: usize) -> usize
    ensures { result ≡ least_blocks known length }
{
    match known {
        Some(least) => least.min(length),
        None => length,
    }
}
