//! A handler of one queue, with a registry and a pool.
ghost use Rattle.std.specs.Prelude.{◌≡◌, ⊤, false};
ghost use Rattle.sysv_session.specs.Answers.{MayAnswer};
ghost use Rattle.sysv_wire.specs.declared.frame.Version.{Version};
ghost use Rattle.sysv_wire.specs.Frames.{op_number};
ghost use Rattle.sysv_session.specs.Answers.{is_received};
ghost use Rattle.sysv_wire.specs.Replies.{IsAnswer};
ghost use Rattle.sysv_wire.specs.Requests.{op_of};

use crate::parts::open_pool;
use bitflags::Flags as Set;
use std::alloc::Global;
use std::process::Abort;
use sysv_keys::{Begun, Registry};
use sysv_model::{Body, Cred, Errno, Flags, MESSAGE_BYTES, Selector};
use sysv_pool::{Chain, Pool};
use sysv_queue::{PlaceRefused, QueueSlot, TakeRefused, Unplaced};
use sysv_session::{Handler, RequestOutcome};
use sysv_wire::{Ask, Op, Reply, ReplyContent, Request, Version};

/// The maximum of each count here.
const MAX_COUNT: u64 = 1 << 32;

/// One slot for a queue, and the objects that it uses. It carries out msgget, msgsnd and msgrcv,
/// which never wait, and refuses everything else with EINVAL.
pub(crate) struct TestHandler {
    slot: QueueSlot,
    registry: Registry,
    pool: Pool,
    /// The number of requests that it received.
    pub(crate) asked: u32,
}

impl TestHandler {
    /// Opens a handler with no queue and a pool of 128 blocks. Tolerates one refusal of memory.
    pub(crate) fn open(rt: &impl Abort, alloc: Global) -> TestHandler {
        let registry = match Registry::open(alloc) {
            Ok(registry) => registry,
            Err(_) => Registry::open(alloc).ok().expect(rt, "a second try"),
        };
        let pool = open_pool(rt, alloc, 128);
        let slot = match QueueSlot::open(alloc) {
            Ok(slot) => slot,
            Err(_) => QueueSlot::open(alloc).ok().expect(rt, "a second try"),
        };
        TestHandler {
            slot,
            registry,
            pool,
            asked: 0,
        }
    }

    /// Ends the handler. Returns the number of free blocks, including those of the queued messages.
    pub(crate) fn end(self) -> u32 {
        let TestHandler {
            slot,
            registry: _,
            mut pool,
            asked: _,
        } = self;
        give_back(&mut pool, slot.end());
        let free = pool.free();
        pool.end();
        free
    }

    fn get(&mut self, cred: Cred, key: i32, flags: Flags) -> ReplyContent
        ensures answer { (version : Version) → IsAnswer version (op_number Op.Get) result }
        ensures text { is_received result ≡ false }
    {
        match self.registry.begin(key, flags) {
            Begun::Found { id, .. } => ReplyContent::Get { id },
            Begun::Made { id } => {
                if self.slot.install(id, key, cred, flags.bits(), 0) && self.registry.settle(id) {
                    ReplyContent::Get { id }
                } else {
                    ReplyContent::Refused(Errno::ENOSPC)
                }
            }
            Begun::Busy { .. } => ReplyContent::Refused(Errno::EAGAIN),
            Begun::Refused(why) => ReplyContent::Refused(why),
        }
    }

    fn send(&mut self, cred: Cred, id: i32, mtype: i64, text: &Body) -> ReplyContent
        ensures answer { (version : Version) → IsAnswer version (op_number Op.Snd) result }
        ensures text { is_received result ≡ false }
    {
        if text.len() > MESSAGE_BYTES || self.slot.counts().0 > MAX_COUNT {
            return ReplyContent::Refused(Errno::EINVAL);
        }
        let Some(mut chain) = self.pool.reserve(text.len()) else {
            return ReplyContent::Refused(Errno::EAGAIN);
        };
        chain.fill(text);
        match self.slot.place(id, cred, mtype, chain, text.len(), 0) {
            Ok(_) => ReplyContent::Snd,
            Err(PlaceRefused { why, chain }) => {
                give_back(&mut self.pool, chain);
                match why {
                    Unplaced::Gone => ReplyContent::Refused(Errno::EINVAL),
                    Unplaced::Denied => ReplyContent::Refused(Errno::EACCES),
                    Unplaced::Full { .. } => ReplyContent::Refused(Errno::EAGAIN),
                }
            }
        }
    }

    fn receive(&mut self, cred: Cred, request: &Request, given: &mut Body) -> RequestOutcome
        requires { op_of request.now.ask ≡ Op.Rcv }
        ensures { MayAnswer request.now.version request.now.ask result given.new }
    {
        let Ask::Rcv {
            id,
            size,
            mtype,
            flags,
        } = request.ask
        else {
            unreachable!()
        };
        given.clear();
        if self.slot.counts().1 > MAX_COUNT {
            return refusal(request.version, Op::Rcv, Errno::EOVERFLOW);
        }
        let noerror = flags.contains(Flags::MSG_NOERROR);
        match self
            .slot
            .take(id, cred, Selector::of(mtype, flags), size, noerror, 0)
        {
            Ok(taken) => {
                let (delivery, chain) = taken.finish(size, given);
                give_back(&mut self.pool, chain);
                RequestOutcome::Got(delivery)
            }
            Err(TakeRefused::Gone) => refusal(request.version, Op::Rcv, Errno::EINVAL),
            Err(TakeRefused::Denied) => refusal(request.version, Op::Rcv, Errno::EACCES),
            Err(TakeRefused::NoMatch { .. }) => refusal(request.version, Op::Rcv, Errno::ENOMSG),
            Err(TakeRefused::TooLong) => refusal(request.version, Op::Rcv, Errno::E2BIG),
        }
    }
}

impl Handler for TestHandler {
    ghost use Rattle.std.specs.Prelude.{⊤};

    ghost meaning = { λ _ _ _ _ _ _ _. ⊤ };

    ghost slots = { λ _. 256 };

    fn slots(&self) -> u32 {
        256
    }

    fn call(
        &mut self,
        cred: Cred,
        request: &Request,
        text: &Body,
        given: &mut Body,
    ) -> RequestOutcome {
        self.asked = self.asked.wrapping_add(1);
        match request.ask {
            Ask::Get { key, flags } => {
                let result = self.get(cred, key, flags);
                RequestOutcome::Reply(Reply {
                    version: request.version,
                    op: Op::Get.number(),
                    result,
                })
            }
            Ask::Snd { id, mtype, .. } => {
                let result = self.send(cred, id, mtype, text);
                RequestOutcome::Reply(Reply {
                    version: request.version,
                    op: Op::Snd.number(),
                    result,
                })
            }
            Ask::Rcv { .. } => self.receive(cred, request, given),
            _ => refusal(request.version, request.ask.op(), Errno::EINVAL),
        }
    }
}

/// Returns the reply that refuses an operation.
fn refusal(version: Version, op: Op, why: Errno) -> RequestOutcome
    ensures { result ≡ RequestOutcome.Reply
        (record { version = version; op = op_number op; result = ReplyContent.Refused why }) }
{
    RequestOutcome::Reply(Reply {
        version,
        op: op.number(),
        result: ReplyContent::Refused(why),
    })
}

/// Gives a chain back to the pool that it was reserved from.
fn give_back(pool: &mut Pool, chain: Chain) {
    if pool.released() > MAX_COUNT {
        let _blocks = chain.end();
        return;
    }
    if let Err(chain) = pool.release(chain) {
        let _blocks = chain.end();
    }
}
