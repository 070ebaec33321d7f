//! The slot of a queue, and the calls at it.

ghost use Rattle.std.specs.Prelude.{true, false, ◌≡◌, ◌+◌, ◌^◌, ◌<◌, ◌≤◌, ◌↔◌, [], ◌∷◌, ◌++◌, length, IfOk, IfErr, OnOk, OnErr, Some, IsTrue, MatchOption, option_map};
ghost use Rattle.sysv_model.specs.declared.limits.TheConstants.{QUEUE_MESSAGES, MESSAGE_BYTES as most_bytes};
ghost use Rattle.sysv_model.specs.History.{Install, Place, Take, ReadStat, ReadRow, Set, Remove, Installed, Shown};
ghost use Rattle.sysv_model.specs.History.{Probe as ProbeCall};
ghost use Rattle.sysv_model.specs.History.{Look as LookCall};
ghost use Rattle.sysv_model.specs.Live.{HasId, sent_to, received_from};
ghost use Rattle.sysv_model.specs.Pool.{blocks_for};
ghost use Rattle.sysv_rules.specs.Digits.{digits};
ghost use Rattle.sysv_messages.specs.Probes.{IsFoundByFew};
ghost use Rattle.sysv_messages.specs.Taking.{IsTaken, IsRefused};
ghost use Rattle.sysv_queue.specs.Blocks.{blocks_of};
ghost use Rattle.sysv_queue.specs.Fits.{bytes_of};
ghost use Rattle.sysv_queue.specs.Fits.{Fits as FitsOn};
ghost use Rattle.sysv_queue.specs.Granted.{IsGranted, MayAsAsked, MayControl};
ghost use Rattle.sysv_queue.specs.Barred.{Bars, BarsControl};
ghost use Rattle.sysv_queue.specs.Probes.{IsBarred};
ghost use Rattle.sysv_queue.specs.Represents.{Represents, MakesTurn};
ghost use Rattle.sysv_queue.specs.Replies.{probe_reply, stat_reply, set_reply, remove_reply, look_reply, place_reply, take_reply};

use crate::discarded::Discarded;
use crate::taken::Taken;
use bitflags::Flags as _;
use std::alloc::Global;
use std::marker::{Brand, Model};
use std::sync::ledger::{Blank, Ledger};
use sysv_messages::{Messages, NotTaken, Steps};
use sysv_model::{
    Attributes, Cred, Errno, Flags, MAX_QBYTES, MESSAGE_BYTES, NoMemory, Perm, QBYTES_AT_CREATION,
    QUEUE_MESSAGES, Row, SetTo, Stat,
};
use sysv_pool::Chain;
use sysv_rules::{Selector, Want, may, may_control};
use thiserror::Error;

/// The result of `QueueSlot::probe`.
#[derive(Clone, Copy, PartialEq, Eq, Debug)]
pub enum Probe {
    /// The identifier is not live.
    Gone,
    /// The mode does not grant the access that the flags request.
    Denied,
    /// The mode grants the access that the flags request.
    Granted,
}

/// The result of `QueueSlot::look`.
#[derive(Clone, Copy, PartialEq, Eq, Debug)]
pub enum Look {
    /// The identifier is not live.
    Gone,
    /// Write permission is not granted.
    Denied,
    /// The message does not fit. There may be room once the freed count is above `freed`.
    Full { freed: u64 },
    /// The message fits.
    Fits,
}

/// Why `QueueSlot::place` refused a message.
#[derive(Clone, Copy, PartialEq, Eq, Debug, Error)]
pub enum Unplaced {
    /// The identifier is not live.
    #[error("the identifier is not live")]
    Gone,
    /// Write permission is not granted.
    #[error("write permission is not granted")]
    Denied,
    /// The message does not fit. There may be room once the freed count is above `freed`.
    #[error("the message does not fit")]
    Full { freed: u64 },
}

/// The error of `QueueSlot::place`. It hands the chain back unchanged.
pub struct PlaceRefused {
    /// The cause.
    pub why: Unplaced,
    /// The chain that the caller handed in.
    pub chain: Chain,
}

/// Why `QueueSlot::take` took no message.
#[derive(Clone, Copy, PartialEq, Eq, Debug, Error)]
pub enum TakeRefused {
    /// The identifier is not live.
    #[error("the identifier is not live")]
    Gone,
    /// Read permission is not granted.
    #[error("read permission is not granted")]
    Denied,
    /// The selector names no queued message. It may name one once the arrived count is above
    /// `arrived`.
    #[error("no message is named")]
    NoMatch { arrived: u64 },
    /// The body of the named message is longer than the size. The message stays queued.
    #[error("the message is longer than the size")]
    TooLong,
}

/// Why a call cannot use the queue that it names.
#[derive(Clone, Copy)]
enum Barred {
    /// The identifier is not live.
    Gone,
    /// The access that the caller wants is not granted.
    Denied,
}

/// The place of one queue at a time (POSIX.1-2017, `sys/msg.h`; slots and their counts are this
/// profile's).
///
/// A slot has the attributes of the live queue, if one is live, and at most 256 queued messages in
/// the order of acceptance, each with the chain that holds its body. Its arrived and freed counts
/// rise over all the queues that it holds.
///
/// A slot cannot be dropped; end it with `end`.
pub struct QueueSlot {
    live: Option<Attributes>,
    messages: Messages,
    arrived: u64,
    freed: u64,
}

impl Model for QueueSlot {
    ghost use Rattle.sysv_queue.specs.Slot.{Slot};

    ghost Value = { Slot };

    ghost use Rattle.sysv_queue.specs.Numbered.{AreNumberedBelow};

    ghost view = { λ s.
        record { live = s.live; messages = s.messages; arrived = s.arrived; freed = s.freed } };

    // The arrived count is the number of the next message. It is above the numbers of all queued
    // messages.
    ghost invariant = { λ s. AreNumberedBelow s.arrived s.messages };
}

impl QueueSlot {
    /// Creates a vacant slot with room for 256 messages.
    ///
    /// # Errors
    ///
    /// - `NoMemory` if allocation fails.
    pub fn open(alloc: Global) -> Result<QueueSlot, NoMemory>
        ensures { IfOk result (λ slot. Represents [] slot) }
    {
        Ok(QueueSlot {
            live: None,
            messages: Messages::open(alloc)?,
            arrived: 0,
            freed: 0,
        })
    }

    /// Creates a queue owned by `cred` under the identifier `id` and the key `key` (POSIX.1-2017,
    /// `msgget`).
    ///
    /// The queue's mode is the low nine bits of `mode`, and its change time is `now`, in seconds.
    /// Returns true if the queue was created. Returns false, with nothing changed, if a queue is
    /// live.
    ///
    /// `id` should not be negative. The slot does not check this.
    pub fn install(&mut self, id: i32, key: i32, cred: Cred, mode: u32, now: u64) -> bool
        ensures turn { MakesTurn self.old (Install id key cred mode now)
            (Installed result) self.new }
        ensures refused { result ≡ false → self.new ≡ self.old }
    {
        if self.live.is_some() {
            return false;
        }
        self.live = Some(Attributes {
            id,
            key,
            perm: Perm {
                uid: cred.uid,
                gid: cred.gid,
                cuid: cred.uid,
                cgid: cred.gid,
                mode: (mode % 512) as u16,
            },
            qbytes: QBYTES_AT_CREATION,
            lspid: 0,
            lrpid: 0,
            stime: 0,
            rtime: 0,
            ctime: now,
        });
        true
    }

    /// Reports whether the queue `id` is live and grants the access that the mode in `flags`
    /// requests (POSIX.1-2017, `msgget`; which bits request which access is this profile's).
    ///
    /// The flags request read permission if a read bit is set, and write permission if a write bit
    /// is set. All other flags are ignored. The result is `Gone` if the identifier is not live,
    /// otherwise `Denied` or `Granted`.
    pub fn probe(&self, id: i32, cred: Cred, flags: Flags) -> Probe
        ensures turn { MakesTurn self.now (ProbeCall id cred flags) (probe_reply result) self.now }
    {
        match self.queue_of(id) {
            Some(queue) if may_as_asked(cred, queue, flags) => Probe::Granted,
            Some(_) => Probe::Denied,
            None => Probe::Gone,
        }
    }

    /// Returns the attributes of the live queue and its numbers of queued bytes and messages
    /// (POSIX.1-2017, `msgctl`, IPC_STAT).
    ///
    /// # Errors
    ///
    /// The first cause that applies is reported.
    ///
    /// - `EINVAL` if the identifier is not live.
    /// - `EACCES` if read permission is not granted.
    pub fn stat(&self, id: i32, cred: Cred) -> Result<Stat, Errno>
        ensures turn { MakesTurn self.now (ReadStat id cred) (stat_reply result) self.now }
    {
        let queue = match self.enter(id, cred, Want::Read) {
            Ok(queue) => queue,
            Err(Barred::Gone) => return Err(Errno::EINVAL),
            Err(Barred::Denied) => return Err(Errno::EACCES),
        };
        Ok(Stat {
            key: queue.key,
            perm: queue.perm,
            cbytes: self.messages.bytes(),
            qnum: self.messages.len() as u32,
            qbytes: queue.qbytes,
            lspid: queue.lspid,
            lrpid: queue.lrpid,
            stime: queue.stime,
            rtime: queue.rtime,
            ctime: queue.ctime,
        })
    }

    /// Sets the owner, the group, the low nine bits of the mode and the limit `qbytes` of the live
    /// queue to those in `to`, and its change time to `now`, in seconds (POSIX.1-2017, `msgctl`,
    /// IPC_SET).
    ///
    /// A limit below the queued bytes removes nothing. Both counts of the slot rise by one,
    /// whatever was changed.
    ///
    /// # Errors
    ///
    /// The first cause that applies is reported, and the slot is unchanged.
    ///
    /// - `EINVAL` if the identifier is not live.
    /// - `EPERM` if the caller is not user 0, the owner or the creator.
    /// - `EINVAL` if the limit is above 65,536.
    /// - `EPERM` if the limit is above the present one and the caller is not user 0.
    ///
    /// # Conditions
    ///
    /// - Both counts are below 2^63.
    pub fn set(&mut self, id: i32, cred: Cred, to: SetTo, now: u64) -> Result<(), Errno>
        requires arrived { self.old.arrived < 2 ^ 63 }
        requires freed { self.old.freed < 2 ^ 63 }
        ensures turn { MakesTurn self.old (Set id cred to now) (set_reply result) self.new }
        ensures refused { OnErr result (self.new ≡ self.old) }
    {
        let queue = self.control(id, cred)?;
        if to.qbytes > MAX_QBYTES {
            return Err(Errno::EINVAL);
        }
        if to.qbytes > queue.qbytes && cred.uid != 0 {
            return Err(Errno::EPERM);
        }
        self.change_to(Some(Attributes {
            perm: Perm {
                uid: to.uid,
                gid: to.gid,
                mode: (to.mode % 512) as u16,
                ..queue.perm
            },
            qbytes: to.qbytes,
            ctime: now,
            ..queue
        }));
        Ok(())
    }

    /// Removes the queue and returns the blocks of all its queued messages (POSIX.1-2017, `msgctl`,
    /// IPC_RMID).
    ///
    /// The slot is then vacant, and both of its counts have risen by one. Allocates nothing.
    ///
    /// # Errors
    ///
    /// The first cause that applies is reported, and the slot is unchanged.
    ///
    /// - `EINVAL` if the identifier is not live.
    /// - `EPERM` if the caller is not user 0, the owner or the creator.
    ///
    /// # Conditions
    ///
    /// - Both counts are below 2^63.
    pub fn remove(&mut self, id: i32, cred: Cred) -> Result<Discarded, Errno>
        requires arrived { self.old.arrived < 2 ^ 63 }
        requires freed { self.old.freed < 2 ^ 63 }
        ensures turn { MakesTurn self.old (Remove id cred)
            (remove_reply self.old.messages result) self.new }
        ensures blocks { IfOk result (λ discarded. discarded ≡ blocks_of self.old.messages) }
        ensures refused { OnErr result (self.new ≡ self.old) }
    {
        self.control(id, cred)?;
        let chain = self.messages.take_all();
        self.change_to(None);
        Ok(Discarded { chain })
    }

    /// Replaces the live queue, or removes it, and raises both counts by one.
    fn change_to(&mut self, live: Option<Attributes>)
        requires arrived { self.old.arrived < 2 ^ 63 }
        requires freed { self.old.freed < 2 ^ 63 }
        ensures { self.new ≡ record self.old {
          live = live;
          arrived = self.old.arrived + 1;
          freed = self.old.freed + 1;
        } }
    {
        self.live = live;
        self.arrived += 1;
        self.freed += 1;
    }

    /// Returns the number of queued messages, at most 256 (specific to this profile). It requires
    /// no permission.
    pub fn qnum(&self) -> u32
        ensures { result ≡ length self.now.messages }
    {
        self.messages.len() as u32
    }

    /// Returns the live queue's row in the list of queues, or `None` if no queue is live (specific
    /// to this profile). It requires no permission.
    pub fn row(&self) -> Option<Row>
        ensures turn { MakesTurn self.now ReadRow (Shown result) self.now }
    {
        match self.live {
            Some(queue) => Some(Row {
                id: queue.id,
                key: queue.key,
                uid: queue.perm.uid,
                mode: queue.perm.mode,
                cbytes: self.messages.bytes(),
                qnum: self.messages.len() as u32,
            }),
            None => None,
        }
    }

    /// Reports whether the caller could place a message of `size` bytes now (POSIX.1-2017,
    /// `msgsnd`).
    ///
    /// The result is `Gone` if the identifier is not live, otherwise `Denied` if write permission
    /// is not granted, otherwise `Full` or `Fits`.
    pub fn look(&self, id: i32, cred: Cred, size: usize) -> Look
        ensures turn { MakesTurn self.now (LookCall id cred size) (look_reply result) self.now }
    {
        self.find(id, cred, size)
    }

    /// Does what `look` does.
    fn find(&self, id: i32, cred: Cred, size: usize) -> Look
        ensures turn { MakesTurn self.now (LookCall id cred size) (look_reply result) self.now }
        ensures small { result ≡ Look.Fits → bytes_of self.now.messages + size < 2 ^ 32 }
    {
        match self.enter(id, cred, Want::Write) {
            Ok(queue) => {
                if self.has_room(queue.qbytes, size) {
                    Look::Fits
                } else {
                    Look::Full { freed: self.freed }
                }
            }
            Err(Barred::Gone) => Look::Gone,
            Err(Barred::Denied) => Look::Denied,
        }
    }

    /// Returns the live queue if it has this identifier and grants the access that the caller
    /// wants.
    fn enter(&self, id: i32, cred: Cred, want: Want) -> Result<Attributes, Barred>
        ensures enters { IfOk result (λ queue. (self.now.live ≡ Some queue) × HasId self.now.live id
            × IsGranted want cred self.now.live) }
        ensures barred { IfErr result (Bars id cred want self.now.live) }
    {
        match self.queue_of(id) {
            Some(queue) if may(cred, queue.perm, want) => Ok(queue),
            Some(_) => Err(Barred::Denied),
            None => Err(Barred::Gone),
        }
    }

    /// Returns the live queue if it has this identifier and the caller may change and remove it.
    fn control(&self, id: i32, cred: Cred) -> Result<Attributes, Errno>
        ensures controls { IfOk result (λ queue. (self.now.live ≡ Some queue)
            × HasId self.now.live id × MayControl cred self.now.live) }
        ensures barred { IfErr result (BarsControl id cred self.now.live) }
    {
        match self.queue_of(id) {
            Some(queue) if may_control(cred, queue.perm) => Ok(queue),
            Some(_) => Err(Errno::EPERM),
            None => Err(Errno::EINVAL),
        }
    }

    /// Returns the live queue if it has this identifier.
    fn queue_of(&self, id: i32) -> Option<Attributes>
        ensures { MatchOption result (¬ HasId self.now.live id) (λ queue.
            (self.now.live ≡ Some queue) × HasId self.now.live id) }
    {
        self.live.filter(|queue| queue.id == id)
    }

    /// Returns whether a message of `size` bytes fits on a queue with this limit.
    fn has_room(&self, qbytes: u32, size: usize) -> bool
        ensures room { IsTrue result ↔ FitsOn qbytes self.now.messages size }
        ensures small { IsTrue result → bytes_of self.now.messages + size < 2 ^ 32 }
    {
        let room = qbytes.checked_sub(self.messages.bytes());
        room.is_some_and(|room| size <= room as usize) && self.messages.len() < QUEUE_MESSAGES
    }

    /// Appends a message that fits.
    fn accept(&mut self, cred: Cred, mtype: i64, chain: Chain, size: usize, now: u64) -> u64
        requires few { length self.old.messages < QUEUE_MESSAGES }
        requires small { bytes_of self.old.messages + size < 2 ^ 32 }
        requires count { self.old.arrived < 2 ^ 63 }
        requires text { length chain.bytes ≡ size }
        requires blocks { chain.blocks ≡ blocks_for size }
        requires short { size ≤ most_bytes }
        ensures number { result ≡ self.old.arrived }
        ensures after { self.new ≡ record {
          live = option_map (sent_to cred now) self.old.live;
          messages = self.old.messages ++ record {
            number = self.old.arrived;
            sender = cred.pid;
            mtype = mtype;
            bytes = chain.bytes;
          } ∷ [];
          arrived = self.old.arrived + 1;
          freed = self.old.freed;
        } }
    {
        let number = self.arrived;
        self.messages.push(number, cred.pid, mtype, chain, size);
        self.arrived += 1;
        self.live = self.live.map(|queue| Attributes {
            lspid: cred.pid,
            stime: now,
            ..queue
        });
        number
    }

    /// Takes the message that `sel` names out of the slot if its body has at most `most` bytes.
    fn release<L: Ledger>(
        &mut self,
        cred: Cred,
        sel: Selector,
        most: usize,
        now: u64,
        steps: &mut Steps<L>,
    ) -> Result<Taken, NotTaken>
        requires count { self.old.freed < 2 ^ 63 }
        ensures taken { IfOk result (λ taken.
            IsTaken sel most self.old.messages taken self.new.messages) }
        ensures after { OnOk result (self.new ≡ record {
          live = option_map (received_from cred now) self.old.live;
          messages = self.new.messages;
          arrived = self.old.arrived;
          freed = self.old.freed + 1;
        }) }
        ensures refused { IfErr result (λ why. IsRefused sel most self.old.messages why) }
        ensures unchanged { OnErr result (self.new ≡ self.old) }
        ensures few { IsFoundByFew sel →
            steps.new ≤ steps.old + digits (length self.old.messages) + 2 }
        ensures some { 0 < length self.old.messages → steps.old < steps.new }
    {
        let message = self.messages.take(sel, most, steps)?;
        self.freed += 1;
        self.live = self.live.map(|queue| Attributes {
            lrpid: cred.pid,
            rtime: now,
            ..queue
        });
        Ok(Taken { message })
    }

    /// Accepts a message of type `mtype` at time `now`, in seconds, and returns its acceptance
    /// number, which is the arrived count before the call (POSIX.1-2017, `msgsnd`).
    ///
    /// `chain` holds the body of `size` bytes, 0 to 8,192. Any type is accepted; the caller must
    /// refuse the types that a send may not have. Allocates nothing.
    ///
    /// # Errors
    ///
    /// The first cause that applies is reported. The slot is unchanged, and the chain is handed
    /// back unchanged.
    ///
    /// - `Gone` if the identifier is not live.
    /// - `Denied` if write permission is not granted.
    /// - `Full` if the message does not fit on the queue.
    ///
    /// # Conditions
    ///
    /// - The body in the chain has `size` bytes.
    /// - The chain has exactly the number of blocks for a body of that size.
    /// - `size` is at most 8,192.
    /// - The arrived count is below 2^63.
    pub fn place(
        &mut self,
        id: i32,
        cred: Cred,
        mtype: i64,
        chain: Chain,
        size: usize,
        now: u64,
    ) -> Result<u64, PlaceRefused>
        requires count { self.old.arrived < 2 ^ 63 }
        requires text { length chain.bytes ≡ size }
        requires blocks { chain.blocks ≡ blocks_for size }
        requires short { size ≤ most_bytes }
        ensures turn { MakesTurn self.old (Place id cred mtype chain.bytes now)
            (place_reply result) self.new }
        ensures refused { IfErr result (λ e. (e.chain ≡ chain) × (self.new ≡ self.old)) }
    {
        match self.find(id, cred, size) {
            Look::Gone => Err(PlaceRefused {
                why: Unplaced::Gone,
                chain,
            }),
            Look::Denied => Err(PlaceRefused {
                why: Unplaced::Denied,
                chain,
            }),
            Look::Full { freed } => Err(PlaceRefused {
                why: Unplaced::Full { freed },
                chain,
            }),
            Look::Fits => Ok(self.accept(cred, mtype, chain, size, now)),
        }
    }

    /// Takes the message that `sel` names off the queue, at time `now`, in seconds (POSIX.1-2017,
    /// `msgrcv`).
    ///
    /// A message whose body is longer than `size` bytes is taken only if `noerror` is true. It is
    /// cut later, by `Taken::finish`. Allocates nothing.
    ///
    /// # Errors
    ///
    /// The first cause that applies is reported, and the slot is unchanged.
    ///
    /// - `Gone` if the identifier is not live.
    /// - `Denied` if read permission is not granted.
    /// - `NoMatch` if `sel` names no queued message.
    /// - `TooLong` if the body is longer than `size` bytes and `noerror` is false.
    ///
    /// # Conditions
    ///
    /// - The freed count is below 2^63.
    pub fn take(
        &mut self,
        id: i32,
        cred: Cred,
        sel: Selector,
        size: u32,
        noerror: bool,
        now: u64,
    ) -> Result<Taken, TakeRefused>
        requires { self.old.freed < 2 ^ 63 }
        ensures turn { MakesTurn self.old (Take id cred sel size noerror now)
            (take_reply result) self.new }
        ensures refused { OnErr result (self.new ≡ self.old) }
    {
        self.take_uncounted::<Brand>(id, cred, sel, size, noerror, now, Blank::new(1))
    }

    /// Does what `take` does, with a counter of its own that it discards.
    fn take_uncounted<L: Ledger>(
        &mut self,
        id: i32,
        cred: Cred,
        sel: Selector,
        size: u32,
        noerror: bool,
        now: u64,
        blank: Blank,
    ) -> Result<Taken, TakeRefused>
        requires count { self.old.freed < 2 ^ 63 }
        requires name { blank.name ≡ L.name }
        requires parts { blank.parts ≡ L.parts }
        requires some { 0 < blank.parts }
        ensures turn { MakesTurn self.old (Take id cred sel size noerror now)
            (take_reply result) self.new }
        ensures refused { OnErr result (self.new ≡ self.old) }
    {
        let mut steps = Steps::<L>::open(blank);
        self.take_counted(id, cred, sel, size, noerror, now, &mut steps)
    }

    /// Does what `take` does, and adds to `steps` the number of entries of the index that it read
    /// to find the message.
    ///
    /// For any message, an exact type or a bound, this is at most two more than the number of
    /// binary digits of the number of queued messages. With every selector it is at least one if a
    /// message is queued. It is none if the identifier is not live or read permission is not
    /// granted.
    ///
    /// # Errors
    ///
    /// The errors of `take`.
    ///
    /// # Conditions
    ///
    /// - The freed count is below 2^63.
    pub fn take_counted<L: Ledger>(
        &mut self,
        id: i32,
        cred: Cred,
        sel: Selector,
        size: u32,
        noerror: bool,
        now: u64,
        steps: &mut Steps<L>,
    ) -> Result<Taken, TakeRefused>
        requires { self.old.freed < 2 ^ 63 }
        ensures turn { MakesTurn self.old (Take id cred sel size noerror now)
            (take_reply result) self.new }
        ensures refused { OnErr result (self.new ≡ self.old) }
        ensures few { IsFoundByFew sel →
            steps.new ≤ steps.old + digits (length self.old.messages) + 2 }
        ensures some { ¬ IsBarred result → 0 < length self.old.messages → steps.old < steps.new }
        ensures none { IsBarred result → steps.new ≡ steps.old }
    {
        match self.enter(id, cred, Want::Read) {
            Ok(_) => {}
            Err(Barred::Gone) => return Err(TakeRefused::Gone),
            Err(Barred::Denied) => return Err(TakeRefused::Denied),
        }
        match self.release(cred, sel, most_taken(size, noerror), now, steps) {
            Ok(taken) => Ok(taken),
            Err(NotTaken::NoneQualifies) => Err(TakeRefused::NoMatch {
                arrived: self.arrived,
            }),
            Err(NotTaken::TooLong) => Err(TakeRefused::TooLong),
        }
    }

    /// Ends the slot and returns one chain with the blocks of all queued messages and no body.
    /// Allocates nothing.
    pub fn end(self) -> Chain
        ensures { result ≡ record { blocks = blocks_of self.messages; bytes = [] } }
    {
        let QueueSlot {
            live: _,
            messages,
            arrived: _,
            freed: _,
        } = self;
        messages.end()
    }

    /// Returns the arrived count and the freed count. Neither ever falls.
    pub fn counts(&self) -> (u64, u64)
        ensures arrived { result.0 ≡ self.now.arrived }
        ensures freed { result.1 ≡ self.now.freed }
    {
        (self.arrived, self.freed)
    }
}

/// Returns the maximum length of a body that a receive of `size` bytes takes. It is 8,192, the
/// limit of every body, if the body may be cut.
fn most_taken(size: u32, noerror: bool) -> usize
    ensures whole { noerror ≡ false → result ≡ size }
    ensures cut { noerror ≡ true → result ≡ most_bytes }
{
    if noerror {
        MESSAGE_BYTES
    } else {
        size as usize
    }
}

/// Returns whether the queue grants the caller the access that the flags request.
fn may_as_asked(cred: Cred, queue: Attributes, flags: Flags) -> bool
    ensures { IsTrue result ↔ MayAsAsked flags cred (Some queue) }
{
    let asked = flags.bits();
    let read = asked & 0o444 == 0 || may(cred, queue.perm, Want::Read);
    let write = asked & 0o222 == 0 || may(cred, queue.perm, Want::Write);
    read && write
}
