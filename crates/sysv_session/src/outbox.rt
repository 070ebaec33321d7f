//! Replies that a connection has not taken yet.
ghost use Rattle.std.specs.Prelude.{◌≡◌, ◌≤◌, ◌<◌, ◌+◌, ◌-◌, ◌^◌, ◌++◌, [], cond, drop, length, map, IfErr, OnErr, OnOk};
ghost use Rattle.sysv_model.specs.declared.limits.TheConstants.{MESSAGE_BYTES};
ghost use Rattle.sysv_queue.specs.Tally.{taken_in};
ghost use Rattle.sysv_session.specs.Answers.{message_reply as the_reply};
ghost use Rattle.sysv_session.specs.Layout.{IsAscending, begins_passed as is_begun, unspent};
ghost use Rattle.sysv_session.specs.Outbox.{at_end, more_lost, more_written, nearer, passed, with_frame, with_message, without};
ghost use Rattle.sysv_wire.specs.Replies.{IsAnswer, reply_encoding};

use crate::turn::message_reply;
use std::alloc::{AllocFailed, Global};
use std::collections::VecDeque;
use std::marker::Model;
use sysv_model::{Body, Instrumented, NoMemory};
use sysv_queue::{Delivery, Tally};
use sysv_wire::{Reply, Version, WriteFault, write_reply};

/// Replies that a connection has not taken yet, and the deliveries of the messages in them.
///
/// Put replies into it with `put` and `put_message`, give `unsent` to the connection, and report
/// with `sent` how many bytes it took. Each delivery is spent once: as written as soon as the
/// connection has taken a byte after its frame; or by `end`, as written or as lost.
///
/// An outbox can be neither dropped nor copied. Spend it with `end`.
pub struct Outbox {
    /// Bytes that the connection has taken, and then those that it has not.
    bytes: Vec<u8>,
    /// The number of those that it has taken.
    taken: usize,
    /// The deliveries, in the order of their frames.
    marks: VecDeque<Mark>,
}

impl Model for Outbox {
    ghost use Rattle.std.specs.Prelude.{drop, length, map};
    ghost use Rattle.sysv_session.specs.Layout.{InOrder};
    ghost use Rattle.sysv_session.specs.Outbox.{Unsent, nearer};

    ghost Value = { Unsent };

    ghost view = { λ o. record {
      bytes = drop o.taken o.bytes.items;
      marks = map (nearer o.taken) o.marks.items;
    } };

    ghost invariant = { λ o. InOrder o.taken o.marks.items (length o.bytes.items) };
}

/// The number of bytes, and the number of deliveries, for which an outbox keeps its memory once the
/// connection has taken everything.
const KEPT_BYTES: usize = 512;

const KEPT_MARKS: usize = 4;

/// The maximum number of bytes for which an outbox reserves memory before there are replies.
const MOST_EXPECTED: usize = 4_096;

/// The number of bytes of requests for each of which it reserves memory for a delivery.
const BYTES_EACH: usize = 64;

/// A delivery whose frame ends in an outbox.
struct Mark {
    /// The number of bytes up to the end of the frame, including those that were taken.
    ends: usize,
    delivery: Delivery,
}

impl Model for Mark {
    ghost use Rattle.sysv_session.specs.Outbox.{Mark as Marked};

    ghost Value = { Marked };

    ghost view = { λ m. record { ends = m.ends; given = m.delivery } };
}

impl Outbox {
    /// Creates an outbox without replies. Allocates nothing.
    pub fn open(alloc: Global) -> Outbox
        ensures { result ≡ record { bytes = []; marks = [] } }
    {
        Outbox {
            bytes: Vec::new(alloc),
            taken: 0,
            marks: VecDeque::new(alloc),
        }
    }

    /// Returns the bytes that the connection has not taken yet.
    pub fn unsent(&self) -> &[u8]
        ensures { result.now ≡ self.now.bytes }
    {
        &self.bytes[self.taken..]
    }

    /// Reserves memory for the replies to requests of `count` bytes, so that it is not allocated
    /// again and again for many small replies. Does nothing for a few requests, or if memory is
    /// refused: each reply then allocates what it needs.
    pub fn make_room(&mut self, count: usize)
        ensures { self.new ≡ self.old }
    {
        if count <= KEPT_BYTES {
            return;
        }
        let most = count.min(MOST_EXPECTED);
        if self.bytes.reserve(most).is_ok() {
            let _has_marks = self.marks.reserve(most / BYTES_EACH).is_ok();
        }
    }

    /// Appends the frame of a reply. If the reply carries a message, its body is `text`; for any
    /// other reply `text` is ignored.
    ///
    /// # Errors
    ///
    /// - `NoMemory` if allocation fails. The outbox is unchanged.
    ///
    /// # Conditions
    ///
    /// - The reply is one that its operation has in its version.
    /// - `text` has at most 8,192 bytes.
    pub fn put(&mut self, reply: &Reply, text: &Body) -> Result<(), NoMemory>
        requires answer { IsAnswer reply.now.version reply.now.op reply.now.result }
        requires text { length text.now ≤ MESSAGE_BYTES }
        ensures ok { OnOk result
            (self.new ≡ with_frame (reply_encoding reply.now text.now) self.old) }
        ensures err { OnErr result (self.new ≡ self.old) }
    {
        append(&mut self.bytes, reply, text)
    }

    /// Appends the frame of the reply to a receive, and keeps its delivery. `given` is the body of
    /// the message.
    ///
    /// # Errors
    ///
    /// - `AllocFailed` with the delivery if allocation fails. The outbox is unchanged.
    ///
    /// # Conditions
    ///
    /// - `given` has at most 8,192 bytes.
    #[inline(always)]
    pub fn put_message(
        &mut self,
        version: Version,
        delivery: Delivery,
        given: &Body,
    ) -> Result<(), AllocFailed<Delivery>>
        requires text { length given.now ≤ MESSAGE_BYTES }
        ensures ok { OnOk result (self.new ≡ with_message (reply_encoding
            (the_reply version delivery.mtype) given.now) delivery self.old) }
        ensures err { OnErr result (self.new ≡ self.old) }
        ensures returned { IfErr result (λ failed. failed.value ≡ delivery) }
    {
        let reply = message_reply(version, &delivery);
        if self.marks.reserve(1).is_err() || append(&mut self.bytes, &reply, given).is_err() {
            return Err(AllocFailed { value: delivery });
        }
        let ends = self.bytes.len();
        self.marks.push_back_reserved(Mark { ends, delivery });
        Ok(())
    }

    /// Removes the first `n` bytes, which the connection has taken, and spends as written each
    /// delivery whose frame ends before the last of them. If a frame ends with the last of them,
    /// its delivery is kept: a reset of the connection would show that the client has not read it.
    ///
    /// # Conditions
    ///
    /// - There are at least `n` bytes.
    /// - The tally can count one more message for each delivery in the outbox.
    pub fn sent(&mut self, n: usize, tally: &mut Tally)
        requires some { n ≤ length self.old.bytes }
        requires room { taken_in tally.old + length self.old.marks < 2 ^ 64 }
        ensures after { self.new ≡ without n self.old }
        ensures tally { tally.new ≡ more_written (passed n self.old.marks) tally.old }
        // Each delivery is in the outbox, or was counted once.
        ensures each { taken_in tally.new + length self.new.marks
            ≡ taken_in tally.old + length self.old.marks }
    {
        self.taken += n;
        spend_written(&mut self.marks, self.taken, tally);
        self.remove_taken();
    }

    /// Removes the bytes that were taken, if they are at least as many as those that are left. So a
    /// byte is moved at most once for each byte that is taken.
    fn remove_taken(&mut self)
        ensures { self.new ≡ self.old }
    {
        if self.taken < self.bytes.len() - self.taken {
            return;
        }
        remove_front(&mut self.bytes, self.taken);
        bring_nearer(&mut self.marks, self.taken);
        self.taken = 0;
        if self.bytes.is_empty() {
            self.free_memory();
        }
    }

    /// Frees the memory of a large outbox.
    fn free_memory(&mut self)
        ensures { self.new ≡ self.old }
    {
        if self.bytes.capacity() > KEPT_BYTES {
            self.bytes.shrink_to_fit();
        }
        if self.marks.capacity() > KEPT_MARKS {
            self.marks.shrink_to_fit();
        }
    }

    /// Ends the outbox, and spends each delivery in it: as written if the connection has taken its
    /// frame whole, and else as lost. After a reset of the connection all are lost, since the
    /// client has not read the last byte that the connection took.
    ///
    /// # Conditions
    ///
    /// - The tally can count one more message for each delivery in the outbox.
    pub fn end(self, is_reset: bool, tally: &mut Tally)
        requires room { taken_in tally.old + length self.marks < 2 ^ 64 }
        ensures tally { tally.new ≡ at_end is_reset self.marks tally.old }
    {
        let Outbox {
            bytes: _,
            taken,
            mut marks,
        } = self;
        spend_written(&mut marks, whole_before(is_reset, taken), tally);
        spend_lost(marks, tally);
    }
}

/// Returns the place before which a frame ends whose delivery counts as written at the end, if this
/// number of bytes was taken.
fn whole_before(is_reset: bool, taken: usize) -> usize
    requires { taken < 2 ^ 64 - 1 }
    ensures { result ≡ cond is_reset 0 (taken + 1) }
{
    if is_reset { 0 } else { taken + 1 }
}

/// Spends all deliveries as lost.
fn spend_lost(marks: VecDeque<Mark>, tally: &mut Tally)
    requires room { taken_in tally.old + length marks.items < 2 ^ 64 }
    ensures tally { tally.new ≡ more_lost (length marks.items) tally.old }
{
    let mut marks = marks;
    while let Some(Mark { ends: _, delivery }) = marks.pop_front() {
        delivery.lost(tally);
    }
    marks.destroy_empty();
}

/// Spends as written each delivery whose frame ends before place `n`. Only these are examined, and
/// the next one.
fn spend_written(marks: &mut VecDeque<Mark>, n: usize, tally: &mut Tally)
    requires order { IsAscending marks.old.items }
    requires room { taken_in tally.old + length marks.old.items < 2 ^ 64 }
    ensures marks { marks.new.items ≡ unspent n marks.old.items }
    ensures tally { tally.new ≡ more_written (passed n marks.old.items) tally.old }
{
    while begins_passed(marks, n) {
        let Some(Mark { ends: _, delivery }) = marks.pop_front() else {
            unreachable!()
        };
        delivery.written(tally);
    }
}

/// Returns whether the first delivery's frame ends before place `n`.
fn begins_passed(marks: &VecDeque<Mark>, n: usize) -> bool
    ensures { result ≡ is_begun n marks.now.items }
{
    match marks.front() {
        Some(mark) => mark.ends < n,
        None => false,
    }
}

/// Removes the first `n` bytes.
fn remove_front(bytes: &mut Vec<u8>, n: usize)
    requires { n ≤ length bytes.old.items }
    ensures { bytes.new.items ≡ drop n bytes.old.items }
{
    if n == bytes.len() {
        bytes.clear();
    } else {
        bytes.drain(..n);
    }
}

/// Brings all marks `n` bytes nearer.
fn bring_nearer(marks: &mut VecDeque<Mark>, n: usize)
    ensures { marks.new.items ≡ map (nearer n) marks.old.items }
{
    for _ in 0..marks.len() {
        let Some(Mark { ends, delivery }) = marks.pop_front() else {
            unreachable!()
        };
        marks.push_back_reserved(Mark {
            ends: ends.saturating_sub(n),
            delivery,
        });
    }
}

/// Appends the frame of a reply. After an error the bytes are unchanged.
#[inline(always)]
fn append(bytes: &mut Vec<u8>, reply: &Reply, text: &Body) -> Result<(), NoMemory>
    requires answer { IsAnswer reply.now.version reply.now.op reply.now.result }
    requires text { length text.now ≤ MESSAGE_BYTES }
    ensures ok { OnOk result
        (bytes.new.items ≡ bytes.old.items ++ reply_encoding reply.now text.now) }
    ensures err { OnErr result (bytes.new.items ≡ bytes.old.items) }
{
    let before = bytes.len();
    match write_reply(&mut Instrumented::new(bytes), reply, text) {
        Ok(()) => Ok(()),
        Err(WriteFault) => {
            bytes.truncate(before);
            Err(NoMemory)
        }
    }
}
