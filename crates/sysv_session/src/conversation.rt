//! A session whose replies are gathered.
ghost use Rattle.std.specs.Prelude.{◌≡◌, ◌≤◌, ◌<◌, ◌+◌, ◌-◌, ◌^◌, ◌==◌, [], None, false, length, IfErr, OnErr, OnOk};
ghost use Rattle.sysv_model.specs.Instrumented.{stream_of, KeepsStream};
ghost use Rattle.sysv_model.specs.declared.limits.TheConstants.{MESSAGE_BYTES};
ghost use Rattle.sysv_queue.specs.Tally.{taken_in};
ghost use Rattle.sysv_session.specs.Answers.{HasAnswer};
ghost use Rattle.sysv_session.specs.Conversation.{HasRoom, Puts, gathered, report, sent_on};
ghost use Rattle.sysv_session.specs.Failing.{ends_by_read, ends_by_write, is_reset as reset};
ghost use Rattle.sysv_session.specs.Outbox.{with_frame};
ghost use Rattle.sysv_session.specs.Output.{hello_frame};
ghost use Rattle.sysv_session.specs.TakenUp.{TakesUp};

use crate::handler::RequestOutcome;
use crate::outbox::Outbox;
use crate::served::{End, Served};
use crate::session::{Session, TakenUp};
use crate::turn::hello_reply;
use std::alloc::{AllocFailed, Global};
use std::io::Read;
use std::marker::Model;
use sysv_model::{Body, Instrumented, NoMemory};
use sysv_wire::Version;

/// A pending session, and the replies that its connection has not taken yet.
///
/// It takes up requests from what has arrived of the input. Give `unsent` to the connection, and
/// report with `sent` how many bytes it took.
///
/// A conversation can be neither dropped nor copied. Spend it with `end`.
pub struct Conversation {
    session: Session,
    outbox: Outbox,
}

impl Model for Conversation {
    ghost use Rattle.sysv_session.specs.Conversation.{Dialogue};

    ghost Value = { Dialogue };

    ghost view = { λ c. record { session = c.session; unsent = c.outbox } };
}

impl Conversation {
    /// Returns a conversation that has taken up nothing. It reads versions up to `newest`.
    /// Allocates nothing.
    pub fn open(alloc: Global, newest: Version) -> Conversation
        ensures newest { result.session.newest ≡ newest }
        ensures caller { result.session.caller ≡ None }
        ensures tally { result.session.tally ≡ record { written = 0; lost = 0 } }
        ensures count { result.session.requests ≡ 0 }
        ensures unsent { result.unsent ≡ record { bytes = []; marks = [] } }
    {
        Conversation {
            session: Session::open(newest),
            outbox: Outbox::open(alloc),
        }
    }

    /// Returns the newest version that the session reads.
    pub fn newest(&self) -> Version
        ensures { result ≡ self.now.session.newest }
    {
        self.session.newest
    }

    /// Takes up what the input holds next, like `Session::take_up`. `text` is then the body of the
    /// request.
    ///
    /// # Errors
    ///
    /// Those of `Session::take_up`. The conversation is unchanged.
    #[inline(always)]
    pub fn take_up<R: Read>(
        &mut self,
        reader: &mut Instrumented<'_, R>,
        text: &mut Body,
    ) -> Result<TakenUp, End>
        ensures takes { TakesUp self.old.session self.new.session result
            (R.remaining (stream_of reader.old)) (R.remaining (stream_of reader.new)) text.new }
        ensures unsent { self.new.unsent ≡ self.old.unsent }
        ensures reader { KeepsStream reader.old reader.new (ends_by_read result) }
        ensures write { ends_by_write result ≡ false }
    {
        self.session.take_up(reader, text)
    }

    /// Reserves memory for the replies to requests of `count` bytes, as `Outbox::make_room` does.
    pub fn make_room(&mut self, count: usize)
        ensures { self.new ≡ self.old }
    {
        self.outbox.make_room(count);
    }

    /// Gathers the reply to a hello of this version. `text` is ignored.
    ///
    /// # Errors
    ///
    /// - `NoMemory` if allocation fails. The conversation is unchanged.
    ///
    /// # Conditions
    ///
    /// - `text` has at most 8,192 bytes.
    pub fn greet(&mut self, version: Version, slots: u32, text: &Body) -> Result<(), End>
        requires text { length text.now ≤ MESSAGE_BYTES }
        ensures ok { OnOk result
            (self.new ≡ gathered (with_frame (hello_frame version slots)) self.old) }
        ensures err { OnErr result (self.new ≡ self.old) }
        ensures why { IfErr result (λ why. why ≡ End.NoMemory) }
    {
        let reply = hello_reply(version, slots);
        match self.outbox.put(&reply, text) {
            Ok(()) => Ok(()),
            Err(NoMemory) => Err(End::NoMemory),
        }
    }

    /// Gathers the reply of a call's outcome in this version. `given` is its body.
    ///
    /// # Errors
    ///
    /// - `NoMemory` if allocation fails. No reply was gathered, and a message counts as lost.
    /// - `Left` if the call was left. The conversation is unchanged.
    ///
    /// # Conditions
    ///
    /// - A reply in the outcome is one that its operation has in its version.
    /// - `given` has at most 8,192 bytes.
    /// - The tally can count one more message.
    #[inline(always)]
    pub fn put(
        &mut self,
        version: Version,
        outcome: RequestOutcome,
        given: &Body,
    ) -> Result<(), End>
        requires reply { HasAnswer outcome }
        requires text { length given.now ≤ MESSAGE_BYTES }
        requires room { taken_in self.old.session.tally < 2 ^ 64 - 1 }
        ensures { Puts result version outcome given.now self.old self.new }
    {
        match outcome {
            RequestOutcome::Reply(reply) => match self.outbox.put(&reply, given) {
                Ok(()) => Ok(()),
                Err(NoMemory) => Err(End::NoMemory),
            },
            RequestOutcome::Got(delivery) => {
                match self.outbox.put_message(version, delivery, given) {
                    Ok(()) => Ok(()),
                    Err(AllocFailed { value }) => {
                        value.lost(&mut self.session.tally);
                        Err(End::NoMemory)
                    }
                }
            }
            RequestOutcome::Left => Err(End::Left),
        }
    }

    /// Returns the bytes that the connection has not taken yet.
    pub fn unsent(&self) -> &[u8]
        ensures { result.now ≡ self.now.unsent.bytes }
    {
        self.outbox.unsent()
    }

    /// Returns the number of bytes that the connection has not taken yet.
    pub fn waiting_bytes(&self) -> usize
        ensures { result ≡ length self.now.unsent.bytes }
    {
        self.outbox.unsent().len()
    }

    /// Returns whether the connection has taken all bytes.
    pub fn is_empty(&self) -> bool
        ensures { result ≡ (length self.now.unsent.bytes == 0) }
    {
        self.outbox.unsent().is_empty()
    }

    /// Removes the first `n` bytes, which the connection has taken, and counts as written each
    /// message whose frame ends before the last of them.
    ///
    /// # Conditions
    ///
    /// - There are at least `n` bytes.
    /// - The tally can count one more message for each that is in the outbox.
    pub fn sent(&mut self, n: usize)
        requires some { n ≤ length self.old.unsent.bytes }
        requires room { HasRoom self.old }
        ensures { self.new ≡ sent_on n self.old }
    {
        self.outbox.sent(n, &mut self.session.tally);
    }

    /// Ends the session for this reason, and returns what it did. Messages that the connection has
    /// not taken whole count as lost; after a reset, also the one whose frame ends with the last
    /// byte that it took, if there is one. If it has not taken all bytes, the session ends with
    /// `Write`.
    ///
    /// # Conditions
    ///
    /// - The tally can count one more message for each that is in the outbox.
    pub fn end(self, why: End) -> Served
        requires room { HasRoom self }
        ensures { result ≡ report why self }
    {
        let Conversation {
            mut session,
            outbox,
        } = self;
        let is_reset = is_reset(why);
        let why = if outbox.unsent().is_empty() {
            why
        } else {
            End::Write
        };
        outbox.end(is_reset, &mut session.tally);
        session.end(why)
    }
}

/// Returns whether the session ends because the client reset the connection.
fn is_reset(why: End) -> bool
    ensures { result ≡ reset why }
{
    match why {
        End::Reset => true,
        _ => false,
    }
}
