//! The handler of a session over a service.

ghost use Rattle.std.specs.Prelude.{◌≡◌, ◌≢◌, ◌≤◌, ℕ, List, [], Some};
ghost use Rattle.sysv_model.specs.Instrumented.{stream_of, KeepsStream};
ghost use Rattle.sysv_service.specs.Seats.{AreOf};
ghost use Rattle.sysv_session.specs.Answers.{MayAnswer};
ghost use Rattle.sysv_session.specs.Parse.{Parse, Follows, Takes};
ghost use Rattle.sysv_session.specs.Failing.{is_failed_read, is_failed_write};
ghost use Rattle.sysv_seats.specs.Asked.{Gets, Sends, Receives, Stats, Sets, Removes, ServesPass, Shows};
ghost use Rattle.sysv_seats.specs.Replies.{reply as the_reply, shown_stat as stat_shown, shown_row as row_shown};

use std::alloc::Global;
use std::io::{Read, Write};
use std::sync::Wait;
use sysv_keys::SLOTS;
use sysv_model::{Body, Cred, Errno, Flags, Instrumented, Row, SetTo, Stat};
use sysv_service::{Clock, Pass, Service};
use sysv_session::{End, Handler, RequestOutcome, Served, Texts, serve_instrumented};
use sysv_wire::{Ask, MAX_MODE, Op, Reply, ReplyContent, Request, Version};

/// The handler of one session over a service. Each request, except one for a row, is one call of
/// the service.
///
/// It has a pass of its own, a clock for the times of its calls, and the handle to wait. A handler
/// can be neither dropped nor copied; end it with `into_pass`.
pub struct ServiceHandler<'a, C: Clock, R: Wait> {
    pub(crate) rt: &'a R,
    pub(crate) service: &'a Service,
    pub(crate) clock: &'a C,
    pub(crate) pass: Pass,
    ghost fits: { AreOf service.now pass.seats },
}

impl<'a, C: Clock, R: Wait> ServiceHandler<'a, C, R> {
    ghost use Rattle.sysv_seats.specs.HandlesKept.{KeepsHandles};

    /// Creates a handler that calls `service` with `pass`.
    ///
    /// # Conditions
    ///
    /// - `pass` is a pass of `service`.
    pub fn new(
        rt: &'a R,
        service: &'a Service,
        clock: &'a C,
        pass: Pass,
    ) -> ServiceHandler<'a, C, R>
        requires { AreOf service.now pass.seats }
        ensures service { result.service.now ≡ service.now }
        ensures clock { result.clock.now ≡ clock.now }
        ensures pass { result.pass ≡ pass }
    {
        ServiceHandler {
            rt,
            service,
            clock,
            pass,
        }
    }

    /// Runs one session with this handler, like `sysv_session::serve_instrumented`. Allocates
    /// nothing for the session.
    ///
    /// The reply to a hello of version 2 states `sysv_keys::SLOTS` slots.
    ///
    /// The reader fails if and only if the session ends with `Fault(Read)`, and the writer fails if
    /// and only if it ends with `Write`.
    pub fn serve_instrumented<I: Read, O: Write>(
        &mut self,
        texts: &mut Texts,
        reader: &mut Instrumented<'_, I>,
        writer: &mut Instrumented<'_, O>,
    ) -> Served
        ensures serves { ServesPass (C.may self.old.clock.now) ⊥ result self.old.pass
            self.new.pass (I.remaining (stream_of reader.old)) (I.remaining (stream_of reader.new))
            (O.contents (stream_of writer.old)) (O.contents (stream_of writer.new)) }
        // The session ends as its input determines, unless it is cut short.
        ensures only { (input : List ℕ) (parse : Parse) →
            I.remaining (stream_of reader.old) ≡ Some input → Takes Version.Two input parse →
            Follows parse result }
        ensures memory { result.«end» ≢ End.NoMemory }
        // The streams stay the same, and each fails in this call if and only if the end says so.
        ensures reader { KeepsStream reader.old reader.new (is_failed_read result.«end») }
        ensures writer { KeepsStream writer.old writer.new (is_failed_write result.«end») }
        ensures handles { KeepsHandles self.old self.new }
    {
        serve_instrumented(texts, reader, writer, self)
    }

    /// Returns the number of blocks that the calls of this handler's pass reserved and did not
    /// release, modulo 2^64, like `Pass::blocks_in_use`.
    pub fn blocks_in_use(&self) -> u64 {
        self.pass.blocks_in_use()
    }

    /// Ends the handler and returns its pass.
    pub fn into_pass(self) -> Pass
        ensures pass { result ≡ self.entry.pass }
        ensures fits { AreOf self.entry.service.now result.seats }
    {
        let ServiceHandler {
            rt: _,
            service: _,
            clock: _,
            pass,
        } = self;
        pass
    }

    /// Makes a `msgget`, and returns the reply with its result.
    fn get(&mut self, version: Version, cred: Cred, key: i32, flags: Flags) -> RequestOutcome
        ensures gets { Gets (C.may self.old.clock.now) ⊥ version cred key flags self.old.pass
            result self.new.pass }
        ensures answer { MayAnswer version (Ask.Get key flags) result [] }
        ensures handles { KeepsHandles self.old self.new }
    {
        let told = self
            .service
            .msgget(self.rt, &mut self.pass, self.clock, cred, key, flags);
        match told {
            Ok(id) => reply(version, Op::Get, ReplyContent::Get { id }),
            Err(why) => reply(version, Op::Get, ReplyContent::Refused(why)),
        }
    }

    /// Makes a `msgsnd` of the body, and returns the reply with its result.
    fn send(
        &mut self,
        version: Version,
        cred: Cred,
        id: i32,
        mtype: i64,
        flags: Flags,
        text: &Body,
    ) -> RequestOutcome
        ensures sends { Sends (C.may self.old.clock.now) ⊥ version cred id mtype flags text.now
            self.old.pass result self.new.pass }
        ensures answer { MayAnswer version (Ask.Snd id mtype flags) result [] }
        ensures handles { KeepsHandles self.old self.new }
    {
        let pass = &mut self.pass;
        let told = self
            .service
            .msgsnd(self.rt, pass, self.clock, cred, id, mtype, text, flags);
        match told {
            Ok(()) => reply(version, Op::Snd, ReplyContent::Snd),
            Err(why) => reply(version, Op::Snd, ReplyContent::Refused(why)),
        }
    }

    /// Makes a `msgrcv` into `given`, and returns its message or the reply with its error.
    fn receive(
        &mut self,
        version: Version,
        cred: Cred,
        id: i32,
        size: u32,
        mtype: i64,
        flags: Flags,
        given: &mut Body,
    ) -> RequestOutcome
        ensures receives { Receives (C.may self.old.clock.now) ⊥ version cred id size mtype flags
            self.old.pass result given.new self.new.pass }
        ensures answer { MayAnswer version (Ask.Rcv id size mtype flags) result given.new }
        ensures handles { KeepsHandles self.old self.new }
    {
        let pass = &mut self.pass;
        let told = self.service.msgrcv(
            self.rt, pass, self.clock, cred, id, given, size, mtype, flags,
        );
        match told {
            Ok(delivery) => RequestOutcome::Got(delivery),
            Err(why) => reply(version, Op::Rcv, ReplyContent::Refused(why)),
        }
    }

    /// Makes a `msgctl` with `IPC_STAT`, and returns the reply with its result.
    fn stat(&mut self, version: Version, cred: Cred, id: i32) -> RequestOutcome
        ensures stats { Stats version cred id self.old.pass result self.new.pass }
        ensures answer { MayAnswer version (Ask.Stat id) result [] }
        ensures handles { KeepsHandles self.old self.new }
    {
        let told = self.service.msgctl_stat(self.rt, &mut self.pass, cred, id);
        match told {
            Ok(stat) => reply(version, Op::Stat, ReplyContent::Stat(shown_stat(stat))),
            Err(why) => reply(version, Op::Stat, ReplyContent::Refused(why)),
        }
    }

    /// Makes a `msgctl` with `IPC_SET`, and returns the reply with its result.
    fn set(&mut self, version: Version, cred: Cred, id: i32, to: SetTo) -> RequestOutcome
        ensures sets { Sets (C.may self.old.clock.now) version cred id to self.old.pass result
            self.new.pass }
        ensures answer { MayAnswer version (Ask.Set id to) result [] }
        ensures handles { KeepsHandles self.old self.new }
    {
        let told = self
            .service
            .msgctl_set(self.rt, &mut self.pass, self.clock, cred, id, to);
        match told {
            Ok(()) => reply(version, Op::Set, ReplyContent::Set),
            Err(why) => reply(version, Op::Set, ReplyContent::Refused(why)),
        }
    }

    /// Makes a `msgctl` with `IPC_RMID`, and returns the reply with its result.
    fn remove(&mut self, version: Version, cred: Cred, id: i32) -> RequestOutcome
        ensures removes { Removes version cred id self.old.pass result self.new.pass }
        ensures answer { MayAnswer version (Ask.Rm id) result [] }
        ensures handles { KeepsHandles self.old self.new }
    {
        let told = self.service.msgctl_rmid(self.rt, &mut self.pass, cred, id);
        match told {
            Ok(()) => reply(version, Op::Rm, ReplyContent::Rm),
            Err(why) => reply(version, Op::Rm, ReplyContent::Refused(why)),
        }
    }

    /// Reads the row of a slot, and returns the reply with the result.
    fn row(&mut self, version: Version, slot: u32) -> RequestOutcome
        ensures shows { Shows version slot self.old.pass result self.new.pass }
        ensures answer { MayAnswer version (Ask.Row slot) result [] }
        ensures handles { KeepsHandles self.old self.new }
    {
        let told = self.service.list_row(self.rt, &mut self.pass, slot);
        match told {
            Ok(Some(row)) => reply(version, Op::Row, ReplyContent::Row(Some(shown_row(row)))),
            Ok(None) => reply(version, Op::Row, ReplyContent::Row(None)),
            Err(why) => reply(version, Op::Row, ReplyContent::Refused(why)),
        }
    }
}

impl<C: Clock, R: Wait> Handler for ServiceHandler<'_, C, R> {
    ghost use Rattle.sysv_keys.specs.declared.identifier.TheConstants.{SLOTS};
    ghost use Rattle.sysv_seats.specs.Asked.{Asks};
    ghost use Rattle.sysv_seats.specs.HandlesKept.{KeepsHandles};

    ghost meaning = { λ old cred request text outcome given new. KeepsHandles old new
        × Asks (C.may old.clock.now) ⊥ request.version cred request.ask text old.pass outcome given
        new.pass };

    ghost slots = { λ _. SLOTS };

    fn slots(&self) -> u32 {
        SLOTS as u32
    }

    fn call(
        &mut self,
        cred: Cred,
        request: &Request,
        text: &Body,
        given: &mut Body,
    ) -> RequestOutcome {
        let version = request.version;
        match request.ask {
            Ask::Hello(_) => unreachable!(),
            Ask::Get { key, flags } => self.get(version, cred, key, flags),
            Ask::Snd { id, mtype, flags } => self.send(version, cred, id, mtype, flags, text),
            Ask::Rcv {
                id,
                size,
                mtype,
                flags,
            } => self.receive(version, cred, id, size, mtype, flags, given),
            Ask::Stat { id } => self.stat(version, cred, id),
            Ask::Set { id, to } => self.set(version, cred, id, to),
            Ask::Rm { id } => self.remove(version, cred, id),
            Ask::Row { slot } => self.row(version, slot),
            Ask::Hold { .. } => refuse_hold(version, Op::Hold),
            Ask::Done => refuse_hold(version, Op::Done),
            Ask::Back => refuse_hold(version, Op::Back),
        }
    }
}

/// Refuses an operation on a held message, for which a handler has no memory.
fn refuse_hold(version: Version, op: Op) -> RequestOutcome
    ensures { result ≡ the_reply version op (ReplyContent.Refused Errno.EINVAL) }
{
    reply(version, op, ReplyContent::Refused(Errno::EINVAL))
}

/// Returns the reply of an operation, in the version of its request.
pub(crate) fn reply(version: Version, op: Op, content: ReplyContent) -> RequestOutcome
    ensures { result ≡ the_reply version op content }
{
    RequestOutcome::Reply(Reply {
        version,
        op: op.number(),
        result: content,
    })
}

/// Returns the attributes as a reply has them, with only the low nine bits of the mode.
fn shown_stat(mut stat: Stat) -> Stat
    ensures shown { result ≡ stat_shown stat }
    ensures mode { result.perm.mode ≤ MAX_MODE }
{
    stat.perm.mode &= MAX_MODE;
    stat
}

/// Returns the row as a reply has it, with only the low nine bits of the mode.
fn shown_row(mut row: Row) -> Row
    ensures shown { result ≡ row_shown row }
    ensures mode { result.mode ≤ MAX_MODE }
{
    row.mode &= MAX_MODE;
    row
}
