//! The calls of a handler in pieces.

ghost use Rattle.std.specs.Prelude.{◌≡◌, ◌≢◌, ◌≤◌, ℕ, List, [], length};
ghost use Rattle.sysv_model.specs.declared.limits.TheConstants.{MESSAGE_BYTES};
ghost use Rattle.sysv_service.specs.Ran.{Pass as Seen};
ghost use Rattle.sysv_wire.specs.Requests.{op_of};
ghost use Rattle.sysv_seats.specs.Held.{AsksForWriting};
ghost use Rattle.sysv_seats.specs.Parked.{GoesOn, HasBegun, IsParked, IsWaitOf, MayProgress, get_progress, receive_progress, send_progress};

use crate::handler::{ServiceHandler, reply};
use crate::waiting::Waiting;
use std::sync::Wait;
use sysv_model::{Body, Cred, Errno, Flags};
use sysv_queue::Delivery;
use sysv_rules::{Want, may};
use sysv_service::{Clock, GetWait, Progress, ReceiveWait, SendWait};
use sysv_session::{Handler, RequestOutcome};
use sysv_wire::{Ask, Op, ReplyContent, Request, Version};

impl<'a, C: Clock, R: Wait> ServiceHandler<'a, C, R> {
    ghost use Rattle.sysv_seats.specs.HandlesKept.{KeepsHandles};

    /// Begins a request. A get, a send and a receive make their steps until they wait or are over,
    /// and never sleep until a count changes. Any other request never waits for a count, and is
    /// carried out as by `call`.
    ///
    /// `cred`, `text` and `given` are those of `call`. If the request waits, `given` is empty, and
    /// `go_on` continues it with the same `request` and `text`. To give it up, drop the wait.
    ///
    /// # Conditions
    ///
    /// - `request` is not a hello.
    /// - `given` is empty.
    #[inline(always)]
    pub fn begin(
        &mut self,
        cred: Cred,
        request: &Request,
        text: &Body,
        given: &mut Body,
    ) -> Progress<Waiting, RequestOutcome>
        requires asked { op_of request.now.ask ≢ Op.Hello }
        requires empty { given.old ≡ [] }
        ensures begun { HasBegun (C.may self.old.clock.now) request.now.version cred request.now.ask
            text.now self.old.pass result given.new self.new.pass }
        ensures answer { MayProgress request.now.version request.now.ask result given.new }
        ensures handles { KeepsHandles self.old self.new }
    {
        let version = request.version;
        match request.ask {
            Ask::Get { key, flags } => self.begin_get(version, cred, key, flags),
            Ask::Snd { id, mtype, flags } => self.begin_send(version, cred, id, mtype, flags, text),
            Ask::Rcv {
                id,
                size,
                mtype,
                flags,
            } => self.begin_receive(version, cred, id, size, mtype, flags, given),
            _whole => Progress::Over(self.call(cred, request, text, given)),
        }
    }

    /// Begins a `msgget`.
    fn begin_get(
        &mut self,
        version: Version,
        cred: Cred,
        key: i32,
        flags: Flags,
    ) -> Progress<Waiting, RequestOutcome>
        ensures begun { (text : List ℕ) → HasBegun (C.may self.old.clock.now) version cred
            (Ask.Get key flags) text self.old.pass result [] self.new.pass }
        ensures answer { MayProgress version (Ask.Get key flags) result [] }
        ensures handles { KeepsHandles self.old self.new }
    {
        let pass = &mut self.pass;
        let came = self
            .service
            .msgget_begin(self.rt, pass, self.clock, cred, key, flags);
        get_came(version, came)
    }

    /// Begins a `msgsnd` of the body.
    #[inline(always)]
    pub(crate) fn begin_send(
        &mut self,
        version: Version,
        cred: Cred,
        id: i32,
        mtype: i64,
        flags: Flags,
        text: &Body,
    ) -> Progress<Waiting, RequestOutcome>
        ensures begun { HasBegun (C.may self.old.clock.now) version cred (Ask.Snd id mtype flags)
            text.now self.old.pass result [] self.new.pass }
        ensures answer { MayProgress version (Ask.Snd id mtype flags) result [] }
        ensures handles { KeepsHandles self.old self.new }
    {
        let pass = &mut self.pass;
        let came = self
            .service
            .msgsnd_begin(self.rt, pass, self.clock, cred, id, mtype, text, flags);
        send_came(version, came)
    }

    /// Begins a `msgrcv` into `given`.
    #[inline(always)]
    pub(crate) fn begin_receive(
        &mut self,
        version: Version,
        cred: Cred,
        id: i32,
        size: u32,
        mtype: i64,
        flags: Flags,
        given: &mut Body,
    ) -> Progress<Waiting, RequestOutcome>
        ensures begun { (text : List ℕ) → HasBegun (C.may self.old.clock.now) version cred
            (Ask.Rcv id size mtype flags) text self.old.pass result given.new self.new.pass }
        ensures answer { MayProgress version (Ask.Rcv id size mtype flags) result given.new }
        ensures handles { KeepsHandles self.old self.new }
    {
        let pass = &mut self.pass;
        let came = self.service.msgrcv_begin(
            self.rt, pass, self.clock, cred, id, given, size, mtype, flags,
        );
        receive_came(version, came)
    }

    /// Requests the attributes of a queue. Returns whether the caller may send to it, and if not, why.
    ///
    /// # Errors
    ///
    /// - `EACCES` if the caller may not.
    /// - That of a `msgctl` with `IPC_STAT` if it has failed.
    pub(crate) fn ask_for_writing(&mut self, cred: Cred, id: i32) -> Result<(), Errno>
        ensures asks { AsksForWriting cred id self.old.pass result self.new.pass }
        ensures handles { KeepsHandles self.old self.new }
    {
        let stat = self.service.msgctl_stat(self.rt, &mut self.pass, cred, id)?;
        if may(cred, stat.perm, Want::Write) {
            Ok(())
        } else {
            Err(Errno::EACCES)
        }
    }

    /// Continues a request that waits, if its wait is over. Looks once at the count for which the
    /// request waits, and returns `waiting` again if the request still waits. Otherwise the call
    /// makes its steps until it waits again or is over, and never sleeps until a count changes.
    ///
    /// # Conditions
    ///
    /// - `waiting` is a wait of a request of this kind, from `begin` or `go_on`. The contract says
    ///   what becomes of the request if `request` and `text` are those with which it was begun, and
    ///   this handler's pass is the one with which it waits.
    /// - `text` has at most 8,192 bytes, as the body of every send that waits.
    /// - `given` is empty.
    pub fn go_on(
        &mut self,
        request: &Request,
        text: &Body,
        given: &mut Body,
        waiting: Waiting,
    ) -> Progress<Waiting, RequestOutcome>
        requires kind { IsWaitOf request.now.ask waiting }
        requires short { length text.now ≤ MESSAGE_BYTES }
        requires empty { given.old ≡ [] }
        ensures begun { (start : Seen) (cred : Cred) →
            IsParked (C.may self.old.clock.now) cred request.now.ask text.now start waiting
            self.old.pass →
            HasBegun (C.may self.old.clock.now) request.now.version cred request.now.ask text.now
            start result given.new self.new.pass }
        // The count is read in each case.
        ensures looks { GoesOn (C.may self.old.clock.now) request.now.version waiting text.now
            self.old.pass result given.new self.new.pass }
        ensures answer { MayProgress request.now.version request.now.ask result given.new }
        ensures handles { KeepsHandles self.old self.new }
    {
        match waiting {
            Waiting::Send(wait) => self.send_on(request.version, text, wait),
            Waiting::Receive(wait) => self.receive_on(request.version, given, wait),
            Waiting::Get(wait) => self.get_on(request.version, wait),
        }
    }

    /// Continues a `msgget`.
    fn get_on(&mut self, version: Version, wait: GetWait) -> Progress<Waiting, RequestOutcome>
        ensures looks { (text : List ℕ) → GoesOn (C.may self.old.clock.now) version
            (Waiting.Get wait) text self.old.pass result [] self.new.pass }
        ensures handles { KeepsHandles self.old self.new }
    {
        let pass = &mut self.pass;
        let Some(get) = self.service.msgget_look(pass, &wait) else {
            return Progress::Waits(Waiting::Get(wait));
        };
        let came = self.service.msgget_go_on(self.rt, pass, self.clock, get);
        get_came(version, came)
    }

    /// Continues a `msgsnd` of the body.
    pub(crate) fn send_on(
        &mut self,
        version: Version,
        text: &Body,
        wait: SendWait,
    ) -> Progress<Waiting, RequestOutcome>
        requires { length text.now ≤ MESSAGE_BYTES }
        ensures looks { GoesOn (C.may self.old.clock.now) version (Waiting.Send wait) text.now
            self.old.pass result [] self.new.pass }
        ensures handles { KeepsHandles self.old self.new }
    {
        let pass = &mut self.pass;
        let Some(send) = self.service.msgsnd_look(pass, &wait) else {
            return Progress::Waits(Waiting::Send(wait));
        };
        let came = self
            .service
            .msgsnd_go_on(self.rt, pass, self.clock, text, send);
        send_came(version, came)
    }

    /// Continues a `msgrcv` into `given`.
    fn receive_on(
        &mut self,
        version: Version,
        given: &mut Body,
        wait: ReceiveWait,
    ) -> Progress<Waiting, RequestOutcome>
        requires { given.old ≡ [] }
        ensures looks { (text : List ℕ) → GoesOn (C.may self.old.clock.now) version
            (Waiting.Receive wait) text self.old.pass result given.new self.new.pass }
        ensures handles { KeepsHandles self.old self.new }
    {
        let pass = &mut self.pass;
        let Some(receive) = self.service.msgrcv_look(pass, &wait) else {
            return Progress::Waits(Waiting::Receive(wait));
        };
        let came = self
            .service
            .msgrcv_go_on(self.rt, pass, self.clock, given, receive);
        receive_came(version, came)
    }
}

/// Returns how far the request of a get has come.
fn get_came(
    version: Version,
    came: Progress<GetWait, Result<i32, Errno>>,
) -> Progress<Waiting, RequestOutcome>
    ensures { result ≡ get_progress version came }
{
    match came {
        Progress::Waits(wait) => Progress::Waits(Waiting::Get(wait)),
        Progress::Over(Ok(id)) => Progress::Over(reply(version, Op::Get, ReplyContent::Get { id })),
        Progress::Over(Err(why)) => {
            Progress::Over(reply(version, Op::Get, ReplyContent::Refused(why)))
        }
    }
}

/// Returns how far the request of a send has come.
fn send_came(
    version: Version,
    came: Progress<SendWait, Result<(), Errno>>,
) -> Progress<Waiting, RequestOutcome>
    ensures { result ≡ send_progress version came }
{
    match came {
        Progress::Waits(wait) => Progress::Waits(Waiting::Send(wait)),
        Progress::Over(Ok(())) => Progress::Over(reply(version, Op::Snd, ReplyContent::Snd)),
        Progress::Over(Err(why)) => {
            Progress::Over(reply(version, Op::Snd, ReplyContent::Refused(why)))
        }
    }
}

/// Returns how far the request of a receive has come.
fn receive_came(
    version: Version,
    came: Progress<ReceiveWait, Result<Delivery, Errno>>,
) -> Progress<Waiting, RequestOutcome>
    ensures { result ≡ receive_progress version came }
{
    match came {
        Progress::Waits(wait) => Progress::Waits(Waiting::Receive(wait)),
        Progress::Over(Ok(delivery)) => Progress::Over(RequestOutcome::Got(delivery)),
        Progress::Over(Err(why)) => {
            Progress::Over(reply(version, Op::Rcv, ReplyContent::Refused(why)))
        }
    }
}
