//! Clients that make several calls over one connection.
ghost use Rattle.std.specs.Prelude.{◌≡◌, true};
ghost use Rattle.sysv_clients.specs.Sending.{unsent_line};
ghost use Rattle.sysv_connect.specs.Clients.{Clears, IsToldAs, Receives, SendsLines};
ghost use Rattle.sysv_connect.specs.Ends.{Fails};
ghost use Rattle.sysv_connect.specs.Links.{left_by, taken_by};
ghost use Rattle.sysv_connect.specs.Several.{is_of_options, is_of_stream, receiving_of, way_by};
ghost use Rattle.sysv_connect.specs.Telling.{TellsUnmade};
ghost use Rattle.sysv_connect.specs.Visits.{Visited};

use crate::connection::{detail_of, failed, no_link, no_link_said};
use crate::contact::{Contact, Visit};
use crate::ending::FAULT;
use crate::how::How;
use crate::link::{Link, linked};
use crate::patience::Patience;
use crate::place::{Leave, Place};
use crate::purge::purging;
use crate::screen::Screen;
use crate::sentence::Detail;
use crate::teller::{Left, Teller};
use std::fmt::Display;
use std::io::{Eprint, Read, Write};
use std::process::ExitCode;
use sysv_clients::{
    ClientFault, Cut, Form, MAX_AHEAD, Receipt, Receiving, Refusal, Sending, Stop, Target, Task,
    Unsent, Unshown, Wording, receive_all, remove_all, send_lines,
};
use sysv_model::{Cred, Errno};

/// No message came in time.
const NO_MESSAGE: ClientFault = ClientFault::Refused(Errno::ENOMSG);

/// No room came in time.
const NO_ROOM: ClientFault = ClientFault::Refused(Errno::EAGAIN);

/// What is wrong with a line that states no message.
const BAD_LINE: &str = "bad line";

/// How a command is done.
#[derive(Clone, Copy, PartialEq, Eq, Debug)]
pub(crate) enum Way {
    /// By a client that receives messages and shows them as a stream.
    Stream(Receiving),
    /// By a client that receives messages until there is none, and shows their number.
    Purge(Receiving),
    /// By a client that holds each message until it was shown.
    Hold(Receiving),
    /// By a client that sends the message that each line of an input states.
    Lines(Sending),
    /// By a client that removes all queues.
    Clear,
    /// By a client that runs this one command.
    Once,
}

/// Returns how a task with these options is done.
pub(crate) fn way_of(cred: Cred, task: &Task<'_>, how: &How) -> Way
    ensures { result ≡ way_by cred task.now how.now }
{
    match *task {
        Task::Receive(receipt) if how.purge => Way::Purge(purging(cred, receipt)),
        Task::Receive(receipt) if how.holds => Way::Hold(receiving(cred, receipt, how)),
        Task::Receive(receipt) if is_stream(&receipt, how) => {
            Way::Stream(receiving(cred, receipt, how))
        }
        Task::Send {
            key,
            mtype,
            nowait,
            ..
        } if how.lines => Way::Lines(Sending {
            cred,
            key,
            wording: Wording::Bodies { mtype },
            nowait,
        }),
        Task::Send { key, nowait, .. } if how.objects => Way::Lines(Sending {
            cred,
            key,
            wording: Wording::Objects,
            nowait,
        }),
        Task::Remove(Target::All) => Way::Clear,
        _ => Way::Once,
    }
}

/// Returns whether a `rcv` shows its messages as a stream. Standard output then has only messages,
/// and faults are reported on standard error.
fn is_stream(receipt: &Receipt, how: &How) -> bool
    ensures { result ≡ is_of_stream receipt.now how.now }
{
    how.follow || how.count.is_some() || is_of_options(receipt.form) || receipt.show_type
}

/// Returns whether a message in this form is not its body and an LF.
fn is_of_options(form: Form) -> bool
    ensures { result ≡ is_of_options form }
{
    match form {
        Form::Line => false,
        Form::Raw | Form::Zero | Form::Object => true,
    }
}

/// Returns the receives of a `rcv` with these options: as many as `--count` states, or all with
/// `--follow`, or one.
fn receiving(cred: Cred, receipt: Receipt, how: &How) -> Receiving
    ensures { result ≡ receiving_of cred receipt how.now }
{
    let count = match how.count {
        Some(count) => u64::from(count),
        None if how.follow => u64::MAX,
        None => 1,
    };
    Receiving {
        cred,
        receipt,
        count,
        ahead: how.ahead.unwrap_or(1),
    }
}

/// Connects to the server at `place` and receives messages there, each of which is waited for as
/// long as `patience` says. A receive that is left then fails with ENOMSG. Faults are reported on
/// standard error. If the screen fails, the numbers of messages that were taken and shown are
/// reported there too.
pub(crate) fn receive_at<P: Place, S: Write>(
    rt: &(impl Eprint + AllocGlobal),
    place: P,
    teller: &Teller<'_>,
    receiving: &Receiving,
    patience: Patience,
    screen: &mut Screen<S>,
) -> Visit<P, Link<P::Input, P::Output>>
    ensures { Visited (P.refuses place teller.now.path.now) place
        (λ _. Fails result.exit
        × (S.contents screen.new.writer ≡ S.contents screen.old.writer))
        (λ link. Receives receiving.now result.exit
        (P.incoming place teller.now.path.now) (left_by P.Input.remaining link)
        (P.outgoing place teller.now.path.now) (taken_by P.Output.contents link)
        (S.contents screen.old.writer) (S.contents screen.new.writer)) result.contact }
{
    match linked(rt.alloc(), place, teller.path, patience) {
        Ok(mut link) => Visit {
            exit: receive_on(rt, &mut link, teller, receiving, screen),
            contact: Contact::Made(link),
        },
        Err(unlinked) => no_link_said(rt, teller, unlinked),
    }
}

/// Receives messages over a connection like `receive_at`.
fn receive_on<R: Leave, W: Write + Drop, S: Write>(
    rt: &(impl Eprint + AllocGlobal),
    link: &mut Link<R, W>,
    teller: &Teller<'_>,
    receiving: &Receiving,
    screen: &mut Screen<S>,
) -> ExitCode
    ensures { Receives receiving.now result
        (left_by R.remaining link.old) (left_by R.remaining link.new)
        (taken_by W.contents link.old) (taken_by W.contents link.new)
        (S.contents screen.old.writer) (S.contents screen.new.writer) }
{
    let Err(stop) = receive_all(
        rt.alloc(),
        receiving,
        &mut link.reader,
        &mut link.writer,
        screen,
    ) else {
        return ExitCode::SUCCESS;
    };
    let fault = match stop {
        Stop::Fault(fault) => fault,
        Stop::Screen(unshown) => {
            let unshown = left_after(receiving, unshown);
            return teller.no_output(rt, screen.failure, Some(unshown));
        }
    };
    let is_late = fault == ClientFault::NoReply && (link.has_ended() || link.is_over());
    let fault = if is_late { NO_MESSAGE } else { fault };
    teller.fault_said(rt, fault.line(), detail_of(fault, is_late, link));
    failed(is_late)
}

/// Returns what became of the messages of a session whose screen failed.
fn left_after(receiving: &Receiving, unshown: Unshown) -> Left {
    let ahead = if receiving.receipt.nowait {
        0
    } else {
        receiving.ahead.clamp(1, MAX_AHEAD) - 1
    };
    let owed = receiving.count.saturating_sub(unshown.taken);
    Left {
        unshown,
        ahead: owed.min(u64::from(ahead)),
    }
}

/// Connects to the server at `place` and sends the message that each line of `input` states. Each
/// send waits as long as `patience` says. A send that is left then fails with EAGAIN. If the input
/// cannot be read, the reason is reported on standard error.
pub(crate) fn send_at<I: Read, P: Place, S: Write>(
    rt: &(impl Eprint + AllocGlobal),
    input: &mut I,
    place: P,
    teller: &Teller<'_>,
    sending: &Sending,
    patience: Patience,
    screen: &mut Screen<S>,
) -> Visit<P, Link<P::Input, P::Output>>
    ensures { Visited (P.refuses place teller.now.path.now) place
        (λ refused. Fails result.exit × TellsUnmade teller.now.telling refused
        (S.contents screen.old.writer) (S.contents screen.new.writer)
        × (I.remaining input.new ≡ I.remaining input.old))
        (λ link. SendsLines sending.now teller.now.telling result.exit
        (P.incoming place teller.now.path.now) (left_by P.Input.remaining link)
        (P.outgoing place teller.now.path.now) (taken_by P.Output.contents link)
        (I.remaining input.old) (I.remaining input.new)
        (S.contents screen.old.writer) (S.contents screen.new.writer)) result.contact }
{
    match linked(rt.alloc(), place, teller.path, patience) {
        Ok(mut link) => Visit {
            exit: send_on(rt, input, &mut link, teller, sending, screen),
            contact: Contact::Made(link),
        },
        Err(unlinked) => no_link(rt, teller, unlinked, screen),
    }
}

/// Sends lines over a connection like `send_at`.
fn send_on<I: Read, R: Leave, W: Write + Drop, S: Write>(
    rt: &(impl Eprint + AllocGlobal),
    input: &mut I,
    link: &mut Link<R, W>,
    teller: &Teller<'_>,
    sending: &Sending,
    screen: &mut Screen<S>,
) -> ExitCode
    ensures { SendsLines sending.now teller.now.telling result
        (left_by R.remaining link.old) (left_by R.remaining link.new)
        (taken_by W.contents link.old) (taken_by W.contents link.new)
        (I.remaining input.old) (I.remaining input.new)
        (S.contents screen.old.writer) (S.contents screen.new.writer) }
{
    let Err(unsent) = send_lines(
        rt.alloc(),
        sending,
        input,
        &mut link.reader,
        &mut link.writer,
    ) else {
        return ExitCode::SUCCESS;
    };
    let (unsent, is_late) = in_time(unsent, link);
    match &unsent {
        Unsent::Input(why) => return teller.no_input(rt, screen, why),
        Unsent::Cut(cut) => explain(rt, cut),
        Unsent::Long { before } => explain_line(rt, *before, Errno::EINVAL, 0),
        Unsent::NoObject { before } => explain_line(rt, *before, BAD_LINE, 0),
        Unsent::Memory { before } => explain_lines(rt, *before),
        _ => {}
    }
    let detail = detail_of_unsent(&unsent, sending.wording, is_late, link);
    teller.fault(rt, screen, unsent.line(), detail);
    failed(is_late)
}

/// Returns what is known of the end of a session of sends beyond its name.
fn detail_of_unsent<R: Leave, W: Write + Drop>(
    unsent: &Unsent,
    wording: Wording,
    is_late: bool,
    link: &Link<R, W>,
) -> Detail {
    match unsent {
        Unsent::Fault(fault) => detail_of(*fault, is_late, link),
        Unsent::Cut(cut) => detail_of(cut.fault, is_late, link),
        Unsent::Long { .. } => match wording {
            Wording::Bodies { .. } => Detail::LongLine,
            Wording::Objects => Detail::LongObject,
        },
        Unsent::NoObject { .. } | Unsent::Memory { .. } => Detail::Plain,
        Unsent::Many | Unsent::Input(_) => Detail::Plain,
    }
}

/// Reports on standard error which lines were sent: the first that was refused and why, and how
/// many later ones were sent, or how many were sent if the connection was lost.
fn explain(rt: &impl Eprint, cut: &Cut) {
    let Cut {
        before,
        fault,
        after,
        unknown,
    } = *cut;
    if let ClientFault::Refused(error) = fault {
        explain_line(rt, before, error, after);
    } else {
        explain_lines(rt, before);
    }
    if unknown > 0 {
        let _ = eprintln!(rt; "sysvmsg: lines that may have been sent: {unknown}");
    }
}

/// Reports on standard error how many lines were sent.
fn explain_lines(rt: &impl Eprint, sent: u64) {
    let _ = eprintln!(rt; "sysvmsg: lines that were sent: {sent}");
}

/// Reports on standard error that the line after `before` lines was refused, and why, and how many
/// later ones were sent.
fn explain_line(rt: &impl Eprint, before: u64, error: impl Display + Drop, after: u32) {
    let line = before.saturating_add(1);
    let _ = eprintln!(rt; "sysvmsg: line {line}: {error}; later lines that were sent: {after}");
}

/// Returns the error of sends as it is told, and whether the time was over. Then it is EAGAIN.
fn in_time<R: Leave, W: Write + Drop>(unsent: Unsent, link: &Link<R, W>) -> (Unsent, bool)
    ensures { IsToldAs unsent (unsent_line result.0) }
{
    match unsent {
        Unsent::Fault(ClientFault::NoReply) if link.is_over() => (Unsent::Fault(NO_ROOM), true),
        Unsent::Cut(cut) if is_late(&cut, link) => {
            let cut = Cut {
                fault: NO_ROOM,
                unknown: 0,
                ..cut
            };
            (Unsent::Cut(cut), true)
        }
        other => (other, false),
    }
}

/// Returns whether sends were cut off because the time was over, so that no line from that one on
/// was sent: its send was left, or is the only one without a reply and could not be written.
fn is_late<R: Leave, W: Write + Drop>(cut: &Cut, link: &Link<R, W>) -> bool
    ensures { result ≡ true → cut.now.fault ≡ ClientFault.NoReply }
{
    cut.fault == ClientFault::NoReply && (link.has_left() || (cut.unknown == 1 && link.is_over()))
}

/// Connects to the server at `place` and removes all queues there that the caller may remove. Each
/// other queue is named on standard error, and the status is that of a fault then. Each reply is
/// waited for as long as `patience` says.
pub(crate) fn remove_at<P: Place, S: Write>(
    rt: &(impl Eprint + AllocGlobal),
    place: P,
    teller: &Teller<'_>,
    cred: Cred,
    patience: Patience,
    screen: &mut Screen<S>,
) -> Visit<P, Link<P::Input, P::Output>>
    ensures { Visited (P.refuses place teller.now.path.now) place
        (λ refused. Fails result.exit × TellsUnmade teller.now.telling refused
        (S.contents screen.old.writer) (S.contents screen.new.writer))
        (λ link. Clears cred teller.now.telling result.exit
        (P.incoming place teller.now.path.now) (left_by P.Input.remaining link)
        (P.outgoing place teller.now.path.now) (taken_by P.Output.contents link)
        (S.contents screen.old.writer) (S.contents screen.new.writer)) result.contact }
{
    match linked(rt.alloc(), place, teller.path, patience) {
        Ok(mut link) => Visit {
            exit: remove_on(rt, &mut link, teller, cred, screen),
            contact: Contact::Made(link),
        },
        Err(unlinked) => no_link(rt, teller, unlinked, screen),
    }
}

/// Removes queues over a connection like `remove_at`.
fn remove_on<R: Leave, W: Write + Drop, S: Write>(
    rt: &(impl Eprint + AllocGlobal),
    link: &mut Link<R, W>,
    teller: &Teller<'_>,
    cred: Cred,
    screen: &mut Screen<S>,
) -> ExitCode
    ensures { Clears cred teller.now.telling result
        (left_by R.remaining link.old) (left_by R.remaining link.new)
        (taken_by W.contents link.old) (taken_by W.contents link.new)
        (S.contents screen.old.writer) (S.contents screen.new.writer) }
{
    let mut refusals = Vec::new(rt.alloc());
    let outcome = remove_all(
        rt.alloc(),
        cred,
        &mut link.reader,
        &mut link.writer,
        &mut refusals,
    );
    for refusal in &refusals {
        teller.refusal(rt, refusal);
    }
    match outcome {
        Ok(()) if refusals.is_empty() => ExitCode::SUCCESS,
        Ok(()) => ExitCode::from(FAULT),
        Err(fault) => {
            teller.fault(rt, screen, fault.line(), detail_of(fault, false, link));
            ExitCode::from(FAULT)
        }
    }
}
