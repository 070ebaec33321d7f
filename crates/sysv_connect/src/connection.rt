//! Clients over a connection.
ghost use Rattle.std.specs.Prelude.{◌≡◌, ◌≤◌, ◌⊎◌, ⊤, ℤ, pos, length};
ghost use Rattle.std.specs.Io.KnownBytes.{Appends};
ghost use Rattle.sysv_clients.specs.declared.fault.ClientFault.{ClientFault as AFault};
ghost use Rattle.sysv_clients.specs.Faults.{fault_line};
ghost use Rattle.sysv_clients.specs.Run.{HasShortText};
ghost use Rattle.sysv_connect.specs.Bodies.{with_text};
ghost use Rattle.sysv_connect.specs.Clients.{ByFlag, EndsPage, HasRun, HasRunFrom, IsDone, IsLeft, IsRun, IsUnmade};
ghost use Rattle.sysv_connect.specs.Clients.{ShowsPart};
ghost use Rattle.sysv_connect.specs.Links.{left_by, taken_by};
ghost use Rattle.sysv_connect.specs.Several.{way_by};
ghost use Rattle.sysv_connect.specs.Ends.{Fails, Succeeds};
ghost use Rattle.sysv_connect.specs.Telling.{Tells, TellsUnmade};
ghost use Rattle.sysv_connect.specs.Visits.{Visited, contact_of, is_refused};

use crate::batches::{Way, receive_at, remove_at, send_at, way_of};
use crate::contact::{Contact, Visit};
use crate::ending::{FAULT, TIMED_OUT};
use crate::holds::hold_at;
use crate::how::How;
use crate::input::{Unread, read_body};
use crate::link::{Link, Unlinked, linked};
use crate::patience::Patience;
use crate::place::{Leave, Place};
use crate::purge::purge_at;
use crate::room::look;
use crate::screen::{Screen, put};
use crate::sentence::{Detail, Subject};
use crate::teller::{Left, Teller};
use std::alloc::Global;
use std::io::{Eprint, Read, Write};
use std::process::ExitCode;
use std::str;
use sysv_clients::{ClientFault, Command, Task, Unshown, run_client};
use sysv_model::{BODY_ROOM, Errno};

/// No memory for what a command needs.
const NO_MEMORY: ClientFault = ClientFault::NoMemory;

/// A message for which there is no room.
const NO_ROOM: ClientFault = ClientFault::Refused(Errno::EAGAIN);

/// A request without a reply.
const NO_REPLY: ClientFault = ClientFault::NoReply;

/// The one message of a receive, which was not shown.
const ONE_LEFT: Left = Left {
    unshown: Unshown { taken: 1, shown: 0 },
    ahead: 0,
};

/// More bytes than a client shows of one message.
const PAGE_ROOM: usize = 8_300;

/// Runs a command at the server at `path`, as the options say. It makes at most one connection, and
/// returns it, or the place if it was not used.
///
/// # Conditions
///
/// - The body of a `snd` has at most 8,256 bytes.
pub fn run_as<I: Read, P: Place, S: Write>(
    rt: &(impl Eprint + AllocGlobal),
    input: &mut I,
    place: P,
    path: &str,
    command: &Command<'_>,
    how: &How,
    screen: &mut Screen<S>,
) -> Visit<P, Link<P::Input, P::Output>>
    requires { HasShortText command.now.task }
    ensures { Visited (P.refuses place path.now) place
        (λ refused. IsUnmade (way_by command.now.cred command.now.task how.now) how.now
        result.exit refused (I.remaining input.old) (I.remaining input.new)
        (S.contents screen.old.writer) (S.contents screen.new.writer))
        (λ link. IsDone (way_by command.now.cred command.now.task how.now)
        command.now.cred command.now.task how.now result.exit
        (P.incoming place path.now) (left_by P.Input.remaining link)
        (P.outgoing place path.now) (taken_by P.Output.contents link)
        (I.remaining input.old) (I.remaining input.new)
        (S.contents screen.old.writer) (S.contents screen.new.writer)) result.contact }
{
    let teller = Teller {
        path,
        subject: Subject::Command(command),
        telling: how.telling,
    };
    let patience = Patience::of(&command.task, how.wait);
    match way_of(command.cred, &command.task, how) {
        Way::Stream(receiving) => receive_at(rt, place, &teller, &receiving, patience, screen),
        Way::Purge(receiving) => {
            let patience = Patience::of(&Task::Receive(receiving.receipt), how.wait);
            purge_at(rt, place, &teller, &receiving, patience, screen)
        }
        Way::Hold(receiving) => hold_at(rt, place, &teller, &receiving, patience, screen),
        Way::Lines(sending) => send_at(rt, input, place, &teller, &sending, patience, screen),
        Way::Clear => remove_at(rt, place, &teller, command.cred, patience, screen),
        Way::Once => run_one(rt, input, place, &teller, command, how, screen),
    }
}

/// Runs a command like `run_at`, with the input as the body of a `snd` if the options say so.
///
/// # Conditions
///
/// - The body of a `snd` has at most 8,256 bytes.
fn run_one<I: Read, P: Place, S: Write>(
    rt: &(impl Eprint + AllocGlobal),
    input: &mut I,
    place: P,
    teller: &Teller<'_>,
    command: &Command<'_>,
    how: &How,
    screen: &mut Screen<S>,
) -> Visit<P, Link<P::Input, P::Output>>
    requires { HasShortText command.now.task }
    ensures { Visited (P.refuses place teller.now.path.now) place
        (λ refused. Fails result.exit × TellsUnmade teller.now.telling refused
        (S.contents screen.old.writer) (S.contents screen.new.writer)
        × ByFlag how.now.from_input ⊤ (I.remaining input.new ≡ I.remaining input.old))
        (λ link. IsRun command.now.cred command.now.task how.now result.exit
        (P.incoming place teller.now.path.now) (left_by P.Input.remaining link)
        (P.outgoing place teller.now.path.now) (taken_by P.Output.contents link)
        (I.remaining input.old) (I.remaining input.new)
        (S.contents screen.old.writer) (S.contents screen.new.writer)) result.contact }
{
    if how.from_input {
        run_with_input(rt, input, place, teller, command, how.wait, screen)
    } else {
        run_at(rt, place, teller, command, how.wait, screen)
    }
}

/// Reads `input` to its end and then runs a command like `run_at`, with the bytes as the body of a
/// `snd`. Of a longer input, the body is the first 8,256 bytes. If a read fails, no connection is
/// made, and the reason is reported on standard error.
fn run_with_input<I: Read, P: Place, S: Write>(
    rt: &(impl Eprint + AllocGlobal),
    input: &mut I,
    place: P,
    teller: &Teller<'_>,
    command: &Command<'_>,
    wait: Option<u64>,
    screen: &mut Screen<S>,
) -> Visit<P, Link<P::Input, P::Output>>
    ensures { Visited (P.refuses place teller.now.path.now) place
        (λ refused. Fails result.exit × TellsUnmade teller.now.telling refused
        (S.contents screen.old.writer) (S.contents screen.new.writer))
        (λ link. HasRunFrom command.now.cred command.now.task result.exit
        (P.incoming place teller.now.path.now) (left_by P.Input.remaining link)
        (P.outgoing place teller.now.path.now) (taken_by P.Output.contents link)
        (I.remaining input.old) (I.remaining input.new)
        (S.contents screen.old.writer) (S.contents screen.new.writer)) result.contact }
{
    match read_body(rt.alloc(), input) {
        Ok(body) => run_at(rt, place, teller, &with_body(command, &body), wait, screen),
        Err(Unread::NoMemory) => Visit {
            exit: no_memory(rt, teller, screen),
            contact: Contact::Unused(place),
        },
        Err(Unread::Failed(why)) => Visit {
            exit: teller.no_input(rt, screen, &why),
            contact: Contact::Unused(place),
        },
    }
}

/// Returns the command with this body, if it is a `snd`.
///
/// # Conditions
///
/// - The body has at most 8,256 bytes.
fn with_body<'a>(command: &Command<'_>, body: &'a [u8]) -> Command<'a>
    requires { length body.now ≤ BODY_ROOM }
    ensures task { result.task ≡ with_text command.now.task body.entry }
    ensures cred { result.cred ≡ command.now.cred }
    ensures short { HasShortText result.task }
{
    let task = match command.task {
        Task::List(format) => Task::List(format),
        Task::Show(id) => Task::Show(id),
        Task::Remove(target) => Task::Remove(target),
        Task::Make(making) => Task::Make(making),
        Task::Send {
            key,
            mtype,
            nowait,
            ..
        } => Task::Send {
            key,
            text: body,
            mtype,
            nowait,
        },
        Task::Receive(receipt) => Task::Receive(receipt),
    };
    Command {
        cred: command.cred,
        task,
    }
}

/// Connects to the server at `place` and runs a command there. Each reply is waited for no longer
/// than this number of milliseconds; without it, than the task's `Patience` says. If no connection
/// can be made, the reason is reported on standard error.
///
/// # Conditions
///
/// - The body of a `snd` has at most 8,256 bytes.
fn run_at<P: Place, S: Write>(
    rt: &(impl Eprint + AllocGlobal),
    place: P,
    teller: &Teller<'_>,
    command: &Command<'_>,
    wait: Option<u64>,
    screen: &mut Screen<S>,
) -> Visit<P, Link<P::Input, P::Output>>
    requires { HasShortText command.now.task }
    ensures { Visited (P.refuses place teller.now.path.now) place
        (λ refused. Fails result.exit × TellsUnmade teller.now.telling refused
        (S.contents screen.old.writer) (S.contents screen.new.writer))
        (λ link. HasRun command.now result.exit
        (P.incoming place teller.now.path.now) (left_by P.Input.remaining link)
        (P.outgoing place teller.now.path.now) (taken_by P.Output.contents link)
        (S.contents screen.old.writer) (S.contents screen.new.writer)) result.contact }
{
    let teller = Teller {
        path: teller.path,
        subject: Subject::Command(command),
        telling: teller.telling,
    };
    match linked(
        rt.alloc(),
        place,
        teller.path,
        Patience::of(&command.task, wait),
    ) {
        Ok(mut link) => Visit {
            exit: run_within(rt, &mut link, command, &teller, screen),
            contact: Contact::Made(link),
        },
        Err(unlinked) => no_link(rt, &teller, unlinked, screen),
    }
}

/// Tells why there is no connection.
pub(crate) fn no_link<P, C, S: Write>(
    rt: &(impl Eprint + AllocGlobal),
    teller: &Teller<'_>,
    unlinked: Unlinked<P>,
    screen: &mut Screen<S>,
) -> Visit<P, C>
    ensures fails { Fails result.exit }
    ensures contact { result.contact ≡ contact_of unlinked }
    ensures told { TellsUnmade teller.now.telling (is_refused unlinked)
        (S.contents screen.old.writer) (S.contents screen.new.writer) }
{
    match unlinked {
        Unlinked::NoServer(why) => Visit {
            exit: teller.no_server(rt, screen, &why),
            contact: Contact::Refused(why),
        },
        Unlinked::NoMemory(place) => Visit {
            exit: no_memory(rt, teller, screen),
            contact: Contact::Unused(place),
        },
    }
}

/// Tells by a sentence why there is no connection.
pub(crate) fn no_link_said<P, C>(
    rt: &(impl Eprint + AllocGlobal),
    teller: &Teller<'_>,
    unlinked: Unlinked<P>,
) -> Visit<P, C>
    ensures fails { Fails result.exit }
    ensures contact { result.contact ≡ contact_of unlinked }
{
    match unlinked {
        Unlinked::NoServer(why) => Visit {
            exit: teller.no_server_said(rt, &why),
            contact: Contact::Refused(why),
        },
        Unlinked::NoMemory(place) => {
            teller.fault_said(rt, NO_MEMORY.line(), Detail::Plain);
            Visit {
                exit: failed(false),
                contact: Contact::Unused(place),
            }
        }
    }
}

/// Runs a command over a connection like `run_at`, and shows its result at the end. If the server
/// ends the session without a reply after a call was left, the call had no effect: the fault is
/// ENOMSG or, for a `snd`, EAGAIN, and the status is that of a time-out.
///
/// # Conditions
///
/// - The body of a `snd` has at most 8,256 bytes.
fn run_within<R: Leave, W: Write + Drop, S: Write>(
    rt: &(impl Eprint + AllocGlobal),
    link: &mut Link<R, W>,
    command: &Command<'_>,
    teller: &Teller<'_>,
    screen: &mut Screen<S>,
) -> ExitCode
    requires { HasShortText command.now.task }
    ensures { HasRun command.now result (left_by R.remaining link.old)
        (left_by R.remaining link.new) (taken_by W.contents link.old)
        (taken_by W.contents link.new) (S.contents screen.old.writer)
        (S.contents screen.new.writer) }
{
    let Ok(mut page) = Vec::with_capacity(rt.alloc(), PAGE_ROOM) else {
        return no_memory(rt, teller, screen);
    };
    let status = run_client(
        rt.alloc(),
        command,
        &mut link.reader,
        &mut link.writer,
        &mut page,
    );
    show(rt, link, command, teller, page.as_slice(), status, screen)
}

/// Tells the fault of a command that showed this page. If the page is not the line of a fault,
/// there was no memory for it.
fn tell_fault<R: Leave, W: Write + Drop, S: Write>(
    rt: &(impl Eprint + AllocGlobal),
    link: &mut Link<R, W>,
    command: &Command<'_>,
    teller: &Teller<'_>,
    page: &[u8],
    screen: &mut Screen<S>,
) -> ExitCode
    ensures fails { Fails result }
    ensures left { IsLeft command.now.task (left_by R.remaining link.old)
        (left_by R.remaining link.new) (taken_by W.contents link.old)
        (taken_by W.contents link.new) }
    ensures shown { ShowsPart page.now (S.contents screen.old.writer)
        (S.contents screen.new.writer) }
{
    let is_late = link.has_left();
    let line = line_of(is_late, &command.task, page);
    let has_sentence = teller.telling.has_sentence();
    let detail = detail_of_line(rt.alloc(), link, &command.task, line, is_late, has_sentence);
    let is_told = teller.fault_on(rt, screen, line, detail);
    failed(is_late && is_told)
}

/// Returns the line of the fault of a command that showed this page. `is_late` is whether its call
/// was left.
fn line_of<'a>(is_late: bool, task: &Task<'_>, page: &'a [u8]) -> &'a str
    ensures { (result.now ≡ page.now) ⊎ ((why : AFault) × (result.now ≡ fault_line why)) }
{
    if is_late {
        late(task).line()
    } else {
        fault_in(page)
    }
}

/// Returns what is known of a fault with this line. If a message has no room, the queue is looked
/// at for a sentence.
fn detail_of_line<R: Leave, W: Write + Drop>(
    alloc: Global,
    link: &mut Link<R, W>,
    task: &Task<'_>,
    line: &str,
    is_late: bool,
    has_sentence: bool,
) -> Detail
    ensures { IsLeft task.now (left_by R.remaining link.old) (left_by R.remaining link.new)
        (taken_by W.contents link.old) (taken_by W.contents link.new) }
{
    if is_late {
        Detail::Late
    } else if line == NO_REPLY.line() {
        Detail::Silent(link.silence())
    } else if line == NO_ROOM.line() && has_sentence {
        look_at_queue(alloc, link, task)
    } else {
        Detail::Plain
    }
}

/// Returns what keeps the message of a task from its queue, if that can be found out.
fn look_at_queue<R: Leave, W: Write + Drop>(
    alloc: Global,
    link: &mut Link<R, W>,
    task: &Task<'_>,
) -> Detail
    ensures { IsLeft task.now (left_by R.remaining link.old) (left_by R.remaining link.new)
        (taken_by W.contents link.old) (taken_by W.contents link.new) }
{
    match *task {
        Task::Send { key, text, .. } => match look(alloc, link, key, text.len()) {
            Some(room) => Detail::Full(room),
            None => Detail::Plain,
        },
        _ => Detail::Plain,
    }
}

/// Returns the line of a fault that a page is, or that of memory that was refused.
fn fault_in(page: &[u8]) -> &str
    ensures { (result.now ≡ page.now) ⊎ ((why : AFault) × (result.now ≡ fault_line why)) }
{
    match str::from_utf8(page) {
        Ok(line) if line.starts_with("sysvmsg: ") => line,
        _ => NO_MEMORY.line(),
    }
}

/// Returns the fault of a task whose call was left.
fn late(task: &Task<'_>) -> ClientFault {
    match task {
        Task::Send { .. } => NO_ROOM,
        _ => ClientFault::Refused(Errno::ENOMSG),
    }
}

/// Returns what is known of a fault beyond its name. `is_late` is whether the time was over.
pub(crate) fn detail_of<R: Leave, W: Write + Drop>(
    fault: ClientFault,
    is_late: bool,
    link: &Link<R, W>,
) -> Detail {
    match fault {
        _ if is_late => Detail::Late,
        ClientFault::NoReply => Detail::Silent(link.silence()),
        ClientFault::Refused(_) | ClientFault::NoMemory => Detail::Plain,
    }
}

/// Writes the page of a command that ended with this status to the screen and flushes it, or tells
/// the command's fault. If the screen fails, that is reported on standard error.
fn show<R: Leave, W: Write + Drop, S: Write>(
    rt: &(impl Eprint + AllocGlobal),
    link: &mut Link<R, W>,
    command: &Command<'_>,
    teller: &Teller<'_>,
    page: &[u8],
    status: i32,
    screen: &mut Screen<S>,
) -> ExitCode
    ensures { EndsPage result command.now.task status page.now (left_by R.remaining link.old)
        (left_by R.remaining link.new) (taken_by W.contents link.old)
        (taken_by W.contents link.new) (S.contents screen.old.writer)
        (S.contents screen.new.writer) }
{
    if status != 0 {
        return tell_fault(rt, link, command, teller, page, screen);
    }
    if put(screen, page) {
        return ExitCode::SUCCESS;
    }
    let left = match command.task {
        Task::Receive(_) => Some(ONE_LEFT),
        _ => None,
    };
    teller.no_output(rt, screen.failure, left)
}

/// Returns the status of a fault, or that of a time-out if a call was left.
pub(crate) fn failed(is_late: bool) -> ExitCode
    ensures { Fails result }
{
    if is_late {
        ExitCode::from(TIMED_OUT)
    } else {
        ExitCode::from(FAULT)
    }
}

/// Tells that memory was refused before anything was requested.
pub(crate) fn no_memory<S: Write>(
    rt: &(impl Eprint + AllocGlobal),
    teller: &Teller<'_>,
    screen: &mut Screen<S>,
) -> ExitCode
    ensures fails { Fails result }
    ensures told { Tells teller.now.telling (fault_line ClientFault.NoMemory)
        (S.contents screen.old.writer) (S.contents screen.new.writer) }
{
    teller.fault(rt, screen, NO_MEMORY.line(), Detail::Plain);
    failed(false)
}
