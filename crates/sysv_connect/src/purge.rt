//! A `rcv` that empties a queue.
ghost use Rattle.std.specs.Prelude.{◌≡◌, [], IfOk, vec_len};
ghost use Rattle.sysv_clients.specs.Faults.{fault_line};
ghost use Rattle.sysv_connect.specs.Ends.{Fails};
ghost use Rattle.sysv_connect.specs.Links.{left_by, taken_by};
ghost use Rattle.sysv_connect.specs.Purge.{Purges, ShowsCount, count_line, purging_of, stop_line};
ghost use Rattle.sysv_connect.specs.Telling.{Tells, TellsUnmade};
ghost use Rattle.sysv_connect.specs.Visits.{Visited};

use crate::connection::{detail_of, failed, no_link, no_memory};
use crate::contact::{Contact, Visit};
use crate::link::{Link, linked};
use crate::patience::Patience;
use crate::place::{Leave, Place};
use crate::screen::{Screen, put};
use crate::teller::Teller;
use itoa::Buffer;
use std::alloc::AllocError;
use std::io::{Eprint, Write};
use std::process::ExitCode;
use sysv_clients::{ClientFault, Form, Receipt, Receiving, Stop, receive_all};
use sysv_model::{Cred, Errno};

/// The number of messages for whose marks memory is reserved.
const MARKS: usize = 4_096;

/// Returns the receives of a `rcv` that empties a queue. None of them waits, and none gets a byte
/// of a body.
pub(crate) fn purging(cred: Cred, receipt: Receipt) -> Receiving
    ensures { result ≡ purging_of cred receipt }
{
    Receiving {
        cred,
        receipt: Receipt {
            size: 0,
            nowait: true,
            noerror: true,
            show_type: false,
            form: Form::Line,
            ..receipt
        },
        count: u64::MAX,
        ahead: 1,
    }
}

/// Connects to the server at `place`, takes messages until the queue has none, and shows their
/// number. Each reply is waited for as long as `patience` says. After a fault, the number is
/// reported on standard error.
pub(crate) fn purge_at<P: Place, S: Write>(
    rt: &(impl Eprint + AllocGlobal),
    place: P,
    teller: &Teller<'_>,
    receiving: &Receiving,
    patience: Patience,
    screen: &mut Screen<S>,
) -> Visit<P, Link<P::Input, P::Output>>
    ensures { Visited (P.refuses place teller.now.path.now) place
        (λ refused. Fails result.exit × TellsUnmade teller.now.telling refused
        (S.contents screen.old.writer) (S.contents screen.new.writer))
        (λ link. Purges receiving.now teller.now.telling result.exit
        (P.incoming place teller.now.path.now) (left_by P.Input.remaining link)
        (P.outgoing place teller.now.path.now) (taken_by P.Output.contents link)
        (S.contents screen.old.writer) (S.contents screen.new.writer)) result.contact }
{
    let Ok(marks) = Vec::with_capacity(rt.alloc(), MARKS) else {
        return Visit {
            exit: no_memory(rt, teller, screen),
            contact: Contact::Unused(place),
        };
    };
    match linked(rt.alloc(), place, teller.path, patience) {
        Ok(mut link) => Visit {
            exit: purge_on(rt, &mut link, teller, receiving, marks, screen),
            contact: Contact::Made(link),
        },
        Err(unlinked) => no_link(rt, teller, unlinked, screen),
    }
}

/// Empties a queue over a connection like `purge_at`. `marks` has memory for the marks of the
/// messages.
fn purge_on<R: Leave, W: Write + Drop, S: Write>(
    rt: &(impl Eprint + AllocGlobal),
    link: &mut Link<R, W>,
    teller: &Teller<'_>,
    receiving: &Receiving,
    marks: Vec<u8>,
    screen: &mut Screen<S>,
) -> ExitCode
    requires { marks.items ≡ [] }
    ensures { Purges receiving.now teller.now.telling result
        (left_by R.remaining link.old) (left_by R.remaining link.new)
        (taken_by W.contents link.old) (taken_by W.contents link.new)
        (S.contents screen.old.writer) (S.contents screen.new.writer) }
{
    let mut marks = marks;
    let ended = receive_all(
        rt.alloc(),
        receiving,
        &mut link.reader,
        &mut link.writer,
        &mut marks,
    );
    match ended {
        Ok(()) | Err(Stop::Fault(ClientFault::Refused(Errno::ENOMSG))) => {
            show_count(rt, teller, marks, screen)
        }
        Err(stop) => {
            tell(rt, link, teller, stop, marks.len() as u64, screen);
            failed(false)
        }
    }
}

/// Shows the number of marks. If memory for its line is refused, the number is reported on standard
/// error.
fn show_count<S: Write>(
    rt: &(impl Eprint + AllocGlobal),
    teller: &Teller<'_>,
    marks: Vec<u8>,
    screen: &mut Screen<S>,
) -> ExitCode
    ensures { ShowsCount teller.now.telling result (vec_len marks) (S.contents screen.old.writer)
        (S.contents screen.new.writer) }
{
    let count = marks.len() as u64;
    let Ok(line) = count_line(marks, count) else {
        report(rt, count);
        return no_memory(rt, teller, screen);
    };
    if put(screen, &line) {
        ExitCode::SUCCESS
    } else {
        report(rt, count);
        teller.no_output(rt, screen.failure, None)
    }
}

/// Returns the line with a number, in the memory of some bytes. Fails with `AllocError` if it does not
/// fit there and allocation fails.
fn count_line(memory: Vec<u8>, count: u64) -> Result<Vec<u8>, AllocError>
    ensures { IfOk result (λ line. line.items ≡ count_line count) }
{
    let mut buffer = Buffer::new();
    let digits = buffer.format(count).as_bytes();
    let mut line = memory;
    line.clear();
    line.extend_from_slice(digits)?;
    line.push(b'\n')?;
    Ok(line)
}

/// Reports on standard error how many messages were taken.
fn report(rt: &impl Eprint, taken: u64) {
    let _ = eprintln!(rt; "sysvmsg: messages that were taken: {taken}");
}

/// Tells why a queue was not emptied, and how many messages were taken before.
fn tell<R: Leave, W: Write + Drop, S: Write>(
    rt: &(impl Eprint + AllocGlobal),
    link: &Link<R, W>,
    teller: &Teller<'_>,
    stop: Stop,
    taken: u64,
    screen: &mut Screen<S>,
)
    ensures { Tells teller.now.telling (stop_line stop) (S.contents screen.old.writer)
        (S.contents screen.new.writer) }
{
    let fault = fault_of(stop);
    teller.fault(rt, screen, fault.line(), detail_of(fault, false, link));
    if taken > 0 {
        report(rt, taken);
    }
}

/// Returns the fault that ended a session. A session lacks memory if it cannot keep the LFs.
fn fault_of(stop: Stop) -> ClientFault
    ensures { fault_line result ≡ stop_line stop }
{
    match stop {
        Stop::Fault(fault) => fault,
        Stop::Screen(_) => ClientFault::NoMemory,
    }
}
