//! The client that loads a file of queues.
ghost use Rattle.std.specs.Prelude.{◌≡◌};
ghost use Rattle.sysv_connect.specs.Ends.{Fails};
ghost use Rattle.sysv_connect.specs.Files.{Loads, loading_of};
ghost use Rattle.sysv_connect.specs.Links.{left_by, taken_by};
ghost use Rattle.sysv_connect.specs.Visits.{Visited};

use crate::connection::{detail_of, failed, no_link_said};
use crate::contact::{Contact, Visit};
use crate::how::Telling;
use crate::link::{Link, linked};
use crate::patience::{Patience, REPLY_MILLIS};
use crate::place::{Leave, Place};
use crate::sentence::{Denied, Detail, Subject};
use crate::teller::Teller;
use std::fmt;
use std::io::{Eprint, Read, Write};
use std::process::ExitCode;
use sysv_clients::{ClientFault, Cut, Loading as Load, Unfit, Unloaded, load_lines};
use sysv_model::{Cred, Errno};

/// No room came in time.
const NO_ROOM: ClientFault = ClientFault::Refused(Errno::EAGAIN);

/// The server into which a file of queues is loaded, and how.
#[derive(Clone, Copy, PartialEq, Eq, Debug)]
pub struct Loading<'a> {
    /// The path of its socket.
    pub path: &'a str,
    /// The number of the first line that is loaded, counted from 1.
    pub from: u64,
    /// Whether a queue may exist.
    pub into: bool,
    /// Whether queues of other creators are made too.
    pub adopt: bool,
    /// Whether to fail at once instead of waiting for room.
    pub nowait: bool,
    /// The number of milliseconds that each reply is waited for at most, if that is stated.
    pub wait: Option<u64>,
}

impl Loading<'_> {
    /// Returns how long a reply is waited for. Only a send may wait, without `nowait`.
    fn patience(&self) -> Patience {
        Patience {
            limit: match self.wait {
                None if self.nowait => Some(REPLY_MILLIS),
                wait => wait,
            },
            may_leave: !self.nowait && self.wait.is_some(),
        }
    }

    /// Returns the load of a client with these credentials.
    fn loads(&self, cred: Cred) -> Load
        ensures { result ≡ loading_of cred self.now }
    {
        Load {
            cred,
            from: self.from,
            into: self.into,
            adopt: self.adopt,
            nowait: self.nowait,
        }
    }
}

/// Makes the queues that the lines of `input` state, and sends their messages, at the server at the
/// path of the options. The line that ends it is named on standard error, and so are faults. It
/// makes at most one connection, and returns it.
pub fn load_at<I: Read, P: Place>(
    rt: &(impl Eprint + AllocGlobal),
    input: &mut I,
    place: P,
    cred: Cred,
    loading: &Loading<'_>,
) -> Visit<P, Link<P::Input, P::Output>>
    ensures { Visited (P.refuses place loading.now.path.now) place
        (λ _. Fails result.exit × (I.remaining input.new ≡ I.remaining input.old))
        (λ link. Loads (loading_of cred loading.now) result.exit
        (P.incoming place loading.now.path.now) (left_by P.Input.remaining link)
        (P.outgoing place loading.now.path.now) (taken_by P.Output.contents link)
        (I.remaining input.old) (I.remaining input.new)) result.contact }
{
    let teller = Teller {
        path: loading.path,
        subject: Subject::Named("load"),
        telling: Telling::Sentence,
    };
    match linked(rt.alloc(), place, loading.path, loading.patience()) {
        Ok(mut link) => Visit {
            exit: load_on(rt, input, &mut link, &teller, &loading.loads(cred)),
            contact: Contact::Made(link),
        },
        Err(unlinked) => no_link_said(rt, &teller, unlinked),
    }
}

/// Loads lines over a connection like `load_at`.
fn load_on<I: Read, R: Leave, W: Write + Drop>(
    rt: &(impl Eprint + AllocGlobal),
    input: &mut I,
    link: &mut Link<R, W>,
    teller: &Teller<'_>,
    loads: &Load,
) -> ExitCode
    ensures { Loads loads.now result
        (left_by R.remaining link.old) (left_by R.remaining link.new)
        (taken_by W.contents link.old) (taken_by W.contents link.new)
        (I.remaining input.old) (I.remaining input.new) }
{
    let Err(unloaded) = load_lines(rt.alloc(), loads, input, &mut link.reader, &mut link.writer)
    else {
        return ExitCode::SUCCESS;
    };
    match unloaded {
        Unloaded::Input(why) => teller.no_input_said(rt, &why),
        Unloaded::Line { before, why } => {
            told_line(rt, before, why);
            failed(false)
        }
        Unloaded::Many => {
            let _ = eprintln!(rt; "sysvmsg: load: too many lines");
            failed(false)
        }
        Unloaded::Fault(fault) => {
            teller.fault_said(rt, fault.line(), detail_of(fault, false, link));
            failed(false)
        }
        Unloaded::Cut(cut) => tell_cut(rt, link, teller, loads, cut),
    }
}

/// Tells which request for a line ended a load, and what became of later lines.
fn tell_cut<R: Leave, W: Write + Drop>(
    rt: &(impl Eprint + AllocGlobal),
    link: &Link<R, W>,
    teller: &Teller<'_>,
    loads: &Load,
    cut: Cut,
) -> ExitCode
    ensures { Fails result }
{
    let is_late = cut.fault == ClientFault::NoReply && link.has_left();
    let (fault, unknown) = if is_late {
        (NO_ROOM, 0)
    } else {
        (cut.fault, cut.unknown)
    };
    match fault {
        ClientFault::Refused(error) => told_line(
            rt,
            cut.before,
            Refused {
                error,
                cred: loads.cred,
                is_late,
            },
        ),
        fault => {
            teller.fault_said(rt, fault.line(), detail_of(fault, false, link));
            let _ = eprintln!(rt; "sysvmsg: load: lines that are loaded: {}", cut.before);
        }
    }
    if cut.after > 0 {
        let _ = eprintln!(rt; "sysvmsg: load: later lines that were sent: {}", cut.after);
    }
    if unknown > 0 {
        let _ = eprintln!(rt; "sysvmsg: load: lines that may be loaded: {unknown}");
    }
    failed(is_late)
}

/// Reports on standard error that the line after `before` lines was not loaded, and why.
fn told_line(rt: &impl Eprint, before: u64, why: impl fmt::Display + Drop) {
    let line = before.saturating_add(1);
    let _ = eprintln!(rt; "sysvmsg: load: line {line}: {why}");
}

/// A request for a line that was refused.
#[derive(Clone, Copy, Drop)]
struct Refused {
    error: Errno,
    cred: Cred,
    /// Whether the time of `--wait` was over.
    is_late: bool,
}

impl fmt::Display for Refused {
    fn fmt<W: fmt::Write>(&self, f: &mut fmt::Formatter<W>) -> fmt::Result {
        let Refused {
            error,
            cred,
            is_late,
        } = *self;
        match error {
            Errno::EEXIST => write!(f, "a queue has this key; --into uses it ({error})"),
            Errno::EACCES | Errno::EPERM => {
                let what = "not permitted";
                write!(f, "{} ({error})", Denied { what, cred })
            }
            Errno::EAGAIN => {
                let since = if is_late { " in time" } else { "" };
                write!(
                    f,
                    "no room{since}: the queue or the server's pool is full ({error})"
                )
            }
            Errno::ENOENT => write!(f, "no queue has the key of its queue ({error})"),
            Errno::ENOSPC => write!(f, "the server has no place for another queue ({error})"),
            _ => write!(f, "{error}"),
        }
    }
}
