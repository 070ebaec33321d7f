//! The client that saves queues.
ghost use Rattle.std.specs.Prelude.{◌≡◌};
ghost use Rattle.sysv_connect.specs.Ends.{Fails};
ghost use Rattle.sysv_connect.specs.Files.{Saves, saving_of};
ghost use Rattle.sysv_connect.specs.Links.{left_by, taken_by};
ghost use Rattle.sysv_connect.specs.Visits.{Visited};

use crate::connection::no_link_said;
use crate::contact::{Contact, Visit};
use crate::ending::FAULT;
use crate::holds::tell;
use crate::how::Telling;
use crate::link::{Link, linked};
use crate::patience::{Patience, REPLY_MILLIS};
use crate::place::{Leave, Place};
use crate::screen::Screen;
use crate::sentence::{Denied, Subject};
use crate::teller::Teller;
use std::fmt;
use std::io::{Eprint, Write};
use std::process::ExitCode;
use sysv_clients::{Durable, Refusal, Saving as Save, save_all};
use sysv_model::{Cred, Errno};

/// The server whose queues are saved, and which of them.
#[derive(Clone, Copy, PartialEq, Eq, Debug)]
pub struct Saving<'a> {
    /// The path of its socket.
    pub path: &'a str,
    /// The key of the only queue that is saved, or `None` for all queues.
    pub key: Option<i32>,
    /// The type of the messages that are taken, as a receive states it: 0 for all types.
    pub mtype: i64,
    /// Whether the messages of all types but `mtype` are taken.
    pub except: bool,
    /// Whether lines are not synced.
    pub nosync: bool,
    /// The number of milliseconds that each reply is waited for at most, if that is stated.
    pub wait: Option<u64>,
}

impl Saving<'_> {
    /// Returns the save of a client with these credentials.
    fn saves(&self, cred: Cred) -> Save
        ensures { result ≡ saving_of cred self.now }
    {
        Save {
            cred,
            key: self.key,
            mtype: self.mtype,
            except: self.except,
            syncs: !self.nosync,
        }
    }
}

/// Writes queues of the server at the path of the options to the screen, and takes their messages,
/// each once its line is synced, unless `nosync`. Each queue that is refused is named on standard
/// error, and the status is that of a fault then. Faults are reported there too. It makes at most
/// one connection, and returns it.
pub fn save_at<P: Place, S: Durable>(
    rt: &(impl Eprint + AllocGlobal),
    place: P,
    cred: Cred,
    saving: &Saving<'_>,
    screen: &mut Screen<S>,
) -> Visit<P, Link<P::Input, P::Output>>
    ensures { Visited (P.refuses place saving.now.path.now) place
        (λ _. Fails result.exit
        × (S.contents screen.new.writer ≡ S.contents screen.old.writer))
        (λ link. Saves (saving_of cred saving.now) result.exit
        (P.incoming place saving.now.path.now) (left_by P.Input.remaining link)
        (P.outgoing place saving.now.path.now) (taken_by P.Output.contents link)
        (S.contents screen.old.writer) (S.contents screen.new.writer)
        (S.synced screen.new.writer)) result.contact }
{
    let teller = Teller {
        path: saving.path,
        subject: Subject::Named("save"),
        telling: Telling::Sentence,
    };
    let patience = Patience {
        limit: Some(saving.wait.unwrap_or(REPLY_MILLIS)),
        may_leave: false,
    };
    match linked(rt.alloc(), place, saving.path, patience) {
        Ok(mut link) => Visit {
            exit: save_on(rt, &mut link, &teller, &saving.saves(cred), screen),
            contact: Contact::Made(link),
        },
        Err(unlinked) => no_link_said(rt, &teller, unlinked),
    }
}

/// Saves queues over a connection like `save_at`.
fn save_on<R: Leave, W: Write + Drop, S: Durable>(
    rt: &(impl Eprint + AllocGlobal),
    link: &mut Link<R, W>,
    teller: &Teller<'_>,
    saves: &Save,
    screen: &mut Screen<S>,
) -> ExitCode
    ensures { Saves saves.now result
        (left_by R.remaining link.old) (left_by R.remaining link.new)
        (taken_by W.contents link.old) (taken_by W.contents link.new)
        (S.contents screen.old.writer) (S.contents screen.new.writer)
        (S.synced screen.new.writer) }
{
    let mut refusals = Vec::new(rt.alloc());
    let outcome = save_all(
        rt.alloc(),
        saves,
        &mut link.reader,
        &mut link.writer,
        screen,
        &mut refusals,
    );
    for refusal in &refusals {
        let refused = Refused {
            refusal: *refusal,
            cred: saves.cred,
        };
        let _ = eprintln!(rt; "sysvmsg: save: {refused}");
    }
    match outcome {
        Ok(()) if refusals.is_empty() => ExitCode::SUCCESS,
        Ok(()) => ExitCode::from(FAULT),
        Err(unheld) => tell(rt, link, teller, unheld, screen),
    }
}

/// A queue whose messages were refused.
#[derive(Clone, Copy, Drop)]
struct Refused {
    refusal: Refusal,
    cred: Cred,
}

impl fmt::Display for Refused {
    fn fmt<W: fmt::Write>(&self, f: &mut fmt::Formatter<W>) -> fmt::Result {
        let Refused {
            refusal: Refusal { id, error },
            cred,
        } = *self;
        write!(f, "identifier {id}: ")?;
        match error {
            Errno::EACCES | Errno::EPERM => {
                let what = "permission denied";
                write!(f, "{} ({error})", Denied { what, cred })
            }
            Errno::EAGAIN => write!(
                f,
                "the server can hold no more messages: it lacks a place (--at-once) or memory ({error})"
            ),
            _ => write!(f, "{error}"),
        }
    }
}
