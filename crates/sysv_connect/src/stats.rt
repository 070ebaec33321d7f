//! The client that shows the state of a server.
ghost use Rattle.std.specs.Prelude.{◌≡◌, IfOk};
ghost use Rattle.std.specs.Io.KnownBytes.{Appends, Consumes, IsAtEnd};
ghost use Rattle.sysv_clients.specs.Faults.{fault_line};
ghost use Rattle.sysv_connect.specs.Ends.{Fails, Succeeds};
ghost use Rattle.sysv_connect.specs.Links.{left_by, taken_by};
ghost use Rattle.sysv_connect.specs.Stats.{HasLooked, asked_with};
ghost use Rattle.sysv_connect.specs.Telling.{Tells, TellsUnmade};
ghost use Rattle.sysv_connect.specs.Visits.{Visited};
ghost use Rattle.sysv_model.specs.Writing.{AppendsPrefix};

use crate::connection::no_link;
use crate::contact::{Contact, Visit};
use crate::ending::FAULT;
use crate::how::Telling;
use crate::input::{Unread, read_some};
use crate::link::{Link, linked};
use crate::patience::{Patience, REPLY_MILLIS};
use crate::place::{Leave, Place};
use crate::screen::{Screen, put};
use crate::sentence::{Detail, Subject};
use crate::silence::{LastRead, Silence};
use crate::teller::Teller;
use std::alloc::Global;
use std::io::{Eprint, Read, Write};
use std::process::ExitCode;
use sysv_clients::ClientFault;

/// The socket of a state, and how it is shown.
#[derive(Clone, Copy, PartialEq, Eq, Debug)]
pub struct Looking<'a> {
    /// The path of the socket.
    pub path: &'a str,
    /// Whether it is shown as a JSON object.
    pub json: bool,
    /// The number of milliseconds that each read waits at most, if that is stated.
    pub wait: Option<u64>,
    /// How faults are told.
    pub telling: Telling,
}

/// The number of bytes of a state that are read at once at most.
const PIECE: usize = 4_096;

/// Prints the state of the server that shows it at the path of the options. If no connection can be
/// made, the reason is reported on standard error. It makes at most one connection, and returns it.
pub fn look_at<P: Place, S: Write>(
    rt: &(impl Eprint + AllocGlobal),
    place: P,
    looking: &Looking<'_>,
    screen: &mut Screen<S>,
) -> Visit<P, Link<P::Input, P::Output>>
    ensures { Visited (P.refuses place looking.now.path.now) place
        (λ refused. Fails result.exit × TellsUnmade looking.now.telling refused
        (S.contents screen.old.writer) (S.contents screen.new.writer))
        (λ link. HasLooked looking.now.telling looking.now.json result.exit
        (P.incoming place looking.now.path.now) (left_by P.Input.remaining link)
        (P.outgoing place looking.now.path.now) (taken_by P.Output.contents link)
        (S.contents screen.old.writer) (S.contents screen.new.writer)) result.contact }
{
    let teller = Teller {
        path: looking.path,
        subject: Subject::Named("stats"),
        telling: looking.telling,
    };
    let patience = Patience {
        limit: Some(looking.wait.unwrap_or(REPLY_MILLIS)),
        may_leave: false,
    };
    match linked(rt.alloc(), place, looking.path, patience) {
        Ok(mut link) => Visit {
            exit: look_on(rt, &mut link, &teller, looking.json, screen),
            contact: Contact::Made(link),
        },
        Err(unlinked) => no_link(rt, &teller, unlinked, screen),
    }
}

/// Prints the state of a server over a connection, as a JSON object if `json` is true.
fn look_on<R: Leave, W: Write + Drop, S: Write>(
    rt: &(impl Eprint + AllocGlobal),
    link: &mut Link<R, W>,
    teller: &Teller<'_>,
    json: bool,
    screen: &mut Screen<S>,
) -> ExitCode
    ensures { HasLooked teller.now.telling json result (left_by R.remaining link.old)
        (left_by R.remaining link.new) (taken_by W.contents link.old)
        (taken_by W.contents link.new) (S.contents screen.old.writer)
        (S.contents screen.new.writer) }
{
    if !put(&mut link.writer, question(json)) {
        return silent(rt, teller, Silence::Lost, screen);
    }
    match read_state(rt.alloc(), &mut link.reader) {
        Ok(state) if state.is_empty() => silent(rt, teller, Silence::Closed, screen),
        Ok(state) => show(rt, teller, &state, screen),
        Err(Unread::NoMemory) => failed(rt, teller, ClientFault::NoMemory, Detail::Plain, screen),
        Err(Unread::Failed(why)) => {
            let silence = Silence::after(LastRead::of(&Err(why)), false, false);
            silent(rt, teller, silence, screen)
        }
    }
}

/// Tells that there is no reply, and why.
fn silent<S: Write>(
    rt: &(impl Eprint + AllocGlobal),
    teller: &Teller<'_>,
    silence: Silence,
    screen: &mut Screen<S>,
) -> ExitCode
    ensures fails { Fails result }
    ensures told { Tells teller.now.telling (fault_line ClientFault.NoReply)
        (S.contents screen.old.writer) (S.contents screen.new.writer) }
{
    let detail = Detail::Silent(silence);
    failed(rt, teller, ClientFault::NoReply, detail, screen)
}

/// Tells a fault.
fn failed<S: Write>(
    rt: &(impl Eprint + AllocGlobal),
    teller: &Teller<'_>,
    fault: ClientFault,
    detail: Detail,
    screen: &mut Screen<S>,
) -> ExitCode
    ensures fails { Fails result }
    ensures told { Tells teller.now.telling (fault_line fault)
        (S.contents screen.old.writer) (S.contents screen.new.writer) }
{
    teller.fault(rt, screen, fault.line(), detail);
    ExitCode::from(FAULT)
}

/// Returns what is asked for the state, as a JSON object if `json` is true.
fn question(json: bool) -> &'static [u8]
    ensures { result.now ≡ asked_with json }
{
    if json { b"json\n" } else { b"\n" }
}

/// Reads a state: all bytes that the reader has left.
fn read_state<R: Read>(alloc: Global, reader: &mut R) -> Result<Vec<u8>, Unread>
    ensures bytes { IfOk result (λ state.
        Consumes (R.remaining reader.old) (R.remaining reader.new) state.items) }
    ensures whole { IfOk result (λ _. IsAtEnd (R.remaining reader.new)) }
{
    let mut state = Vec::new(alloc);
    let mut piece = [0; PIECE];
    for _ in 0..u64::MAX {
        let count = match read_some(reader, &mut piece) {
            Ok(count) => count,
            Err(why) => return Err(Unread::Failed(why)),
        };
        if count == 0 {
            return Ok(state);
        }
        if state.extend_from_slice(&piece[..count]).is_err() {
            return Err(Unread::NoMemory);
        }
    }
    Err(Unread::NoMemory)
}

/// Writes the state to the screen and flushes it. If the screen fails, that is reported on standard
/// error.
fn show<S: Write>(
    rt: &(impl Eprint + AllocGlobal),
    teller: &Teller<'_>,
    state: &[u8],
    screen: &mut Screen<S>,
) -> ExitCode
    ensures whole { Succeeds result → Appends (S.contents screen.old.writer)
        (S.contents screen.new.writer) state.now }
    ensures part { AppendsPrefix (S.contents screen.old.writer) (S.contents screen.new.writer)
        state.now }
{
    if put(screen, state) {
        ExitCode::SUCCESS
    } else {
        teller.no_output(rt, screen.failure, None)
    }
}
