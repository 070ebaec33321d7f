//! What the program does, by its words, its surroundings and its streams.
ghost use Rattle.std.specs.Prelude.{◌≡◌, ◌⊎◌, map, string_bytes};
ghost use Rattle.clap.specs.Values.{kind_of};
ghost use Rattle.sysv_connect.specs.Ends.{Fails, Succeeds};
ghost use Rattle.sysv_options.specs.Asked.{IsWithinLimits};
ghost use Rattle.sysvmsg.specs.Running.{Answers, AnswersWords, EndsIn, IsHelp, asked_by};
ghost use Rattle.sysvmsg.specs.Running.{ShowsText, TellsError, TellsNoWords, TellsRefused};

use crate::scripts::answer_script;
use crate::serving::{OnSockets, serve_on_sockets};
use clap::Error;
use clap::error::ErrorKind;
use std::alloc::Global;
use std::fmt::Display;
use std::io::{Eprint, Read, Write};
use std::net::Net;
use std::os::fd::AsRawFd;
use std::process::ExitCode;
use std::rt::Files;
use std::sync::Wait;
use std::thread::Threads;
use sysv_clients::{Command, Durable};
use sysv_connect::{
    Contact, How, Link, Looking, Place, Progress, Screen, Telling, Visit, load_at, look_at, put,
    run_as, save_at, say,
};
use sysv_options::{
    Asked, NoWords, Process, Serving, Surroundings, credentials, no_text, read_words, surroundings,
    telling,
};

/// The exit status if the command line is not valid.
const NOT_UNDERSTOOD: u8 = 2;

/// The line of a fault if memory is refused.
const NO_MEMORY: &str = "sysvmsg: no memory\n";

/// Runs the program in this process, with the words and the surroundings that the system tells it.
/// It reads `input`, connects through `place`, serves by `server`, and shows on `screen`. It has no
/// other way to connect or to serve: only `serve_on_sockets` can use what `server` has. Returns the
/// exit status.
pub(crate) fn exit_of<
    Own: Process,
    R: Eprint + AllocGlobal,
    I: Read + AsRawFd + Drop,
    P: Place,
    V: Files + Net + Threads + Wait + Sync + Eprint + AllocGlobal + Clone + Drop,
    S: Durable,
>(
    process: &Own,
    rt: &R,
    input: I,
    place: P,
    server: OnSockets<'_, V>,
    screen: &mut Screen<S>,
) -> ExitCode
    ensures { EndsIn P.Input.remaining P.Output.contents P.incoming P.outgoing P.refuses
        (Own.tells process.now) place result (I.remaining input)
        (S.contents screen.old.writer) (S.contents screen.new.writer)
        (S.synced screen.new.writer) }
{
    let around = surroundings(process);
    match process.words() {
        Ok(words) => run(rt, words.as_slice(), &around, input, place, server, screen).exit,
        Err(why) => refuse(rt, why, &around, screen),
    }
}

/// Tells why the words of the command line cannot be read. Returns the status of that.
fn refuse<S: Write>(
    rt: &(impl Eprint + AllocGlobal),
    why: NoWords,
    around: &Surroundings,
    screen: &mut Screen<S>,
) -> ExitCode
    ensures fails { Fails result }
    ensures told { TellsNoWords around.now why (S.contents screen.old.writer)
        (S.contents screen.new.writer) }
{
    match why {
        NoWords::NoMemory => say(screen, NO_MEMORY),
        NoWords::NoText => {
            let asked = telling(Telling::Line, around);
            tell(rt, &no_text(rt.alloc()), asked, screen)
        }
    }
}

/// Runs the program with these words, the first of which is its name. A client connects to its
/// server through `place`, and a server serves by `server`.
fn run<
    R: Eprint + AllocGlobal,
    I: Read + AsRawFd + Drop,
    P: Place,
    V: Files + Net + Threads + Wait + Sync + Eprint + AllocGlobal + Clone + Drop,
    S: Durable,
>(
    rt: &R,
    words: &[String],
    around: &Surroundings,
    input: I,
    place: P,
    server: OnSockets<'_, V>,
    screen: &mut Screen<S>,
) -> Visit<P, Link<P::Input, P::Output>>
    ensures { AnswersWords P.Input.remaining P.Output.contents P.incoming P.outgoing P.refuses
        around.now place (S.synced screen.new.writer) (map string_bytes words.now) result.exit
        (I.remaining input) (S.contents screen.old.writer) (S.contents screen.new.writer)
        result.contact }
{
    match read_words(rt.alloc(), words) {
        Ok(asked) => answer(rt, asked, around, input, place, server, screen),
        Err(error) => {
            let asked = telling(telling_of(words), around);
            unused(tell(rt, &error, asked, screen), place)
        }
    }
}

/// Ends without a use of the place.
fn unused<P, C>(exit: ExitCode, place: P) -> Visit<P, C>
    ensures exit { result.exit ≡ exit }
    ensures contact { result.contact ≡ Contact.Unused place }
{
    Visit {
        exit,
        contact: Contact::Unused(place),
    }
}

/// Does what the words ask for.
fn answer<
    R: Eprint + AllocGlobal,
    I: Read + AsRawFd + Drop,
    P: Place,
    V: Files + Net + Threads + Wait + Sync + Eprint + AllocGlobal + Clone + Drop,
    S: Durable,
>(
    rt: &R,
    asked: Asked<'_, Serving<'_>>,
    around: &Surroundings,
    input: I,
    place: P,
    server: OnSockets<'_, V>,
    screen: &mut Screen<S>,
) -> Visit<P, Link<P::Input, P::Output>>
    requires { IsWithinLimits asked }
    ensures { Answers P.Input.remaining P.Output.contents P.incoming P.outgoing P.refuses
        around.now place (S.synced screen.new.writer) asked.entry result.exit (I.remaining input)
        (S.contents screen.old.writer) (S.contents screen.new.writer) result.contact }
{
    match asked {
        Asked::Script => {
            let mut script = input;
            unused(answer_script(rt, &mut script, &mut screen.writer), place)
        }
        Asked::Serve(serving) => {
            let limit = around.open_files;
            unused(
                serve_on_sockets(server, input, &serving, limit, &mut screen.writer),
                place,
            )
        }
        Asked::Look(looking) => {
            let looking = Looking {
                telling: telling(looking.telling, around),
                ..looking
            };
            look_at(rt, place, &looking, screen)
        }
        Asked::Save(who, saving) => {
            save_at(rt, place, credentials(&who, around), &saving, screen)
        }
        Asked::Load(who, loading) => {
            let mut input = input;
            load_at(rt, &mut input, place, credentials(&who, around), &loading)
        }
        Asked::Client {
            path,
            who,
            task,
            how,
        } => {
            let command = Command {
                cred: credentials(&who, around),
                task,
            };
            let how = How {
                telling: telling(how.telling, around),
                ..how
            };
            let mut input = Progress::new(rt, input, how.progress);
            run_as(rt, &mut input, place, path, &command, &how, screen)
        }
    }
}

/// Returns how the words ask that faults are told: by a sentence if one before `--` is `--stderr`.
fn telling_of(words: &[String]) -> Telling
    ensures { result ≡ asked_by (map string_bytes words.now) }
{
    for word in words {
        if word.as_str() == "--" {
            return Telling::Line;
        }
        if word.as_str() == "--stderr" {
            return Telling::Sentence;
        }
    }
    Telling::Line
}

/// Shows why a command line is not valid, or the help or the version that it requests. The former
/// is shown on the screen, on standard error, or on both.
fn tell<S: Write>(
    rt: &(impl Eprint + AllocGlobal),
    error: &Error,
    telling: Telling,
    screen: &mut Screen<S>,
) -> ExitCode
    ensures help { Succeeds result → IsHelp (kind_of error.now) }
    ensures told { TellsRefused telling (kind_of error.now) (S.contents screen.old.writer)
        (S.contents screen.new.writer) }
{
    match error.kind() {
        ErrorKind::OutOfMemory => say(screen, NO_MEMORY),
        ErrorKind::DisplayHelp | ErrorKind::DisplayVersion => {
            show(rt.alloc(), error, ExitCode::SUCCESS, screen)
        }
        _ => {
            let exit = show_error(rt, error, telling, screen);
            if telling.has_sentence() {
                let _ = eprint!(rt; "{error}");
            }
            exit
        }
    }
}

/// Shows why a command line is not valid, if faults are told by lines. Returns the status of that.
fn show_error<S: Write>(
    rt: &impl AllocGlobal,
    error: &Error,
    telling: Telling,
    screen: &mut Screen<S>,
) -> ExitCode
    ensures fails { Fails result }
    ensures told { TellsError telling (S.contents screen.old.writer)
        (S.contents screen.new.writer) }
{
    let exit = ExitCode::from(NOT_UNDERSTOOD);
    match telling {
        Telling::Line | Telling::Both => show(rt.alloc(), error, exit, screen),
        Telling::Sentence => exit,
    }
}

/// Shows a text on the screen and returns this status. If memory for the text is refused, that is
/// told in its place.
fn show<D: Display, S: Write>(
    alloc: Global,
    text: &D,
    exit: ExitCode,
    screen: &mut Screen<S>,
) -> ExitCode
    ensures status { (result ≡ exit) ⊎ Fails result }
    ensures shown { ShowsText (D.output text.now) (S.contents screen.old.writer)
        (S.contents screen.new.writer) }
{
    match format!(in alloc; "{text}") {
        Ok(text) => {
            put(screen, text.as_str().as_bytes());
            exit
        }
        Err(_) => say(screen, NO_MEMORY),
    }
}
