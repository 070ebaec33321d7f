//! The meaning of a line of a script.
ghost use Rattle.std.specs.Prelude.{ℕ, codes, IfSome, MatchOption};
ghost use Rattle.sysv_steps.specs.Call.{SystemCall};
ghost use Rattle.sysv_script.specs.Said.{Said};
ghost use Rattle.sysv_script.specs.Lines.{OrderNamed, SaysStart, TellsAlone, TellsInWords, Says};
ghost use Rattle.sysv_script.specs.SaidBy.{IsOfActors, CallFits, LineFits, call_asked, said_of};

use crate::actor::Actor;
use crate::blocks::Blocks;
use crate::call::{Text, call_of};
use sysv_model::Cred;
use sysv_steps::Call;
use sysv_words::{Reads, first, split_at_mark};

/// The maximum length of a line in bytes, without its LF.
pub const LINE_BYTES: usize = 9000;

/// A line that is understood.
#[derive(Clone, Copy)]
pub enum Line<'a> {
    /// A comment or an empty line.
    Skipped,
    /// `pool`: sets the number of blocks of the pool.
    Pool {
        blocks: u32,
    },
    /// `preset`: makes the private queue 0.
    Preset,
    /// `as`: sets the credentials of the calls that an actor starts from then on.
    Cred {
        actor: u32,
        cred: Cred,
    },
    /// `now`: sets the time of later steps, in seconds.
    Moment(u64),
    /// An actor starts a call. Without a `+` the call then continues; with a `+` it stays before
    /// its first step.
    Start {
        actor: u32,
        call: Call<Text<'a>, ()>,
        goes: bool,
    },
    /// `step`: an actor makes one step of its call.
    Step {
        actor: u32,
    },
    /// `go`: an actor continues its call.
    Go {
        actor: u32,
    },
    /// `all`: each pending call continues.
    All,
}

/// Returns the meaning of a line, or `None` if the line is not understood.
pub fn line_of(line: &[u8]) -> Option<Line<'_>>
    ensures says { MatchOption result ((said : Said) →
        ¬ Says line.now said) (λ understood. Says line.now (said_of understood)) }
    ensures fits { IfSome result LineFits }
{
    if line.len() > LINE_BYTES {
        return None;
    }
    match line {
        [] | [b'#', ..] => Some(Line::Skipped),
        [b'+', words @ ..] => {
            let (actor, call) = start_of(words)?;
            Some(Line::Start {
                actor,
                call,
                goes: false,
            })
        }
        _ => words_of(line),
    }
}

/// Returns the meaning of a line that is not skipped and has no `+` before it.
fn words_of(line: &[u8]) -> Option<Line<'_>>
    ensures says { MatchOption result ((said : Said) →
        ¬ TellsInWords line.now said) (λ understood. TellsInWords line.now (said_of understood)) }
    ensures fits { IfSome result LineFits }
{
    let Some((name, words)) = split_at_mark(line, b' ') else {
        return alone(line);
    };
    if let Some(order) = order_of(name, words) {
        return Some(order);
    }
    let (actor, call) = start_of(line)?;
    Some(Line::Start {
        actor,
        call,
        goes: true,
    })
}

/// Returns the meaning of a line of one word.
fn alone(word: &[u8]) -> Option<Line<'_>>
    ensures says { MatchOption result ((said : Said) →
        ¬ TellsAlone word.now said) (λ understood. TellsAlone word.now (said_of understood)) }
    ensures fits { IfSome result LineFits }
{
    if word == b"preset".as_slice() {
        Some(Line::Preset)
    } else if word == b"all".as_slice() {
        Some(Line::All)
    } else {
        None
    }
}

/// Returns the meaning of a line with this name and these arguments.
fn order_of<'a>(name: &[u8], arguments: &'a [u8]) -> Option<Line<'a>>
    ensures says { MatchOption result ((said : Said) →
        ¬ OrderNamed name.now arguments.now said) (λ order.
        OrderNamed name.now arguments.now (said_of order)) }
    ensures fits { IfSome result LineFits }
{
    if name == b"pool".as_slice() {
        pool_of(arguments)
    } else if name == b"as".as_slice() {
        cred_of(arguments)
    } else if name == b"now".as_slice() {
        moment_of(arguments)
    } else if name == b"step".as_slice() {
        step_of(arguments)
    } else if name == b"go".as_slice() {
        go_of(arguments)
    } else {
        None
    }
}

/// Reads `N`, the number of blocks of the pool.
fn pool_of(arguments: &[u8]) -> Option<Line<'_>>
    ensures says { MatchOption result ((said : Said) →
        ¬ OrderNamed (codes "pool") arguments.now said) (λ order.
        OrderNamed (codes "pool") arguments.now (said_of order)) }
    ensures fits { IfSome result LineFits }
{
    let Blocks(blocks) = Blocks::read(arguments)?;
    Some(Line::Pool { blocks })
}

/// Reads `ACTOR UID GID PID`.
fn cred_of(arguments: &[u8]) -> Option<Line<'_>>
    ensures says { MatchOption result ((said : Said) →
        ¬ OrderNamed (codes "as") arguments.now said) (λ order.
        OrderNamed (codes "as") arguments.now (said_of order)) }
    ensures fits { IfSome result LineFits }
{
    let (Actor(actor), (uid, (gid, pid))) = <(Actor, (u32, (u32, u32)))>::read(arguments)?;
    Some(Line::Cred {
        actor,
        cred: Cred { uid, gid, pid },
    })
}

/// Reads `T`, the time.
fn moment_of(arguments: &[u8]) -> Option<Line<'_>>
    ensures says { MatchOption result ((said : Said) →
        ¬ OrderNamed (codes "now") arguments.now said) (λ order.
        OrderNamed (codes "now") arguments.now (said_of order)) }
    ensures fits { IfSome result LineFits }
{
    let moment = u64::read(arguments)?;
    Some(Line::Moment(moment))
}

/// Reads `ACTOR`, the actor that makes one step.
fn step_of(arguments: &[u8]) -> Option<Line<'_>>
    ensures says { MatchOption result ((said : Said) →
        ¬ OrderNamed (codes "step") arguments.now said) (λ order.
        OrderNamed (codes "step") arguments.now (said_of order)) }
    ensures fits { IfSome result LineFits }
{
    let Actor(actor) = Actor::read(arguments)?;
    Some(Line::Step { actor })
}

/// Reads `ACTOR`, the actor that continues its call.
fn go_of(arguments: &[u8]) -> Option<Line<'_>>
    ensures says { MatchOption result ((said : Said) →
        ¬ OrderNamed (codes "go") arguments.now said) (λ order.
        OrderNamed (codes "go") arguments.now (said_of order)) }
    ensures fits { IfSome result LineFits }
{
    let Actor(actor) = Actor::read(arguments)?;
    Some(Line::Go { actor })
}

/// Reads an actor and the call that it starts.
fn start_of(words: &[u8]) -> Option<(u32, Call<Text<'_>, ()>)>
    ensures says { MatchOption result ((who : ℕ) (asked : SystemCall) →
        ¬ SaysStart words.now who asked) (λ start.
        SaysStart words.now start.0 (call_asked start.1)) }
    ensures fits { IfSome result (λ start. IsOfActors start.0 × CallFits start.1) }
{
    let (Actor(actor), words) = first::<Actor>(words)?;
    let call = call_of(words)?;
    Some((actor, call))
}
