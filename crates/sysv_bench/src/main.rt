//! Measures each layer of `sysvmsg`: one word of the command line for each measurement.
//!
//! Each measurement is a module whose `measure` prints figures, and whose `once` is the same with
//! the smallest sizes. Those of eventcounts, buffers and gates are in `bench_threads`, which also
//! describes how times are taken.
#![tactic(auto)]

mod bodies;
mod caller;
mod keys;
mod once;
mod pool;
mod service;
mod session;
mod wire;
mod words;

use bench_threads::{buffer, eventcount, gate};
use std::alloc::Global;
use std::env::Env;
use std::process::ExitCode;
use std::sync::Wait;
use std::thread::Threads;
use std::time::{Clock, CpuClock};
use std::{env, io};
use words::{Asked, USAGE, read_words};

/// The status if the measurement could not be made or printed.
const FAULT: u8 = 1;

/// The exit status if the command line is not valid.
const NOT_UNDERSTOOD: u8 = 2;

fn main(rt: HostRuntime) -> ExitCode {
    match asked(&rt) {
        Ok(Some(asked)) => status(measure(&rt, rt.alloc(), asked), ExitCode::SUCCESS),
        Ok(None) => status(println!(rt; "{USAGE}"), ExitCode::from(NOT_UNDERSTOOD)),
        Err(_) => ExitCode::from(FAULT),
    }
}

fn status(done: io::Result<()>, then: ExitCode) -> ExitCode {
    match done {
        Ok(()) => then,
        Err(_) => ExitCode::from(FAULT),
    }
}

fn asked<R: Env + AllocGlobal>(rt: &R) -> io::Result<Option<Asked>> {
    let words: Vec<String> = env::args(rt)?.collect(rt.alloc())?;
    asked_by(rt.alloc(), &words)
}

fn asked_by(alloc: Global, words: &[String]) -> io::Result<Option<Asked>> {
    let words: Vec<&str> = words.iter().map(|word| word.as_str()).collect(alloc)?;
    Ok(read_words(words.get(1..).unwrap_or(&[])))
}

fn measure<R>(rt: &R, alloc: Global, asked: Asked) -> io::Result<()>
where
    R: Threads + Wait + Clock + CpuClock + Print + io::Input + Sync,
{
    match asked {
        Asked::Once => once::measure(rt, alloc),
        Asked::Eventcount => eventcount::measure(rt, alloc),
        Asked::Buffer => buffer::measure(rt, alloc),
        Asked::BufferAlone => buffer::measure_alone(rt, alloc),
        Asked::Gate => gate::measure(rt, alloc),
        Asked::GateAlone => gate::measure_alone(rt, alloc),
        Asked::Wakes { rounds } => gate::try_wakes(rt, alloc, rounds),
        Asked::Keys => keys::measure(rt, alloc),
        Asked::Pool => pool::measure(rt, alloc),
        Asked::Wire => wire::measure(rt, alloc),
        Asked::Answers => wire::tell_answers(rt, alloc),
        Asked::Session => session::measure(rt, alloc),
        Asked::Service => service::measure(rt, alloc),
        Asked::Pairs { size, count } => service::measure_pairs(rt, alloc, size, count),
        Asked::Rounds { count } => service::measure_rounds(rt, alloc, count),
        Asked::Soak { seconds } => service::soak(rt, alloc, seconds),
    }
}
