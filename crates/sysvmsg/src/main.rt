//! `sysvmsg`, System V message queues from the command line.
#![tactic(auto)]

mod output;
mod process;
mod room;
mod running;
mod scripts;
mod serving;
mod socket;

use output::Output;
use process::System;
use running::exit_of;
use serving::OnSockets;
use std::fs::File;
use std::io;
use std::io::IsTerminal;
use std::process::ExitCode;
use std::rt::Files;
use sysv_connect::{Screen, Socket};
use sysv_system::Watched;

/// Runs the program. Only this function has the whole runtime: no other can print on standard
/// output but by the screen.
fn main(rt: HostRuntime) -> ExitCode {
    let _stand_ins = [stand_in(&rt), stand_in(&rt), stand_in(&rt)];
    let (mut stream, mut screen) = (None, Screen::new(Output::new(&rt, io::writer(&rt))));
    let place = Socket {
        rt: &rt,
        stream: &mut stream,
    };
    let server = OnSockets::new(&rt);
    let system = System {
        rt: &rt,
        is_terminal: rt.stdout().is_terminal(),
    };
    exit_of(&system, &rt, rt.stdin(), place, server, &mut screen)
}

/// Opens a stand-in for a closed standard stream, so that no socket gets its descriptor. A read
/// from it is at the end of the input, and a write to it fails. Returns `None` if no standard
/// stream is closed, or if `/dev/null` cannot be opened.
fn stand_in(rt: &impl Files<File = File>) -> Option<File> {
    let file = File::open(rt, "/dev/null").ok()?;
    Watched::of(&file).is_standard().then_some(file)
}
