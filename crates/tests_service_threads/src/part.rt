//! The tasks of threads.
ghost use Rattle.sysv_service.specs.Seats.{AreOf};

use crate::ask::{Ask, Told, make};
use crate::board::{Board, Moment};
use crate::crowd::{Receiver, Sender};
use crate::turns::Tease;
use std::alloc::Global;
use std::process::Abort;
use std::sync::Wait;
use std::thread;
use std::time::{Clock, Duration};
use sysv_service::{Pass, Service};

/// What one thread does with its pass.
#[derive(Drop)]
pub(crate) enum Part<'a> {
    /// Makes a call at its time.
    Asks(Turn<'a>),
    Teases(Tease<'a>),
    Sends(Sender),
    Receives(Receiver),
}

impl Part<'_> {
    pub(crate) fn act<R: Abort + Wait + Clock>(
        &mut self,
        rt: &R,
        alloc: Global,
        service: &Service,
        pass: &mut Pass,
    )
        requires { AreOf service.now pass.old.seats }
        ensures { AreOf service.now pass.new.seats }
    {
        match self {
            Part::Asks(turn) => turn.take(rt, alloc, service, pass),
            Part::Teases(tease) => tease.act(rt, alloc, service, pass),
            Part::Sends(sender) => sender.send_all(rt, alloc, service, pass),
            Part::Receives(receiver) => receiver.receive_all(rt, alloc, service, pass),
        }
    }
}

/// A call of a thread, with the reports before it and after it.
#[derive(Drop)]
pub(crate) struct Turn<'a> {
    pub(crate) board: &'a Board,
    /// Whether the thread reports that it runs.
    pub(crate) runs: bool,
    /// The number of reports that it waits for.
    pub(crate) after: u64,
    /// Whether it reports that it begins, after it has let the others reach their waits.
    pub(crate) begins: bool,
    pub(crate) clock: Moment<'a>,
    pub(crate) ask: Ask,
    /// Whether it reports that its call was answered.
    pub(crate) ends: bool,
    /// The result, after the call has ended.
    pub(crate) told: Option<Told>,
    /// The number of reports when the call ended.
    pub(crate) said: u64,
}

impl<'a> Turn<'a> {
    /// Creates a call that is made at once, by a thread that reports that it runs.
    pub(crate) fn at_once(board: &'a Board, ask: Ask) -> Turn<'a> {
        Turn {
            board,
            runs: true,
            after: 0,
            begins: false,
            clock: Moment::Still,
            ask,
            ends: false,
            told: None,
            said: 0,
        }
    }

    fn take<R: Abort + Wait + Clock>(
        &mut self,
        rt: &R,
        alloc: Global,
        service: &Service,
        pass: &mut Pass,
    )
        requires { AreOf service.now pass.old.seats }
        ensures { AreOf service.now pass.new.seats }
    {
        if self.runs {
            self.board.say();
        }
        self.board.hear(rt, self.after);
        if self.begins {
            thread::sleep(rt, Duration::from_millis(20));
            self.board.say();
        }
        self.told = Some(make(rt, alloc, service, pass, self.clock, self.ask));
        self.said = self.board.said();
        if self.ends {
            self.board.say();
        }
    }
}

/// Appends a part.
pub(crate) fn add<'a>(rt: &impl Abort, parts: &mut Vec<Part<'a>>, part: Part<'a>) {
    parts.push(part).expect(rt, "memory");
}

/// Returns the result of the call of this part, and the number of reports when it ended.
pub(crate) fn told_of(rt: &impl Abort, parts: &[Part], place: usize) -> (Told, u64) {
    let Some(Part::Asks(turn)) = parts.get(place) else {
        panic!(rt; "no call at {place}")
    };
    (turn.told.expect(rt, "an answer"), turn.said)
}
