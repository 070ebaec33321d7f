//! Calls that proceed while another call is held, and a receive that looks again.
ghost use Rattle.sysv_service.specs.Seats.{AreOf};

use crate::ask::Ask;
use crate::board::{Board, LOOKS, Moment};
use crate::part::{Part, Turn, add, told_of};
use crate::parts::{assert_is, body_of, closed};
use crate::team::run;
use std::alloc::Global;
use std::process::Abort;
use std::sync::Wait;
use sysv_model::{Body, Flags};
use sysv_queue::Tally;
use sysv_service::{Pass, Service};
use tests_kit::USER;

/// Sends messages of type 1 to a queue and takes them back, until each of several receives of type
/// 2 has looked twice there.
#[derive(Drop)]
pub(crate) struct Tease<'a> {
    pub(crate) id: i32,
    /// The clock of each receive reports on its board whenever it is read, which is once before
    /// each look.
    pub(crate) looks: &'a [Board],
    pub(crate) then: Then<'a>,
}

/// What is done after each receive has looked twice.
#[derive(Clone, Copy)]
pub(crate) enum Then<'a> {
    /// Sends a message of type 2.
    Sends,
    /// Makes a report.
    Says(&'a Board),
}

impl Tease<'_> {
    pub(crate) fn act<R: Abort + Wait>(
        &self,
        rt: &R,
        alloc: Global,
        service: &Service,
        pass: &mut Pass,
    )
        requires { AreOf service.now pass.old.seats }
        ensures { AreOf service.now pass.new.seats }
    {
        let mut text = body_of(rt, alloc, b"x");
        for _ in 0..LOOKS {
            if self.looks.iter().all(|look| look.said() >= 2) {
                break;
            }
            send(rt, service, pass, self.id, 1, &text);
            take_back(rt, service, pass, self.id, &mut text);
        }
        match self.then {
            Then::Sends => send(rt, service, pass, self.id, 2, &text),
            Then::Says(board) => board.say(),
        }
    }
}

fn send<R: Abort + Wait>(
    rt: &R,
    service: &Service,
    pass: &mut Pass,
    id: i32,
    mtype: i64,
    text: &Body,
)
    requires { AreOf service.now pass.old.seats }
    ensures { AreOf service.now pass.new.seats }
{
    let clock = Moment::Still;
    let sent = service.msgsnd(rt, pass, &clock, USER, id, mtype, text, Flags::IPC_NOWAIT);
    assert_is(rt, sent, Ok(()));
}

/// Receives the message of type 1.
fn take_back<R: Abort + Wait>(rt: &R, service: &Service, pass: &mut Pass, id: i32, text: &mut Body)
    requires { AreOf service.now pass.old.seats }
    ensures { AreOf service.now pass.new.seats }
{
    let clock = Moment::Still;
    let Ok(delivery) = service.msgrcv(rt, pass, &clock, USER, id, text, 1, 1, Flags::IPC_NOWAIT)
    else {
        panic!(rt; "the message is there")
    };
    delivery.written(&mut Tally::open());
}

#[test]
fn a_receive_is_asked_again_at_each_message(rt: HostRuntime) {
    let alloc = rt.alloc();
    let looks = [Board::new()];
    let turn = Turn {
        runs: false,
        clock: Moment::Counts(&looks[0]),
        ..Turn::at_once(&looks[0], Ask::ReceiveSecond(0))
    };
    let tease = Tease {
        id: 0,
        looks: &looks,
        then: Then::Sends,
    };
    let mut parts = Vec::new(alloc);
    add(&rt, &mut parts, Part::Asks(turn));
    add(&rt, &mut parts, Part::Teases(tease));
    let left = run(&rt, alloc, 128, &[Ask::Get(7)], parts);
    assert_is(&rt, left.closed, closed(0, 128));
    let (told, asked) = told_of(&rt, &left.parts, 0);
    assert_is(&rt, told, Ok(1));
    assert!(rt; asked >= 3);
}

#[test]
fn a_send_goes_on_while_another_is_held(rt: HostRuntime) {
    let alloc = rt.alloc();
    let board = Board::new();
    let held = Turn {
        runs: false,
        after: 1,
        clock: Moment::Holds(&board, 3),
        ..Turn::at_once(&board, Ask::Send(0, 1))
    };
    let free = Turn {
        after: 2,
        ends: true,
        ..Turn::at_once(&board, Ask::Send(1, 1))
    };
    let mut parts = Vec::new(alloc);
    add(&rt, &mut parts, Part::Asks(held));
    add(&rt, &mut parts, Part::Asks(free));
    let left = run(&rt, alloc, 128, &[Ask::Get(1), Ask::Get(2)], parts);
    assert_is(&rt, left.closed, closed(2, 128));
    assert_is(&rt, told_of(&rt, &left.parts, 0), (Ok(0), 3));
    assert_is(&rt, told_of(&rt, &left.parts, 1), (Ok(0), 2));
}
