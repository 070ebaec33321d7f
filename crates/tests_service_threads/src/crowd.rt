//! Four senders and four receivers at one queue that has room for one byte.
ghost use Rattle.sysv_service.specs.Seats.{AreOf};

use crate::ask::{Ask, waiting};
use crate::board::Moment;
use crate::part::Part;
use crate::parts::{assert_is, body_of, closed, empty_body};
use crate::team::run;
use std::alloc::Global;
use std::process::Abort;
use std::sync::Wait;
use sysv_model::SetTo;
use sysv_queue::Tally;
use sysv_service::{Pass, Service};
use tests_kit::USER;

/// The number of messages that each sender sends, and that each receiver receives.
const TIMES: u8 = 200;

const SENDERS: i64 = 4;

/// The attributes of a queue of user 1000 with room for one byte.
const ONE_BYTE: SetTo = SetTo {
    uid: 1000,
    gid: 1000,
    mode: 0o600,
    qbytes: 1,
};

/// Sends its messages in order, with two types in turn. Each message's byte is its number.
#[derive(Drop)]
pub(crate) struct Sender {
    /// The sender's number, from 0 on.
    number: i64,
}

/// Receives messages of any type.
#[derive(Drop)]
pub(crate) struct Receiver {
    /// The messages in the order in which they were received.
    got: Vec<Message>,
}

#[derive(Clone, Copy)]
struct Message {
    mtype: i64,
    number: u8,
}

impl Sender {
    pub(crate) fn send_all<R: Abort + Wait>(
        &self,
        rt: &R,
        alloc: Global,
        service: &Service,
        pass: &mut Pass,
    )
        requires { AreOf service.now pass.old.seats }
        ensures { AreOf service.now pass.new.seats }
    {
        for number in 0..TIMES {
            let text = body_of(rt, alloc, &[number]);
            let mtype = type_of(self.number, number);
            let sent = service.msgsnd(rt, pass, &Moment::Still, USER, 0, mtype, &text, waiting());
            assert_is(rt, sent, Ok(()));
        }
    }
}

/// Returns the type of a message of a sender. Even and odd messages have different types.
fn type_of(sender: i64, number: u8) -> i64 {
    sender
        .saturating_mul(2)
        .saturating_add(1)
        .saturating_add(i64::from(number % 2))
}

impl Receiver {
    pub(crate) fn receive_all<R: Abort + Wait>(
        &mut self,
        rt: &R,
        alloc: Global,
        service: &Service,
        pass: &mut Pass,
    )
        requires { AreOf service.now pass.old.seats }
        ensures { AreOf service.now pass.new.seats }
    {
        let mut out = empty_body(rt, alloc);
        for _ in 0..TIMES {
            let clock = Moment::Still;
            let given = service.msgrcv(rt, pass, &clock, USER, 0, &mut out, 1, 0, waiting());
            let Ok(delivery) = given else {
                panic!(rt; "a receive is refused")
            };
            let mtype = delivery.mtype();
            delivery.written(&mut Tally::open());
            assert_eq!(rt; out.len(), 1);
            let number = out.byte(0);
            self.got
                .push(Message { mtype, number })
                .expect(rt, "memory");
        }
    }

    /// Returns how often it received the message with this type and number.
    fn count_of(&self, mtype: i64, number: u8) -> usize {
        self.got
            .iter()
            .filter(|m| m.mtype == mtype && m.number == number)
            .count()
    }

    /// Returns whether the messages of the type were received in the order in which they were sent.
    fn is_in_order(&self, mtype: i64) -> bool {
        let mut last = None;
        for message in self.got.iter() {
            if message.mtype == mtype {
                if last.is_some_and(|last| last >= message.number) {
                    return false;
                }
                last = Some(message.number);
            }
        }
        true
    }
}

/// Four senders and four receivers.
fn crowd(rt: &impl Abort, alloc: Global) -> Vec<Part<'static>> {
    let mut parts = Vec::new(alloc);
    for number in 0..SENDERS {
        let got = Vec::new(alloc);
        parts
            .push(Part::Sends(Sender { number }))
            .expect(rt, "memory");
        parts
            .push(Part::Receives(Receiver { got }))
            .expect(rt, "memory");
    }
    parts
}

/// Returns how often all receivers together received the message.
fn count_in(parts: &[Part], mtype: i64, number: u8) -> usize {
    let mut count: usize = 0;
    for part in parts {
        if let Part::Receives(receiver) = part {
            count = count.saturating_add(receiver.count_of(mtype, number));
        }
    }
    count
}

fn is_all_in_order(parts: &[Part], mtype: i64) -> bool {
    parts.iter().all(|part| match part {
        Part::Receives(receiver) => receiver.is_in_order(mtype),
        _ => true,
    })
}

#[test]
fn each_message_is_received_once_and_in_order(rt: HostRuntime) {
    let alloc = rt.alloc();
    let before = [Ask::Get(7), Ask::Set(0, USER, ONE_BYTE)];
    let left = run(&rt, alloc, 1024, &before, crowd(&rt, alloc));
    assert_is(&rt, left.closed, closed(0, 1024));
    for sender in 0..SENDERS {
        for number in 0..TIMES {
            let mtype = type_of(sender, number);
            let count = count_in(&left.parts, mtype, number);
            assert_eq!(rt; count, 1, "{number} of {sender}");
        }
        assert!(rt; is_all_in_order(&left.parts, type_of(sender, 0)));
        assert!(rt; is_all_in_order(&left.parts, type_of(sender, 1)));
    }
}
