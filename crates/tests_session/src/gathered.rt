//! Replies that are gathered for a connection that takes them in pieces.
ghost use Rattle.std.specs.Prelude.{◌≡◌, ◌≢◌, ◌≤◌, ◌+◌, length};
ghost use Rattle.sysv_model.specs.declared.limits.TheConstants.{MESSAGE_BYTES};
ghost use Rattle.sysv_queue.specs.Tally.{taken_in};
ghost use Rattle.sysv_session.specs.Answers.{HasAnswer};
ghost use Rattle.sysv_wire.specs.Replies.{IsAnswer};
ghost use Rattle.sysv_wire.specs.Requests.{op_of};

use crate::parts::{assert_at, assert_is};
use crate::served::counts_of;
use crate::test_handler::TestHandler;
use std::alloc::{AllocFailed, Global};
use std::process::Abort;
use sysv_model::{Body, Instrumented};
use sysv_queue::{Delivery, Tally};
use sysv_session::{End, Handler, Outbox, RequestOutcome, Session, TakenUp, hello_reply};
use sysv_wire::{Ask, Op, Reply, ReplyContent, Request, Version};
use tests_kit::worked::{ANSWERS, SESSION};
use tests_kit::{Pieces, USER, creating, flags, open_body};

/// The frames of the reply to a send and of two replies to receives of `hi` with type 5.
const GATHERED: &[u8] = &[
    0x00, 0x00, 0x00, 0x03, 0x01, 0x02, 0x00, //
    0x00, 0x00, 0x00, 0x0d, 0x01, 0x03, 0x00, 0x00, 0x00, 0x00, 0x00, 0x00, 0x00, 0x00, 0x05, 0x68,
    0x69, //
    0x00, 0x00, 0x00, 0x0d, 0x01, 0x03, 0x00, 0x00, 0x00, 0x00, 0x00, 0x00, 0x00, 0x00, 0x05, 0x68,
    0x69,
];

/// Makes a request that has a reply without a message.
fn asked(rt: &impl Abort, handler: &mut TestHandler, ask: Ask, text: &Body, given: &mut Body)
    requires { op_of ask ≢ Op.Hello }
{
    given.clear();
    let version = Version::One;
    match handler.call(USER, &Request { version, ask }, text, given) {
        RequestOutcome::Reply(_) => {}
        RequestOutcome::Got(_delivery) => panic!(rt; "only a receive returns a message"),
        RequestOutcome::Left => panic!(rt; "nothing waits"),
    }
}

/// Sends `text` with type 5 to queue 0 and receives it. Its body is then in `given`.
fn received(rt: &impl Abort, handler: &mut TestHandler, text: &Body, given: &mut Body) -> Delivery
    ensures { length given.new ≤ MESSAGE_BYTES }
{
    let flags = flags(0);
    let (id, mtype) = (0, 5);
    asked(rt, handler, Ask::Snd { id, mtype, flags }, text, given);
    given.clear();
    let request = Request {
        version: Version::One,
        ask: Ask::Rcv {
            id,
            size: 100,
            mtype,
            flags,
        },
    };
    match handler.call(USER, &request, text, given) {
        RequestOutcome::Got(delivery) => delivery,
        RequestOutcome::Reply(_) => panic!(rt; "a message is queued"),
        RequestOutcome::Left => panic!(rt; "nothing waits"),
    }
}

/// Gathers a reply. Tolerates one refusal of memory, after which nothing was gathered.
fn put(rt: &impl Abort, outbox: &mut Outbox, reply: &Reply, text: &Body)
    requires answer { IsAnswer reply.now.version reply.now.op reply.now.result }
    requires text { length text.now ≤ MESSAGE_BYTES }
    ensures { length outbox.new.marks ≡ length outbox.old.marks }
{
    let before = outbox.unsent().len();
    if outbox.put(reply, text).is_err() {
        assert_eq!(rt; outbox.unsent().len(), before);
        outbox.put(reply, text).expect(rt, "a second try");
    }
}

/// Gathers a message. Tolerates one refusal of memory, after which nothing was gathered.
fn put_message(
    rt: &impl Abort,
    outbox: &mut Outbox,
    version: Version,
    delivery: Delivery,
    given: &Body,
)
    requires { length given.now ≤ MESSAGE_BYTES }
    ensures { length outbox.new.marks ≡ length outbox.old.marks + 1 }
{
    let before = outbox.unsent().len();
    if let Err(AllocFailed { value }) = outbox.put_message(version, delivery, given) {
        assert_eq!(rt; outbox.unsent().len(), before);
        if let Err(AllocFailed { value: _value }) = outbox.put_message(version, value, given) {
            panic!(rt; "a second try");
        }
    }
}

/// Lets the connection take `count` bytes more, and asserts what is then left and how many messages
/// were written.
fn take(
    rt: &impl Abort,
    outbox: &mut Outbox,
    count: usize,
    tally: &mut Tally,
    left: &[u8],
    written: u64,
)
    requires { taken_in tally.old + length outbox.old.marks ≤ 2 }
    ensures { taken_in tally.new + length outbox.new.marks ≤ 2 }
{
    let count = count.min(outbox.unsent().len());
    outbox.sent(count, tally);
    assert_is(rt, outbox.unsent(), left);
    assert_is(rt, (tally.written(), tally.lost()), (written, 0));
}

/// Returns an outbox with the reply to a send and two replies to receives of `hi` with type 5.
fn with_two_messages(rt: &impl Abort, alloc: Global, handler: &mut TestHandler) -> Outbox
    ensures { length result.marks ≡ 2 }
{
    let mut text = open_body(alloc).expect(rt, "a second try");
    let mut given = open_body(alloc).expect(rt, "a second try");
    let get = Ask::Get {
        key: 7,
        flags: creating(),
    };
    asked(rt, handler, get, &text, &mut given);
    text.push_piece(b"hi");
    let mut outbox = Outbox::open(alloc);
    let sent = Reply {
        version: Version::One,
        op: Op::Snd.number(),
        result: ReplyContent::Snd,
    };
    put(rt, &mut outbox, &sent, &text);
    let first = received(rt, handler, &text, &mut given);
    put_message(rt, &mut outbox, Version::One, first, &given);
    let second = received(rt, handler, &text, &mut given);
    put_message(rt, &mut outbox, Version::One, second, &given);
    outbox
}

// The first message is written once a byte after its frame was taken, and the second is lost.
#[test]
fn a_message_is_written_once_a_byte_after_it_was_taken(rt: HostRuntime) {
    let mut handler = TestHandler::open(&rt, rt.alloc());
    let mut tally = Tally::open();
    let mut outbox = with_two_messages(&rt, rt.alloc(), &mut handler);
    assert_is(&rt, outbox.unsent(), GATHERED);
    take(&rt, &mut outbox, 7, &mut tally, &GATHERED[7..], 0);
    take(&rt, &mut outbox, 16, &mut tally, &GATHERED[23..], 0);
    take(&rt, &mut outbox, 1, &mut tally, &GATHERED[24..], 0);
    take(&rt, &mut outbox, 1, &mut tally, &GATHERED[25..], 1);
    take(&rt, &mut outbox, 15, &mut tally, &GATHERED[40..], 1);
    outbox.end(false, &mut tally);
    assert_is(&rt, (tally.written(), tally.lost()), (1, 1));
    assert_is(&rt, handler.end(), 128);
}

/// Lets the connection take this number of bytes, ends the outbox, and asserts how many messages
/// were written. The others are lost.
fn assert_written(rt: &impl Abort, alloc: Global, taken: usize, is_reset: bool, written: u64) {
    let mut handler = TestHandler::open(rt, alloc);
    let mut tally = Tally::open();
    let mut outbox = with_two_messages(rt, alloc, &mut handler);
    let count = taken.min(outbox.unsent().len());
    outbox.sent(count, &mut tally);
    outbox.end(is_reset, &mut tally);
    assert_at(rt, (tally.written(), tally.taken()), (written, 2), taken);
    assert_is(rt, handler.end(), 128);
}

// The frames of the messages end with bytes 24 and 41.
#[test]
fn after_a_reset_the_message_that_ends_last_is_lost(rt: HostRuntime) {
    for taken in 0..42 {
        let whole = u64::from(taken >= 24) + u64::from(taken == 41);
        assert_written(&rt, rt.alloc(), taken, false, whole);
        let read = u64::from(taken > 24);
        assert_written(&rt, rt.alloc(), taken, true, read);
    }
}

/// A session whose replies are gathered, and its two bodies.
struct Gathering {
    session: Session,
    outbox: Outbox,
    text: Body,
    given: Body,
}

impl Gathering {
    /// Gathers the outcome of a request.
    fn answer(&mut self, rt: &impl Abort, version: Version, outcome: RequestOutcome)
        requires reply { HasAnswer outcome }
        requires text { length self.old.given ≤ MESSAGE_BYTES }
        ensures session { self.new.session ≡ self.old.session }
        ensures marks { length self.new.outbox.marks ≤ length self.old.outbox.marks + 1 }
    {
        match outcome {
            RequestOutcome::Reply(reply) => put(rt, &mut self.outbox, &reply, &self.given),
            RequestOutcome::Got(delivery) => {
                put_message(rt, &mut self.outbox, version, delivery, &self.given);
            }
            RequestOutcome::Left => panic!(rt; "nothing waits"),
        }
    }

    /// Takes up what the input holds next, and gathers its reply.
    fn step(
        &mut self,
        rt: &impl Abort,
        reader: &mut Instrumented<'_, Pieces<'_>>,
        handler: &mut TestHandler,
    ) -> Result<(), End>
        ensures tally { self.new.session.tally ≡ self.old.session.tally }
        ensures marks { length self.new.outbox.marks ≤ length self.old.outbox.marks + 1 }
    {
        let taken = self.session.take_up(reader, &mut self.text)?;
        self.given.clear();
        match taken {
            TakenUp::Hello(version) => {
                let reply = hello_reply(version, handler.slots());
                put(rt, &mut self.outbox, &reply, &self.given);
            }
            TakenUp::Request(cred, request) => {
                let outcome = handler.call(cred, &request, &self.text, &mut self.given);
                self.answer(rt, request.version, outcome);
            }
        }
        Ok(())
    }
}

// All replies are gathered before the connection takes any of them.
#[test]
fn a_session_is_taken_up_step_by_step(rt: HostRuntime) {
    let mut handler = TestHandler::open(&rt, rt.alloc());
    let mut pieces = Pieces::new(SESSION, usize::MAX);
    let mut reader = Instrumented::new(&mut pieces);
    let mut gathering = Gathering {
        session: Session::open(Version::Two),
        outbox: Outbox::open(rt.alloc()),
        text: open_body(rt.alloc()).expect(&rt, "a second try"),
        given: open_body(rt.alloc()).expect(&rt, "a second try"),
    };
    assert_is(&rt, gathering.step(&rt, &mut reader, &mut handler), Ok(()));
    assert_is(&rt, gathering.step(&rt, &mut reader, &mut handler), Ok(()));
    assert_is(&rt, gathering.step(&rt, &mut reader, &mut handler), Ok(()));
    assert_is(&rt, gathering.step(&rt, &mut reader, &mut handler), Ok(()));
    assert_is(&rt, gathering.step(&rt, &mut reader, &mut handler), Ok(()));
    let end = gathering.step(&rt, &mut reader, &mut handler);
    assert_is(&rt, end, Err(End::Ended));
    let Gathering {
        mut session,
        mut outbox,
        text: _,
        given: _,
    } = gathering;
    assert_is(&rt, outbox.unsent(), ANSWERS);
    let count = outbox.unsent().len();
    outbox.sent(count, &mut session.tally);
    outbox.end(false, &mut session.tally);
    let served = session.end(End::Ended);
    assert_is(&rt, counts_of(&served), (5, 1, 1, 0));
    assert_is(&rt, handler.end(), 128);
}
