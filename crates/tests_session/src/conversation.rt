//! A session and its gathered replies as one value.
ghost use Rattle.std.specs.Prelude.{◌≡◌, ◌≤◌, ◌<◌, ◌+◌, length, IfSome};
ghost use Rattle.sysv_queue.specs.Tally.{taken_in};

use crate::parts::{assert_at, assert_is, assert_that};
use crate::served::counts_of;
use crate::test_handler::TestHandler;
use std::alloc::Global;
use std::process::Abort;
use sysv_model::{Body, Instrumented};
use sysv_session::{Conversation, End, Handler, RequestOutcome, TakenUp};
use sysv_wire::Version;
use tests_kit::worked::{ANSWERS, SESSION};
use tests_kit::{Pieces, open_body};

/// A conversation and its two bodies.
struct Conversing {
    conversation: Conversation,
    text: Body,
    given: Body,
}

impl Conversing {
    /// Opens a conversation. Tolerates one refusal of memory.
    fn open(rt: &impl Abort, alloc: Global) -> Conversing
        ensures { taken_in result.conversation.session.tally
            + length result.conversation.unsent.marks ≡ 0 }
    {
        Conversing {
            conversation: Conversation::open(alloc, Version::Two),
            text: open_body(alloc).expect(rt, "a second try"),
            given: open_body(alloc).expect(rt, "a second try"),
        }
    }

    /// Takes up what the input holds next, and gathers its reply.
    fn step(
        &mut self,
        reader: &mut Instrumented<'_, Pieces<'_>>,
        handler: &mut TestHandler,
    ) -> Result<(), End>
        requires room { taken_in self.old.conversation.session.tally
            + length self.old.conversation.unsent.marks < 9 }
        ensures more { taken_in self.new.conversation.session.tally
            + length self.new.conversation.unsent.marks
            ≤ taken_in self.old.conversation.session.tally
            + length self.old.conversation.unsent.marks + 1 }
    {
        let taken = self.conversation.take_up(reader, &mut self.text)?;
        self.given.clear();
        match taken {
            TakenUp::Hello(version) => {
                self.conversation
                    .greet(version, handler.slots(), &self.given)
            }
            TakenUp::Request(cred, request) => {
                let outcome = handler.call(cred, &request, &self.text, &mut self.given);
                self.conversation.put(request.version, outcome, &self.given)
            }
        }
    }

    /// Takes up the five requests of the session whose bytes were worked out by hand, and its end.
    /// Ends earlier if memory is refused.
    fn dialogue(&mut self, handler: &mut TestHandler) -> Result<(), End>
        requires none { taken_in self.old.conversation.session.tally
            + length self.old.conversation.unsent.marks ≡ 0 }
        ensures few { taken_in self.new.conversation.session.tally
            + length self.new.conversation.unsent.marks ≤ 6 }
    {
        let mut pieces = Pieces::new(SESSION, usize::MAX);
        let mut reader = Instrumented::new(&mut pieces);
        self.step(&mut reader, handler)?;
        self.step(&mut reader, handler)?;
        self.step(&mut reader, handler)?;
        self.step(&mut reader, handler)?;
        self.step(&mut reader, handler)?;
        self.step(&mut reader, handler)
    }
}

/// Holds the session whose bytes were worked out by hand, with a connection that takes nothing yet.
/// Returns `None` if memory was refused: the session then ended.
fn gathered(rt: &impl Abort, alloc: Global, handler: &mut TestHandler) -> Option<Conversation>
    ensures { IfSome result (λ conversation. taken_in conversation.session.tally
        + length conversation.unsent.marks ≤ 6) }
{
    let mut conversing = Conversing::open(rt, alloc);
    assert_that(rt, conversing.conversation.is_empty());
    let end = conversing.dialogue(handler);
    let Conversing {
        conversation,
        text: _,
        given: _,
    } = conversing;
    if end == Err(End::NoMemory) {
        let served = conversation.end(End::NoMemory);
        assert_that(rt, served.end == End::NoMemory || served.end == End::Write);
        assert_is(rt, served.tally.taken(), served.tally.lost());
        return None;
    }
    assert_is(rt, end, Err(End::Ended));
    Some(conversation)
}

/// Lets the connection take this number of bytes, one after another, and asserts before each which
/// are left.
fn take_bytes(rt: &impl Abort, conversation: &mut Conversation, count: usize)
    requires { taken_in conversation.old.session.tally + length conversation.old.unsent.marks ≤ 6 }
    ensures { taken_in conversation.new.session.tally + length conversation.new.unsent.marks ≤ 6 }
{
    for taken in 0..count {
        take(rt, conversation, &ANSWERS[taken.min(49)..], 1);
    }
}

/// Asserts that these bytes are left, and lets the connection take the first `count` of them.
fn take(rt: &impl Abort, conversation: &mut Conversation, left: &[u8], count: usize)
    requires { taken_in conversation.old.session.tally + length conversation.old.unsent.marks ≤ 6 }
    ensures { taken_in conversation.new.session.tally + length conversation.new.unsent.marks ≤ 6 }
{
    assert_is(rt, conversation.unsent(), left);
    assert!(rt; count <= conversation.waiting_bytes());
    conversation.sent(count);
}

// All replies are gathered before the connection takes any of them.
#[test]
fn the_replies_of_a_session_are_gathered(rt: HostRuntime) {
    let mut handler = TestHandler::open(&rt, rt.alloc());
    if let Some(mut conversation) = gathered(&rt, rt.alloc(), &mut handler) {
        assert_is(&rt, conversation.waiting_bytes(), 49);
        take(&rt, &mut conversation, ANSWERS, 49);
        assert_that(&rt, conversation.is_empty());
        let served = conversation.end(End::Ended);
        assert_is(
            &rt,
            (served.end, counts_of(&served)),
            (End::Ended, (5, 1, 1, 0)),
        );
    }
    assert_is(&rt, handler.end(), 128);
}

// The message is written with the last byte of its frame, the 42nd.
#[test]
fn the_connection_takes_one_byte_after_another(rt: HostRuntime) {
    for count in 0..50 {
        let mut handler = TestHandler::open(&rt, rt.alloc());
        if let Some(mut conversation) = gathered(&rt, rt.alloc(), &mut handler) {
            take_bytes(&rt, &mut conversation, count);
            let served = conversation.end(End::Ended);
            let end = if count < 49 { End::Write } else { End::Ended };
            let (written, lost) = if count < 42 { (0, 1) } else { (1, 0) };
            assert_at(&rt, served.end, end, count);
            assert_at(&rt, counts_of(&served), (5, 1, written, lost), count);
        }
        assert_is(&rt, handler.end(), 128);
    }
}

// The client resets the connection after it has taken this number of bytes. It has not read the
// last of them, which may be the last byte of the message's frame, the 42nd.
#[test]
fn the_connection_is_reset_after_each_byte(rt: HostRuntime) {
    for count in 0..50 {
        let mut handler = TestHandler::open(&rt, rt.alloc());
        if let Some(mut conversation) = gathered(&rt, rt.alloc(), &mut handler) {
            take_bytes(&rt, &mut conversation, count);
            let served = conversation.end(End::Reset);
            let end = if count < 49 { End::Write } else { End::Reset };
            let (written, lost) = if count < 43 { (0, 1) } else { (1, 0) };
            assert_at(&rt, served.end, end, count);
            assert_at(&rt, counts_of(&served), (5, 1, written, lost), count);
        }
        assert_is(&rt, handler.end(), 128);
    }
}

// The last call is left: it has no reply.
#[test]
fn a_call_that_was_left_has_no_reply(rt: HostRuntime) {
    let mut handler = TestHandler::open(&rt, rt.alloc());
    let mut conversing = Conversing::open(&rt, rt.alloc());
    let mut pieces = Pieces::new(SESSION, usize::MAX);
    let mut reader = Instrumented::new(&mut pieces);
    let hello = conversing.step(&mut reader, &mut handler);
    let Conversing {
        mut conversation,
        text: _,
        mut given,
    } = conversing;
    given.clear();
    let left = conversation.put(Version::One, RequestOutcome::Left, &given);
    assert_is(&rt, left, Err(End::Left));
    let gathered: &[u8] = if hello.is_ok() { &ANSWERS[..7] } else { &[] };
    take(&rt, &mut conversation, gathered, gathered.len());
    let served = conversation.end(End::Left);
    assert_is(
        &rt,
        (served.end, counts_of(&served)),
        (End::Left, (1, 0, 0, 0)),
    );
    assert_is(&rt, handler.end(), 128);
}
