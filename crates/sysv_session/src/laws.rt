//! Laws about the definitions.
ghost use Rattle.std.specs.Prelude.{◌≡◌, ◌-◌, ◌^◌};
ghost use Rattle.sysv_session.specs.declared.served.TheConstants.{SESSION_REQUESTS};
ghost use Rattle.sysv_session.specs.Gathered.{BreaksOffWithin, ClosesAll, GathersMessage, GathersNone, GathersOn, GathersReply};
ghost use Rattle.sysv_session.specs.Together.{AreTogether};
ghost use Rattle.sysv_wire.specs.declared.frame.Version.{Version};

use crate::handler::Handler;

/// States the maximum number of requests in a session.
pub fn numeral_of_requests()
    ensures { SESSION_REQUESTS ≡ 2 ^ 32 - 1 }
{}

/// States what an outbox represents: the replies that were put into it, and the bytes of their
/// frames that the connection has taken.
///
/// After any calls, what was taken is a prefix of the frames of all replies. `written` counts the
/// messages whose frames lie wholly in it, and after `end`, `lost` counts all others.
pub fn gathered_replies()
    ensures none { GathersNone }
    ensures reply { GathersReply }
    ensures message { GathersMessage }
    ensures sent { GathersOn }
    ensures closed { ClosesAll }
    // The writer of a session that ended with `Write` has taken such a prefix too.
    ensures broken_off { BreaksOffWithin }
{}

/// States that a session of which the writer took one reply after another is one whose replies were
/// gathered, if a writer that failed had not taken all of them.
pub fn sessions_together<K: Handler>()
    ensures { (newest : Version) → AreTogether newest K.meaning }
{}
