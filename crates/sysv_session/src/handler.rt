//! The handler, which carries out the requests of a session.
ghost use Rattle.std.specs.Prelude.{◌≡◌, ◌≢◌, ℕ, []};
ghost use Rattle.sysv_session.specs.Answers.{MayAnswer};
ghost use Rattle.sysv_session.specs.Calls.{Meaning};
ghost use Rattle.sysv_wire.specs.Requests.{op_of};

use sysv_model::{Body, Cred};
use sysv_queue::Delivery;
use sysv_wire::{Op, Reply, Request};

/// The outcome of a request. A message that was received can be neither dropped nor copied.
pub enum RequestOutcome {
    /// A reply of the request's version and operation. It carries no message.
    Reply(Reply),
    /// A receive took this message.
    Got(Delivery),
    /// The caller left while the call waited. The call did nothing, and has no reply.
    Left,
}

/// Message queues as a session uses them.
///
/// A handler may wait within a call if it holds a handle that permits it.
pub trait Handler {
    /// The meaning of the handler's calls: a relation between the handler before, the caller's
    /// credentials, the request and its body, the outcome and its body, and the handler after.
    ghost meaning: { Meaning Self };

    /// The number of queue slots. A row may be requested for each number below it.
    ghost slots: { Self → ℕ };

    /// Returns the number of queue slots, which the reply to a hello states from version 2 on.
    fn slots(&self) -> u32
        ensures { result ≡ slots self.now };

    /// Carries out one request and returns its outcome.
    ///
    /// `cred` is the caller's credentials, which are not authenticated. `text` is the body of a
    /// send, and empty for any other request. If a receive took a message, the outcome is `Got`,
    /// and `given` is the body of the message, at most 8,192 bytes. If the caller left while the
    /// call waited, the outcome is `Left`, and `given` is empty.
    ///
    /// # Conditions
    ///
    /// - `request` is not a hello.
    /// - `given` is empty.
    fn call(
        &mut self,
        cred: Cred,
        request: &Request,
        text: &Body,
        given: &mut Body,
    ) -> RequestOutcome
        requires asked { op_of request.now.ask ≢ Op.Hello }
        requires empty { given.old ≡ [] }
        ensures meaning { meaning self.old cred request.now text.now result given.new self.new }
        ensures answer { MayAnswer request.now.version request.now.ask result given.new };
}
