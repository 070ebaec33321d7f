//! What an actor keeps of its call, and what a start or a step of the call leads to.

ghost use Rattle.sysv_core.specs.Held.{can_in_one_way};
ghost use Rattle.sysv_steps.specs.Pending.{CanGoOn};

use sysv_model::Body;
use sysv_steps::{Ended, Pending};

/// A pending call, and the body that it brought: that of a send or a receive.
///
/// A `Doing` can be neither dropped nor copied, because it may hold blocks of the pool; end it with
/// `chain_in`.
pub struct Doing {
    pub pending: Pending,
    pub body: Option<Body>,
    pub ghost can: { CanGoOn pending body } by { can_in_one_way pending body },
}

/// The result of a start or a step of a call.
pub enum Led {
    /// The call continues.
    To(Doing),
    /// The call still waits, because its count is not above the value of the wait.
    Stays(Doing),
    /// The call is over. The body is the one that it brought.
    Over(Ended, Option<Body>),
}
