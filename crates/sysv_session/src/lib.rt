//! Sessions: one client's requests and the server's replies, in order, over any reader and writer.
//! Each request has one reply, except a last one whose call the client left while it waited. A
//! handler carries out the requests. `specs/` defines what a session reads, requests and writes,
//! and why it ends.
#![tactic(auto)]

mod conversation;
mod handler;
mod laws;
mod outbox;
mod served;
mod session;
mod turn;

pub use conversation::Conversation;
pub use handler::{Handler, RequestOutcome};
pub use laws::{gathered_replies, numeral_of_requests, sessions_together};
pub use outbox::Outbox;
pub use served::{End, Served};
pub use session::{Session, TakenUp, Texts, serve, serve_instrumented};
pub use turn::hello_reply;
