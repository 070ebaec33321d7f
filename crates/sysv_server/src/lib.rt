//! A server of message queues on Unix sockets: it accepts connections, and serves each as one
//! session of the engine.
#![tactic(auto)]

mod accepting;
mod desk;
mod doors;
mod host;
mod laws;
mod listening;
mod report;
mod serving;
mod terms;
mod visitor;

pub use doors::Doors;
pub use host::{Host, Notice, Reason};
pub use laws::each_connection_is_let_in;
pub use listening::{Hosted, Input, Listens, Reading, Shown};
pub use serving::{MAX_CLIENTS, serve_from, serve_listener, serve_on};
pub use sysv_engine::{Ended, Fates, Patience, ServeFault, Sums};
pub use sysv_seats::Callers;
pub use terms::Terms;

/// The version of the server and of its clients.
pub const VERSION: &str = "0.4.0-dev";
