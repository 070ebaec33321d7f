//! The frames of a session: requests and replies as bytes, read from any reader and written to any
//! writer. `specs/` defines the encoding of each frame, and what a reader returns for bytes that
//! spell none.
//!
//! ```rust
//! let ask = Ask::Get { key: 7, flags };
//! let mut frame = Vec::new(rt.alloc());
//! let request = Request { version: Version::Two, ask };
//! write_request(&mut Instrumented::new(&mut frame), &request, &text)?;
//! let mut bytes = frame.as_slice();
//! let read = read_request(&mut Instrumented::new(&mut bytes), &mut text)?;
//! ```
#![tactic(auto)]

mod arrived;
mod content;
mod fault;
mod fields;
mod frame;
mod input;
mod laws;
mod number;
mod output;
mod replies;
mod reply;
mod request;
mod requests;

pub use arrived::{FrameIn, frame_in, frame_in_up_to};
pub use fault::Fault;
pub use frame::{MAX_MODE, Op, Version};
pub use laws::{
    frame_is_alone, frame_is_taken, frame_stays, numerals_of_frames, one_answer_to_replies,
    one_answer_to_requests, one_frame, one_reply, one_request,
};
pub use replies::{read_reply, read_reply_up_to, write_reply};
pub use reply::{Reply, ReplyContent};
pub use request::{Ask, Request};
pub use requests::{read_request, read_request_up_to, write_request};
pub use sysv_model::WriteFault;
