//! The clients of a server: `ipcs`, `ipcrm`, `ipcmk`, `snd`, `rcv`, `save` and `load`, over any reader
//! and writer. `specs/` defines what each client requests, what ends it early and what it then
//! shows.
#![tactic(auto)]

mod clearing;
mod client;
mod command;
mod exchange;
mod fault;
mod feed;
mod holding;
mod input_lines;
mod journal;
mod laws;
mod line_text;
mod loading;
mod object;
mod page;
mod queue_line;
mod read_ahead;
mod rows;
mod saved;
mod saving;
mod screen;
mod sending;
mod stated;
mod stream;
mod style;
mod words;

pub use clearing::{Refusal, remove_all};
pub use client::{run_client, run_client_instrumented};
pub use command::{Command, Form, Format, Making, Receipt, Target, Task};
pub use fault::ClientFault;
pub use feed::Feed;
pub use holding::{Unheld, hold_all, hold_instrumented};
pub use journal::{Durable, Journal};
pub use laws::{
    loaded_queues_are_the_saved_ones, loading_repeats_what_was_saved, numerals_of_commands,
    objects_read_back, queue_is_copied, saved_lines_read_back, worked_file,
};
pub use loading::{Loading, Unfit, Unloaded, load_feed, load_lines};
pub use read_ahead::ReadAhead;
pub use saved::SavedQueue;
pub use saving::{Saving, save_all, save_instrumented};
pub use sending::{Cut, Sending, Unsent, Wording, send_feed, send_lines};
pub use stated::OBJECT_BYTES;
pub use stream::{
    MAX_AHEAD, MAX_MESSAGES, Receiving, Stop, Unshown, receive_all, receive_instrumented,
};
pub use words::{id_of, key_of, type_of};
