//! The script language: a text of calls, one per line, which is run line by line on a world of
//! queues and actors, from a reader to a writer. `specs/` defines what a text prints. The laws
//! state that each text prints something, and one thing only.
//!
//! ```rust
//! let mut script = b"preset\n1 snd 0 5 - =hello\n2 rcv 0 9 0 -\n".as_slice();
//! let mut printed = Vec::new(rt.alloc());
//! let mut reader = Instrumented::new(&mut script);
//! let mut writer = Instrumented::new(&mut printed);
//! run_script(rt.alloc(), &mut reader, &mut writer)?;
//! ```
#![tactic(auto)]

mod actor;
mod blocks;
mod call;
mod fault;
mod head;
mod input;
mod laws;
mod line;
mod line_laws;
mod line_reader;
mod names;
mod numerals;
mod output;
mod printed;
mod script;
mod stage;

pub use actor::{Actor, SCRIPT_ACTORS};
pub use blocks::Blocks;
pub use call::Text;
pub use fault::ScriptFault;
pub use head::Head;
pub use input::Input;
pub use laws::{each_script_is_a_run, each_script_obeys, each_text_prints, one_text};
pub use line::{LINE_BYTES, Line, line_of};
pub use line_laws::{each_line_is_decided, numerals_of_lines, one_saying};
pub use line_reader::{Found, next_line, read_on};
pub use names::{Operation, Step};
pub use numerals::{numerals_of_stages, numerals_of_streams};
pub use output::Output;
pub use script::run_script;
pub use stage::Stage;
