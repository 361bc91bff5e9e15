//! How a command of the program ended: its status, the number that the
//! program ends with, and the line that it writes.
#![tactic(auto)]

mod code;
mod line;
mod status;

pub use line::{code_text, line_of, no_memory_line, write_line};
pub use status::{Status, number_of};
