//! Reads expressions, types and the parts of commands from tokens: the longest that starts at a
//! cursor.
#![tactic(auto)]

mod fault;
mod grammar;
mod reader;

pub use fault::fault_of;
pub use reader::{read_expr, read_parts, read_type};
