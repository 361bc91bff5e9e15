//! The note on a command line that is not valid.
#![tactic(auto)]

mod arguments;
mod setting;
mod slip;
mod slip_sentence;
mod usage;

pub use usage::usage_note;
