//! The names to which an expression refers.
#![tactic(auto)]

mod walk;

pub use walk::{argument_names, expression_names};
