//! The help and the version of the program.
#![tactic(auto)]

mod page;
mod text;

pub use text::{help_of, version_text};
