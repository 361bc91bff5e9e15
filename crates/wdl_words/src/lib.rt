//! The words of the command line, and what they ask for.
#![tactic(auto)]

mod commands;
mod error;
mod help;
mod reading;
mod values;
mod wants;

pub use error::WordFault;
pub use reading::read_words;
pub use wants::{Command, Wants};
