//! The law that a plan goes on growing when an answer arrives.
#![tactic(auto)]

mod laws;

pub use laws::{answers_go_on, calls_conclude};
