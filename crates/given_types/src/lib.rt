//! The names that statements give out, with their types.
#![tactic(auto)]

mod given;

pub use given::{arrays, declared, enter_names, optionals, outputs_of};
