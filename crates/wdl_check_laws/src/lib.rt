//! What is true of every typing of an expression.
#![tactic(auto)]

mod laws;

pub use laws::typings_are_well_typed;
