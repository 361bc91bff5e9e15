//! The law that each step of a plan that is ready may be done: what it does is laid out, its cells
//! are there, and what it evaluates may be evaluated.
#![tactic(auto)]

mod laws;

pub use laws::{rows_none, steps_may};
