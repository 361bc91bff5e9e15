//! The law that each step of a plan that is ready may be done: what it evaluates is well typed over
//! values that fit.
#![tactic(auto)]

mod laws;

pub use laws::steps_ready;
