//! Typed statements and inputs in their dependency order, for callers of the library: the checker
//! finds the positions of what is written.
#![tactic(auto)]

mod fault;
mod member;
mod needing;
mod ordering;
mod picking;

pub use fault::OrderFault;
pub use ordering::{order, order_inputs};
