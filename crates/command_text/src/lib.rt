//! Templates of commands: their common indent is cut.
#![tactic(auto)]

mod dedenting;
mod lines;
mod marked;

pub use dedenting::dedent;
