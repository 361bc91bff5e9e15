//! Laws of layouts: what a workflow's statements need and give out has cells, wherever its
//! instances are put.
#![tactic(auto)]

mod laws;

pub use laws::{blocks_fit, bodies_fit, flows_fit, needs_fit};
