//! What flows of statements are made of: the terms of a job, a number for a place, and the names
//! and calls that statements give out.
#![tactic(auto)]

mod job;
mod mark;
mod yielded;

pub use job::Terms;
pub use mark::place_mark;
pub use yielded::{Yielded, output_key};
