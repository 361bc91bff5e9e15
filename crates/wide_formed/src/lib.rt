//! That what is written for the process of a lowered form, and for its inputs, stands for them, and
//! what it means.
#![tactic(auto)]

mod laws;
mod members;

pub use laws::lowered_means;
pub use members::see_members;
