//! Definitions: struct inputs of workflows, replaced by their leaves, the members that are no
//! structs themselves; and the law that a body with leaves in their places gives what it gave.
#![tactic(auto)]

mod laws;
mod leaf;

pub use laws::bodies_agree;
pub use leaf::{Leaf, Place};
