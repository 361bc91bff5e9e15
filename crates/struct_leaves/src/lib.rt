//! Struct inputs of workflows, replaced by their leaves: the members that are no structs
//! themselves.
#![tactic(auto)]

mod arguments;
mod counting;
mod expanding;
mod inputs;
mod naming;
mod places;
mod reaching;
mod taken;

pub use expanding::{inputs_at, leaves_at, push_expanded, swapped_outputs};
pub use inputs::copy_inputs;
pub use naming::leaves_of;
pub use places::{copy_names, is_record};
pub use reaching::reached;
