//! The law that a checked form keeps its flow where the members of struct inputs stand in their
//! places.
#![tactic(auto)]

mod laws;

pub use laws::records_lowered;
