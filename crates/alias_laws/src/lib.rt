//! The laws that a checked form keeps its flow where declarations that only give another name to a
//! value go, and where the members of struct inputs stand in their places too.
#![tactic(auto)]

mod laws;

pub use laws::{aliases_lowered, forms_lowered};
