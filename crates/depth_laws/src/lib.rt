//! The law that no flow of a checked form is cut off by its depth (OpenWDL 1.1, "Call Statement").
#![tactic(auto)]

mod laws;

pub use laws::depths;
