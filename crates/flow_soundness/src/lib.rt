//! Soundness of flows (OpenWDL 1.1, "Workflow Definition"): what a well-typed body asks for is
//! there, and each name that has a value has one that fits its type.
#![tactic(auto)]

mod laws;

pub use laws::flows_fit;
