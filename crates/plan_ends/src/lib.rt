//! The law of where a plan ends: what it lists is what its flow gives.
#![tactic(auto)]

mod laws;

pub use laws::growths_end;
