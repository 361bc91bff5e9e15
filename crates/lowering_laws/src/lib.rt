//! The law of simulation for checked forms with declarations that only give another name to a
//! value, and with struct inputs.
#![tactic(auto)]

mod laws;

pub use laws::forms_simulated;
