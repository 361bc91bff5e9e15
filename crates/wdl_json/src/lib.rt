//! The inputs of a workflow from a JSON text, and its outputs as one (OpenWDL 1.1, "JSON Input
//! Format" and "JSON Output Format").
#![tactic(auto)]

mod fault;
mod float;
mod gather;
mod given;
mod inputs;
mod laws;
mod member;
mod missing;
mod outputs;
mod parse;
mod sooner;
mod unknown;

pub use fault::InputFault;
pub use given::GivenInput;
pub use inputs::{INPUTS_LIMIT, flow_inputs, inputs_of};
pub use laws::firsts_are_first;
pub use outputs::outputs_text;
