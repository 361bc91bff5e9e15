//! Workflows: their inputs, statements and outputs, with all types.
#![tactic(auto)]

mod body;
mod call;
mod collection;
mod context;
mod declared;
mod flow;
mod laws;
mod nesting;
mod numbers;
mod sections;
mod visible;

pub use context::{Callable, Context, Namespace, Targets};
pub use flow::{FlowHead, FlowRest, check_head, check_rest};
pub use laws::workflows_are_well_typed;
