//! A plan of a workflow: cells that are set once, and steps that are done once, when all that they
//! need is set. What an answer changes is done when it arrives, and nothing else is done again.
#![tactic(auto)]

mod arrival;
mod begin;
mod fault;
mod outputs;
mod plan;
mod turning;

pub use fault::Unplanned;
pub use plan::Plan;
pub use plan_steps::PlanFault;
