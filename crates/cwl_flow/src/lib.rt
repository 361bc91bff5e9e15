//! The CWL workflow that stands for a workflow of the subset (CWL v1.2, Workflow).
#![tactic(auto)]

mod blocks;
mod calls;
mod context;
mod flow;
mod ids;
mod links;
mod subset;
mod uses;
mod walk;
mod wires;

pub use subset::translate;
