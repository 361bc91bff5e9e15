//! One document that has the main workflow of a library, the tasks that it calls and the structs,
//! without imports.
#![tactic(auto)]

mod body;
mod bundling;
mod calls;
mod fault;
mod marks;
mod names;
mod naming;
mod reach;
mod structs;
mod tasks;
mod workflow;

pub use bundling::bundle;
pub use fault::BundleFault;
