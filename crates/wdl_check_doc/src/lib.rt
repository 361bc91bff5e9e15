//! The checker of whole libraries: from the documents to their typed tasks and workflows.
#![tactic(auto)]

mod checked;
mod fault;
mod flow;
mod flow_rest;
mod library;
mod nesting;
mod numbered_doc;
mod offer;
mod run;
mod runnable;
mod section;
mod shallow;
mod table;
mod task;

pub use library::check;
pub use wdl_check_rules::CheckFault;
