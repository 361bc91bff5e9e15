//! Whether a checked form is in the subset that has a CWL process: the walk over its tasks and
//! workflows, by the rules of `cwl_rules`.
#![tactic(auto)]

mod flow;
mod scope;
mod subset;
mod tables;
mod task;
mod walk;

pub use flow::declared_by;
pub use scope::input_scope;
pub use subset::{Subset, SubsetFault, in_subset};
pub use walk::{Context, call_given, items_of};
