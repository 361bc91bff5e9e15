//! Tasks: their inputs, private declarations, runtime section, command and outputs, with all types.
#![tactic(auto)]

mod command;
mod laws;
mod runtime;
mod sections;
mod task;

pub use laws::tasks_are_well_typed;
pub use task::check_task;
