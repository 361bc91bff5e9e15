//! The CommandLineTool that stands for a task of the subset (CWL v1.2, CommandLineTool).
#![tactic(auto)]

mod argument;
mod codes;
mod inputs;
mod literals;
mod outputs;
mod references;
mod tool;
mod types;

pub use inputs::{input_of, inputs_of};
pub use references::reference;
pub use tool::task_tool;
pub use types::cwl_type;
