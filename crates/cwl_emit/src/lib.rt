//! CWL processes as JSON documents.
#![tactic(auto)]

mod inputs;
mod laws;
mod object;
mod process;
mod tool;
mod workflow;

pub use inputs::{input_json, put_word, texts_json, type_json};
pub use laws::{formed_processes_stand, processes_are_written};
pub use object::object_text;
pub use process::{flow_value, process_text, process_value};
pub use workflow::{class_json, outputs_json};
