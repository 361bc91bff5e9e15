//! The path of an imported document: a uri is read from the document that imports it.
#![tactic(auto)]

mod fault;
mod path;
mod segment;

pub use fault::ResolveFault;
pub use path::resolve;
pub use segment::{cut, file_name};
