//! Reads a WDL 1.1 document and all documents that its imports lead to.
#![tactic(auto)]

mod fault;
mod source;
mod sources;
mod walk;

pub use fault::ImportFault;
pub use source::{Source, SourceFault};
pub use sources::Sources;
pub use walk::{Step, read_all};
