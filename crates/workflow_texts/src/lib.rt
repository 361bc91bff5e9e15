//! The texts that the program makes of a document: its main workflow as CWL, or with its imports as
//! one document, and the inputs of that workflow as a form. Each is the work of a command, up to
//! the writing.
#![tactic(auto)]

mod bundling;
mod forming;
mod translating;

pub use bundling::bundled;
pub use forming::form;
pub use translating::cwl;
