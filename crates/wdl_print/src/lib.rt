//! Documents as texts: the tokens of a tree, written one behind the other (OpenWDL 1.1,
//! "Document").
#![tactic(auto)]

mod document;
mod escaped;
mod fault;
mod inside;
mod mark;
mod spelling;

pub use document::{PRINT_LIMIT, document_text};
pub use fault::PrintFault;
pub use inside::Open;
