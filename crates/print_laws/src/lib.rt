//! The law that the text which is made of a document has the document's tokens (OpenWDL 1.1,
//! "Document").
#![tactic(auto)]

mod laws;

pub use laws::printed_is_read_back;
