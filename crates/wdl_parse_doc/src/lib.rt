//! Reads documents of WDL 1.1 from their tokens.
#![tactic(auto)]

mod block;
mod braced;
mod call;
mod document;
mod laws;
mod part_list;
mod section;
mod stack;
mod statement;
mod task;
mod workflow;

pub use document::parse;
pub use laws::one_document_of_tokens;
pub use token_reading::ParseFault;
