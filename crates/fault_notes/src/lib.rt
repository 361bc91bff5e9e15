//! What a person is told of a fault in a document: its place, a sentence and the line of the
//! source.
#![tactic(auto)]

mod call_sentence;
mod check_sentence;
mod document;
mod expected_sentence;
mod front_sentence;
mod function;
mod import_sentence;
mod later;
mod listed;
mod name_sentence;
mod near;
mod open_sentence;
mod operand_sentence;
mod operation;
mod place;
mod subset_sentence;
mod text_sentence;
mod unclosed;
mod value_sentence;
mod value_type;

pub use document::document_note;
