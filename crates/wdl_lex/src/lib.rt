//! Cuts the text of a WDL 1.1 document into tokens.
#![tactic(auto)]

mod chars;
mod classes;
mod code;
mod escapes;
mod fault;
mod gaps;
mod marks;
mod numbers;
mod open;
mod text;
mod tokens;

pub use code::MAX_WORD;
pub use fault::LexFault;
pub use tokens::{MAX_DOCUMENT, lex, one_reading_of_texts};
