//! The rows of a journal: an entry as a line of JSON, and back.
#![tactic(auto)]

mod error;
mod list;
mod member;
mod optional;
mod read;
mod row_value;
mod write;

pub use error::RowFault;
pub use read::entry_of;
pub use write::row_text;
