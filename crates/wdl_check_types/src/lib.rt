//! Types as a document writes them, by the names under which it knows structs; and what the checks
//! of a document answer.
#![tactic(auto)]

mod laws;
mod place;
mod written;

pub use laws::written_types_are_known;
pub use place::{call_ident, call_span, declaration_span, from_to, input_span, statement_span};
pub use written::written_type;
