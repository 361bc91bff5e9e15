//! The members of structs, and their types.
#![tactic(auto)]

mod members;

pub use members::{member_type, members_of, type_among};
