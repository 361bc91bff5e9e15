//! Names with their types, and lists of what has names, in which a name is found in logarithmic
//! time.
#![tactic(auto)]

mod distinct;
mod index;
mod indexed;
mod key;
mod key_places;
mod keyed;
mod name_places;
mod name_stack;
mod named;
mod places;
mod standing;
mod typed_names;

pub use distinct::{add, add_all, are_distinct};
pub use index::Index;
pub use indexed::Indexed;
pub use key::same_key;
pub use keyed::Keyed;
pub use name_stack::NameStack;
pub use named::Named;
pub use places::Places;
pub use typed_names::TypedNames;
