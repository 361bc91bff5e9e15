//! The types of typed expressions, and whether structs, inputs and declarations are well typed.
#![tactic(auto)]

mod declarations;
mod forms;
mod member;
mod placeholder;
mod structs;
mod typing;
mod written;

pub use declarations::{
    Standing, body_type, decl_is_typed, decls_are_typed, enter, inputs_are_typed,
};
pub use forms::is_type;
pub use placeholder::takes_some;
pub use structs::are_structs;
pub use typing::{Context, type_in_place, type_of};
