//! The rules of the subset that has a CWL process, on one type, expression, command or
//! declaration, and the lowest of the rules that are broken.
#![tactic(auto)]

mod casts;
mod command;
mod declaration;
mod file;
mod literal;
mod lowest;
mod named;
mod referring;
mod types;

pub use casts::{are_allowed, default_allowed, refers};
pub use command::is_command;
pub use declaration::{Role, decl_broken, decls_broken, inputs_broken};
pub use literal::{is_zero, literal_of};
pub use lowest::{lower, unless};
pub use named::see_names;
pub use referring::reference;
pub use types::{is_file_type, widens};
