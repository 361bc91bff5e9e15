//! Copies of expressions, types, tasks, calls and sections, with the names of structs as the
//! library has them.
#![tactic(auto)]

mod call;
mod expr;
mod keeping;
mod leaf;
mod sections;
mod structs;
mod task;
mod types;

pub use call::copy_call;
pub use expr::copy_expr;
pub use keeping::put;
pub use leaf::copy_ident;
pub use sections::{copy_declaration, copy_inputs, copy_outputs};
pub use structs::copy_struct;
pub use task::copy_task;
