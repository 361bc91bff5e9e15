//! Whether two checked forms are the same but for spans, what their main workflows do not call, and
//! the names and numbers of tasks; and that such forms take the same inputs and have equal flows.
#![tactic(auto)]

mod bodies;
mod calls;
mod choosing;
mod declared;
mod expressions;
mod forms;
mod laws;
mod partners;
mod tasks;

pub use forms::same_but_names;
pub use laws::{same_exprs_are_equal, same_forms_agree};
