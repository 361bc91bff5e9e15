//! The values of typed expressions (OpenWDL 1.1, "Expressions").
#![tactic(auto)]

mod bindings;
mod env;
mod evaluation;
mod fault;
mod forms;
mod keys;
mod laws;
mod lent;
mod measured;
mod outcome;
mod parts;
mod placeholder;
mod setting;

pub use bindings::{Bindings, LentBind};
pub use env::lookup;
pub use evaluation::{eval, eval_lent, evaluate};
pub use fault::NodeFault;
pub use laws::values_fit;
pub use measured::Measured;
pub use placeholder::hole_text;
pub use setting::Setting;
pub use wdl_stdlib::EvalFault;
