//! Which types coerce to which, the type that two types have in common, and the tables of operators
//! and functions.
#![tactic(auto)]

mod coercion;
mod function;
mod inner_types;
mod joining;
mod operator;

pub use coercion::coerces;
pub use function::function_type;
pub use joining::join;
pub use operator::operator_type;
pub use wdl_value::{FuncTyping, OpTyping};
