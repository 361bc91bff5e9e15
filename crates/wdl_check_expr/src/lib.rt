//! The checker of expressions: the type of an expression in a scope, and its typed tree with each
//! coercion written out.
#![tactic(auto)]

mod check;
mod entry;

pub use entry::{check_as, check_expr};
pub use wdl_check_laws::typings_are_well_typed;
pub use wdl_check_rules::{CheckFault, Scope, Typed, choice_of, coerced, span_of};
