//! Expressions with members and casts of references in the places of names, and names that are used
//! outside the bodies that declare them.
#![tactic(auto)]

mod chain;
mod copies;
mod laws;
mod strays;
mod swap;
mod swapping;

pub use chain::{Chain, Hop, chain_of, copy_chain, expr_of};
pub use copies::{kept_call, kept_decl, kept_if, kept_scatter};
pub use laws::{names_agree, values_agree};
pub use strays::flow_strays;
pub use swap::{Swap, swap_at};
pub use swapping::{boxed_expr, swapped, swapped_fields};
