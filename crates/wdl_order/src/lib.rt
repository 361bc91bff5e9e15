//! The dependency order of members by the names that they give and refer to: each stands after
//! those that it needs, and otherwise in the order of the list.
#![tactic(auto)]

mod blocks;
mod givers;
mod laws;
mod least;
mod positions;
mod rows;
mod uses;
mod working;

pub use blocks::{condition_uses, scatter_uses};
pub use laws::orders_are_least;
pub use least::Found;
pub use positions::positions_of;
pub use uses::{Uses, one_name, push_copy};
