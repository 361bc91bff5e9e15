//! Bodies of workflows, scatters and conditions that are entered: their cells in the net of a plan,
//! the steps for their statements, and those that give out what they have.
#![tactic(auto)]

mod address;
mod blocks;
mod entered;
mod entering;
mod items;
mod joints;
mod outside;
mod place;
mod workflow;

pub use address::{env_of, last_base};
pub use blocks::{enter_body, enter_call};
pub use entered::{Entered, Net};
pub use items::enter_scatter;
pub use joints::{copy, end, gather};
pub use outside::pass_by;
pub use place::place_below;
pub use workflow::enter_flow;
