//! The limits of depth: through how many structs members lead, and how many blocks and calls stand
//! on a path.
#![tactic(auto)]

mod limits;
mod nesting;
mod shallow;

pub use limits::{MOST_BLOCKS, MOST_STRUCTS};
pub use nesting::{Levels, body_nests, levels_of, nests};
pub use shallow::{name_is_shallow, shallow_structs};
