//! What notes for a person are written with: a text that grows piece by piece, and the known name
//! that is nearest to an unknown one.
#![tactic(auto)]

mod nearest;
mod note;

pub use nearest::{Nearest, nearest_of};
pub use note::Note;
