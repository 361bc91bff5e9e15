//! That what is written for the process of a checked form, and for its inputs, stands for them.
#![tactic(auto)]

mod laws;
mod texts;

pub use laws::{images_stand, objects_stand};
pub use texts::see_texts;
