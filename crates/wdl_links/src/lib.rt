//! The imports of documents: what they lead to, and that they form no circle.
#![tactic(auto)]

mod circle;
mod fault;
mod want;

pub use circle::{next_end, no_circle};
pub use fault::LinkFault;
pub use want::{Want, span_of, wants_of};
