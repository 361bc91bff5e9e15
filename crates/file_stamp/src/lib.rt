//! What tells a file from another one that stood at its path before, without reading it.
#![tactic(auto)]

mod found;
mod stamp;

pub use found::stamp_of;
pub use stamp::Stamp;
