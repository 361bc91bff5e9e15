//! Aliases and struct inputs, which have no form of their own in CWL, lowered to what has one.
#![tactic(auto)]

mod aliases;
mod hops;
mod laws;
mod leaf;
mod lowering;
mod replacing;
mod unaliased;
mod walk;
mod wide;
mod wrapping;
mod writing;

pub use laws::records_are_written;
pub use leaf::RecordLeaf;
pub use lowering::{Lowered, lower};
pub use wide::{FieldTy, RecordField, RecordProcess, WideIn, WideWire};
pub use wrapping::wrap;
pub use writing::record_text;
