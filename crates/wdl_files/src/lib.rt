//! The files that `write_lines`, `write_tsv` and `write_map` lay down (OpenWDL 1.1, "File
//! Parsing").
#![tactic(auto)]

mod fault;
mod laws;
mod name;
mod writing;

pub use fault::WrittenFault;
pub use laws::written_is_read_back;
pub use name::written_name;
pub use writing::{TEXT_BYTES, WRITTEN_BYTES, written_text};
