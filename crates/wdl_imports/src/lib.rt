//! Gathers a WDL 1.1 document with all that it imports into a library.
#![tactic(auto)]

mod collect;
mod law;
mod link;

pub use collect::gather;
pub use law::one_library;
pub use wdl_library::{Doc, Library, Link, StructName};
pub use wdl_paths::{ResolveFault, resolve};
pub use wdl_sources::ImportFault;
