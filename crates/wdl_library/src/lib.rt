//! A library: WDL 1.1 documents with their imports, and the structs that they see.
#![tactic(auto)]

mod doc;
mod library;

pub use doc::{Doc, Link, StructName};
pub use library::Library;
