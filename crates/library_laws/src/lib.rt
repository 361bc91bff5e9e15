//! The laws of libraries: which import closes a circle, and which struct sections are one struct
//! (OpenWDL 1.1, "Import statements" and "Struct definition").
#![tactic(auto)]

mod laws;

pub use laws::{circles, identity};
