//! The names under which the documents of a library know structs (OpenWDL 1.1, "Struct
//! definition").
#![tactic(auto)]

mod known;

pub use known::{DocNameList, DocNames, knowns_of, namings_of};
