//! What a person is told, before a run begins, of input files that its jobs will not find.
#![tactic(auto)]

mod files;
mod seeing_shelf;
mod warning;

pub use seeing_shelf::SeeingShelf;
