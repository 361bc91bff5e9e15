//! Whether the parts of a checked form are well typed.
#![tactic(auto)]

mod bodies;
mod calls;
mod counting;
mod declared;
mod flows;
mod given;
mod library;
mod numbered;
mod tasks;

pub use library::well_typed;
