//! The launcher of real commands: each job runs as a child program in a directory of its own.
#![tactic(auto)]

mod child;
mod collect;
mod cut;
mod directory;
mod kind;
mod listing;
mod note;
mod owner;
mod reach;
mod refusal;
mod root;
mod shell;
mod trash;
mod trouble;
mod variables;

pub use note::Notes;
pub use root::Launching;
pub use shell::ShellLauncher;
