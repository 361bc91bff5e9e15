//! Warnings: what looks like a slip in documents that keep all rules of the language.
#![tactic(auto)]

mod attribute;
mod compared;
mod delimiter;
mod element;
mod forms;
mod lint;
mod names;
mod outputs;
mod parameter;
mod part;
mod pattern;
mod pieces;
mod runner;
mod sections;
mod sentence;
mod shape;
mod shell;
mod shell_code;
mod targets;
mod telling;
mod typed_names;
mod unquoted;
mod unused;
mod warnings;
mod word;

pub use runner::Runner;
pub use warnings::lints;
