//! What a person is told of a fault in an inputs file, and of one that is used and looks like a
//! slip.
#![tactic(auto)]

mod culprit;
mod given;
mod misfit;
mod note;
mod object;
mod path;
mod repeated;
mod scan;
mod syntax;
mod unknown;
mod word;

pub use note::inputs_note;
pub use repeated::inputs_warning;
