//! Reads the parts of sections from tokens: declarations, commands, values of metadata and heads of
//! blocks.
#![tactic(auto)]

mod declarations;
mod heads;
mod metadata;
mod token;

pub use declarations::{assigned, command, declaration, input, runtime_attribute};
pub use heads::{BlockHead, ConditionalHead, ScatterHead, closed, head};
pub use metadata::meta_attribute;
pub use token::{comma_or, commas_fit, is_section, take, take_name, take_word};
