//! The values of the operators and the functions of the standard library (OpenWDL 1.1,
//! "Expressions" and "Standard Library").
#![tactic(auto)]

mod calls;
mod fault;
mod file_names;
mod files;
mod growing;
mod laws;
mod lists;
mod maps;
mod numbers;
mod operators;
mod optional;
mod parts;
mod paths;
mod pieces;
mod reads;
mod texts;
mod wildcard;
mod within;

pub use calls::apply;
pub use fault::EvalFault;
pub use file_names::{begins_at_root, below, local_name};
pub use files::left_body;
pub use laws::{apply_fits, negate_fits, operate_fits};
pub use operators::{negate, operate};
pub use parts::{items_in, rows_in, text_in};
