//! The inputs of a workflow as a form: a JSON object with the type of each input in the place of
//! its value, which a person fills in and hands to a run (OpenWDL 1.1, "JSON Input Format").
#![tactic(auto)]

mod form;
mod line;
mod literal;
mod typed;

pub use form::inputs_form;
pub use line::Line;
pub use typed::type_text;
