//! Inputs, declarations and outputs: their types, their dependency order, and their typed
//! expressions.
#![tactic(auto)]

mod declaration;
mod expression;
mod input;
mod laws;
mod repeated;
mod seeing;
mod standing;
mod write;

pub use declaration::{check_declaration, check_declarations};
pub use expression::{check_as_in, check_in};
pub use input::check_inputs;
pub use laws::declarations_are_well_typed;
pub use repeated::first_repeated;
pub use seeing::Seeing;
pub use standing::Standing;
pub use write::check_in_place;
