//! A cursor over tokens, what reading them answers, and the readers of operators, plain strings and
//! types over it.
#![tactic(auto)]

mod cursor;
mod fault;
mod operator;
mod plain_string;
mod read;
mod tall;
mod type_reader;

pub use cursor::{Cursor, is_word};
pub use fault::{Fault, ParseFault, Refusal, RuleStop};
pub use operator::{OptionWord, left_out};
pub use plain_string::{read_options, read_plain};
pub use read::{bad, deeper, grown, linked, missing, too_deep};
pub use tall::{Chain, Closed, Rule, Tall};
pub use type_reader::type_at;
