//! What `load N` runs: the document of a workflow of N calls, and the answers of its jobs.
//!
//! Call `c0` adds 1 and 1, and call `ci` adds i to the output of call `c((i-1)/2)`, all of it mod
//! 1000. So the values of the calls follow from one rule, and the output of the workflow is the
//!       value of the last one.
#![tactic(auto)]

mod laws;
mod table;
mod text;
mod value;

pub use laws::{rule_of_values, what_the_table_gives};
pub use table::load_table;
pub use text::load_text;
