//! Laws of what a plan lists: jobs, faults and a count, against the flow from scratch.
#![tactic(auto)]

mod laws;

pub use laws::{answers_list, attempts_list, lists_end, steps_list, too_many_early, works_list};
