//! Laws of flows (OpenWDL 1.1, "Workflow Definition"): what stays true as answers come, whatever
//! their order.
#![tactic(auto)]

mod laws;

pub use laws::{jobs_differ, journals_grow, longer_tables, schedules};
