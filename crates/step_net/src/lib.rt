//! Steps that wait for cells: each step is handed out once, when all cells that it needs are set.
#![tactic(auto)]

mod net;

pub use net::StepNet;
