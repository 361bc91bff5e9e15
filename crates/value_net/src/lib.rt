//! A net of cells that hold values and of steps that carry rules: each cell is set once, and each
//! step is handed out once, when all cells that it needs are set.
#![tactic(auto)]

mod net;

pub use net::ValueNet;
