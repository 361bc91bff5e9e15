//! Laws of the moves of a plan: what each kind of step does to a net, and that the net goes on
//! growing.
#![tactic(auto)]

mod laws;

pub use laws::{
    answers_arrive, blocks_enter, blocks_pass, calls_move, calls_tell, declarations_move,
    defaults_move, flows_enter, joints_move, rows_arrive,
};
