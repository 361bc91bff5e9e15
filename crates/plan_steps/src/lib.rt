//! The steps of a plan: what each makes of the net, the faults and the jobs that were asked, and
//! what an answer makes of its call.
#![tactic(auto)]

mod answer;
mod arguments;
mod arrival;
mod asking;
mod call;
mod condition;
mod counting;
mod declaration;
mod fault;
mod growth;
mod scatter;
mod spot;
mod statement;
mod step;
mod taking;
mod telling;

pub use arrival::tell_call;
pub use asking::{Asked, Asking, JOB_LIMIT};
pub use counting::{COUNT_LIMIT, add_count};
pub use fault::PlanFault;
pub use growth::{Ground, Growth};
pub use step::do_step;
