//! The flow of a workflow over a finished journal, evaluated from scratch: its program follows the
//! definition.
#![tactic(auto)]

mod answers;
mod arguments;
mod attempt;
mod blocks;
mod callee;
mod calls;
mod declaration;
mod fault;
mod flow;
mod flowing;
mod gathering;
mod giving;
mod ground;
mod job;
mod known;
mod known_names;
mod mark;
mod referring;
mod sight;
mod valued;
mod walk;

pub use fault::PlainFault;
pub use flow::{Flow, flow_now};
