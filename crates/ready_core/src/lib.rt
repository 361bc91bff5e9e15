//! A run of the main workflow of a checked library, step by step: the journal, the jobs that its
//! flow asks for, those that are out, and their answers.
#![tactic(auto)]

mod course;
mod history;
mod job;
mod laws;
mod log;
mod pending;
mod ready;
mod shown;
mod turn;

pub use history::{History, SettleFault};
pub use job::{Answered, Job, NotKept, Unlaunched, is_usable_for};
pub use laws::faults_stay;
pub use ready::Core;
