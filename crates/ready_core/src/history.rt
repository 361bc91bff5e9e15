use crate::job::Answered;
use wdl_value::{Entry, Items, Step};

/// Why an answer was not settled. It is handed back, and the core answers as it did.
#[derive(Debug, Drop)]
pub enum SettleFault {
    /// Its request is not that of a job that is out.
    Stranger(Answered),
    NoMemory(Answered),
}

/// What a core has done: its journal, and one step for each job that was taken, for each answer that
/// was settled, and for the stop of the run.
#[derive(Debug, Drop)]
pub struct History {
    pub journal: Items<Entry>,
    pub steps: Items<Step>,
}
