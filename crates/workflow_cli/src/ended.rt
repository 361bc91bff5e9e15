use report_text::Status;
use wdl_value::{Counts, Entry, Items, Step};
use workflow_stages::Work;

/// The work of a command, with the journal of its run, the jobs that were taken and settled, and
/// its counts.
#[derive(Debug, Drop)]
pub struct Worked {
    pub work: Work,
    pub journal: Items<Entry>,
    pub steps: Items<Step>,
    pub counts: Counts,
}

/// How a command ended: its status, the journal of its run, the jobs that were taken and settled in
/// their order, and how many jobs were put, picked, finished and collected.
#[derive(Debug, Drop)]
pub struct Ended {
    pub status: Status,
    pub journal: Items<Entry>,
    pub steps: Items<Step>,
    pub counts: Counts,
}
