use ready_core::Job;
use wdl_value::{Entry, Request};

/// Sees a run as it goes on, for a person. Only the caller's thread calls it, and no call changes
/// what the run does.
pub trait Progress {
    /// A job is put on the desk, to be launched.
    fn began(&mut self, job: &Job);

    /// The answer of a job that was launched was collected.
    fn ended(&mut self, entry: &Entry);

    /// A job came back from the desk without an answer.
    fn unlaunched(&mut self, request: &Request);

    /// A job took the answer of a row of an earlier run.
    fn kept(&mut self, entry: &Entry);

    /// The row of a job no longer stands for its files, so the job is to be launched.
    fn lapsed(&mut self, request: &Request);
}
