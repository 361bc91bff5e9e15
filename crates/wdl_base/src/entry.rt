ghost use Rattle.std.specs.Prelude.{◌≡◌, IfOk};

use crate::answer::Answer;
use crate::error::NoMemory;
use crate::request::Request;
use std::alloc::Global;

/// Whether an answer came from a command that this run started, or from a kept journal.
#[derive(Clone, Copy, Debug, PartialEq, Eq)]
pub enum Source {
    Launched,
    Kept,
}

/// A request with its answer. A list of them, in the order in which they were settled, is a
/// journal.
#[derive(Debug, Drop)]
pub struct Entry {
    pub request: Request,
    pub answer: Answer,
    pub source: Source,
}

impl Entry {
    /// A copy of the entry.
    pub fn copy(&self, alloc: Global) -> Result<Entry, NoMemory>
        ensures { IfOk result (λ e. e ≡ self.now) }
    {
        Ok(Entry {
            request: self.request.copy(alloc)?,
            answer: self.answer.copy(alloc)?,
            source: self.source,
        })
    }
}
