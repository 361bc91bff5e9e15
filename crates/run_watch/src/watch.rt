use ready_core::Core;
use std::alloc::Global;
use wdl_value::Text;
use work_desk::Progress;

/// Sees a run from its beginning to its end, for a person. No call changes what the run does.
pub trait Watch: Progress {
    /// A run begins.
    fn start(&mut self);

    /// The run has ended. `root` is the directory of the jobs.
    fn end(&mut self, alloc: Global, core: &Core, root: &Text);
}
