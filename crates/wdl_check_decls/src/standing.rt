/// Where a declaration stands: among the private ones of a task, where it may write a file; among
/// the outputs of a task, where it may read what the command left; or in a workflow.
#[derive(Clone, Copy, Debug, PartialEq, Eq)]
pub enum Standing {
    Private,
    Output,
    Body,
}
