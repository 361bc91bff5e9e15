//! The journal of a run, as its keeper has it.

ghost use Rattle.std.specs.Prelude.{◌≡◌, ℕ, List, None, Some, IsSome};
ghost use Rattle.work_desk.specs.Keeping.{keeper_view};
ghost use Rattle.workflow_cli.specs.Stages.{Opens};

use report_text::Status;
use std::alloc::Global;
use wdl_port::{KeepFault, Keeper};
use wdl_value::{Entry, Items, Text};

/// The rows of a keeper that was started.
fn read_rows<K: Keeper>(alloc: Global, keeper: &mut K) -> Result<Items<Entry>, Status>
    requires started { IsSome (K.path keeper.old) }
    ensures value { (path : List ℕ) → K.path keeper.old ≡ Some path
        → Opens path (keeper_view (K.kept keeper.old) (K.path keeper.old) (K.faults keeper.old))
        (keeper_view (K.kept keeper.new) (K.path keeper.new) (K.faults keeper.new)) result }
    ensures lapses { K.lapses keeper.new ≡ K.lapses keeper.old }
{
    match keeper.rows(alloc) {
        Ok(rows) => Ok(rows),
        Err(KeepFault::Failed) => Err(Status::Keep),
        Err(KeepFault::NoMemory) => Err(Status::NoMemory),
    }
}

/// Starts the keeper on the path of a journal, and reads its rows.
pub fn rows_of<K: Keeper>(
    alloc: Global,
    path: &Text,
    keeper: &mut K,
) -> Result<Items<Entry>, Status>
    requires fresh { K.path keeper.old ≡ None }
    ensures value { Opens path.now (keeper_view (K.kept keeper.old) (K.path keeper.old) (K.faults keeper.old))
        (keeper_view (K.kept keeper.new) (K.path keeper.new) (K.faults keeper.new)) result }
    ensures lapses { K.lapses keeper.new ≡ K.lapses keeper.old }
{
    match keeper.start(alloc, path.as_str()) {
        Ok(()) => read_rows(alloc, keeper),
        Err(KeepFault::Failed) => Err(Status::Keep),
        Err(KeepFault::NoMemory) => Err(Status::NoMemory),
    }
}
