//! Laws of the definitions, which say nothing of code.

ghost use Rattle.cwl_emit.specs.Formed.{FormedProcessesStand};
ghost use Rattle.cwl_emit.specs.Laws.{ProcessesAreWritten};

/// At most one JSON value stands for a process: the one that `process_value` gives.
pub fn processes_are_written()
    ensures law { ProcessesAreWritten }
{}

/// What is written for a process stands for it, where its texts, sources, pieces, codes and
/// defaults are as JSON has them.
pub fn formed_processes_stand()
    ensures law { FormedProcessesStand }
{}
