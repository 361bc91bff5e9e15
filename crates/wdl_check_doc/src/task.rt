//! The tasks of a library.

ghost use Rattle.std.specs.Prelude.{[], map};
ghost use Rattle.wdl_check_types.specs.Outcome.{Answers};
ghost use Rattle.wdl_check_doc.specs.Outcomes.{each};
ghost use Rattle.wdl_check_doc.specs.Runnables as spec;

use crate::fault::placed;
use crate::runnable::TaskPart;
use std::alloc::Global;
use wdl_check_decls::Seeing;
use wdl_check_rules::CheckFault;
use wdl_check_task::check_task;
use wdl_names::{Indexed, NameStack};
use wdl_typed::TaskDef;
use wdl_value::{Items, StructDef};

fn check_task_in(
    alloc: Global,
    structs: &Indexed<StructDef>,
    task: &TaskPart,
) -> Result<TaskDef, CheckFault>
    ensures { Answers (spec.task_in structs.now (spec.task_of task.now)) result }
{
    let calls = NameStack::empty(alloc);
    let seeing = Seeing {
        structs,
        locals: task.part.locals,
        calls: &calls,
    };
    placed(task.part.number, check_task(alloc, &seeing, task.task))
}

/// The tasks with all their types.
pub fn check_tasks(
    alloc: Global,
    structs: &Indexed<StructDef>,
    tasks: &[TaskPart],
) -> Result<Items<TaskDef>, CheckFault>
    ensures { Answers (each (spec.task_in structs.now) [] (map spec.task_of tasks.now)) result }
{
    let mut typed = Items::new(alloc);
    for task in tasks {
        typed.push(check_task_in(alloc, structs, task)?)?;
    }
    Ok(typed)
}
