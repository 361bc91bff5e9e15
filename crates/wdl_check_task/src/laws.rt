//! What is true of every task that is typed.

ghost use Rattle.wdl_check_task.specs.Laws.{TaskCounts, TaskTypes};

/// Where each name of the document stands for a struct of the library, a task that is typed is well
/// typed, by the rules of typed trees: its names differ, the expressions of its lists have the
/// declared types in dependency order, its attributes are numbers, and each placeholder takes the
/// type of its expression. Its command has fewer parts than the task has tokens.
pub fn tasks_are_well_typed()
    ensures types { TaskTypes }
    ensures counts { TaskCounts }
{}
