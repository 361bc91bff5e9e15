//! Laws of the definitions, which say nothing of code.

ghost use Rattle.plan_lists.specs.Laws.{
  AnswersList,
  AttemptsList,
  ListsEnd,
  StepsList,
  TooManyEarly,
  WorksList,
};

/// A step that adds work leaves lists that tell of the work, with the jobs, the faults and the
/// count of what was added.
pub fn steps_list()
    ensures { StepsList }
{}

/// An answer that puts a call's work in place of another one leaves lists that tell of the work,
/// with the jobs that the call has now and the faults that came.
pub fn answers_list()
    ensures { AnswersList }
{}

/// Where no step is ready, lists that tell of the work of a workflow tell of its flow from scratch:
/// its jobs without an answer, its faults, its count, and whether it is clean.
pub fn lists_end()
    ensures { ListsEnd }
{}

/// At any time, lists that are past the limits are those of a flow that is past them.
pub fn too_many_early()
    ensures { TooManyEarly }
{}

/// The lists of a work that weighs the same tell of the work.
pub fn works_list()
    ensures { WorksList }
{}

/// One attempt more is one job more.
pub fn attempts_list()
    ensures { AttemptsList }
{}
