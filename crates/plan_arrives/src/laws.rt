//! Laws of the definitions, which say nothing of code.

ghost use Rattle.plan_arrives.specs.Arrivals.{AnswersGoOn};
ghost use Rattle.plan_arrives.specs.Concluding.{CallsConclude};

/// An answer to an attempt that waits keeps a plan growing: with the outputs of its call, with its
/// fault, or with its next attempt.
pub fn answers_go_on()
    ensures { AnswersGoOn }
{}

/// A call that was asked is that of a statement of the plan: its task is well typed and its inputs
/// are given, and its outputs have cells.
pub fn calls_conclude()
    ensures { CallsConclude }
{}
