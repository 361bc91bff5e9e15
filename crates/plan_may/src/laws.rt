//! Laws of the definitions, which say nothing of code.

ghost use Rattle.plan_may.specs.May.{RowsNone, StepsMay};

/// Each step of a plan that was not taken and whose needs are set may be done.
pub fn steps_may()
    ensures { StepsMay }
{}

/// At the place of a call that is new, no row answers.
pub fn rows_none()
    ensures { RowsNone }
{}
