//! Laws of the definitions, which say nothing of code.

ghost use Rattle.plan_ready.specs.Ready.{StepsReady};

/// In what grows of a checked form for inputs that fit, the expressions of each step that is left
/// may be evaluated once its needs are set, and so may those of a call that was asked: its task is
/// well typed, and its inputs are given.
pub fn steps_ready()
    ensures { StepsReady }
{}
