//! Laws of the definitions, which say nothing of code.

ghost use Rattle.plan_layout.specs.Laws.{FlowsSee, LayoutsSee, NeedsResolve};

/// What is needed of names is what a scope has of them.
pub fn needs_resolve()
    ensures { NeedsResolve }
{}

/// Each statement of a checked form sees all that it refers to.
pub fn layouts_see()
    ensures { LayoutsSee }
{}

/// The inputs and outputs of a workflow of a checked form see all that they refer to.
pub fn flows_see()
    ensures { FlowsSee }
{}
