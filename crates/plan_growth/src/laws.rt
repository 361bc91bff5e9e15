//! Laws of the definitions, which say nothing of code.

ghost use Rattle.plan_growth.specs.Laws.{BodiesBegin, PlansBegin, PlansGoOn};

/// The statements of a body that was just entered have begun to grow.
pub fn bodies_begin()
    ensures { BodiesBegin }
{}

/// A plan begins as a net that grows of the main workflow.
pub fn plans_begin()
    ensures { PlansBegin }
{}

/// Each kind of step keeps a plan growing: joints, declarations, defaults, outputs, blocks and
/// calls.
pub fn plans_go_on()
    ensures { PlansGoOn }
{}
