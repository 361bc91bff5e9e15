//! Laws of the definitions, which say nothing of code.

ghost use Rattle.depth_laws.specs.Laws.{DepthsAgree, WholeIsDeepest};

/// The flow of each workflow of a checked form is the same at every depth from 25 on. The whole
/// flow of its main workflow, which is taken to depth 25, is therefore the flow at every greater
/// depth too: no call is left out for its depth.
pub fn depths()
    ensures agree { DepthsAgree }
    ensures whole { WholeIsDeepest }
{}
