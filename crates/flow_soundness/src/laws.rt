//! Laws of the definitions, which say nothing of code.

ghost use Rattle.flow_soundness.specs.Soundness.{FlowsFit};

/// Each name that the flow of a checked form knows, for inputs that fit and over any table of
/// answers, has a value of its type.
pub fn flows_fit()
    ensures fit { FlowsFit }
{}
