//! Laws of the definitions, which say nothing of code.

ghost use Rattle.plan_ends.specs.Ends.{GrowthsEnd};

/// Where no step is ready, lists that tell of what has grown tell of the flow from scratch, the
/// cells have its values, and the evaluations are no more than it costs.
pub fn growths_end()
    ensures { GrowthsEnd }
{}
