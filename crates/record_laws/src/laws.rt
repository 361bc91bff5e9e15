//! Laws of the definitions, which say nothing of code.

ghost use Rattle.record_laws.specs.Laws.{RecordsLowered};

/// Where the struct inputs of a checked form are replaced by their members, the members of inputs
/// that fit are inputs that fit, and the flow over them has the outputs, jobs, faults and waits
/// that the flow of the form over the inputs had.
pub fn records_lowered()
    ensures law { RecordsLowered }
{}
