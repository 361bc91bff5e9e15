//! Laws of the definitions, which say nothing of code.

ghost use Rattle.alias_laws.specs.Laws.{AliasesLowered, FormsLowered};

/// Where the declarations of a checked form that only give another name to a value go, the flow
/// keeps its outputs, jobs, faults and waits, for inputs that fit and answers whose files keep the
/// limits of values.
pub fn aliases_lowered()
    ensures law { AliasesLowered }
{}

/// The lowered form of a checked form has neither these declarations nor, where all their uses
/// allow it, struct inputs: the members of inputs that fit are inputs that fit, and the flow over
/// them has the outputs, jobs, faults and waits that the flow of the form over the inputs had.
pub fn forms_lowered()
    ensures law { FormsLowered }
{}
