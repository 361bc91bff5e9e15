//! Laws of the definitions, which say nothing of code.

ghost use Rattle.wdl_swaps.specs.Agreement.{NamesAgree, ValuesAgree};

/// An expression in which chains stand in the places of references has the value that it had, where
/// each chain has the value of what stood in its place, and the references that were left have the
/// values that they had.
pub fn values_agree()
    ensures law { ValuesAgree }
{}

/// All names of such an expression have values exactly where all names had values, where what
/// begins each chain has a value exactly where what stood in its place had one.
pub fn names_agree()
    ensures law { NamesAgree }
{}
