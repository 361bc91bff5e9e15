//! Laws of the definitions, which say nothing of code.

ghost use Rattle.wdl_stdlib.specs.Laws.{ApplyFits, OperateFits, NegateFits};

/// Operands that fit a row of the table of operators have a value that fits the row's result, or a
/// code.
pub fn operate_fits()
    ensures law { OperateFits }
{}

/// A number with the other sign is an Int, or a code.
pub fn negate_fits()
    ensures law { NegateFits }
{}

/// Arguments that fit a row of the table of functions, of a function that writes no file, have a
/// value that fits the row's result, or a code.
pub fn apply_fits()
    ensures law { ApplyFits }
{}
