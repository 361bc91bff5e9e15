//! What is true of every typing.

ghost use Rattle.wdl_check_laws.specs.Laws.{WellTyped, WellCast};

/// The typed tree of an expression is well typed, by the types of typed trees, and has the type of
/// the expression. Under the cast to a type it has that type.
pub fn typings_are_well_typed()
    ensures tree { WellTyped }
    ensures cast { WellCast }
{}
