//! Laws of the definitions, which say nothing of code.

ghost use Rattle.wdl_value.specs.Laws.{CastsFit, SameTypesAreEqual, SameValuesAreEqual};

/// The test of types says exactly that they are equal.
pub fn same_types_are_equal()
    ensures law { SameTypesAreEqual }
{}

/// The test of values says exactly that they are equal.
pub fn same_values_are_equal()
    ensures law { SameValuesAreEqual }
{}

/// What fits a type that coerces to another one is cast to what fits that one, or is an empty list
/// where an array with an item is asked for.
pub fn casts_fit()
    ensures law { CastsFit }
{}
