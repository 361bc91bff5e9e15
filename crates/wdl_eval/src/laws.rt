//! Laws of the definitions, which say nothing of code.

ghost use Rattle.wdl_eval.specs.Laws.{ValuesFit};

/// A well-typed expression, whose names have values that fit their types, has a value that fits its
/// type, or a code: it never meets a value of a wrong kind.
pub fn values_fit()
    ensures law { ValuesFit }
{}
