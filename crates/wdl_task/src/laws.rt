//! Laws of the definitions, which say nothing of code.

ghost use Rattle.wdl_task.specs.Soundness.{AskedFit, ToldFit};

/// What a well-typed task asks with its inputs given has a value that fits its type for each input
/// and each private declaration.
pub fn asked_fit()
    ensures law { AskedFit }
{}

/// What an answer tells of such a task are its outputs in their order, each with a value that fits
/// its type.
pub fn told_fit()
    ensures law { ToldFit }
{}
