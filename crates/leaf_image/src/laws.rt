//! Laws of the definitions, which say nothing of code.

ghost use Rattle.leaf_image.specs.Agreement.{BodiesAgree};

/// A body with leaves in the places of struct inputs gives what the body gave: the same names with
/// the same values, and the same calls, jobs, faults and waits.
pub fn bodies_agree()
    ensures law { BodiesAgree }
{}
