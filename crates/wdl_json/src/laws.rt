//! Laws of the definitions, which say nothing of code.

ghost use Rattle.wdl_json.specs.Laws.{FirstsAreFirst};

/// The input that a fault names begins before all others that have it.
pub fn firsts_are_first()
    ensures law { FirstsAreFirst }
{}
