//! Laws of the definitions, which say nothing of code.

ghost use Rattle.json_values.specs.Laws.{ReadsFit, TextsAreOrdered, WritingsAreRead};

/// The members of each object of a text that is read as JSON are in byte order, and differ.
pub fn texts_are_ordered()
    ensures law { TextsAreOrdered }
{}

/// What JSON is read as at a type fits it.
pub fn reads_fit()
    ensures law { ReadsFit }
{}

/// What is written for a value is read back as it at each type that it fits, where its texts hold
/// no NUL, the keys of each map ascend by the bytes of their texts, and the names of a struct's
/// members differ.
pub fn writings_are_read()
    ensures law { WritingsAreRead }
{}
