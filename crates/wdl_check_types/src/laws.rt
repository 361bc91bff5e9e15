//! What is true of every written type.

ghost use Rattle.wdl_check_types.specs.Laws.{WrittenTypes};

/// Where each name of a document stands for a struct of the library, each type that the document
/// writes is one that a checked form may have.
pub fn written_types_are_known()
    ensures { WrittenTypes }
{}
