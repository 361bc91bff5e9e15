//! Laws of the definitions, which say nothing of code.

ghost use Rattle.print_laws.specs.ReadBack.{PrintedIsReadBack};

/// Where some text has the tokens of a document but for their spans, so has the text that is made
/// of the document.
pub fn printed_is_read_back()
    ensures { PrintedIsReadBack }
{}
