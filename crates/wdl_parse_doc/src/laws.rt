ghost use Rattle.wdl_parse_doc.specs.Contract.{OneDocument};

/// A list of tokens has at most one document.
pub fn one_document_of_tokens()
    ensures { OneDocument }
{}
