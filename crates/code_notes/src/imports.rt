//! What is said of imports.

const SCHEME_REFUSED: &str = "\
201 SchemeRefused: an error in what documents import, status 3

An import names a place on a network: `://` stands in it.

Example:
  import \"https://example.org/a.wdl\"

What to do:
  Keep a copy beside the document.
";

const IMPORT_CIRCLE: &str = "\
202 ImportCircle: an error in what documents import, status 3

Documents import each other in a circle. The place is that of the import which
closes it: imports are read depth first, in the order of the text, and it is
the first that leads to a document which is still being read.

Example:
  import \"main.wdl\"

What to do:
  Move what both need into a third document.
";

const SAME_NAMESPACE: &str = "\
203 SameNamespace: an error in what documents import, status 3

Two imports of a document have one name.

Example:
  import \"part.wdl\" import \"part.wdl\"

What to do:
  Give one another name: `import \"part.wdl\" as other`.
";

const STRUCTS_DIFFER: &str = "\
204 StructsDiffer: an error in what documents import, status 3

A document sees two structs under one name, and their members differ. Two
struct types of members are equal where they are one struct, whatever their
names.

Example:
  import \"part.wdl\" struct S { String x }

What to do:
  Give one another name: `alias S as Other` behind the import.
";

const TOO_MANY_DOCUMENTS: &str = "\
205 TooManyDocuments: an error in what documents import, status 3

A document leads to more than 64, itself counted.

Example:
  imports of 64 files

What to do:
  Join small documents.
";

const ALIAS_UNKNOWN: &str = "\
206 AliasUnknown: an error in what documents import, status 3

`alias` names a struct that the imported document does not see.

Example:
  import \"part.wdl\" alias T as U

What to do:
  Compare the name with the document.
";

const NAMESPACE_NOT_ANAME: &str = "\
207 NamespaceNotAName: an error in what documents import, status 3

An import without `as` of a file whose name without `.wdl` is no name.

Example:
  import \"my-part.wdl\"

What to do:
  `import \"my-part.wdl\" as mine`.
";

/// Returns what is said of the number, if it is one of these.
pub(crate) fn of_import(number: u32) -> Option<&'static str> {
    match number {
        201 => Some(SCHEME_REFUSED),
        202 => Some(IMPORT_CIRCLE),
        203 => Some(SAME_NAMESPACE),
        204 => Some(STRUCTS_DIFFER),
        205 => Some(TOO_MANY_DOCUMENTS),
        206 => Some(ALIAS_UNKNOWN),
        207 => Some(NAMESPACE_NOT_ANAME),
        _ => None,
    }
}
