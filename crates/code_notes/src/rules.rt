//! What is said of CWL documents and bundles: their rules.

const RULE_601: &str = "\
601: a rule of the workflows that `wdl cwl` writes, status 8

An argument of a call is no input, scatter item or `call.output`.

Docs/CWL.md has a document for it, and what to write in its place.
";

const RULE_602: &str = "\
602: a rule of the workflows that `wdl cwl` writes, status 8

A workflow declares something in its body that is no other name of an input, a
scatter item, a file output of a call, or a member of one of these.

Docs/CWL.md has a document for it, and what to write in its place.
";

const RULE_603: &str = "\
603: a rule of the workflows that `wdl cwl` writes, status 8

A collection or a condition is no such reference.

Docs/CWL.md has a document for it, and what to write in its place.
";

const RULE_604: &str = "\
604: a rule of the workflows that `wdl cwl` writes, status 8

A call has `after`.

Docs/CWL.md has a document for it, and what to write in its place.
";

const RULE_605: &str = "\
605: a rule of the workflows that `wdl cwl` writes, status 8

An input, declaration or output has another type than Int, String, Boolean,
File, arrays and optionals of these; a struct input whose uses are members
alone is replaced by these.

Docs/CWL.md has a document for it, and what to write in its place.
";

const RULE_606: &str = "\
606: a rule of the workflows that `wdl cwl` writes, status 8

A value is converted otherwise than from `T` to `T?` or from `Array[T]+` to
`Array[T]`.

Docs/CWL.md has a document for it, and what to write in its place.
";

const RULE_607: &str = "\
607: a rule of the workflows that `wdl cwl` writes, status 8

A default is no literal of type Int, String, Boolean or array of these, or its
input is optional.

Docs/CWL.md has a document for it, and what to write in its place.
";

const RULE_608: &str = "\
608: a rule of the workflows that `wdl cwl` writes, status 8

A task has a private declaration.

Docs/CWL.md has a document for it, and what to write in its place.
";

const RULE_609: &str = "\
609: a rule of the workflows that `wdl cwl` writes, status 8

A placeholder of a command is not one plain input of type Int, String, Boolean
or File.

Docs/CWL.md has a document for it, and what to write in its place.
";

const RULE_610: &str = "\
610: a rule of the workflows that `wdl cwl` writes, status 8

A command is blank, or holds a backslash or a `$` directly before `(`, `{` or a
placeholder.

Docs/CWL.md has a document for it, and what to write in its place.
";

const RULE_611: &str = "\
611: a rule of the workflows that `wdl cwl` writes, status 8

An output of a task is no File, or is neither `stdout()` nor the name of a file
of letters, digits, `.`, `_`, `-`.

Docs/CWL.md has a document for it, and what to write in its place.
";

const RULE_612: &str = "\
612: a rule of the workflows that `wdl cwl` writes, status 8

An output of a workflow is no output of a call.

Docs/CWL.md has a document for it, and what to write in its place.
";

const RULE_613: &str = "\
613: a rule of the workflows that `wdl cwl` writes, status 8

A task has `maxRetries`, or `returnCodes` other than `\"*\"`, `0` or a list of at
most 256 numbers with 0 among them.

Docs/CWL.md has a document for it, and what to write in its place.
";

const RULE_620: &str = "\
620: a rule of the workflows that `wdl bundle` writes, status 8

The workflow calls a workflow; the place is the first such call.

What to do:
  Bundle that workflow by itself, or call its tasks.
";

const RULE_621: &str = "\
621: a rule of the workflows that `wdl bundle` writes, status 8

The bundle would be longer than 1,048,576 bytes, which no document may be.

What to do:
  Split the workflow.
";

const RULE_622: &str = "\
622: a rule of the workflows that `wdl bundle` writes, status 8

The bundle, parsed and checked alone, does not have the form of the documents:
no document is known that gets it.

What to do:
  Please report it.
";

/// Returns what is said of the number, if it is one of these.
pub(crate) fn of_rule(number: u32) -> Option<&'static str> {
    match number {
        601 => Some(RULE_601),
        602 => Some(RULE_602),
        603 => Some(RULE_603),
        604 => Some(RULE_604),
        605 => Some(RULE_605),
        606 => Some(RULE_606),
        607 => Some(RULE_607),
        608 => Some(RULE_608),
        609 => Some(RULE_609),
        610 => Some(RULE_610),
        611 => Some(RULE_611),
        612 => Some(RULE_612),
        613 => Some(RULE_613),
        620 => Some(RULE_620),
        621 => Some(RULE_621),
        622 => Some(RULE_622),
        _ => None,
    }
}
