//! What is said of inputs.

const NOT_JSON: &str = "\
401 NotJson: an error in the inputs file, status 4

The file is no JSON in UTF-8.

Example:
  {
";

const NOT_AN_OBJECT: &str = "\
402 NotAnObject: an error in the inputs file, status 4

It is JSON, but no object.

Example:
  []
";

const UNKNOWN_INPUT: &str = "\
403 UnknownInput: an error in the inputs file, status 4

An unknown input: a member that is no input of the workflow and does not begin
with `##`, as comments do; the first by its bytes is named.

Example:
  {\"w.y\": 1}

What to do:
  Inputs of calls inside cannot be given: make them inputs of the workflow.
";

const INPUT_MISSING: &str = "\
404 InputMissing: an error in the inputs file, status 4

A required input is missing; the first in the document is named.

Example:
  {}
";

const DOES_NOT_FIT: &str = "\
405 DoesNotFit: an error in the inputs file, status 4

A value that does not fit the type of the input, or past a limit: 100,000 items
of a list or rows of a map, the size 4,194,304.

Example:
  {\"w.x\": \"a\"}

What to do:
  A pair is an object with `left` and `right`.
";

const FLOAT_NUMBER: &str = "\
406 FloatNumber: an error in the inputs file, status 4

The value holds a number that is not whole, or past 64 bits; `1.0` and `1e2`
too.

Example:
  {\"w.x\": 1.5}

What to do:
  Write it as a string.
";

const TOO_LONG: &str = "\
407 TooLong: an error in the inputs file, status 4

The file has more than 1,048,576 bytes.

Example:
  a file of 1,048,577 blanks

What to do:
  Pass large data in files.
";

/// Returns what is said of the number, if it is one of these.
pub(crate) fn of_inputs(number: u32) -> Option<&'static str> {
    match number {
        401 => Some(NOT_JSON),
        402 => Some(NOT_AN_OBJECT),
        403 => Some(UNKNOWN_INPUT),
        404 => Some(INPUT_MISSING),
        405 => Some(DOES_NOT_FIT),
        406 => Some(FLOAT_NUMBER),
        407 => Some(TOO_LONG),
        _ => None,
    }
}
