//! What is said of texts of documents.

const NOT_UTF8: &str = "\
101 NotUtf8: an error in the text of a document, status 3

A byte that is not UTF-8, also in a comment.

Example:
  a comment with an é, saved as Latin-1

What to do:
  Save the file as UTF-8.
";

const STRAY_CHARACTER: &str = "\
102 StrayCharacter: an error in the text of a document, status 3

A character that begins no token; NUL anywhere; a number with a letter, a digit
or `_` right behind it.

Example:
  Int x = 08

What to do:
  A decimal number has no leading zero; `010` is octal.
";

const OPEN_STRING: &str = "\
103 OpenString: an error in the text of a document, status 3

A string that does not end on its line, or in which the text ends.

Example:
  String s = \"a

What to do:
  Close the quote; write a newline as `\\n`.
";

const OPEN_COMMAND: &str = "\
104 OpenCommand: an error in the text of a document, status 3

The text ends inside a command.

Example:
  task t { command <<<

What to do:
  Write `>>>`, or `}` for a command that began with `{`.
";

const BAD_ESCAPE: &str = "\
105 BadEscape: an error in the text of a document, status 3

An unknown escape sequence, or one for NUL or for a number that is no
character.

Example:
  String s = \"\\q\"

What to do:
  Write `\\\\` for a backslash.
";

const NUMBER_TOO_LARGE: &str = "\
106 NumberTooLarge: an error in the text of a document, status 3

A whole number past 9223372036854775807.

Example:
  Int x = 9223372036854775808

What to do:
  Write it as a String.
";

const TOO_LONG: &str = "\
107 TooLong: an error in the text of a document, status 3

A document of more than 1,048,576 bytes, or an identifier of more than 128.

Example:
  a name of 129 letters

What to do:
  Split the document; shorten the name.
";

const UNEXPECTED: &str = "\
110 Unexpected: an error in the text of a document, status 3

A token that the grammar does not have there, or one too few; also a second
section of one kind, a task without a command, and options of a placeholder
that do not go together.

Example:
  Int = 1

What to do:
  The span is that of the first token that no document has there, such as the
  keyword of a second section; where the text ends too early, of the last one.
";

const TOO_DEEP: &str = "\
111 TooDeep: an error in the text of a document, status 3

An expression or a meta value of more than 64 levels, a type of more than 8.

Example:
  a number in 64 pairs of parentheses

What to do:
  Give a part a name by a declaration.
";

const WRONG_VERSION: &str = "\
112 WrongVersion: an error in the text of a document, status 3

The document does not begin with `version 1.1`.

Example:
  version 1.0 workflow w { }

What to do:
  Only WDL 1.1 is read.
";

const FLOAT_USED: &str = "\
120 FloatUsed: an error in the text of a document, status 3

The type `Float`, a number with a point or an exponent, or `floor`, `ceil`,
`round`, `size`, `read_float`.

Example:
  Int x = 1.5

What to do:
  Compute it in a command, and pass it on as a String.
";

const OBJECT_USED: &str = "\
121 ObjectUsed: an error in the text of a document, status 3

The type `Object`, `object {..}`, or a function that reads or writes objects.

Example:
  workflow w { input { Object o } }

What to do:
  Declare a struct.
";

const SUB_USED: &str = "\
122 SubUsed: an error in the text of a document, status 3

`sub`.

Example:
  String s = sub(\"a\", \"b\", \"c\")

What to do:
  Use `sed` in a command.
";

const LEFT_OUT: &str = "\
123 LeftOut: an error in the text of a document, status 3

`read_json` or `write_json`.

Example:
  Int x = read_json(\"f\")

What to do:
  Use `read_tsv`, `read_map`, `write_tsv`, `write_map`.
";

/// Returns what is said of the number, if it is one of these.
pub(crate) fn of_text(number: u32) -> Option<&'static str> {
    match number {
        101 => Some(NOT_UTF8),
        102 => Some(STRAY_CHARACTER),
        103 => Some(OPEN_STRING),
        104 => Some(OPEN_COMMAND),
        105 => Some(BAD_ESCAPE),
        106 => Some(NUMBER_TOO_LARGE),
        107 => Some(TOO_LONG),
        110 => Some(UNEXPECTED),
        111 => Some(TOO_DEEP),
        112 => Some(WRONG_VERSION),
        120 => Some(FLOAT_USED),
        121 => Some(OBJECT_USED),
        122 => Some(SUB_USED),
        123 => Some(LEFT_OUT),
        _ => None,
    }
}
