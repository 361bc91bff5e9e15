//! What a warning says.

use crate::lint::Lint;
use fault_places::{Note, words_at};
use wdl_value::{NoMemory, Span};

/// A form of Bash.
fn bash(note: &mut Note, words: &str) -> Result<(), NoMemory> {
    note.push_quoted(words)?;
    note.push(" is of Bash, and `sh` runs this command: set `WDL_SHELL=bash`, ")?;
    note.push("or write it for any shell (docs/MOVING.md)")
}

/// Strings that are compared by this operator.
fn texts(note: &mut Note, operator: &str) -> Result<(), NoMemory> {
    note.push_quoted(operator)?;
    note.push(" compares Strings by their bytes, in which \"20\" is less than \"9\": ")?;
    note.push("compare numbers in a command (docs/MOVING.md, \"Fractions\")")
}

/// A File in this placeholder.
fn unquoted_file(note: &mut Note, words: &str) -> Result<(), NoMemory> {
    note.push_all(&["the File in `", words, "` is not in quotes: "])?;
    note.push_all(&["a blank in its path splits it, so write `'", words, "'`"])
}

/// Files in this placeholder, which has this expression.
fn unquoted_files(note: &mut Note, words: &str, files: &str) -> Result<(), NoMemory> {
    note.push_all(&["the Files in `", words, "` are not in quotes: "])?;
    note.push("a blank in a path splits it, so write ")?;
    note.push_all(&["`squote(", files, ")` for `", files, "`"])
}

fn no_parameter(note: &mut Note, key: &str, part: &str) -> Result<(), NoMemory> {
    note.push_all(&["`", key, "` is no input or output of `", part, "`"])
}

fn literal_pattern(note: &mut Note, literal: &str) -> Result<(), NoMemory> {
    note.push_quoted(literal)?;
    note.push(" stands for itself in a pattern of `glob`: ")?;
    note.push("`*` and `?` alone stand for other characters")
}

fn no_outputs(note: &mut Note, workflow: &str) -> Result<(), NoMemory> {
    note.push_all(&["the workflow `", workflow, "` has no `output` section, "])?;
    note.push("so its outputs are `{}`")
}

fn near_attribute(note: &mut Note, key: &str, known: &str) -> Result<(), NoMemory> {
    note.push_all(&["`", key, "` is no attribute that is known; "])?;
    note.push_all(&["did you mean `", known, "`?"])
}

/// A sentence that ends with a name.
fn of_name(note: &mut Note, sentence: &str, name: &str) -> Result<(), NoMemory> {
    note.push(sentence)?;
    note.push_quoted(name)
}

/// Appends the sentence of a slip at a span of a document.
pub fn sentence(note: &mut Note, lint: Lint, bytes: &[u8], span: Span) -> Result<(), NoMemory> {
    match lint {
        Lint::Bash => bash(note, words_at(bytes, span)),
        Lint::Texts => texts(note, words_at(bytes, span)),
        Lint::UnusedInput(name) => of_name(note, "nothing uses the input ", name),
        Lint::UnusedDeclaration(name) => of_name(note, "nothing uses the declaration ", name),
        Lint::UnquotedFile => unquoted_file(note, words_at(bytes, span)),
        Lint::UnquotedFiles(files) => {
            unquoted_files(note, words_at(bytes, span), words_at(bytes, files))
        }
        Lint::NoParameter { key, part } => no_parameter(note, key, part),
        Lint::UncalledTask(name) => of_name(note, "nothing calls the task ", name),
        Lint::LiteralPattern(literal) => literal_pattern(note, literal),
        Lint::NoOutputs(workflow) => no_outputs(note, workflow),
        Lint::NearAttribute { key, known } => near_attribute(note, key, known),
    }
}
