//! What is said of an inputs file that is no JSON.

use crate::scan::{Cause, Expected, Fault, fault_in};
use crate::word::meant_by;
use note_text::Note;
use serde_json::Value as Json;
use std::alloc::Global;
use wdl_base::NoMemory;

/// What a byte order mark of UTF-8 is.
const MARK: &[u8] = b"\xef\xbb\xbf";

/// The line of a byte of a text, from 1 on.
pub(crate) fn line_of(text: &[u8], at: usize) -> usize {
    let before = text.get(..at).unwrap_or(text);
    let mut line = 1usize;
    for byte in before {
        if *byte == b'\n' {
            line = line.saturating_add(1);
        }
    }
    line
}

/// The column of a byte of a text, from 1 on; at the end of the text that of its last byte.
fn column_of(text: &[u8], at: usize) -> usize {
    let before = text.get(..at).unwrap_or(text);
    let mut column = 0usize;
    for byte in before {
        column = if *byte == b'\n' {
            0
        } else {
            column.saturating_add(1)
        };
    }
    if at < text.len() {
        column.saturating_add(1)
    } else {
        column
    }
}

fn push_place(note: &mut Note, text: &[u8], at: usize) -> Result<(), NoMemory> {
    note.push("line ")?;
    note.push_number(line_of(text, at))?;
    note.push(", column ")?;
    note.push_number(column_of(text, at))?;
    note.push(": ")
}

fn expected_text(expected: Expected, found: Option<u8>) -> &'static str {
    match expected {
        Expected::Whole => "expected a JSON object",
        Expected::Value => "expected a value",
        Expected::FirstItem => "expected a value or `]`",
        Expected::Item => "expected a value after `,`",
        Expected::Name if found == Some(b'}') => "expected a member after `,`",
        Expected::FirstName | Expected::Name => "expected a name in double quotes",
        Expected::Colon => "expected `:`",
        Expected::NextMember => "expected `,` or `}`",
        Expected::NextItem => "expected `,` or `]`",
        Expected::End => "expected the end",
    }
}

/// Whether a value was expected, so that a word in its place is shown as a whole.
fn is_value(expected: Expected) -> bool {
    matches!(
        expected,
        Expected::Value | Expected::FirstItem | Expected::Item
    )
}

/// Whether a character ends a word.
fn ends_word(c: char) -> bool {
    c.is_whitespace() || matches!(c, ',' | ':' | '[' | ']' | '{' | '}' | '"')
}

/// The text from a byte on up to the end of its word.
fn word_at(text: &str, at: usize) -> &str {
    let rest = text.get(at..).unwrap_or("");
    for (end, c) in rest.char_indices() {
        if ends_word(c) {
            return rest.get(..end).unwrap_or("");
        }
    }
    rest
}

/// Appends what stands at a byte.
fn push_found(note: &mut Note, text: &str, at: usize, expected: Expected) -> Result<(), NoMemory> {
    note.push(", found ")?;
    let first = first_of(text, at);
    if first.is_empty() {
        return note.push("the end");
    }
    let word = word_at(text, at);
    if is_value(expected) && !word.is_empty() {
        note.push_name(word)?;
        return note.push(meant_by(word));
    }
    note.push_name(first)
}

/// The character of a text that begins at a byte.
fn first_of(text: &str, at: usize) -> &str {
    let rest = text.get(at..).unwrap_or("");
    let end = match rest.chars().next() {
        Some(first) => first.len_utf8(),
        None => 0,
    };
    rest.get(..end).unwrap_or("")
}

fn push_cause(note: &mut Note, text: &str, fault: Fault) -> Result<(), NoMemory> {
    match fault.cause {
        Cause::Unexpected(expected) => {
            let found = text.as_bytes().get(fault.at).copied();
            note.push(expected_text(expected, found))?;
            push_found(note, text, fault.at, expected)
        }
        Cause::OpenText => note.push("this text has no closing quote in its line"),
        Cause::Escape => note.push("`\\` escapes no such character; a backslash is `\\\\`"),
        Cause::Control => note.push("a text holds no control character; a tab is `\\t`"),
        Cause::Comment => note.push("JSON has no comments; a member `\"##\"` is left out"),
    }
}

/// Appends where and why a text in UTF-8 is no JSON.
fn push_fault(alloc: Global, note: &mut Note, text: &str) -> Result<(), NoMemory> {
    if text.trim().is_empty() {
        return note.push("the inputs file is empty: expected a JSON object, `{}` at least");
    }
    note.push("the inputs file is no JSON: ")?;
    match fault_in(alloc, text.as_bytes())? {
        Some(fault) => {
            push_place(note, text.as_bytes(), fault.at)?;
            push_cause(note, text, fault)
        }
        None => push_kit_fault(alloc, note, text.as_bytes()),
    }
}

/// Appends where the reader of JSON found a fault that has no other sentence.
fn push_kit_fault(alloc: Global, note: &mut Note, text: &[u8]) -> Result<(), NoMemory> {
    match Json::from_slice(alloc, text) {
        Ok(_) => Ok(()),
        Err(e) if e.is_memory() => Err(NoMemory),
        Err(e) => {
            note.push("line ")?;
            note.push_number(e.line())?;
            note.push(", column ")?;
            note.push_number(e.column())?;
            note.push(": a number is too large, an escape is incomplete, or members nest too deep")
        }
    }
}

/// Appends why a text is no JSON.
pub(crate) fn push_syntax(alloc: Global, note: &mut Note, text: &[u8]) -> Result<(), NoMemory> {
    if text.starts_with(MARK) {
        return note.push(
            "the inputs file begins with a byte order mark: save it as UTF-8 without one",
        );
    }
    if text.starts_with(b"\xff\xfe") || text.starts_with(b"\xfe\xff") {
        return note.push("the inputs file is UTF-16: save it as UTF-8 without a byte order mark");
    }
    match std::str::from_utf8(text) {
        Ok(text) => push_fault(alloc, note, text),
        Err(e) => {
            note.push("the inputs file is no JSON: ")?;
            push_place(note, text, e.valid_up_to())?;
            note.push("this byte is not UTF-8")
        }
    }
}
