//! The text of a document at a span and around it.

use crate::position::bytes_before;
use wdl_value::Span;

/// The most bytes of a document that are looked at: more than those of two names with a point
/// between them.
const MOST_WORDS: usize = 260;

/// The bytes of a span; nothing where the text has no such bytes.
fn bytes_at(bytes: &[u8], span: Span) -> &[u8] {
    bytes
        .get(span.start as usize..span.end as usize)
        .unwrap_or(&[])
}

/// The text of a span; empty where it is not UTF-8.
pub fn text_at(bytes: &[u8], span: Span) -> &str {
    str::from_utf8(bytes_at(bytes, span)).unwrap_or("")
}

/// Whether a character ends what a sentence quotes: sentences are lines of plain text.
fn ends_quote(c: char) -> bool {
    c.is_control() || c == '`'
}

/// The text of a span up to the first control character or backquote, and at most 260 bytes of it.
pub fn words_at(bytes: &[u8], span: Span) -> &str {
    let text = str::from_utf8(bytes_at(bytes, span)).unwrap_or("");
    let line = text.split(ends_quote).next().unwrap_or("");
    line[..line.floor_char_boundary(MOST_WORDS)].trim()
}

/// The text before a span without the blank space at its end. It is empty where it is not UTF-8.
pub fn text_before(bytes: &[u8], span: Span) -> &str {
    str::from_utf8(bytes_before(bytes, span.start))
        .unwrap_or("")
        .trim_ascii_end()
}

/// The text behind a span without the blank space at its beginning. It is empty where it is not
/// UTF-8.
pub fn text_behind(bytes: &[u8], span: Span) -> &str {
    let behind = bytes.get(span.end as usize..).unwrap_or(&[]);
    str::from_utf8(behind).unwrap_or("").trim_ascii_start()
}

/// Whether a byte belongs to a name.
fn is_of_name(byte: &u8) -> bool {
    byte.is_ascii_alphanumeric() || *byte == b'_'
}

/// The name with which a text ends, but for blank space behind it; empty where it ends with
/// something else.
pub fn last_word(code: &[u8]) -> &str {
    let code = code.trim_ascii_end();
    let others = code.iter().rposition(|byte| !is_of_name(byte));
    let word = match others {
        Some(at) => code.get(at + 1..).unwrap_or(&[]),
        None => code,
    };
    str::from_utf8(word).unwrap_or("")
}

/// The code before a place without the name at its end.
pub fn before_word(code: &[u8]) -> &[u8] {
    let code = code.trim_ascii_end();
    match code.iter().rposition(|byte| !is_of_name(byte)) {
        Some(at) => &code[..at + 1],
        None => &[],
    }
}
