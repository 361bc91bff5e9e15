//! How the note of a fault begins.

ghost use Rattle.std.specs.Prelude.{◌≡◌, IfOk, string_bytes};
ghost use Rattle.fault_places.specs.Heads.{head_of};

use crate::position::{Position, position_of};
use report_text::code_text;
use shown_text::shown_string;
use std::alloc::Global;
use wdl_value::{NoMemory, Span};

/// The place of a fault, and its code with the word: `PATH:LINE:COLUMN: error CODE WORD: `, where
/// line and column are those of [`position_of`] at the beginning of the span. Control characters in
/// the path are escaped.
pub fn head(
    alloc: Global,
    path: &str,
    bytes: &[u8],
    code: u16,
    span: Span,
) -> Result<String, NoMemory>
    ensures { IfOk result (λ t. string_bytes t ≡ head_of path.now bytes.now span.start code) }
{
    let path = shown_string(alloc, path)?;
    let path = path.as_str();
    let Position { line, column } = position_of(bytes, span.start);
    let rule = code_text(alloc, code)?;
    let rule = rule.as_str();
    Ok(format!(in alloc; "{path}:{line}:{column}: error {rule}: ")?)
}
