//! Patterns of `glob`.

use crate::lint::{Lint, Warning};
use wdl_ast::{Expr, StringPart, StringTree};

/// The first character that other tools take for a part of a pattern, and `glob` for itself.
fn first_literal(text: &str) -> Option<&'static str> {
    for byte in text.as_bytes() {
        match *byte {
            b'[' => return Some("["),
            b'{' => return Some("{"),
            b'\\' => return Some("\\"),
            _ => {}
        }
    }
    None
}

/// The warning on a pattern.
pub fn literal_pattern<'w>(pattern: &StringTree<Expr>) -> Option<Warning<'w>> {
    for part in pattern.parts.as_slice() {
        if let StringPart::Chars(chars) = part {
            if let Some(literal) = first_literal(chars.text.as_str()) {
                return Some(Warning {
                    span: chars.span,
                    lint: Lint::LiteralPattern(literal),
                });
            }
        }
    }
    None
}
