ghost use Rattle.std.specs.Prelude.{◌≡◌, ◌++◌, false, OnOk};
ghost use Rattle.std.specs.Fmt.{signed_decimal};
ghost use Rattle.wdl_base.specs.Plain.{has_nul};
ghost use Rattle.wdl_print.specs.TokenText as spec;

use crate::escaped::escaped;
use crate::inside::Open;
use crate::mark::{closing_text, hole_text, mark_text, opening_text, quote_text};
use std::alloc::Global;
use wdl_ast::Kind;
use wdl_value::{NoMemory, Text};

fn push_number(alloc: Global, text: &mut Text, n: i64) -> Result<(), NoMemory>
    ensures { OnOk result (text.new ≡ text.old ++ signed_decimal n) }
{
    let number = n.to_string(alloc)?;
    text.push_str(number.as_str())
}

/// What closes the innermost that is open.
fn closer(innermost: Option<Open>) -> &'static str
    ensures value { result.now ≡ spec.closer innermost }
    ensures plain { has_nul result.now ≡ false }
{
    match innermost {
        Some(Open::Quoted(quote)) => quote_text(quote),
        Some(Open::Command(fence)) => closing_text(fence),
        Some(Open::Placeholder) | None => "",
    }
}

fn push_chars(
    alloc: Global,
    text: &mut Text,
    innermost: Option<Open>,
    chars: &Text,
) -> Result<(), NoMemory>
    ensures { OnOk result (text.new ≡ text.old ++ spec.chars_text innermost chars.now) }
{
    match innermost {
        Some(Open::Quoted(quote)) => {
            let escaped = escaped(alloc, quote, chars.as_str())?;
            text.push_str(escaped.as_str())
        }
        _ => text.push_str(chars.as_str()),
    }
}

/// Appends a token, where this is the innermost that is open.
pub fn push_spelling(
    alloc: Global,
    text: &mut Text,
    innermost: Option<Open>,
    kind: &Kind,
) -> Result<(), NoMemory>
    ensures { OnOk result (text.new ≡ text.old ++ spec.spelling innermost kind.now) }
{
    match kind {
        Kind::Word(word) | Kind::Frac(word) => text.push_str(word.as_str()),
        Kind::Int(n) => push_number(alloc, text, *n),
        Kind::Mark(mark) => text.push_str(mark_text(*mark)),
        Kind::StrOpen(quote) => text.push_str(quote_text(*quote)),
        Kind::StrClose | Kind::CommandClose => text.push_str(closer(innermost)),
        Kind::Chars(chars) => push_chars(alloc, text, innermost, chars),
        Kind::HoleOpen(mark) => text.push_str(hole_text(*mark)),
        Kind::HoleClose => text.push_str("}"),
        Kind::CommandOpen(fence) => text.push_str(opening_text(*fence)),
    }
}
