//! Marks, quotes and braces.

ghost use Rattle.std.specs.Prelude.{◌≡◌, ◌<◌};
ghost use Rattle.wdl_ast.specs.Spelled.Marks as spec;
ghost use Rattle.wdl_lex.specs.Reading.Code.{mark_at};

use crate::classes::{first, second, third};
use wdl_ast::{Fence, Kind, Mark, Quote};

fn single_mark(b: u8) -> Option<Kind>
    ensures { result ≡ spec.single_in spec.singles b }
{
    Some(match b {
        b'{' => Kind::Mark(Mark::OpenBrace),
        b'}' => Kind::Mark(Mark::CloseBrace),
        b'[' => Kind::Mark(Mark::OpenBracket),
        b']' => Kind::Mark(Mark::CloseBracket),
        b'(' => Kind::Mark(Mark::OpenParen),
        b')' => Kind::Mark(Mark::CloseParen),
        b',' => Kind::Mark(Mark::Comma),
        b':' => Kind::Mark(Mark::Colon),
        b'.' => Kind::Mark(Mark::Dot),
        b'=' => Kind::Mark(Mark::Assign),
        b'?' => Kind::Mark(Mark::Question),
        b'+' => Kind::Mark(Mark::Plus),
        b'-' => Kind::Mark(Mark::Minus),
        b'*' => Kind::Mark(Mark::Star),
        b'/' => Kind::Mark(Mark::Slash),
        b'%' => Kind::Mark(Mark::Percent),
        b'!' => Kind::Mark(Mark::Not),
        b'<' => Kind::Mark(Mark::Less),
        b'>' => Kind::Mark(Mark::Greater),
        b'\'' => Kind::StrOpen(Quote::Single),
        b'"' => Kind::StrOpen(Quote::Double),
        _ => return None,
    })
}

#[tactic(auto, unfolding(wdl_ast::specs::Spelled::Marks::single))]
fn single(awaits: bool, closes: bool, b: u8) -> Option<Kind>
    ensures { result ≡ spec.single awaits closes b }
{
    if b == b'{' && awaits {
        Some(Kind::CommandOpen(Fence::Brace))
    } else if b == b'}' && closes {
        Some(Kind::HoleClose)
    } else {
        single_mark(b)
    }
}

#[tactic(auto, unfolding(wdl_ast::specs::Spelled::Marks::double))]
fn double(b: u8, c: u8) -> Option<Kind>
    ensures { result ≡ spec.double b c }
{
    if b == b'=' && c == b'=' {
        Some(Kind::Mark(Mark::Equal))
    } else if b == b'!' && c == b'=' {
        Some(Kind::Mark(Mark::NotEqual))
    } else if b == b'<' && c == b'=' {
        Some(Kind::Mark(Mark::LessEqual))
    } else if b == b'>' && c == b'=' {
        Some(Kind::Mark(Mark::GreaterEqual))
    } else if b == b'&' && c == b'&' {
        Some(Kind::Mark(Mark::And))
    } else if b == b'|' && c == b'|' {
        Some(Kind::Mark(Mark::Or))
    } else {
        None
    }
}

#[tactic(auto, unfolding(wdl_ast::specs::Spelled::Marks::triple))]
fn triple(awaits: bool, b: u8, c: u8, d: u8) -> Option<Kind>
    ensures { result ≡ spec.triple awaits b c d }
{
    if b == b'<' && c == b'<' && d == b'<' && awaits {
        Some(Kind::CommandOpen(Fence::Angle))
    } else {
        None
    }
}

/// The longest mark at the front, with its length. Behind the word `command` (`awaits`) a `{` or
/// `<<<` opens a command; in a placeholder without an open brace (`closes`) a `}` closes it.
pub fn mark_at(z: &[u8], awaits: bool, closes: bool) -> Option<(Kind, usize)>
    ensures { result ≡ mark_at awaits closes z.now }
{
    let b = first(z);
    let c = second(z);
    if let Some(kind) = triple(awaits, b, c, third(z)) {
        return Some((kind, 3));
    }
    if let Some(kind) = double(b, c) {
        return Some((kind, 2));
    }
    single(awaits, closes, b).map(|kind| (kind, 1))
}
