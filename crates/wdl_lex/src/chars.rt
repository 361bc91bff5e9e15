//! The tokens in strings and commands.

ghost use Rattle.std.specs.Prelude.{◌≡◌, ◌++◌, ◌+◌, ◌^◌, ◌<◌, false, OnOk, IfOk, IfErr, Ok, length};
ghost use Rattle.std.specs.Char.{encode_utf8};
ghost use Rattle.std.specs.Str.{IsUtf8};
ghost use Rattle.wdl_ast.specs.Spelled.Chars as form;
ghost use Rattle.wdl_ast.specs.Spelled.Classes.{first};
ghost use Rattle.wdl_lex.specs.Reading.Chars as spec;
ghost use Rattle.wdl_lex.specs.Reading.Code.{Fails, Gives, rest};

use crate::classes::{behind, first, second};
use crate::escapes::escape;
use crate::fault::{Flaw, NoToken, flawed};
use crate::text::text_of;
use std::alloc::{AllocError, Global};
use wdl_ast::{Fence, HoleMark, Kind, Quote};

/// Inside a string or a command.
#[derive(Clone, Copy, Debug, PartialEq, Eq)]
pub enum Inside {
    Str(Quote),
    Command(Fence),
}

fn is_string(inside: Inside) -> bool
    ensures { result ≡ form.is_string (spec.inside inside) }
{
    match inside {
        Inside::Str(_) => true,
        Inside::Command(_) => false,
    }
}

/// Whether what closes it stands at the front.
fn closes(inside: Inside, z: &[u8]) -> bool
    ensures { result ≡ form.begins (form.closer (spec.inside inside)) z.now }
{
    match inside {
        Inside::Str(Quote::Single) => matches!(z, [b'\'', ..]),
        Inside::Str(Quote::Double) => matches!(z, [b'"', ..]),
        Inside::Command(Fence::Brace) => matches!(z, [b'}', ..]),
        Inside::Command(Fence::Angle) => matches!(z, [b'>', b'>', b'>', ..]),
    }
}

fn closer_len(inside: Inside) -> usize
    ensures { result ≡ length (form.closer (spec.inside inside)) }
{
    match inside {
        Inside::Command(Fence::Angle) => 3,
        _ => 1,
    }
}

fn closing(inside: Inside) -> Kind
    ensures { result ≡ form.closing (spec.inside inside) }
{
    match inside {
        Inside::Str(_) => Kind::StrClose,
        Inside::Command(_) => Kind::CommandClose,
    }
}

fn takes_dollar(inside: Inside) -> bool
    ensures { result ≡ form.takes_dollar (spec.inside inside) }
{
    match inside {
        Inside::Command(Fence::Angle) => false,
        _ => true,
    }
}

/// The placeholder that these two bytes open.
fn hole_at(inside: Inside, b: u8, c: u8) -> Option<HoleMark>
    ensures { result ≡ form.hole_at (spec.inside inside) b c }
{
    if c != b'{' {
        None
    } else if b == b'~' {
        Some(HoleMark::Tilde)
    } else if b == b'$' && takes_dollar(inside) {
        Some(HoleMark::Dollar)
    } else {
        None
    }
}

/// Whether characters stop here.
fn stops(inside: Inside, z: &[u8]) -> bool
    ensures { result ≡ form.stops (spec.inside inside) z.now }
{
    let [b, rest @ ..] = z else {
        return true;
    };
    closes(inside, z)
        || hole_at(inside, *b, first(rest)).is_some()
        || *b == 0
        || (is_string(inside) && *b == b'\n')
}

fn push_char(out: &mut Vec<u8>, c: char) -> Result<(), AllocError>
    ensures { OnOk result (out.new.items ≡ out.old.items ++ encode_utf8 c) }
{
    let mut room = [0; 4];
    out.extend_from_slice(c.encode_utf8(&mut room).as_bytes())
}

fn is_backslash(inside: Inside, b: u8) -> bool
    ensures { result ≡ form.is_backslash (spec.inside inside) b }
{
    b == b'\\' && is_string(inside)
}

/// Appends what the first byte or escape means. Answers how many bytes it has behind the first.
fn push_unit(out: &mut Vec<u8>, inside: Inside, z: &[u8], at: usize) -> Result<usize, NoToken>
    requires some { 0 < length z.now }
    requires plain { form.stops (spec.inside inside) z.now ≡ false }
    requires room { at + 1 < 2 ^ 64 }
    ensures ok { IfOk result (λ skip. spec.chars_from (spec.inside inside) 0 out.old.items at z.now ≡ spec.chars_from (spec.inside inside) skip out.new.items (at + 1) (rest z.now)) }
    ensures err { IfErr result (Fails (spec.chars_from (spec.inside inside) 0 out.old.items at z.now)) }
{
    let b = first(z);
    if !is_backslash(inside, b) {
        out.push(b)?;
        return Ok(0);
    }
    match escape(behind(z, 1)) {
        Some((c, len)) => {
            push_char(out, c)?;
            Ok(len)
        }
        None => Err(NoToken::Flaw(Flaw {
            code: 105,
            start: at,
            end: at + 1,
        })),
    }
}

/// What the characters up to where they stop mean, and their length.
#[tactic(auto, unfolding(crate::specs::Reading::Chars::chars))]
fn chars(alloc: Global, inside: Inside, z: &[u8]) -> Result<(Vec<u8>, usize), NoToken>
    ensures ok { IfOk result (λ r. spec.chars (spec.inside inside) z.now ≡ Ok (r.0.items, r.1)) }
    ensures err { IfErr result (Fails (spec.chars (spec.inside inside) z.now)) }
{
    let mut out = Vec::new(alloc);
    let mut skip = 0;
    for at in 0..z.len() {
        if skip > 0 {
            skip -= 1;
            continue;
        }
        let here = behind(z, at);
        if stops(inside, here) {
            return Ok((out, at));
        }
        skip = push_unit(&mut out, inside, here, at)?;
    }
    Ok((out, z.len()))
}

/// The token at the front, with its length.
#[tactic(auto, unfolding(crate::specs::Reading::Chars::text_token, crate::specs::Reading::Chars::as_chars))]
pub fn text_token(alloc: Global, inside: Inside, z: &[u8]) -> Result<(Kind, usize), NoToken>
    requires { IsUtf8 z.now }
    ensures { Gives (spec.text_token (spec.inside inside) z.now) result }
{
    if closes(inside, z) {
        return Ok((closing(inside), closer_len(inside)));
    }
    let b = first(z);
    if let Some(mark) = hole_at(inside, b, second(z)) {
        return Ok((Kind::HoleOpen(mark), 2));
    }
    if b == 0 {
        return Err(flawed(102, 1));
    }
    if is_string(inside) && b == b'\n' {
        return Err(flawed(103, 1));
    }
    let (out, len) = chars(alloc, inside, z)?;
    Ok((Kind::Chars(text_of(out)), len))
}
