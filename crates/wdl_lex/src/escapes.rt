//! The escapes of strings.

ghost use Rattle.std.specs.Prelude.{◌≡◌, ◌≤◌, ◌<◌, length};
ghost use Rattle.wdl_ast.specs.Spelled.Escapes as form;
ghost use Rattle.wdl_ast.specs.Spelled.Classes as class;
ghost use Rattle.wdl_lex.specs.Reading.Escapes as spec;

use crate::classes::is_digit;
use crate::text::as_str;

fn simple(b: u8) -> Option<char>
    ensures { result ≡ form.simple b }
{
    match b {
        b'\\' => Some('\\'),
        b'n' => Some('\n'),
        b't' => Some('\t'),
        b'\'' => Some('\''),
        b'"' => Some('"'),
        b'~' => Some('~'),
        b'$' => Some('$'),
        _ => None,
    }
}

fn hex_digits(b: u8) -> Option<usize>
    ensures { result ≡ form.hex_digits b }
{
    match b {
        b'x' => Some(2),
        b'u' => Some(4),
        b'U' => Some(8),
        _ => None,
    }
}

fn are_digits(z: &[u8], base: u32) -> bool
    requires low { 2 ≤ base }
    requires high { base ≤ 36 }
    ensures { result ≡ class.are_digits base z.now }
{
    z.iter().all(|b| is_digit(*b, base))
}

/// The character of a number, other than NUL.
fn character(code: u32) -> Option<char>
    ensures { result ≡ spec.character code }
{
    match char::from_u32(code) {
        Some('\0') => None,
        found => found,
    }
}

/// The character that digits number.
fn number(digits: &[u8], base: u32) -> Option<char>
    requires low { 2 ≤ base }
    requires high { base ≤ 36 }
    requires some { 0 < length digits.now }
    ensures { result ≡ spec.number base digits.now }
{
    if !are_digits(digits, base) {
        return None;
    }
    match u32::from_str_radix(as_str(digits), base) {
        Ok(code) => character(code),
        Err(_) => None,
    }
}

/// The character of the first `n` digits, with the length of its escape.
fn numbered(z: &[u8], base: u32, n: usize, len: usize) -> Option<(char, usize)>
    requires low { 2 ≤ base }
    requires high { base ≤ 36 }
    requires some { 0 < n }
    ensures { result ≡ spec.numbered base n len z.now }
{
    if z.len() < n {
        return None;
    }
    match number(&z[..n], base) {
        Some(c) => Some((c, len)),
        None => None,
    }
}

/// The character of the escape behind a backslash, with the number of bytes that it takes.
#[tactic(auto, unfolding(crate::specs::Reading::Escapes::escape))]
pub fn escape(z: &[u8]) -> Option<(char, usize)>
    ensures { result ≡ spec.escape z.now }
{
    let [b, rest @ ..] = z else {
        return None;
    };
    if let Some(c) = simple(*b) {
        return Some((c, 1));
    }
    if is_digit(*b, 8) {
        return numbered(z, 8, 3, 3);
    }
    match hex_digits(*b) {
        Some(n) => numbered(rest, 16, n, 1 + n),
        None => None,
    }
}
