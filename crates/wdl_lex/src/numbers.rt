//! The length of the number at the front of a text.

ghost use Rattle.std.specs.Prelude.{◌≡◌, ◌≤◌, ◌<◌, ◌+◌, ◌^◌, length};
ghost use Rattle.std.specs.Bool.{OnTrue};
ghost use Rattle.wdl_lex.specs.Reading.Numbers as spec;

use crate::classes::{behind, digits_len, first, is_digit};

/// The length of an exponent's letter with its sign.
fn exponent_mark_len(z: &[u8]) -> usize
    ensures value { result ≡ spec.exponent_mark_len z.now }
    ensures within { result ≤ length z.now }
{
    match z {
        [b'e' | b'E', b'+' | b'-', ..] => 2,
        [b'e' | b'E', ..] => 1,
        _ => 0,
    }
}

/// Both together, or 0 where one of them is.
fn joined_len(m: usize, n: usize) -> usize
    requires { m + n < 2 ^ 64 }
    ensures { result ≡ spec.joined_len m n }
{
    if m == 0 || n == 0 { 0 } else { m + n }
}

/// The length of an exponent, 0 where none stands there.
#[tactic(auto, unfolding(crate::specs::Reading::Numbers::exponent_len))]
fn exponent_len(z: &[u8]) -> usize
    ensures value { result ≡ spec.exponent_len z.now }
    ensures within { result ≤ length z.now }
{
    let mark = exponent_mark_len(z);
    joined_len(mark, digits_len(behind(z, mark), 10))
}

/// The length of a number with a point, behind `whole` digits and the point.
fn pointed_len(whole: usize, y: &[u8]) -> usize
    requires { whole + 1 + length y.now < 2 ^ 64 }
    ensures value { result ≡ spec.pointed_len whole (spec.digits_len 10 y.now) y.now }
    ensures within { result ≤ whole + 1 + length y.now }
{
    let part = digits_len(y, 10);
    if whole + part == 0 {
        return 0;
    }
    whole + 1 + part + exponent_len(behind(y, part))
}

/// The length of a number with a point or an exponent, 0 where none stands there.
#[tactic(auto, unfolding(crate::specs::Reading::Numbers::frac_len))]
pub fn frac_len(z: &[u8]) -> usize
    ensures value { result ≡ spec.frac_len z.now }
    ensures within { result ≤ length z.now }
{
    let whole = digits_len(z, 10);
    let rest = behind(z, whole);
    match rest {
        [] => 0,
        [b'.', y @ ..] => pointed_len(whole, y),
        _ => joined_len(whole, exponent_len(rest)),
    }
}

/// Whether `0x` and a hexadecimal digit stand at the front.
fn is_hex(z: &[u8]) -> bool
    ensures value { result ≡ spec.is_hex z.now }
    ensures within { OnTrue result (2 ≤ length z.now) }
{
    match z {
        [b'0', b'x' | b'X', rest @ ..] => is_digit(first(rest), 16),
        _ => false,
    }
}

/// The base of an integer, and how many bytes stand before its digits.
pub fn base_of(z: &[u8]) -> (u32, usize)
    ensures value { result ≡ spec.base_of z.now }
    ensures low { 2 ≤ result.0 }
    ensures high { result.0 ≤ 36 }
    ensures within { result.1 ≤ length z.now }
{
    if is_hex(z) {
        (16, 2)
    } else if first(z) == b'0' {
        (8, 0)
    } else {
        (10, 0)
    }
}
