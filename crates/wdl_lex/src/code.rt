//! The tokens outside strings and commands.

ghost use Rattle.std.specs.Prelude.{◌≡◌, ◌<◌, ◌≤◌, true, Some, length, take};
ghost use Rattle.wdl_ast.specs.Spelled.Classes.{first, is_letter, is_digit_of};
ghost use Rattle.wdl_ast.specs.declared.token.Kind.TheVariants as kind;
ghost use Rattle.wdl_lex.specs.Reading.Code as spec;
ghost use Rattle.wdl_lex.specs.Reading.Numbers as number;

use crate::classes::{
    behind, char_len, digits_len, first, front, is_digit, is_letter, is_word_byte, word_len,
};
use crate::fault::{NoToken, flawed};
use crate::marks::mark_at;
use crate::numbers::{base_of, frac_len};
use crate::text::{as_str, copied};
use std::alloc::Global;
use wdl_ast::Kind;

/// The bytes that a word may have.
pub const MAX_WORD: usize = 128;

fn word(alloc: Global, z: &[u8]) -> Result<(Kind, usize), NoToken>
    ensures { spec.Gives (spec.checked true z.now (Some (spec.word_at z.now))) result }
{
    let len = word_len(z);
    if len > MAX_WORD {
        return Err(flawed(107, len));
    }
    Ok((Kind::Word(copied(alloc, front(z, len))?), len))
}

fn frac(alloc: Global, z: &[u8], len: usize) -> Result<(Kind, usize), NoToken>
    requires measured { len ≡ number.frac_len z.now }
    requires some { 0 < len }
    requires within { len ≤ length z.now }
    ensures { spec.Gives (spec.checked true z.now (Some (kind.Frac (take len z.now), len))) result }
{
    if is_word_byte(first(behind(z, len))) {
        return Err(flawed(102, len + 1));
    }
    Ok((Kind::Frac(copied(alloc, front(z, len))?), len))
}

#[tactic(auto, unfolding(crate::specs::Reading::Numbers::int_at))]
fn int(z: &[u8]) -> Result<(Kind, usize), NoToken>
    requires { is_digit_of 10 (first z.now) ≡ true }
    ensures { spec.Gives (spec.checked true z.now (Some (number.int_at z.now))) result }
{
    let (base, skip) = base_of(z);
    let digits = behind(z, skip);
    let len = digits_len(digits, base);
    let end = skip + len;
    if is_word_byte(first(behind(z, end))) {
        return Err(flawed(102, end + 1));
    }
    match i64::from_str_radix(as_str(front(digits, len)), base) {
        Ok(value) => Ok((Kind::Int(value), end)),
        Err(_) => Err(flawed(106, end)),
    }
}

/// The token at the front, with its length. Behind the word `command` (`awaits`) a `{` or `<<<`
/// opens a command; in a placeholder without an open brace (`closes`) a `}` closes it.
#[tactic(auto, unfolding(crate::specs::Reading::Code::code_token, crate::specs::Reading::Code::longest_at))]
pub fn code_token(
    alloc: Global,
    z: &[u8],
    awaits: bool,
    closes: bool,
) -> Result<(Kind, usize), NoToken>
    ensures { spec.Gives (spec.code_token true awaits closes z.now) result }
{
    let b = first(z);
    if is_letter(b) {
        return word(alloc, z);
    }
    let len = frac_len(z);
    if len > 0 {
        return frac(alloc, z, len);
    }
    if is_digit(b, 10) {
        return int(z);
    }
    match mark_at(z, awaits, closes) {
        Some(found) => Ok(found),
        None => Err(flawed(102, char_len(b))),
    }
}
