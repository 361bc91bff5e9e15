//! The classes of bytes, and the front of a text.

ghost use Rattle.std.specs.Prelude.{◌≡◌, ◌≤◌, length, take, drop};
ghost use Rattle.std.specs.List.{prefix_len};
ghost use Rattle.wdl_ast.specs.Spelled.Classes as spec;
ghost use Rattle.wdl_lex.specs.Reading.Code.{rest};
ghost use Rattle.wdl_lex.specs.Reading.Code.{char_len};
ghost use Rattle.wdl_lex.specs.Reading.Numbers.{digits_len};

/// A space, a tab, a carriage return or a line feed.
pub fn is_blank(b: u8) -> bool
    ensures { result ≡ spec.is_blank b }
{
    b == b' ' || b == b'\t' || b == b'\r' || b == b'\n'
}

/// A letter of ASCII.
#[tactic(auto, unfolding(wdl_ast::specs::Spelled::Classes::is_letter))]
pub fn is_letter(b: u8) -> bool
    ensures { result ≡ spec.is_letter b }
{
    b.is_ascii_alphabetic()
}

/// A letter or a digit of ASCII, or an underscore.
#[tactic(auto, unfolding(wdl_ast::specs::Spelled::Classes::is_word_byte))]
pub fn is_word_byte(b: u8) -> bool
    ensures { result ≡ spec.is_word_byte b }
{
    b.is_ascii_alphanumeric() || b == b'_'
}

/// Whether a byte is a digit in base 8, 10 or 16.
#[tactic(auto, unfolding(wdl_ast::specs::Spelled::Classes::is_digit_of))]
pub fn is_digit(b: u8, base: u32) -> bool
    requires low { 2 ≤ base }
    requires high { base ≤ 36 }
    ensures { result ≡ spec.is_digit_of base b }
{
    char::from(b).is_digit(base)
}

/// The first byte, and 0 where there is none.
pub fn first(z: &[u8]) -> u8
    ensures { result ≡ spec.first z.now }
{
    match z {
        [] => 0,
        [b, ..] => *b,
    }
}

/// The second byte, and 0 where there is none.
pub fn second(z: &[u8]) -> u8
    ensures { result ≡ spec.first (rest z.now) }
{
    match z {
        [_, b, ..] => *b,
        _ => 0,
    }
}

/// The third byte, and 0 where there is none.
pub fn third(z: &[u8]) -> u8
    ensures { result ≡ spec.first (rest (rest z.now)) }
{
    match z {
        [_, _, b, ..] => *b,
        _ => 0,
    }
}

/// What follows the first `at` bytes.
pub fn behind(z: &[u8], at: usize) -> &[u8]
    requires { at ≤ length z.now }
    ensures { result.now ≡ drop at z.now }
{
    &z[at..]
}

/// The first `len` bytes.
pub fn front(z: &[u8], len: usize) -> &[u8]
    requires { len ≤ length z.now }
    ensures { result.now ≡ take len z.now }
{
    &z[..len]
}

/// How many digits stand at the front.
pub fn digits_len(z: &[u8], base: u32) -> usize
    requires low { 2 ≤ base }
    requires high { base ≤ 36 }
    ensures value { result ≡ digits_len base z.now }
    ensures within { result ≤ length z.now }
{
    z.iter().take_while(|b| is_digit(**b, base)).count()
}

/// How many letters, digits and `_` stand at the front.
pub fn word_len(z: &[u8]) -> usize
    ensures value { result ≡ prefix_len spec.is_word_byte z.now }
    ensures within { result ≤ length z.now }
{
    z.iter().take_while(|b| is_word_byte(**b)).count()
}

/// How many bytes a character has that begins with this one.
pub fn char_len(b: u8) -> usize
    ensures { result ≡ char_len b }
{
    if b < 128 {
        1
    } else if b < 224 {
        2
    } else if b < 240 {
        3
    } else {
        4
    }
}
