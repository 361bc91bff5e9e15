//! How a text from outside, such as a path or a member of JSON, is shown on a terminal: its control
//! characters, which a terminal would obey, are escaped.
#![tactic(auto)]

ghost use Rattle.std.specs.Prelude.{◌≡◌, ◌++◌, false, IfOk, OnOk, string_bytes, encode_utf8_all};
ghost use Rattle.std.specs.Char.Escape.{escape_default};
ghost use Rattle.shown_text.specs.Shown as spec;
ghost use Rattle.wdl_base.specs.Plain.{has_nul};

use std::alloc::{AllocError, Global};
use wdl_base::{NoMemory, Text};

/// Appends the escape of a character, such as `\n` or `\u{1b}`.
fn push_escape(text: &mut String, c: char) -> Result<(), AllocError>
    ensures { OnOk result (string_bytes text.new ≡ string_bytes text.old ++ encode_utf8_all (escape_default c)) }
{
    text.extend(c.escape_default())
}

/// Appends a character. A control character, U+0000 to U+001F or U+007F to U+009F, is escaped as
/// `char::escape_default` does it: `\n`, `\r`, `\t`, or `\u{1b}` with its number in hexadecimal.
pub fn push_shown(text: &mut String, c: char) -> Result<(), NoMemory>
    ensures { OnOk result (string_bytes text.new ≡ string_bytes text.old ++ spec.shown_char c) }
{
    if c.is_control() {
        push_escape(text, c)?;
    } else {
        text.push(c)?;
    }
    Ok(())
}

/// Returns the text with its control characters escaped, as [`push_shown`] does it, and all else as
/// it is.
pub fn shown_string(alloc: Global, text: &str) -> Result<String, NoMemory>
    ensures { IfOk result (λ shown. string_bytes shown ≡ spec.shown text.now) }
{
    let mut shown = String::new(alloc);
    for c in text.chars() {
        push_shown(&mut shown, c)?;
    }
    Ok(shown)
}

/// The same for a text that holds no NUL.
pub fn shown_of(alloc: Global, text: &str) -> Result<Text, NoMemory>
    requires { has_nul text.now ≡ false }
    ensures { IfOk result (λ shown. shown ≡ spec.shown text.now) }
{
    Ok(Text::from_string(shown_string(alloc, text)?))
}
