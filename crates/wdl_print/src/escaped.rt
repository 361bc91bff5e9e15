ghost use Rattle.std.specs.Prelude.{◌≡◌, ◌++◌, false, IfOk, OnOk, string_bytes};
ghost use Rattle.std.specs.Str.{chars as chars_in};
ghost use Rattle.wdl_base.specs.Plain.{has_nul};
ghost use Rattle.wdl_print.specs.TokenText as spec;

use std::alloc::Global;
use wdl_ast::Quote;
use wdl_value::{NoMemory, Text};

fn quote_char(quote: Quote) -> char
    ensures { result ≡ spec.quote_byte quote }
{
    match quote {
        Quote::Single => '\'',
        Quote::Double => '"',
    }
}

/// Appends a character of a string of this quote, escaped where it has to be.
fn push_char(text: &mut String, quote: Quote, c: char) -> Result<(), NoMemory>
    ensures { OnOk result (string_bytes text.new ≡ string_bytes text.old ++ spec.escape quote c) }
{
    if c == '\\' || c == '~' || c == '$' || c == quote_char(quote) {
        text.push_str("\\")?;
        text.push(c)?;
        return Ok(());
    }
    match c {
        '\n' => text.push_str("\\n")?,
        '\t' => text.push_str("\\t")?,
        _ => text.push(c)?,
    }
    Ok(())
}

/// The characters of a string of this quote as they are written, escaped where they have to be.
pub fn escaped(alloc: Global, quote: Quote, chars: &str) -> Result<Text, NoMemory>
    requires { has_nul chars.now ≡ false }
    ensures { IfOk result (λ text. text ≡ spec.escaped quote (chars_in chars.now)) }
{
    let mut text = String::new(alloc);
    for c in chars.chars() {
        push_char(&mut text, quote, c)?;
    }
    Ok(Text::from_string(text))
}
