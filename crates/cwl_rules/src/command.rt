//! The characters of commands.

ghost use Rattle.std.specs.Prelude.{◌≡◌, ◌++◌, ℕ, List, Option};
ghost use Rattle.std.specs.List.{list_any};
ghost use Rattle.cwl_image.specs.Subset as subset;
ghost use Rattle.cwl_rules.specs.Verbatim as spec;

use wdl_typed::{TExpr, TPart};

/// Whether the byte is a blank, a tab, a newline or a carriage return.
fn is_blank(byte: u8) -> bool
    ensures { result ≡ subset.is_blank byte }
{
    byte == b' ' || byte == b'\t' || byte == b'\n' || byte == b'\r'
}

/// Whether one of the bytes is not blank space.
fn is_dark(bytes: &[u8]) -> bool
    ensures { result ≡ list_any subset.is_dark (spec.chars bytes.now) }
{
    for byte in bytes {
        if !is_blank(*byte) {
            return true;
        }
    }
    false
}

/// Whether a command has a character outside placeholders that is not blank space.
#[tactic(auto, using(crate::proofs::CommandLemmas::dark_append))]
fn has_dark(parts: &[TPart<TExpr>]) -> bool
    ensures { result ≡ spec.has_dark parts.now }
{
    for part in parts {
        if let TPart::Chars(text) = part {
            if is_dark(text.as_str().as_bytes()) {
                return true;
            }
        }
    }
    false
}

/// Whether the last of the characters is `$`, where there is no backslash among them and no `(` or
/// `{` directly behind a `$`. `dollar` says whether the character before them is `$`.
fn after_text(bytes: &[u8], dollar: bool) -> Option<bool>
    ensures { (rest : List (Option ℕ)) → spec.goes_on dollar (spec.chars bytes.now ++ rest) ≡ spec.resumed result rest }
{
    let mut last = dollar;
    for byte in bytes {
        if *byte == b'\\' || last && (*byte == b'(' || *byte == b'{') {
            return None;
        }
        last = *byte == b'$';
    }
    Some(last)
}

/// Whether a command has no backslash, and no `$` directly before `(`, `{` or a placeholder.
fn is_verbatim(parts: &[TPart<TExpr>]) -> bool
    ensures { result ≡ subset.is_verbatim (subset.command_marks parts.now) }
{
    let mut dollar = false;
    for part in parts {
        match part {
            TPart::Chars(text) => match after_text(text.as_str().as_bytes(), dollar) {
                Some(last) => dollar = last,
                None => return false,
            },
            TPart::Hole(_) => {
                if dollar {
                    return false;
                }
            }
        }
    }
    true
}

/// Whether the text of a command outside placeholders stands in a CWL argument as it is.
pub fn is_command(parts: &[TPart<TExpr>]) -> bool
    ensures { result ≡ subset.is_command parts.now }
{
    has_dark(parts) && is_verbatim(parts)
}
