//! Texts of bytes that are known to be UTF-8 without NUL.

ghost use Rattle.std.specs.Prelude.{◌≡◌, false, IfOk};
ghost use Rattle.std.specs.Str.{IsUtf8};
ghost use Rattle.wdl_base.specs.Plain.{has_nul};

use std::alloc::{AllocError, Global};
use std::str;
use wdl_value::Text;

/// The text of bytes that are UTF-8 without NUL; they are moved.
pub fn text_of(bytes: Vec<u8>) -> Text
    requires utf8 { IsUtf8 bytes.items }
    requires plain { has_nul bytes.items ≡ false }
    ensures { result ≡ bytes.items }
{
    Text::from_string(String::from_utf8(bytes).unwrap())
}

/// A copy of such bytes as a text.
pub fn copied(alloc: Global, bytes: &[u8]) -> Result<Text, AllocError>
    requires utf8 { IsUtf8 bytes.now }
    requires plain { has_nul bytes.now ≡ false }
    ensures { IfOk result (λ t. t ≡ bytes.now) }
{
    Ok(text_of(Vec::from_slice(alloc, bytes)?))
}

/// Bytes that are UTF-8, as a string.
pub fn as_str(bytes: &[u8]) -> &str
    requires { IsUtf8 bytes.now }
    ensures { result.now ≡ bytes.now }
{
    str::from_utf8(bytes).unwrap()
}
