//! Keys of maps, which JSON has as texts.

ghost use Rattle.std.specs.Prelude.{◌≡◌, IfOk, if◌then◌else◌, Some, None};
ghost use Rattle.wdl_base.specs.Plain.{has_nul};
ghost use Rattle.wdl_value.specs.ValueText.{text_of as value_text};
ghost use Rattle.json_values.specs.Reading as spec;

use std::alloc::Global;
use wdl_base::{NoMemory, Text, TextFault};
use wdl_value::{Ty, Value, bare_type, text_of};

/// The text of a key: of a Bool, an Int, a Str or a File. A value of another kind, which is no key,
/// has no bytes.
pub fn key_text(alloc: Global, key: &Value) -> Result<Text, NoMemory>
    ensures value { IfOk result (λ t. t ≡ value_text key.now) }
{
    match key {
        Value::Bool(_) | Value::Int(_) | Value::Str(_) | Value::File(_) => text_of(alloc, key),
        _ => Ok(Text::empty(alloc)),
    }
}

/// The text, unless it holds NUL.
pub(crate) fn plain_text(alloc: Global, s: &str) -> Result<Option<Text>, NoMemory>
    ensures { IfOk result (λ t. t ≡ (if has_nul s.now then None else Some s.now)) }
{
    match Text::new(alloc, s) {
        Ok(text) => Ok(Some(text)),
        Err(TextFault::Nul) => Ok(None),
        Err(TextFault::NoMemory) => Err(NoMemory),
    }
}

/// The integer of 64 bits whose decimal this is.
fn int_key(alloc: Global, key: &str) -> Result<Option<Value>, NoMemory>
    ensures { IfOk result (λ o. o ≡ spec.int_key key.now) }
{
    let Ok(n) = key.parse::<i64>() else {
        return Ok(None);
    };
    if n.to_string(alloc)?.as_str() == key {
        return Ok(Some(Value::Int(n)));
    }
    Ok(None)
}

fn bool_key(key: &str) -> Option<Value>
    ensures { result ≡ spec.bool_key key.now }
{
    if key == "true" {
        Some(Value::Bool(true))
    } else if key == "false" {
        Some(Value::Bool(false))
    } else {
        None
    }
}

/// The value of the type whose text the key is, if there is one: the type is Boolean, Int, String
/// or File.
pub fn key_value(alloc: Global, key: &str, t: &Ty) -> Result<Option<Value>, NoMemory>
    ensures value { IfOk result (λ o. o ≡ spec.key_read key.now t.now) }
{
    match bare_type(t) {
        Ty::Bool => Ok(bool_key(key)),
        Ty::Int => int_key(alloc, key),
        Ty::Str => Ok(plain_text(alloc, key)?.map(Value::Str)),
        Ty::File => Ok(plain_text(alloc, key)?.map(Value::File)),
        _ => Ok(None),
    }
}
