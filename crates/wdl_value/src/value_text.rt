ghost use Rattle.std.specs.Prelude.{◌≡◌, true, IfOk};
ghost use Rattle.std.specs.Fmt.{signed_decimal};
ghost use Rattle.wdl_value.specs.ValueText as spec;

use crate::value::Value;
use std::alloc::Global;
use wdl_base::{NoMemory, Text};

/// `true` or `false`.
pub fn bool_text(alloc: Global, b: bool) -> Result<Text, NoMemory>
    ensures { IfOk result (λ t. t ≡ spec.bool_text b) }
{
    if b {
        return Text::from_plain(alloc, "true");
    }
    Text::from_plain(alloc, "false")
}

/// The number in decimal, with a minus where it is negative.
pub fn int_text(alloc: Global, n: i64) -> Result<Text, NoMemory>
    ensures { IfOk result (λ t. t ≡ signed_decimal n) }
{
    Ok(Text::from_string(n.to_string(alloc)?))
}

/// The text of a value: `true` or `false`, an integer in decimal, or the text of a Str or a File.
pub fn text_of(alloc: Global, v: &Value) -> Result<Text, NoMemory>
    requires { spec.has_text v.now ≡ true }
    ensures value { IfOk result (λ t. t ≡ spec.text_of v.now) }
{
    match v {
        Value::Bool(b) => bool_text(alloc, *b),
        Value::Int(n) => int_text(alloc, *n),
        Value::Str(s) | Value::File(s) => s.copy(alloc),
        Value::List(_) | Value::Pair(_, _) | Value::Map(_) | Value::Struct { .. } | Value::Absent =>
            unreachable!(),
    }
}
