//! What stands in a value of a kind that its type makes sure of. A value of another kind, which no
//! well-typed expression has there, counts as 0, false, no items, no rows, an empty text, or as
//! itself.

ghost use Rattle.std.specs.Prelude.{◌≡◌, IfOk};
ghost use Rattle.wdl_value.specs.Parts as spec;
ghost use Rattle.wdl_value.specs.ValueText.{text_of as text_in};

use std::alloc::Global;
use wdl_value::{MapRow, NoMemory, Text, Value, text_of};

/// Whether the value is an Int.
pub fn is_number(value: &Value) -> bool
    ensures { result ≡ spec.is_number value.now }
{
    matches!(value, Value::Int(_))
}

/// Whether the value is undefined.
pub fn is_undefined(value: &Value) -> bool
    ensures { result ≡ spec.is_undefined value.now }
{
    matches!(value, Value::Absent)
}

/// The Boolean, or false.
pub fn bool_in(value: &Value) -> bool
    ensures { result ≡ spec.bool_in value.now }
{
    match value {
        Value::Bool(b) => *b,
        _ => false,
    }
}

/// The number, or 0.
pub fn int_in(value: &Value) -> i64
    ensures { result ≡ spec.int_in value.now }
{
    match value {
        Value::Int(n) => *n,
        _ => 0,
    }
}

/// The items of a list; none where the value is no list.
pub fn items_in(value: &Value) -> &[Value]
    ensures { result.now ≡ spec.items_in value.now }
{
    match value {
        Value::List(items) => items.as_slice(),
        _ => &[],
    }
}

/// The rows of a map, in order; none where the value is no map.
pub fn rows_in(value: &Value) -> &[MapRow<Value>]
    ensures { result.now ≡ spec.rows_in value.now }
{
    match value {
        Value::Map(rows) => rows.as_slice(),
        _ => &[],
    }
}

/// The left part of a pair, or the value itself.
pub fn left_in(value: &Value) -> &Value
    ensures { result.now ≡ spec.left_in value.now }
{
    match value {
        Value::Pair(left, _) => left.get(),
        _ => value,
    }
}

/// The right part of a pair, or the value itself.
pub fn right_in(value: &Value) -> &Value
    ensures { result.now ≡ spec.right_in value.now }
{
    match value {
        Value::Pair(_, right) => right.get(),
        _ => value,
    }
}

/// The text of a Boolean, an Int, a String or a File; empty where the value is none of these.
pub fn text_in(alloc: Global, value: &Value) -> Result<Text, NoMemory>
    ensures { IfOk result (λ t. t ≡ text_in value.now) }
{
    match value {
        Value::Bool(_) | Value::Int(_) | Value::Str(_) | Value::File(_) => text_of(alloc, value),
        _ => Ok(Text::empty(alloc)),
    }
}
