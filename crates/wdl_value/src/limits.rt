//! The limits of a value.

ghost use Rattle.std.specs.Prelude.{◌≡◌};
ghost use Rattle.wdl_value.specs.Limits as spec;

use crate::measure::size;
use crate::value::{Field, MapRow, Value};

/// The most items of a list and rows of a map.
pub const ITEM_LIMIT: usize = 100_000;

/// The most that the size of a value may be.
pub const SIZE_LIMIT: u64 = 4_194_304;

/// Whether each list and each map in the value has at most 100,000 items or rows.
#[cycle(short)]
fn is_short(value: &Value) -> bool
    ensures { result ≡ spec.is_short value.now }
{
    match value {
        Value::List(items) => items.len() <= ITEM_LIMIT && list_is_short(items.as_slice()),
        Value::Pair(left, right) => is_short(left.get()) && is_short(right.get()),
        Value::Map(rows) => rows.len() <= ITEM_LIMIT && rows_are_short(rows.as_slice()),
        Value::Struct { fields, .. } => fields_are_short(fields.as_slice()),
        _ => true,
    }
}

#[cycle(short)]
fn list_is_short(items: &[Value]) -> bool
    ensures { result ≡ spec.list_is_short items.now }
{
    for item in items {
        if !is_short(item) {
            return false;
        }
    }
    true
}

#[cycle(short)]
fn rows_are_short(rows: &[MapRow<Value>]) -> bool
    ensures { result ≡ spec.rows_are_short rows.now }
{
    for row in rows {
        if !(is_short(&row.key) && is_short(&row.value)) {
            return false;
        }
    }
    true
}

#[cycle(short)]
fn fields_are_short(fields: &[Field<Value>]) -> bool
    ensures { result ≡ spec.fields_are_short fields.now }
{
    for field in fields {
        if !is_short(&field.value) {
            return false;
        }
    }
    true
}

/// Whether the value keeps the limits: each list and map in it has at most 100,000 items or rows,
/// and its size is at most 4,194,304.
pub fn is_within_limits(value: &Value) -> bool
    ensures { result ≡ spec.is_within value.now }
{
    size(value) <= SIZE_LIMIT && is_short(value)
}
