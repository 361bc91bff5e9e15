//! Maps with distinct keys.

ghost use Rattle.std.specs.Prelude.{◌≡◌};
ghost use Rattle.wdl_value.specs.Keyed as spec;

use crate::equality::same_value;
use crate::value::{Field, MapRow, Value};

/// Whether a row has the key. It takes no memory, and its time is linear in the number of rows.
pub fn has_key(key: &Value, mut rows: &[MapRow<Value>]) -> bool
    ensures { result ≡ spec.has_key key.now rows.entry.now }
{
    while let [row, rest @ ..] = rows {
        if same_value(key, &row.key) {
            return true;
        }
        rows = rest;
    }
    false
}

/// Whether no two rows have one key. It takes no memory, and so its time is quadratic in the number
/// of rows.
pub fn distinct_keys(mut rows: &[MapRow<Value>]) -> bool
    ensures { result ≡ spec.distinct_keys rows.entry.now }
{
    while let [row, rest @ ..] = rows {
        if has_key(&row.key, rest) {
            return false;
        }
        rows = rest;
    }
    true
}

#[cycle(keyed)]
#[tactic(auto, using(crate::specs::Keyed::keyed_steps))]
/// Whether each map in the value has distinct keys. It takes no memory, and its time is quadratic
/// in the rows of a map.
pub fn keyed(x: &Value) -> bool
    ensures { result ≡ spec.keyed x.now }
{
    match x {
        Value::List(items) => keyed_all(items.as_slice()),
        Value::Pair(a, b) => keyed(a.get()) && keyed(b.get()),
        Value::Map(rows) => distinct_keys(rows.as_slice()) && keyed_rows(rows.as_slice()),
        Value::Struct { fields, .. } => keyed_fields(fields.as_slice()),
        _ => true,
    }
}

#[cycle(keyed)]
fn keyed_all(items: &[Value]) -> bool
    ensures { result ≡ spec.keyed_all items.now }
{
    for item in items {
        if !keyed(item) {
            return false;
        }
    }
    true
}

#[cycle(keyed)]
fn keyed_rows(rows: &[MapRow<Value>]) -> bool
    ensures { result ≡ spec.keyed_rows rows.now }
{
    for row in rows {
        if !(keyed(&row.key) && keyed(&row.value)) {
            return false;
        }
    }
    true
}

#[cycle(keyed)]
fn keyed_fields(fields: &[Field<Value>]) -> bool
    ensures { result ≡ spec.keyed_fields fields.now }
{
    for field in fields {
        if !keyed(&field.value) {
            return false;
        }
    }
    true
}
