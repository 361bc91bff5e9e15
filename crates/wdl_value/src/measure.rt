ghost use Rattle.std.specs.Prelude.{◌≡◌, min};
ghost use Rattle.wdl_value.specs.Size as spec;

use crate::value::{Field, MapRow, Value};

/// The size of a value: one for each value in it, and the bytes of its texts and of the names of
/// its structs and their members; or the last number of `u64` where that is less. It takes no
/// memory.
#[cycle(size)]
pub fn size(v: &Value) -> u64
    ensures value { result ≡ min (spec.size v.now) 18446744073709551615 }
{
    match v {
        Value::Bool(_) | Value::Int(_) | Value::Absent => 1,
        Value::Str(s) | Value::File(s) => (s.as_str().len() as u64).saturating_add(1),
        Value::List(items) => size_of_items(items.as_slice()).saturating_add(1),
        Value::Pair(left, right) => size(left.get())
            .saturating_add(size(right.get()))
            .saturating_add(1),
        Value::Map(rows) => size_of_rows(rows.as_slice()).saturating_add(1),
        Value::Struct { name, fields } => size_of_fields(fields.as_slice())
            .saturating_add(name.as_str().len() as u64)
            .saturating_add(1),
    }
}

#[cycle(size)]
fn size_of_items(items: &[Value]) -> u64
    ensures { result ≡ min (spec.size_list items.now) 18446744073709551615 }
{
    let mut total: u64 = 0;
    for item in items {
        total = total.saturating_add(size(item));
    }
    total
}

#[cycle(size)]
fn size_of_rows(rows: &[MapRow<Value>]) -> u64
    ensures { result ≡ min (spec.size_row_list rows.now) 18446744073709551615 }
{
    let mut total: u64 = 0;
    for row in rows {
        total = total
            .saturating_add(size(&row.key))
            .saturating_add(size(&row.value));
    }
    total
}

#[cycle(size)]
fn size_of_fields(fields: &[Field<Value>]) -> u64
    ensures { result ≡ min (spec.size_field_list fields.now) 18446744073709551615 }
{
    let mut total: u64 = 0;
    for field in fields {
        total = total
            .saturating_add(field.name.as_str().len() as u64)
            .saturating_add(size(&field.value));
    }
    total
}
