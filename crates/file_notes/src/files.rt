//! The files in the values of inputs.

use wdl_value::{Field, MapRow, NoMemory, Text, Value};

/// Adds the paths of the files in a value behind the others, from left to right.
#[cycle(walk)]
pub(crate) fn push_files<'a>(value: &'a Value, paths: &mut Vec<&'a Text>) -> Result<(), NoMemory> {
    match value {
        Value::Bool(_) | Value::Int(_) | Value::Str(_) | Value::Absent => Ok(()),
        Value::File(path) => Ok(paths.push(path)?),
        Value::List(items) => push_items(items.as_slice(), paths),
        Value::Pair(left, right) => {
            push_files(left.get(), paths)?;
            push_files(right.get(), paths)
        }
        Value::Map(rows) => push_rows(rows.as_slice(), paths),
        Value::Struct { fields, .. } => push_fields(fields.as_slice(), paths),
    }
}

#[cycle(walk)]
fn push_items<'a>(items: &'a [Value], paths: &mut Vec<&'a Text>) -> Result<(), NoMemory> {
    for item in items {
        push_files(item, paths)?;
    }
    Ok(())
}

#[cycle(walk)]
fn push_rows<'a>(rows: &'a [MapRow<Value>], paths: &mut Vec<&'a Text>) -> Result<(), NoMemory> {
    for row in rows {
        push_files(&row.key, paths)?;
        push_files(&row.value, paths)?;
    }
    Ok(())
}

#[cycle(walk)]
fn push_fields<'a>(fields: &'a [Field<Value>], paths: &mut Vec<&'a Text>) -> Result<(), NoMemory> {
    for field in fields {
        push_files(&field.value, paths)?;
    }
    Ok(())
}
