//! The paths of the files in a value.

ghost use Rattle.std.specs.Prelude.{◌≡◌, [], ◌∷◌, ◌++◌, map, OnOk};
ghost use Rattle.wdl_value.specs.FilePaths.{file_paths, paths_in, paths_in_rows, paths_in_fields};

use crate::value::{Field, MapRow, Value};
use wdl_base::{NoMemory, Text};

fn push<'a>(path: &'a Text, paths: &mut Vec<&'a Text>) -> Result<(), NoMemory>
    ensures { OnOk result (map (λ p. p.now) paths.new.items ≡ map (λ p. p.now) paths.old.items ++ path.now ∷ []) }
{
    paths.push(path)?;
    Ok(())
}

/// Appends the paths of the File values in a value, from left to right, each as often as it stands
/// there. Its time is linear in the value.
#[cycle(paths)]
pub fn push_file_paths<'a>(value: &'a Value, paths: &mut Vec<&'a Text>) -> Result<(), NoMemory>
    ensures { OnOk result (map (λ p. p.now) paths.new.items ≡ map (λ p. p.now) paths.old.items ++ file_paths value.now) }
{
    match value {
        Value::Bool(_) | Value::Int(_) | Value::Str(_) | Value::Absent => Ok(()),
        Value::File(path) => push(path, paths),
        Value::List(items) => push_items(items.as_slice(), paths),
        Value::Pair(left, right) => {
            push_file_paths(left.get(), paths)?;
            push_file_paths(right.get(), paths)
        }
        Value::Map(rows) => push_rows(rows.as_slice(), paths),
        Value::Struct { fields, .. } => push_fields(fields.as_slice(), paths),
    }
}

#[cycle(paths)]
fn push_items<'a>(items: &'a [Value], paths: &mut Vec<&'a Text>) -> Result<(), NoMemory>
    ensures { OnOk result (map (λ p. p.now) paths.new.items ≡ map (λ p. p.now) paths.old.items ++ paths_in items.now) }
{
    for item in items {
        push_file_paths(item, paths)?;
    }
    Ok(())
}

#[cycle(paths)]
fn push_rows<'a>(rows: &'a [MapRow<Value>], paths: &mut Vec<&'a Text>) -> Result<(), NoMemory>
    ensures { OnOk result (map (λ p. p.now) paths.new.items ≡ map (λ p. p.now) paths.old.items ++ paths_in_rows rows.now) }
{
    for row in rows {
        push_file_paths(&row.key, paths)?;
        push_file_paths(&row.value, paths)?;
    }
    Ok(())
}

#[cycle(paths)]
fn push_fields<'a>(fields: &'a [Field<Value>], paths: &mut Vec<&'a Text>) -> Result<(), NoMemory>
    ensures { OnOk result (map (λ p. p.now) paths.new.items ≡ map (λ p. p.now) paths.old.items ++ paths_in_fields fields.now) }
{
    for field in fields {
        push_file_paths(&field.value, paths)?;
    }
    Ok(())
}
