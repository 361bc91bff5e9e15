//! Whether the rows of a map have distinct keys, by a set of the marks of the keys.

ghost use Rattle.std.specs.Prelude.{◌≡◌, ◌++◌, IfOk, Some, string_bytes};
ghost use Rattle.std.specs.Option.{option_map};
ghost use Rattle.wdl_value.specs.Keyed as keyed;
ghost use Rattle.wdl_eval.specs.Marks as spec;

use std::alloc::Global;
use std::collections::BTreeSet;
use wdl_value::{MapRow, NoMemory, Value, distinct_keys};

/// The text behind a letter for the kind.
fn marked(alloc: Global, kind: &str, text: &str) -> Result<Option<String>, NoMemory>
    ensures { IfOk result (λ o. option_map string_bytes o ≡ Some (kind.now ++ text.now)) }
{
    let mut mark = String::from_str(alloc, kind)?;
    mark.push_str(text)?;
    Ok(Some(mark))
}

fn bool_mark(alloc: Global, b: bool) -> Result<Option<String>, NoMemory>
    ensures { IfOk result (λ o. option_map string_bytes o ≡ spec.bool_mark b) }
{
    if b {
        return marked(alloc, "b", "true");
    }
    marked(alloc, "b", "false")
}

fn int_mark(alloc: Global, n: i64) -> Result<Option<String>, NoMemory>
    ensures { IfOk result (λ o. option_map string_bytes o ≡ spec.int_mark n) }
{
    let text = n.to_string(alloc)?;
    marked(alloc, "i", text.as_str())
}

/// The kind and the text of a Boolean, a number, a text or a path; no other value has a mark.
fn mark_of(alloc: Global, key: &Value) -> Result<Option<String>, NoMemory>
    ensures { IfOk result (λ o. option_map string_bytes o ≡ spec.mark_of key.now) }
{
    match key {
        Value::Bool(b) => bool_mark(alloc, *b),
        Value::Int(n) => int_mark(alloc, *n),
        Value::Str(text) => marked(alloc, "s", text.as_str()),
        Value::File(path) => marked(alloc, "f", path.as_str()),
        _ => Ok(None),
    }
}

/// Whether no two rows have one key. Its time is n log n in the rows where each key has a mark, as
/// the keys of each well-typed map have, and else quadratic.
pub fn are_distinct(alloc: Global, rows: &[MapRow<Value>]) -> Result<bool, NoMemory>
    ensures { IfOk result (λ b. b ≡ keyed.distinct_keys rows.now) }
{
    let mut seen: BTreeSet<String> = BTreeSet::new(alloc);
    for row in rows {
        let Some(mark) = mark_of(alloc, &row.key)? else {
            return Ok(distinct_keys(rows));
        };
        if !seen.insert(mark)? {
            return Ok(false);
        }
    }
    Ok(true)
}
