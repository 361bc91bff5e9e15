//! `as_pairs`, `keys`, `as_map` and `collect_by_key`.

ghost use Rattle.std.specs.Prelude.{◌≡◌, IfOk, map, string_bytes, List};
ghost use Rattle.wdl_value.specs.Functions as spec;
ghost use Rattle.wdl_value.specs.declared.value.Value.TheVariants as v;
ghost use Rattle.wdl_stdlib.specs.Gives.{Gives};
ghost use Rattle.wdl_stdlib.specs.Groups.{AreGroups};

use crate::fault::EvalFault;
use crate::parts::{items_in, left_in, right_in, rows_in, text_in};
use std::alloc::Global;
use std::collections::{BTreeMap, BTreeSet};
use wdl_value::{Boxed, EvalCode, Items, MapRow, NoMemory, Value};

/// A pair of copies.
pub fn pair(alloc: Global, left: &Value, right: &Value) -> Result<Value, NoMemory>
    ensures { IfOk result (λ x. x ≡ v.Pair left.now right.now) }
{
    let left = left.copy(alloc)?;
    let right = right.copy(alloc)?;
    Ok(Value::Pair(Boxed::new(alloc, left)?, Boxed::new(alloc, right)?))
}

/// The rows of a map as pairs, in order.
pub fn as_pairs(alloc: Global, x: &Value) -> Result<Value, EvalFault>
    ensures { Gives (spec.as_pairs_of x.now) result }
{
    let rows = rows_in(x);
    let mut pairs = Items::new(alloc);
    for row in rows {
        pairs.push(pair(alloc, &row.key, &row.value)?)?;
    }
    Ok(Value::List(pairs))
}

/// The keys of a map, in order.
pub fn keys(alloc: Global, x: &Value) -> Result<Value, EvalFault>
    ensures { Gives (spec.keys_of x.now) result }
{
    let rows = rows_in(x);
    let mut keys = Items::new(alloc);
    for row in rows {
        keys.push(row.key.copy(alloc)?)?;
    }
    Ok(Value::List(keys))
}

/// The text of a pair's left part.
fn key_text(alloc: Global, pair: &Value) -> Result<String, NoMemory>
    ensures { IfOk result (λ s. string_bytes s ≡ spec.key_text pair.now) }
{
    let text = text_in(alloc, left_in(pair))?;
    Ok(String::from_str(alloc, text.as_str())?)
}

/// Whether two pairs have one key.
fn repeat_a_key(alloc: Global, pairs: &[Value]) -> Result<bool, NoMemory>
    ensures { IfOk result (λ b. b ≡ spec.repeat_a_key pairs.now) }
{
    let mut seen: BTreeSet<String> = BTreeSet::new(alloc);
    for pair in pairs {
        let key = key_text(alloc, pair)?;
        if !seen.insert(key)? {
            return Ok(true);
        }
    }
    Ok(false)
}

fn rows_of(alloc: Global, pairs: &[Value]) -> Result<Items<MapRow<Value>>, NoMemory>
    ensures { IfOk result (λ rows. rows ≡ map spec.row_of pairs.now) }
{
    let mut rows = Items::new(alloc);
    for pair in pairs {
        let key = left_in(pair).copy(alloc)?;
        let value = right_in(pair).copy(alloc)?;
        rows.push(MapRow { key, value })?;
    }
    Ok(rows)
}

/// The pairs as the rows of a map; `RepeatedKey` where two have one key. Its time is n log n in the
/// pairs.
pub fn as_map(alloc: Global, x: &Value) -> Result<Value, EvalFault>
    ensures { Gives (spec.as_map_of x.now) result }
{
    let pairs = items_in(x);
    if repeat_a_key(alloc, pairs)? {
        return Err(EvalFault::Code(EvalCode::RepeatedKey));
    }
    Ok(Value::Map(rows_of(alloc, pairs)?))
}

/// The right parts of the pairs, by the texts of the left parts.
fn groups_of(alloc: Global, pairs: &[Value]) -> Result<BTreeMap<String, Vec<Value>>, NoMemory>
    ensures { IfOk result (λ groups. AreGroups groups pairs.now) }
{
    let mut groups: BTreeMap<String, Vec<Value>> = BTreeMap::new(alloc);
    for pair in pairs {
        let key = key_text(alloc, pair)?;
        let value = right_in(pair).copy(alloc)?;
        groups.entry(key)?.or_default().push(value)?;
    }
    Ok(groups)
}

/// A row for each group, where the first of its pairs stands.
fn collected(
    alloc: Global,
    mut groups: BTreeMap<String, Vec<Value>>,
    pairs: &[Value],
) -> Result<Items<MapRow<Value>>, NoMemory>
    requires { AreGroups groups pairs.now }
    ensures { IfOk result (λ rows. rows ≡ map (spec.group_of pairs.now) (spec.first_pairs pairs.now)) }
{
    let mut rows = Items::new(alloc);
    for pair in pairs {
        let text = key_text(alloc, pair)?;
        if let Some(values) = groups.remove(text.as_str()) {
            let key = left_in(pair).copy(alloc)?;
            let value = Value::List(Items::from_vec(values));
            rows.push(MapRow { key, value })?;
        }
    }
    Ok(rows)
}

/// The right parts by the left ones, keys by first appearance. Its time is n log n in the pairs.
pub fn collect_by_key(alloc: Global, x: &Value) -> Result<Value, EvalFault>
    ensures { Gives (spec.collect_by_key_of x.now) result }
{
    let pairs = items_in(x);
    let groups = groups_of(alloc, pairs)?;
    Ok(Value::Map(collected(alloc, groups, pairs)?))
}
