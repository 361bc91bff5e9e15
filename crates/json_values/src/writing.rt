//! Values written as JSON.

ghost use Rattle.std.specs.Prelude.{◌≡◌, IfOk, OnOk};
ghost use Rattle.serde_json.specs.Data.{put as with_member, no_members, array, object};
ghost use Rattle.serde_json.specs.View.{view, members_view};
ghost use Rattle.wdl_value.specs.ValueText.{text_of as value_text};
ghost use Rattle.json_values.specs.Writing as spec;

use crate::key::key_text;
use serde_json::{Map, Value as Json, put};
use std::alloc::Global;
use wdl_base::NoMemory;
use wdl_value::{Field, MapRow, Value};

/// The value as JSON: a list is an array; a pair is an object with the members `left` and `right`;
/// a map is an object with the texts of its keys; a struct is an object with its members; an
/// undefined value is `null`. The members of an object are in byte order. Its time is linear but
/// for a logarithm.
#[cycle(writing)]
pub fn json_of(alloc: Global, value: &Value) -> Result<Json, NoMemory>
    ensures value { IfOk result (λ j. view j ≡ spec.json_of value.now) }
{
    match value {
        Value::Bool(b) => Ok(Json::Bool(*b)),
        Value::Int(n) => Ok(Json::from(*n)),
        Value::Str(s) | Value::File(s) => Ok(Json::try_from_str(alloc, s.as_str())?),
        Value::List(items) => json_list(alloc, items.as_slice()),
        Value::Pair(left, right) => {
            let left = json_of(alloc, left.get())?;
            let right = json_of(alloc, right.get())?;
            json_pair(alloc, left, right)
        }
        Value::Map(rows) => json_rows(alloc, rows.as_slice()),
        Value::Struct { fields, .. } => json_fields(alloc, fields.as_slice()),
        Value::Absent => Ok(Json::Null),
    }
}

#[tactic(auto, using(crate::proofs::JsonViews::object_view))]
fn json_pair(alloc: Global, left: Json, right: Json) -> Result<Json, NoMemory>
    ensures { IfOk result (λ j. view j ≡ object (spec.pair_members (view left) (view right))) }
{
    let mut members = Map::new(alloc);
    put(&mut members, alloc, "left", left)?;
    put(&mut members, alloc, "right", right)?;
    Ok(Json::Object(members))
}

#[cycle(writing)]
#[tactic(auto, using(crate::proofs::JsonViews::array_view))]
fn json_list(alloc: Global, values: &[Value]) -> Result<Json, NoMemory>
    ensures { IfOk result (λ j. view j ≡ array (spec.items_json values.now)) }
{
    let mut items = Vec::new(alloc);
    for value in values {
        items.push(json_of(alloc, value)?)?;
    }
    Ok(Json::Array(items))
}

fn put_row(
    alloc: Global,
    members: &mut Map<String, Json>,
    key: &Value,
    value: Json,
) -> Result<(), NoMemory>
    ensures { OnOk result (members_view members.new.entries
        ≡ with_member (value_text key.now) (view value) (members_view members.old.entries)) }
{
    let key = key_text(alloc, key)?;
    put(members, alloc, key.as_str(), value)?;
    Ok(())
}

#[cycle(writing)]
#[tactic(auto, using(crate::proofs::JsonViews::written_text, crate::proofs::JsonViews::object_view))]
fn json_rows(alloc: Global, rows: &[MapRow<Value>]) -> Result<Json, NoMemory>
    ensures { IfOk result (λ j. view j ≡ object (spec.with_rows rows.now no_members)) }
{
    let mut members = Map::new(alloc);
    for row in rows {
        let value = json_of(alloc, &row.value)?;
        put_row(alloc, &mut members, &row.key, value)?;
    }
    Ok(Json::Object(members))
}

#[cycle(writing)]
#[tactic(auto, using(crate::proofs::JsonViews::object_view))]
fn json_fields(alloc: Global, fields: &[Field<Value>]) -> Result<Json, NoMemory>
    ensures { IfOk result (λ j. view j ≡ object (spec.with_fields fields.now no_members)) }
{
    let mut members = Map::new(alloc);
    for field in fields {
        let value = json_of(alloc, &field.value)?;
        put(&mut members, alloc, field.name.as_str(), value)?;
    }
    Ok(Json::Object(members))
}
