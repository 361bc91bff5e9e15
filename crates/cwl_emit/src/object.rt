//! The input object of a process.

ghost use Rattle.std.specs.Prelude.{◌≡◌, IfOk, OnOk};
ghost use Rattle.serde_json.specs.Data.{put as with_member, no_members, object};
ghost use Rattle.serde_json.specs.View.{view, members_view};
ghost use Rattle.cwl_emit.specs.Objects as spec;
ghost use Rattle.cwl_emit.specs.Writing.{list};

use crate::inputs::{put_word, word_json};
use serde_json::{Map, Value as Json, put};
use std::alloc::Global;
use wdl_base::{NoMemory, Text};
use wdl_value::{Bind, Field, Value};

#[tactic(auto, using(json_values::proofs::JsonViews::object_view))]
fn file_json(alloc: Global, path: &Text) -> Result<Json, NoMemory>
    ensures { IfOk result (λ j. view j ≡ spec.file_object path.now) }
{
    let mut members = Map::new(alloc);
    put_word(alloc, &mut members, "class", "File")?;
    put_word(alloc, &mut members, "path", path.as_str())?;
    Ok(Json::Object(members))
}

#[cycle(values)]
fn value_json(alloc: Global, value: &Value) -> Result<Json, NoMemory>
    ensures { IfOk result (λ j. view j ≡ spec.value_object value.now) }
{
    match value {
        Value::Bool(b) => Ok(Json::Bool(*b)),
        Value::Int(n) => Ok(Json::from(*n)),
        Value::Str(s) => word_json(alloc, s.as_str()),
        Value::File(path) => file_json(alloc, path),
        Value::List(items) => list_json(alloc, items.as_slice()),
        Value::Struct { fields, .. } => fields_json(alloc, fields.as_slice()),
        Value::Pair(_, _) | Value::Map(_) | Value::Absent => Ok(Json::Null),
    }
}

#[cycle(values)]
#[tactic(auto, using(json_values::proofs::JsonViews::array_view))]
fn list_json(alloc: Global, values: &[Value]) -> Result<Json, NoMemory>
    ensures { IfOk result (λ j. view j ≡ list spec.value_object values.now) }
{
    let mut items = Vec::new(alloc);
    for value in values {
        items.push(value_json(alloc, value)?)?;
    }
    Ok(Json::Array(items))
}

#[cycle(values)]
#[tactic(auto, using(json_values::proofs::JsonViews::object_view))]
fn fields_json(alloc: Global, fields: &[Field<Value>]) -> Result<Json, NoMemory>
    ensures { IfOk result (λ j. view j ≡ object (spec.with_fields fields.now no_members)) }
{
    let mut members = Map::new(alloc);
    for field in fields {
        let value = value_json(alloc, &field.value)?;
        put(&mut members, alloc, field.name.as_str(), value)?;
    }
    Ok(Json::Object(members))
}

fn put_given(alloc: Global, members: &mut Map<String, Json>, bind: &Bind) -> Result<(), NoMemory>
    ensures { OnOk result (members_view members.new.entries
        ≡ with_member bind.now.key.first (spec.value_object bind.now.value)
        (members_view members.old.entries)) }
{
    let value = value_json(alloc, &bind.value)?;
    put(members, alloc, bind.key.first.as_str(), value)?;
    Ok(())
}

#[tactic(auto, using(json_values::proofs::JsonViews::object_view))]
fn object_json(alloc: Global, given: &[Bind]) -> Result<Json, NoMemory>
    ensures { IfOk result (λ j. view j ≡ spec.object_json given.now) }
{
    let mut members = Map::new(alloc);
    for bind in given {
        put_given(alloc, &mut members, bind)?;
    }
    Ok(Json::Object(members))
}

/// The input object of a process (CWL v1.2, "Executing CWL documents as scripts") as one JSON
/// object without blanks, with a member for each given input, in byte order: a File is
/// `{"class":"File","path":PATH}`, an undefined value is `null`, a list is an array and a struct an
/// object of its members. Its time is linear but for a logarithm.
///
/// CWL has no maps and no pairs: for each of them `null` stands there.
pub fn object_text(alloc: Global, given: &[Bind]) -> Result<Text, NoMemory>
    ensures value { IfOk result (λ t. t ≡ spec.object_text given.now) }
{
    let json = object_json(alloc, given)?;
    Ok(Text::from_string(json.to_string(alloc)?))
}
