//! Texts, types and inputs as JSON.

ghost use Rattle.std.specs.Prelude.{◌≡◌, IfOk, OnOk};
ghost use Rattle.serde_json.specs.Data.{put as with_member, string};
ghost use Rattle.serde_json.specs.View.{view, members_view};
ghost use Rattle.cwl_emit.specs.Writing as spec;

use cwl_model::{CwlIn, CwlTy};
use json_values::json_of;
use serde_json::{Map, Value as Json, put};
use std::alloc::Global;
use wdl_base::{NoMemory, Text};

/// A word as JSON.
pub fn word_json(alloc: Global, word: &str) -> Result<Json, NoMemory>
    ensures { IfOk result (λ j. view j ≡ string word.now) }
{
    Ok(Json::try_from_str(alloc, word)?)
}

/// Puts a member that is a word.
pub fn put_word(
    alloc: Global,
    members: &mut Map<String, Json>,
    name: &str,
    word: &str,
) -> Result<(), NoMemory>
    ensures { OnOk result (members_view members.new.entries
        ≡ with_member name.now (string word.now) (members_view members.old.entries)) }
{
    let value = word_json(alloc, word)?;
    put(members, alloc, name, value)?;
    Ok(())
}

/// A list of texts.
#[tactic(auto, using(json_values::proofs::JsonViews::array_view))]
pub fn texts_json(alloc: Global, texts: &[Text]) -> Result<Json, NoMemory>
    ensures { IfOk result (λ j. view j ≡ spec.list string texts.now) }
{
    let mut items = Vec::new(alloc);
    for text in texts {
        items.push(word_json(alloc, text.as_str())?)?;
    }
    Ok(Json::Array(items))
}

#[tactic(auto, using(json_values::proofs::JsonViews::object_view))]
fn list_type(alloc: Global, item: Json) -> Result<Json, NoMemory>
    ensures { IfOk result (λ j. view j ≡ spec.list_type (view item)) }
{
    let mut members = Map::new(alloc);
    put(&mut members, alloc, "items", item)?;
    put_word(alloc, &mut members, "type", "array")?;
    Ok(Json::Object(members))
}

#[tactic(auto, using(json_values::proofs::JsonViews::array_view))]
fn null_type(alloc: Global, other: Json) -> Result<Json, NoMemory>
    ensures { IfOk result (λ j. view j ≡ spec.null_type (view other)) }
{
    let mut items = Vec::new(alloc);
    items.push(word_json(alloc, "null")?)?;
    items.push(other)?;
    Ok(Json::Array(items))
}

/// A type: `boolean`, `long`, `string` or `File`, an array type, or the union of `null` and a type.
#[cycle(types)]
pub fn type_json(alloc: Global, ty: &CwlTy) -> Result<Json, NoMemory>
    ensures { IfOk result (λ j. view j ≡ spec.type_json ty.now) }
{
    match ty {
        CwlTy::Bool => word_json(alloc, "boolean"),
        CwlTy::Long => word_json(alloc, "long"),
        CwlTy::Str => word_json(alloc, "string"),
        CwlTy::File => word_json(alloc, "File"),
        CwlTy::List(item) => list_type(alloc, type_json(alloc, item.get())?),
        CwlTy::Null(other) => null_type(alloc, type_json(alloc, other.get())?),
    }
}

/// An input: `default` where there is one, `id` and `type`.
#[tactic(auto, using(json_values::proofs::JsonViews::object_view))]
pub fn input_json(alloc: Global, input: &CwlIn) -> Result<Json, NoMemory>
    ensures { IfOk result (λ j. view j ≡ spec.input_json input.now) }
{
    let mut members = Map::new(alloc);
    if let Some(preset) = &input.preset {
        let value = json_of(alloc, preset)?;
        put(&mut members, alloc, "default", value)?;
    }
    put_word(alloc, &mut members, "id", input.id.as_str())?;
    let ty = type_json(alloc, &input.ty)?;
    put(&mut members, alloc, "type", ty)?;
    Ok(Json::Object(members))
}

/// The inputs of a process: `default` where there is one, `id` and `type`.
#[tactic(auto, using(json_values::proofs::JsonViews::array_view))]
pub fn inputs_json(alloc: Global, inputs: &[CwlIn]) -> Result<Json, NoMemory>
    ensures { IfOk result (λ j. view j ≡ spec.list spec.input_json inputs.now) }
{
    let mut items = Vec::new(alloc);
    for input in inputs {
        items.push(input_json(alloc, input)?)?;
    }
    Ok(Json::Array(items))
}
