//! Processes with record inputs as JSON (CWL v1.2 Workflow, "InputRecordSchema").

ghost use Rattle.std.specs.Prelude.{◌≡◌, ◌++◌, ◌∷◌, IfOk, OnOk, map};
ghost use Rattle.serde_json.specs.View.{view, members_view};
ghost use Rattle.serde_json.specs.Written.{compact_text};
ghost use Rattle.cwl_emit.specs.Writing as emit;
ghost use Rattle.cwl_records.specs.WideLaws.{HasWideJson, IsWideText};
ghost use Rattle.cwl_records.specs.WideWriting as spec;

use crate::wide::{FieldTy, RecordField, RecordProcess, WideIn, WideWire};
use cwl_emit::{class_json, flow_value, input_json, outputs_json, put_word, texts_json, type_json};
use cwl_model::{FlowOut, Link};
use serde_json::{Map, Value as Json, put};
use std::alloc::Global;
use wdl_base::{NoMemory, Text};
use wdl_value::{Items, Name};

#[tactic(auto, using(json_values::proofs::JsonViews::object_view))]
fn field_json(alloc: Global, name: &Name, ty: Json) -> Result<Json, NoMemory>
    ensures { IfOk result (λ j. view j ≡ spec.field_json (record { name = name.now; ty = view ty })) }
{
    let mut members = Map::new(alloc);
    put(&mut members, alloc, "type", ty)?;
    put_word(alloc, &mut members, "name", name.as_str())?;
    Ok(Json::Object(members))
}

#[tactic(auto, using(json_values::proofs::JsonViews::object_view))]
fn record_json(alloc: Global, fields: Json) -> Result<Json, NoMemory>
    ensures { IfOk result (λ j. view j ≡ spec.record_of (view fields)) }
{
    let mut members = Map::new(alloc);
    put(&mut members, alloc, "fields", fields)?;
    put_word(alloc, &mut members, "type", "record")?;
    Ok(Json::Object(members))
}

#[cycle(types)]
fn field_ty_json(alloc: Global, ty: &FieldTy) -> Result<Json, NoMemory>
    ensures { IfOk result (λ j. view j ≡ spec.field_ty_json ty.now) }
{
    match ty {
        FieldTy::One(ty) => type_json(alloc, ty),
        FieldTy::Fields(fields) => fields_json(alloc, fields.as_slice()),
    }
}

/// A record type with these fields.
#[cycle(types)]
#[tactic(auto, using(json_values::proofs::JsonViews::array_view))]
fn fields_json(alloc: Global, fields: &[RecordField<FieldTy>]) -> Result<Json, NoMemory>
    ensures { IfOk result (λ j. view j ≡ spec.fields_json fields.now) }
{
    let mut items = Vec::new(alloc);
    for field in fields {
        let ty = field_ty_json(alloc, &field.ty)?;
        items.push(field_json(alloc, &field.name, ty)?)?;
    }
    record_json(alloc, Json::Array(items))
}

/// An input that is a record.
#[tactic(auto, using(json_values::proofs::JsonViews::object_view))]
fn record_input(alloc: Global, id: &Text, ty: Json) -> Result<Json, NoMemory>
    ensures { IfOk result (λ j. view j ≡ spec.record_input id.now (view ty)) }
{
    let mut members = Map::new(alloc);
    put(&mut members, alloc, "type", ty)?;
    put_word(alloc, &mut members, "id", id.as_str())?;
    Ok(Json::Object(members))
}

fn wide_in_json(alloc: Global, input: &WideIn) -> Result<Json, NoMemory>
    ensures { IfOk result (λ j. view j ≡ spec.wide_in_json input.now) }
{
    match input {
        WideIn::Plain(input) => input_json(alloc, input),
        WideIn::Record { id, fields } => {
            let ty = fields_json(alloc, fields.as_slice())?;
            record_input(alloc, id, ty)
        }
    }
}

#[tactic(auto, using(json_values::proofs::JsonViews::array_view))]
fn inputs_json(alloc: Global, inputs: &[WideIn]) -> Result<Json, NoMemory>
    ensures { IfOk result (λ j. view j ≡ emit.list spec.wide_in_json inputs.now) }
{
    let mut items = Vec::new(alloc);
    for input in inputs {
        items.push(wide_in_json(alloc, input)?)?;
    }
    Ok(Json::Array(items))
}

fn push_member(text: &mut Text, name: &Name) -> Result<(), NoMemory>
    ensures { OnOk result (text.new ≡ text.old ++ 46 ∷ name.now) }
{
    text.push_ascii(b'.')?;
    text.push_str(name.as_str())
}

fn push_path(text: &mut Text, path: &[Name]) -> Result<(), NoMemory>
    ensures { OnOk result (text.new ≡ text.old ++ spec.dotted path.now) }
{
    for name in path {
        push_member(text, name)?;
    }
    Ok(())
}

/// `$(self.a.b)`
fn value_from(alloc: Global, path: &[Name]) -> Result<Text, NoMemory>
    ensures { IfOk result (λ t. t ≡ spec.value_from path.now) }
{
    let mut text = Text::from_plain(alloc, "$(self")?;
    push_path(&mut text, path)?;
    text.push_ascii(b')')?;
    Ok(text)
}

/// Puts the path into a wire that has one.
fn put_path(alloc: Global, members: &mut Map<String, Json>, path: &[Name]) -> Result<(), NoMemory>
    ensures { OnOk result (members_view members.new.entries ≡ spec.with_path path.now (members_view members.old.entries)) }
{
    if path.is_empty() {
        return Ok(());
    }
    let text = value_from(alloc, path)?;
    put_word(alloc, members, "valueFrom", text.as_str())
}

#[tactic(auto, using(json_values::proofs::JsonViews::object_view))]
fn wire_json(alloc: Global, wire: &WideWire) -> Result<Json, NoMemory>
    ensures { IfOk result (λ j. view j ≡ spec.wide_wire_json wire.now) }
{
    let mut members = Map::new(alloc);
    put_word(alloc, &mut members, "id", wire.id.as_str())?;
    put_word(alloc, &mut members, "source", wire.source.as_str())?;
    put_path(alloc, &mut members, wire.path.as_slice())?;
    Ok(Json::Object(members))
}

#[tactic(auto, using(json_values::proofs::JsonViews::array_view))]
fn wires_json(alloc: Global, wires: &[WideWire]) -> Result<Json, NoMemory>
    ensures { IfOk result (λ j. view j ≡ emit.list spec.wide_wire_json wires.now) }
{
    let mut items = Vec::new(alloc);
    for wire in wires {
        items.push(wire_json(alloc, wire)?)?;
    }
    Ok(Json::Array(items))
}

fn outer_out(alloc: Global, output: &FlowOut) -> Result<FlowOut, NoMemory>
    ensures { IfOk result (λ o. o ≡ spec.outer_out output.now) }
{
    let id = output.id.copy(alloc)?;
    let ty = output.ty.copy(alloc)?;
    let step = Text::from_plain(alloc, "_body")?;
    let out = output.id.copy(alloc)?;
    Ok(FlowOut {
        id,
        ty,
        source: Link::Out { step, out },
    })
}

/// The outputs of the body, handed on.
fn outer_outputs(alloc: Global, outputs: &[FlowOut]) -> Result<Items<FlowOut>, NoMemory>
    ensures { IfOk result (λ os. os ≡ map spec.outer_out outputs.now) }
{
    let mut all = Items::new(alloc);
    for output in outputs {
        all.push(outer_out(alloc, output)?)?;
    }
    Ok(all)
}

fn ids_of(alloc: Global, outputs: &[FlowOut]) -> Result<Items<Text>, NoMemory>
    ensures { IfOk result (λ ids. ids ≡ map spec.flow_out_id outputs.now) }
{
    let mut ids = Items::new(alloc);
    for output in outputs {
        ids.push(output.id.copy(alloc)?)?;
    }
    Ok(ids)
}

/// The step of the body, given what is written for the body.
#[tactic(auto, using(json_values::proofs::JsonViews::object_view))]
fn step_json(
    alloc: Global,
    wires: &[WideWire],
    outputs: &[FlowOut],
    run: Json,
) -> Result<Json, NoMemory>
    ensures { IfOk result (λ j. view j ≡ spec.step_json wires.now outputs.now (view run)) }
{
    let mut members = Map::new(alloc);
    put(&mut members, alloc, "run", run)?;
    put_word(alloc, &mut members, "id", "_body")?;
    let wires = wires_json(alloc, wires)?;
    put(&mut members, alloc, "in", wires)?;
    let ids = ids_of(alloc, outputs)?;
    let outs = texts_json(alloc, ids.as_slice())?;
    put(&mut members, alloc, "out", outs)?;
    Ok(Json::Object(members))
}

#[tactic(auto, using(json_values::proofs::JsonViews::array_view))]
fn requirements_json(alloc: Global) -> Result<Json, NoMemory>
    ensures { IfOk result (λ j. view j ≡ spec.outer_requirements) }
{
    let mut items = Vec::new(alloc);
    items.push(class_json(alloc, "StepInputExpressionRequirement")?)?;
    items.push(class_json(alloc, "SubworkflowFeatureRequirement")?)?;
    Ok(Json::Array(items))
}

#[tactic(auto, using(json_values::proofs::JsonViews::array_view))]
fn only(alloc: Global, step: Json) -> Result<Json, NoMemory>
    ensures { IfOk result (λ j. view j ≡ spec.only (view step)) }
{
    let mut items = Vec::new(alloc);
    items.push(step)?;
    Ok(Json::Array(items))
}

/// The outer workflow, given what is written for its inputs, the outputs of its body, and its step.
#[tactic(auto, using(json_values::proofs::JsonViews::object_view))]
fn outer_json(
    alloc: Global,
    inputs: Json,
    outputs: &[FlowOut],
    step: Json,
) -> Result<Json, NoMemory>
    ensures { IfOk result (λ j. view j ≡ spec.outer_json (view inputs) outputs.now (view step)) }
{
    let mut members = Map::new(alloc);
    let steps = only(alloc, step)?;
    put(&mut members, alloc, "steps", steps)?;
    put(&mut members, alloc, "inputs", inputs)?;
    put_word(alloc, &mut members, "class", "Workflow")?;
    put_word(alloc, &mut members, "cwlVersion", "v1.2")?;
    let outer = outer_outputs(alloc, outputs)?;
    let outputs = outputs_json(alloc, outer.as_slice())?;
    put(&mut members, alloc, "outputs", outputs)?;
    let requirements = requirements_json(alloc)?;
    put(&mut members, alloc, "requirements", requirements)?;
    Ok(Json::Object(members))
}

fn wide_json(alloc: Global, process: &RecordProcess) -> Result<Json, NoMemory>
    ensures { IfOk result (λ j. view j ≡ spec.wide_json process.now) }
{
    let outputs = process.body.outputs.as_slice();
    let run = flow_value(alloc, &process.body)?;
    let step = step_json(alloc, process.wires.as_slice(), outputs, run)?;
    let inputs = inputs_json(alloc, process.inputs.as_slice())?;
    outer_json(alloc, inputs, outputs, step)
}

/// The text of the JSON value that is written for the process, members in byte order and without
/// blanks. It stands for the process, where some value does.
///
/// # Errors
///
/// `NoMemory` alone.
pub fn record_text(alloc: Global, process: &RecordProcess) -> Result<Text, NoMemory>
    ensures value { IfOk result (λ t. HasWideJson process.now → IsWideText process.now t) }
    ensures written { IfOk result (λ t. t ≡ compact_text (spec.wide_json process.now)) }
{
    let json = wide_json(alloc, process)?;
    Ok(Text::from_string(json.to_string(alloc)?))
}
