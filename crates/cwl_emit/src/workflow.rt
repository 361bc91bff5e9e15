//! The parts of workflows as JSON.

ghost use Rattle.std.specs.Prelude.{◌≡◌, IfOk};
ghost use Rattle.serde_json.specs.View.{view};
ghost use Rattle.cwl_emit.specs.Writing as spec;

use crate::inputs::{inputs_json, put_word, texts_json, type_json, word_json};
use cwl_model::{CwlIn, CwlStep, FlowOut, Link, Mode, Process, Wire};
use serde_json::{Map, Value as Json, put};
use std::alloc::Global;
use wdl_base::{NoMemory, Text};

fn link_text(alloc: Global, link: &Link) -> Result<Text, NoMemory>
    ensures { IfOk result (λ t. t ≡ spec.link_text link.now) }
{
    match link {
        Link::Input(id) => id.copy(alloc),
        Link::Out { step, out } => {
            let mut text = step.copy(alloc)?;
            text.push_ascii(b'/')?;
            text.push_str(out.as_str())?;
            Ok(text)
        }
    }
}

/// A source: `id`, or `step/out`.
fn link_json(alloc: Global, link: &Link) -> Result<Json, NoMemory>
    ensures { IfOk result (λ j. view j ≡ spec.link_json link.now) }
{
    let text = link_text(alloc, link)?;
    word_json(alloc, text.as_str())
}

#[tactic(auto, using(json_values::proofs::JsonViews::object_view))]
fn flow_out_json(alloc: Global, output: &FlowOut) -> Result<Json, NoMemory>
    ensures { IfOk result (λ j. view j ≡ spec.flow_out_json output.now) }
{
    let mut members = Map::new(alloc);
    put_word(alloc, &mut members, "id", output.id.as_str())?;
    let source = link_json(alloc, &output.source)?;
    put(&mut members, alloc, "outputSource", source)?;
    let ty = type_json(alloc, &output.ty)?;
    put(&mut members, alloc, "type", ty)?;
    Ok(Json::Object(members))
}

/// The outputs of a workflow.
#[tactic(auto, using(json_values::proofs::JsonViews::array_view))]
pub fn outputs_json(alloc: Global, outputs: &[FlowOut]) -> Result<Json, NoMemory>
    ensures { IfOk result (λ j. view j ≡ spec.list spec.flow_out_json outputs.now) }
{
    let mut items = Vec::new(alloc);
    for output in outputs {
        items.push(flow_out_json(alloc, output)?)?;
    }
    Ok(Json::Array(items))
}

#[tactic(auto, using(json_values::proofs::JsonViews::object_view))]
fn wire_json(alloc: Global, wire: &Wire) -> Result<Json, NoMemory>
    ensures { IfOk result (λ j. view j ≡ spec.wire_json wire.now) }
{
    let mut members = Map::new(alloc);
    put_word(alloc, &mut members, "id", wire.id.as_str())?;
    let source = link_json(alloc, &wire.source)?;
    put(&mut members, alloc, "source", source)?;
    Ok(Json::Object(members))
}

#[tactic(auto, using(json_values::proofs::JsonViews::array_view))]
fn wires_json(alloc: Global, wires: &[Wire]) -> Result<Json, NoMemory>
    ensures { IfOk result (λ j. view j ≡ spec.list spec.wire_json wires.now) }
{
    let mut items = Vec::new(alloc);
    for wire in wires {
        items.push(wire_json(alloc, wire)?)?;
    }
    Ok(Json::Array(items))
}

/// A step with its process: it has a member `scatter` or `when`, or neither.
#[tactic(auto, using(json_values::proofs::JsonViews::object_view))]
pub fn step_json(alloc: Global, step: &CwlStep<Process>, run: Json) -> Result<Json, NoMemory>
    ensures { IfOk result (λ j. view j ≡ spec.step_json step.now (view run)) }
{
    let mut members = Map::new(alloc);
    put(&mut members, alloc, "run", run)?;
    put_word(alloc, &mut members, "id", step.id.as_str())?;
    let wires = wires_json(alloc, step.wires.as_slice())?;
    put(&mut members, alloc, "in", wires)?;
    let outs = texts_json(alloc, step.outs.as_slice())?;
    put(&mut members, alloc, "out", outs)?;
    match &step.mode {
        Mode::Plain => {}
        Mode::Scatter(id) => put_word(alloc, &mut members, "scatter", id.as_str())?,
        Mode::When => put_word(alloc, &mut members, "when", "$(inputs._when)")?,
    }
    Ok(Json::Object(members))
}

/// A requirement of that class.
#[tactic(auto, using(json_values::proofs::JsonViews::object_view))]
pub fn class_json(alloc: Global, class: &str) -> Result<Json, NoMemory>
    ensures { IfOk result (λ j. view j ≡ spec.class_json class.now) }
{
    let mut members = Map::new(alloc);
    put_word(alloc, &mut members, "class", class)?;
    Ok(Json::Object(members))
}

#[tactic(auto, using(json_values::proofs::JsonViews::array_view))]
fn requirements_json(alloc: Global) -> Result<Json, NoMemory>
    ensures { IfOk result (λ j. view j ≡ spec.requirements_json) }
{
    let mut items = Vec::new(alloc);
    items.push(class_json(alloc, "ScatterFeatureRequirement")?)?;
    items.push(class_json(alloc, "SubworkflowFeatureRequirement")?)?;
    Ok(Json::Array(items))
}

/// A workflow with its steps, and with `cwlVersion` where it is the outermost process.
#[tactic(auto, using(json_values::proofs::JsonViews::object_view))]
pub fn flow_json(
    alloc: Global,
    inputs: &[CwlIn],
    outputs: &[FlowOut],
    steps: Json,
    outermost: bool,
) -> Result<Json, NoMemory>
    ensures { IfOk result (λ j. view j ≡ spec.flow_json outermost inputs.now outputs.now (view steps)) }
{
    let mut members = Map::new(alloc);
    put(&mut members, alloc, "steps", steps)?;
    put_word(alloc, &mut members, "class", "Workflow")?;
    if outermost {
        put_word(alloc, &mut members, "cwlVersion", "v1.2")?;
    }
    let inputs = inputs_json(alloc, inputs)?;
    put(&mut members, alloc, "inputs", inputs)?;
    let outputs = outputs_json(alloc, outputs)?;
    put(&mut members, alloc, "outputs", outputs)?;
    let requirements = requirements_json(alloc)?;
    put(&mut members, alloc, "requirements", requirements)?;
    Ok(Json::Object(members))
}
