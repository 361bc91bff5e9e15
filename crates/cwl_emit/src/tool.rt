//! Tools as JSON.

ghost use Rattle.std.specs.Prelude.{◌≡◌, IfOk};
ghost use Rattle.serde_json.specs.View.{view};
ghost use Rattle.cwl_emit.specs.Writing as spec;

use crate::inputs::{inputs_json, put_word, word_json};
use cwl_model::{Origin, Piece, Tool, ToolOut, field_of};
use serde_json::{Map, Value as Json, put};
use std::alloc::Global;
use wdl_base::{NoMemory, Text};

#[tactic(auto, using(json_values::proofs::JsonViews::object_view))]
fn glob_json(alloc: Global, name: &Text) -> Result<Json, NoMemory>
    ensures { IfOk result (λ j. view j ≡ spec.glob_json name.now) }
{
    let mut members = Map::new(alloc);
    put_word(alloc, &mut members, "glob", name.as_str())?;
    Ok(Json::Object(members))
}

/// An output: the standard output, or a file by its name.
#[tactic(auto, using(json_values::proofs::JsonViews::object_view))]
fn tool_out_json(alloc: Global, output: &ToolOut) -> Result<Json, NoMemory>
    ensures { IfOk result (λ j. view j ≡ spec.tool_out_json output.now) }
{
    let mut members = Map::new(alloc);
    put_word(alloc, &mut members, "id", output.id.as_str())?;
    match &output.origin {
        Origin::Stdout => {
            put_word(alloc, &mut members, "type", "stdout")?;
        }
        Origin::Glob(name) => {
            let binding = glob_json(alloc, name)?;
            put(&mut members, alloc, "outputBinding", binding)?;
            put_word(alloc, &mut members, "type", "File")?;
        }
    }
    Ok(Json::Object(members))
}

#[tactic(auto, using(json_values::proofs::JsonViews::array_view))]
fn outputs_json(alloc: Global, outputs: &[ToolOut]) -> Result<Json, NoMemory>
    ensures { IfOk result (λ j. view j ≡ spec.list spec.tool_out_json outputs.now) }
{
    let mut items = Vec::new(alloc);
    for output in outputs {
        items.push(tool_out_json(alloc, output)?)?;
    }
    Ok(Json::Array(items))
}

#[tactic(auto, using(json_values::proofs::JsonViews::array_view))]
fn codes_json(alloc: Global, codes: &[u8]) -> Result<Json, NoMemory>
    ensures { IfOk result (λ j. view j ≡ spec.list spec.code_json codes.now) }
{
    let mut items = Vec::new(alloc);
    for code in codes {
        items.push(Json::from(*code))?;
    }
    Ok(Json::Array(items))
}

#[tactic(auto, using(json_values::proofs::JsonViews::array_view))]
fn argument_json(alloc: Global, pieces: &[Piece]) -> Result<Json, NoMemory>
    ensures { IfOk result (λ j. view j ≡ spec.argument_json pieces.now) }
{
    let field = field_of(alloc, pieces)?;
    let mut items = Vec::new(alloc);
    items.push(word_json(alloc, field.as_str())?)?;
    Ok(Json::Array(items))
}

#[tactic(auto, using(json_values::proofs::JsonViews::array_view))]
fn command_json(alloc: Global) -> Result<Json, NoMemory>
    ensures { IfOk result (λ j. view j ≡ spec.command_json) }
{
    let mut items = Vec::new(alloc);
    items.push(word_json(alloc, "sh")?)?;
    items.push(word_json(alloc, "-c")?)?;
    Ok(Json::Array(items))
}

/// A tool: `sh -c` of one argument, with `cwlVersion` where it is the outermost process.
#[tactic(auto, using(json_values::proofs::JsonViews::object_view))]
pub fn tool_json(alloc: Global, tool: &Tool, outermost: bool) -> Result<Json, NoMemory>
    ensures { IfOk result (λ j. view j ≡ spec.tool_json outermost tool.now) }
{
    let mut members = Map::new(alloc);
    let argument = argument_json(alloc, tool.argument.as_slice())?;
    put(&mut members, alloc, "arguments", argument)?;
    let command = command_json(alloc)?;
    put(&mut members, alloc, "baseCommand", command)?;
    put_word(alloc, &mut members, "class", "CommandLineTool")?;
    if outermost {
        put_word(alloc, &mut members, "cwlVersion", "v1.2")?;
    }
    let inputs = inputs_json(alloc, tool.inputs.as_slice())?;
    put(&mut members, alloc, "inputs", inputs)?;
    let outputs = outputs_json(alloc, tool.outputs.as_slice())?;
    put(&mut members, alloc, "outputs", outputs)?;
    put_word(alloc, &mut members, "stdout", "_stdout")?;
    if let Some(codes) = &tool.codes {
        let codes = codes_json(alloc, codes.as_slice())?;
        put(&mut members, alloc, "successCodes", codes)?;
    }
    Ok(Json::Object(members))
}
