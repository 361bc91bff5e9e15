//! Processes as JSON.

ghost use Rattle.std.specs.Prelude.{◌≡◌, IfOk, Some, false, true};
ghost use Rattle.serde_json.specs.View.{view};
ghost use Rattle.serde_json.specs.Written.{compact_text};
ghost use Rattle.cwl_model.specs.declared.process.Process.TheVariants as process;
ghost use Rattle.cwl_emit.specs.Laws.{HasJson, IsText};
ghost use Rattle.cwl_emit.specs.Reading.{cwl_of};
ghost use Rattle.cwl_emit.specs.Writing as spec;

use crate::tool::tool_json;
use crate::workflow::{flow_json, step_json};
use cwl_model::{CwlFlow, CwlStep, Process};
use serde_json::Value as Json;
use std::alloc::Global;
use wdl_base::{NoMemory, Text};

#[cycle(processes)]
fn process_json(alloc: Global, process: &Process, outermost: bool) -> Result<Json, NoMemory>
    ensures { IfOk result (λ j. view j ≡ spec.process_json process.now outermost) }
{
    match process {
        Process::Tool(tool) => tool_json(alloc, tool, outermost),
        Process::Flow(flow) => {
            let steps = steps_json(alloc, flow.steps.as_slice())?;
            let inputs = flow.inputs.as_slice();
            flow_json(alloc, inputs, flow.outputs.as_slice(), steps, outermost)
        }
    }
}

#[cycle(processes)]
#[tactic(auto, using(json_values::proofs::JsonViews::array_view))]
fn steps_json(alloc: Global, steps: &[CwlStep<Process>]) -> Result<Json, NoMemory>
    ensures { IfOk result (λ j. view j ≡ spec.steps_json steps.now) }
{
    let mut items = Vec::new(alloc);
    for step in steps {
        let run = process_json(alloc, &step.run, false)?;
        items.push(step_json(alloc, step, run)?)?;
    }
    Ok(Json::Array(items))
}

/// The JSON value that is written for a process (CWL v1.2, CommandLineTool and Workflow): as the
/// outermost process, which has the member `cwlVersion`, or as that of a step. It stands for the
/// process, where some value does. Its members are in byte order. Its time is linear but for a
/// logarithm.
///
/// None stands for a process with codes that are not ascending, pieces that are not those of their
/// text, ids with `/`, or defaults other than undefined values, Booleans, integers, strings and
/// arrays of these.
pub fn process_value(alloc: Global, process: &Process, outermost: bool) -> Result<Json, NoMemory>
    ensures value { IfOk result (λ j. HasJson outermost process.now → cwl_of outermost (view j) ≡ Some process.now) }
    ensures written { IfOk result (λ j. view j ≡ spec.process_json process.now outermost) }
{
    process_json(alloc, process, outermost)
}

/// The same of a workflow that is not the outermost process.
pub fn flow_value(alloc: Global, flow: &CwlFlow<Process>) -> Result<Json, NoMemory>
    ensures { IfOk result (λ j. view j ≡ spec.process_json (process.Flow flow.now) false) }
{
    let steps = steps_json(alloc, flow.steps.as_slice())?;
    flow_json(
        alloc,
        flow.inputs.as_slice(),
        flow.outputs.as_slice(),
        steps,
        false,
    )
}

/// The text of the JSON value that is written for the outermost process, members in byte order and
/// without blanks.
pub fn process_text(alloc: Global, process: &Process) -> Result<Text, NoMemory>
    ensures value { IfOk result (λ t. HasJson true process.now → IsText process.now t) }
    ensures written { IfOk result (λ t. t ≡ compact_text (spec.process_json process.now true)) }
{
    let json = process_value(alloc, process, true)?;
    Ok(Text::from_string(json.to_string(alloc)?))
}
