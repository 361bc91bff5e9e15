ghost use Rattle.std.specs.Prelude.{◌≡◌, IfOk};
ghost use Rattle.cwl_image.specs.Image as image;

use crate::argument::argument_of;
use crate::codes::codes_of;
use crate::inputs::inputs_of;
use crate::outputs::outputs_of;
use cwl_model::Tool;
use std::alloc::Global;
use wdl_typed::TaskDef;
use wdl_value::NoMemory;

/// The tool of a task.
pub fn task_tool(alloc: Global, task: &TaskDef) -> Result<Tool, NoMemory>
    ensures { IfOk result (λ t. t ≡ image.tool_of task.now) }
{
    let inputs = inputs_of(alloc, task.inputs.as_slice())?;
    let outputs = outputs_of(alloc, task.outputs.as_slice())?;
    let argument = argument_of(alloc, inputs.as_slice(), task.command.as_slice())?;
    let codes = codes_of(alloc, &task.codes)?;
    Ok(Tool {
        inputs,
        outputs,
        argument,
        codes,
    })
}
