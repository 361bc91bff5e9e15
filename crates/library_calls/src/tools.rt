//! The tools of the tasks of a checked form (CWL v1.2, CommandLineTool).

ghost use Rattle.std.specs.Prelude.{◌≡◌, ◌<◌, IfOk, Some, length, option_map, slice_get};
ghost use Rattle.cwl_image.specs.Image as image;

use cwl_model::Tool;
use cwl_subset::Subset;
use cwl_tool::task_tool;
use std::alloc::Global;
use wdl_value::NoMemory;

/// The tool of a task of the checked form, by the task's number (CWL v1.2, CommandLineTool).
///
/// # Errors
///
/// `NoMemory` alone.
pub fn tool_of(alloc: Global, subset: &Subset, task: u32) -> Result<Tool, NoMemory>
    requires { task < length subset.now.checked.tasks }
    ensures { IfOk result (λ t. option_map image.tool_of (slice_get subset.now.checked.tasks task) ≡ Some t) }
{
    task_tool(alloc, &subset.checked().tasks.as_slice()[task as usize])
}
