ghost use Rattle.std.specs.Prelude.{◌≡◌, ◌^◌, nat_lt, IfOk};
ghost use Rattle.std.specs.List.{list_all};
ghost use Rattle.wdl_typed.specs.Bodies.{library};
ghost use Rattle.wdl_typed.specs.Declarations.{task_typed};
ghost use Rattle.wdl_typed.specs.Kept as spec;
ghost use Rattle.wdl_well_typed.specs.Calls.{library_of};
ghost use Rattle.wdl_well_typed.specs.Counts.{count_of};

use crate::calls::Library;
use crate::counting::count;
use crate::flows::flow_is_typed;
use crate::tasks::task_is_typed;
use std::alloc::Global;
use wdl_depths::levels_of;
use wdl_names::Indexed;
use wdl_typed::{CheckedParts, FlowDef, TaskDef};
use wdl_typing::are_structs;
use wdl_value::{NoMemory, StructDef};

/// More than the tasks, workflows, statements and parts of commands of a library in all.
const COUNT_LIMIT: u64 = 4_294_967_296;

fn tasks_are_typed(
    alloc: Global,
    tasks: &[TaskDef],
    structs: &Indexed<StructDef>,
) -> Result<bool, NoMemory>
    ensures { IfOk result (λ b. b ≡ list_all (task_typed structs.now) tasks.now) }
{
    for task in tasks {
        if !task_is_typed(alloc, task, structs)? {
            return Ok(false);
        }
    }
    Ok(true)
}

fn flows_are_typed(alloc: Global, library: &Library) -> Result<bool, NoMemory>
    ensures { IfOk result (λ b. b ≡ list_all (spec.flow_typed (library_of library.now)) library.now.flows.now) }
{
    let levels = levels_of(alloc, library.flows)?;
    for flow in library.flows {
        if !flow_is_typed(alloc, flow, library, &levels)? {
            return Ok(false);
        }
    }
    Ok(true)
}

/// Whether the main workflow is one of them, if there is one.
fn main_is_there(flows: &[FlowDef], main: Option<u32>) -> bool
    ensures { result ≡ spec.main_is_there flows.now main }
{
    match main {
        Some(number) => (number as usize) < flows.len(),
        None => true,
    }
}

fn is_countable(tasks: &[TaskDef], flows: &[FlowDef]) -> bool
    ensures { result ≡ nat_lt (count_of tasks.now flows.now) (2 ^ 32) }
{
    count(tasks, flows) < COUNT_LIMIT
}

/// Whether the parts of a checked form keep all that the form keeps: everything in them is well
/// typed, each number is in range, lists are in dependency order, and depths and counts are in
/// their limits.
pub fn well_typed(alloc: Global, c: &CheckedParts) -> Result<bool, NoMemory>
    ensures checked { IfOk result (λ b. b ≡ spec.is_checked (library c.now.structs c.now.tasks c.now.flows) c.now.main) }
{
    let library = Library {
        structs: Indexed::new(alloc, c.structs.as_slice())?,
        tasks: c.tasks.as_slice(),
        flows: c.flows.as_slice(),
    };
    Ok(
        are_structs(alloc, &library.structs)?
            && tasks_are_typed(alloc, library.tasks, &library.structs)?
            && flows_are_typed(alloc, &library)?
            && main_is_there(library.flows, c.main)
            && is_countable(library.tasks, library.flows),
    )
}
