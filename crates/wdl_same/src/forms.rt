ghost use Rattle.std.specs.Prelude.{◌≡◌, IfOk};
ghost use Rattle.std.specs.Option.{option_copied};
ghost use Rattle.wdl_typed.specs.Bodies.{library};
ghost use Rattle.wdl_same.specs.Forms as spec;

use crate::bodies::same_body;
use crate::calls::called_by;
use crate::declared::{same_decls, same_inputs, same_structs};
use crate::partners::{partners_of, same_partners};
use std::alloc::Global;
use wdl_typed::{Checked, FlowDef, TaskDef};
use wdl_value::NoMemory;

fn same_flow(
    alloc: Global,
    f: &FlowDef,
    g: &FlowDef,
    tasks: &[TaskDef],
    others: &[TaskDef],
) -> Result<bool, NoMemory>
    ensures { IfOk result (λ same. same ≡ spec.same_flow tasks.now others.now f.now g.now) }
{
    let calls = called_by(alloc, f.body.as_slice())?;
    let other_calls = called_by(alloc, g.body.as_slice())?;
    let partners = partners_of(alloc, tasks, calls.as_slice(), other_calls.as_slice())?;
    let owners = partners_of(alloc, others, other_calls.as_slice(), calls.as_slice())?;
    Ok(
        f.name.same(&g.name)
            && same_inputs(f.inputs.as_slice(), g.inputs.as_slice())
            && same_body(
                f.body.as_slice(),
                g.body.as_slice(),
                partners.as_slice(),
                owners.as_slice(),
            )
            && same_decls(f.outputs.as_slice(), g.outputs.as_slice())
            && same_partners(others, tasks, partners.as_slice()),
    )
}

fn main_of(flows: &[FlowDef], main: Option<u32>) -> Option<&FlowDef>
    ensures { option_copied result ≡ spec.main_of flows.now main }
{
    match main {
        Some(k) => flows.get(k as usize),
        None => None,
    }
}

fn same_mains(alloc: Global, a: &Checked, b: &Checked) -> Result<bool, NoMemory>
    ensures { IfOk result (λ same. same ≡ spec.same_mains a.now.tasks b.now.tasks
        (spec.main_of a.now.flows a.now.main) (spec.main_of b.now.flows b.now.main)) }
{
    match (
        main_of(a.flows.as_slice(), a.main),
        main_of(b.flows.as_slice(), b.main),
    ) {
        (Some(f), Some(g)) => same_flow(alloc, f, g, a.tasks.as_slice(), b.tasks.as_slice()),
        (None, None) => Ok(true),
        _ => Ok(false),
    }
}

/// Whether two checked forms are the same but for spans, what their main workflows do not call, and
/// the names and numbers of tasks. A form whose main workflow calls a workflow is the same as none.
/// Two forms whose lists of structs differ, by a name or by their order, are not the same.
///
/// Each statement and each task that is called is looked at once: the time it takes grows with the
/// size of the two forms and no faster.
///
/// # Errors
///
/// Want of memory.
#[tactic(auto, unfolding(crate::specs::Forms::same_but_names))]
pub fn same_but_names(alloc: Global, a: &Checked, b: &Checked) -> Result<bool, NoMemory>
    ensures { IfOk result (λ same. same ≡ spec.same_but_names
        (library a.now.structs a.now.tasks a.now.flows) a.now.main
        (library b.now.structs b.now.tasks b.now.flows) b.now.main) }
{
    if !same_structs(a.structs.as_slice(), b.structs.as_slice()) {
        return Ok(false);
    }
    same_mains(alloc, a, b)
}
