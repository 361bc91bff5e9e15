//! Workflows without their aliases.

ghost use Rattle.std.specs.Prelude.{◌≡◌, ◌++◌, ◌∷◌, [], IfOk, OnOk};
ghost use Rattle.wdl_typed.specs.Bodies.{library};
ghost use Rattle.leaf_image.specs.Replaced as replaced;
ghost use Rattle.cwl_records.specs.Aliases as alias;
ghost use Rattle.cwl_records.specs.Lowered as spec;

use crate::aliases::Stage;
use crate::walk::body_walk;
use cwl_subset::{Context, declared_by, input_scope};
use std::alloc::Global;
use struct_leaves::{copy_inputs, swapped_outputs};
use wdl_names::Indexed;
use wdl_swaps::flow_strays;
use wdl_typed::{FlowDef, Statement, TDecl, TaskDef};
use wdl_value::{Items, NoMemory, StructDef};

/// Adds the workflow without its body and its outputs.
pub fn push_emptied(alloc: Global, flow: &FlowDef, all: &mut Items<FlowDef>) -> Result<(), NoMemory>
    ensures { OnOk result (all.new ≡ all.old ++ replaced.emptied flow.now ∷ []) }
{
    let inputs = copy_inputs(alloc, flow.inputs.as_slice())?;
    let name = flow.name.copy(alloc)?;
    all.push(FlowDef {
        name,
        inputs,
        body: Items::new(alloc),
        outputs: Items::new(alloc),
        span: flow.span,
    })?;
    Ok(())
}

/// Adds the workflow without its aliases.
fn push_unaliased<'a>(
    alloc: Global,
    flow: &FlowDef,
    structs: &'a Indexed<'a, StructDef>,
    tasks: &'a [TaskDef],
    flows: &'a [FlowDef],
    all: &mut Items<FlowDef>,
) -> Result<(), NoMemory>
    ensures { OnOk result (all.new ≡ all.old ++ alias.unaliased (library structs.now tasks.now flows.now) flow.now ∷ []) }
{
    let declared = declared_by(alloc, flow.body.as_slice())?;
    let strays = flow_strays(alloc, flow)?;
    let context = Context {
        structs: &*structs,
        tasks: &*tasks,
        flows: &*flows,
        declared: &declared,
    };
    let stage = Stage {
        context: &context,
        strays: &strays,
    };
    let mut names = input_scope(alloc, flow.inputs.as_slice())?;
    let mut swaps = Items::new(alloc);
    let walked = body_walk(alloc, flow.body.as_slice(), &stage, &mut names, &mut swaps)?;
    let outputs = swapped_outputs(alloc, flow.outputs.as_slice(), swaps.as_slice())?;
    push_flow(alloc, flow, walked.kept, outputs, all)
}

/// Adds the workflow with another body and other outputs.
fn push_flow(
    alloc: Global,
    flow: &FlowDef,
    body: Items<Statement>,
    outputs: Items<TDecl>,
    all: &mut Items<FlowDef>,
) -> Result<(), NoMemory>
    ensures { OnOk result (all.new ≡ all.old ++ record { name = flow.now.name; inputs = flow.now.inputs; body = body; outputs = outputs; span = flow.now.span } ∷ []) }
{
    let inputs = copy_inputs(alloc, flow.inputs.as_slice())?;
    let name = flow.name.copy(alloc)?;
    all.push(FlowDef {
        name,
        inputs,
        body,
        outputs,
        span: flow.span,
    })?;
    Ok(())
}

/// Adds the workflow without its aliases, or without its body and outputs where it has no mark.
fn push_where<'a>(
    alloc: Global,
    marked: bool,
    flow: &FlowDef,
    structs: &'a Indexed<'a, StructDef>,
    tasks: &'a [TaskDef],
    flows: &'a [FlowDef],
    all: &mut Items<FlowDef>,
) -> Result<(), NoMemory>
    ensures { OnOk result (all.new ≡ all.old ++ spec.unaliased_if marked (library structs.now tasks.now flows.now) flow.now ∷ []) }
{
    if marked {
        push_unaliased(alloc, flow, structs, tasks, flows, all)
    } else {
        push_emptied(alloc, flow, all)
    }
}

/// The workflows without their aliases, and those that have no mark without their bodies and
/// outputs.
pub fn unaliased_where<'a>(
    alloc: Global,
    structs: &'a Indexed<'a, StructDef>,
    tasks: &'a [TaskDef],
    flows: &'a [FlowDef],
    marks: &[bool],
) -> Result<Items<FlowDef>, NoMemory>
    ensures { IfOk result (λ fs. fs ≡ spec.unaliased_where (library structs.now tasks.now flows.now) flows.now marks.now) }
{
    let mut all = Items::new(alloc);
    let mut left = marks;
    for flow in flows {
        let Some((first, rest)) = left.split_first() else {
            return Ok(all);
        };
        push_where(alloc, *first, flow, structs, tasks, flows, &mut all)?;
        left = rest;
    }
    Ok(all)
}
