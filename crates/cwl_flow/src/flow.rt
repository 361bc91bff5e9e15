//! Workflows, which call each other to a depth.

ghost use Rattle.std.specs.Prelude.{◌≡◌, IfOk, map};
ghost use Rattle.cwl_image.specs.Image as image;
ghost use Rattle.cwl_flow.specs.Calls.{Calls};
ghost use Rattle.cwl_flow.specs.Drafts as draft;

use crate::calls::empty;
use crate::context::Context;
use crate::walk::{body_steps, flow_process};
use crate::wires::link_of;
use cwl_image::Linkage;
use cwl_model::{FlowOut, Link, Process};
use cwl_tool::{cwl_type, inputs_of};
use std::alloc::Global;
use wdl_names::Index;
use wdl_typed::{Checked, FlowDef, TDecl, TInput};
use wdl_value::{Items, Key, NoMemory};

fn input_linkage(alloc: Global, input: &TInput) -> Result<Linkage, NoMemory>
    ensures { IfOk result (λ l. l ≡ image.input_linkage input.now) }
{
    let key = Key::plain(alloc, &input.name)?;
    let link = Link::Input(input.name.to_text(alloc)?);
    let ty = cwl_type(alloc, &input.ty)?;
    Ok(Linkage { key, link, ty })
}

/// What the first statement of a workflow sees: its inputs.
fn input_scope(alloc: Global, inputs: &[TInput]) -> Result<Index<Linkage>, NoMemory>
    ensures { IfOk result (λ s. s ≡ map image.input_linkage inputs.now) }
{
    let mut scope = Index::empty(alloc);
    for input in inputs {
        scope.push(input_linkage(alloc, input)?)?;
    }
    Ok(scope)
}

fn output_of(alloc: Global, scope: &Index<Linkage>, output: &TDecl) -> Result<FlowOut, NoMemory>
    ensures { IfOk result (λ o. o ≡ image.flow_out scope.now output.now) }
{
    let id = output.name.to_text(alloc)?;
    let ty = cwl_type(alloc, &output.ty)?;
    let source = link_of(alloc, scope, &output.value)?;
    Ok(FlowOut { id, ty, source })
}

fn outputs_of(
    alloc: Global,
    scope: &Index<Linkage>,
    outputs: &[TDecl],
) -> Result<Items<FlowOut>, NoMemory>
    ensures { IfOk result (λ os. os ≡ map (image.flow_out scope.now) outputs.now) }
{
    let mut all = Items::new(alloc);
    for output in outputs {
        all.push(output_of(alloc, scope, output)?)?;
    }
    Ok(all)
}

/// The workflow of a definition.
pub fn process_of<'a, F: Fn(Global, &Checked, u32, u32) -> Result<Process, NoMemory>>(
    alloc: Global,
    context: &Context<'a>,
    flow: &FlowDef,
    process: &F,
) -> Result<Process, NoMemory>
    requires { Calls context.now.checked.now context.now.depth (F.pre process.now) (F.post process.now) }
    ensures { IfOk result (λ p. p ≡ image.flow_of (draft.library_of context.now.checked.now) (draft.targets_of context.now) flow.now) }
{
    let inputs = inputs_of(alloc, flow.inputs.as_slice())?;
    let mut scope = input_scope(alloc, flow.inputs.as_slice())?;
    let steps = body_steps(alloc, flow.body.as_slice(), context, &mut scope, process)?;
    let outputs = outputs_of(alloc, &scope, flow.outputs.as_slice())?;
    Ok(flow_process(inputs, outputs, steps))
}

/// The process of a workflow of the library, where workflows call workflows to this depth.
#[tactic(auto, unfolding(crate::specs::Drafts::targets_at, crate::specs::Drafts::flow_to))]
pub fn process_at(alloc: Global, checked: &Checked, depth: u32, k: u32) -> Result<Process, NoMemory>
    ensures { IfOk result (λ p. p ≡ draft.flow_to (draft.library_of checked.now) depth k) }
{
    if depth == 0 {
        return Ok(empty(alloc));
    }
    let Some(flow) = checked.flows.get(k as usize) else {
        return Ok(empty(alloc));
    };
    let context = Context {
        checked,
        depth: depth - 1,
    };
    process_of(alloc, &context, flow, &process_at)
}
