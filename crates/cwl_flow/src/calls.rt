//! Calls: what runs in the step of one.

ghost use Rattle.std.specs.Prelude.{◌≡◌, [], IfOk, map, slice_get};
ghost use Rattle.cwl_image.specs.Image as image;
ghost use Rattle.cwl_flow.specs.Calls.{Calls};
ghost use Rattle.cwl_flow.specs.Drafts as draft;

use crate::context::Context;
use crate::links::declared_by;
use crate::wires::args_wired;
use cwl_image::Linkage;
use cwl_model::{CwlFlow, CwlStep, Mode, Process};
use cwl_tool::task_tool;
use std::alloc::Global;
use wdl_names::Index;
use wdl_typed::{Checked, TCall, TDecl, Target};
use wdl_value::{Items, NoMemory, Text};

/// A workflow of no steps.
pub fn empty(alloc: Global) -> Process
    ensures { result ≡ image.empty }
{
    Process::Flow(CwlFlow {
        inputs: Items::new(alloc),
        outputs: Items::new(alloc),
        steps: Items::new(alloc),
    })
}

/// The tool of a task of the library.
fn task_process(alloc: Global, checked: &Checked, k: u32) -> Result<Process, NoMemory>
    ensures { IfOk result (λ p. p ≡ image.task_process (slice_get checked.now.tasks k)) }
{
    match checked.tasks.get(k as usize) {
        Some(task) => Ok(Process::Tool(task_tool(alloc, task)?)),
        None => Ok(empty(alloc)),
    }
}

/// The process of a target, where a call gives that of a workflow.
#[tactic(auto, unfolding(crate::specs::Drafts::targets_at))]
fn target_process<'a, F: Fn(Global, &Checked, u32, u32) -> Result<Process, NoMemory>>(
    alloc: Global,
    context: &Context<'a>,
    target: Target,
    call: &F,
) -> Result<Process, NoMemory>
    requires { Calls context.now.checked.now context.now.depth (F.pre call.now) (F.post call.now) }
    ensures { IfOk result (λ p. p ≡ draft.targets_of context.now target) }
{
    match target {
        Target::Task(k) => task_process(alloc, context.checked, k),
        Target::Flow(k) => call(alloc, context.checked, context.depth, k),
    }
}

/// The ids of the outputs of a step.
fn out_ids(alloc: Global, outputs: &[TDecl]) -> Result<Items<Text>, NoMemory>
    ensures { IfOk result (λ ids. ids ≡ map (λ d. d.name) outputs.now) }
{
    let mut ids = Items::new(alloc);
    for output in outputs {
        ids.push(output.name.to_text(alloc)?)?;
    }
    Ok(ids)
}

/// The step of a call.
#[tactic(auto, using(crate::proofs::Signatures::declared))]
pub fn call_step<'a, F: Fn(Global, &Checked, u32, u32) -> Result<Process, NoMemory>>(
    alloc: Global,
    context: &Context<'a>,
    call: &TCall,
    scope: &Index<Linkage>,
    process: &F,
) -> Result<CwlStep<Process>, NoMemory>
    requires { Calls context.now.checked.now context.now.depth (F.pre process.now) (F.post process.now) }
    ensures { IfOk result (λ s. s ≡ image.step_of (image.call_draft (draft.library_of context.now.checked.now) (draft.targets_of context.now) call.now) scope.now) }
{
    let id = call.name.to_text(alloc)?;
    let wires = args_wired(alloc, scope, call.args.as_slice())?;
    let outs = out_ids(alloc, declared_by(context, call.target))?;
    let run = target_process(alloc, context, call.target, process)?;
    Ok(CwlStep {
        id,
        wires,
        outs,
        run,
        mode: Mode::Plain,
    })
}

/// What stands for a declaration, of which the subset has none in a workflow's body.
pub fn no_step(alloc: Global) -> CwlStep<Process>
    ensures { result ≡ image.step_of (image.no_draft image.empty) [] }
{
    CwlStep {
        id: Text::empty(alloc),
        wires: Items::new(alloc),
        outs: Items::new(alloc),
        run: empty(alloc),
        mode: Mode::Plain,
    }
}
