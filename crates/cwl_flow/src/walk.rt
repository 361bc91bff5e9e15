//! The steps of statements, from the first to the last (CWL v1.2, WorkflowStep).

ghost use Rattle.std.specs.Prelude.{◌≡◌, ◌++◌, IfOk, OnOk};
ghost use Rattle.cwl_image.specs.Image as image;
ghost use Rattle.cwl_flow.specs.Blocks as spec;
ghost use Rattle.cwl_flow.specs.Calls.{Calls};
ghost use Rattle.cwl_flow.specs.Drafts as draft;

use crate::blocks::{Block, if_block, outputs_of, scatter_block};
use crate::calls::{call_step, no_step};
use crate::context::Context;
use crate::ids::ids_of;
use crate::links::add_links;
use cwl_image::Linkage;
use cwl_model::{CwlFlow, CwlIn, CwlStep, FlowOut, Process};
use std::alloc::Global;
use wdl_names::Index;
use wdl_typed::{Checked, Statement};
use wdl_value::{Items, NoMemory};

/// A workflow of these parts.
pub fn flow_process(
    inputs: Items<CwlIn>,
    outputs: Items<FlowOut>,
    steps: Items<CwlStep<Process>>,
) -> Process
    ensures { result ≡ image.flow_process inputs outputs steps }
{
    Process::Flow(CwlFlow {
        inputs,
        outputs,
        steps,
    })
}

/// The step of a statement, where its body sees the scope.
#[cycle(walk)]
fn step<'a, F: Fn(Global, &Checked, u32, u32) -> Result<Process, NoMemory>>(
    alloc: Global,
    statement: &Statement,
    context: &Context<'a>,
    scope: &Index<Linkage>,
    process: &F,
) -> Result<CwlStep<Process>, NoMemory>
    requires { Calls context.now.checked.now context.now.depth (F.pre process.now) (F.post process.now) }
    ensures { IfOk result (λ s. s ≡ image.step_of (draft.draft_of context.now statement.now) scope.now) }
{
    match statement {
        Statement::Decl(_) => Ok(no_step(alloc)),
        Statement::Call(call) => call_step(alloc, context, call, scope, process),
        Statement::Scatter(scatter) => {
            let block = scatter_block(alloc, context, scatter, scope)?;
            block_step(alloc, scatter.body.as_slice(), context, block, process)
        }
        Statement::If(condition) => {
            let block = if_block(alloc, context, condition, scope)?;
            block_step(alloc, condition.body.as_slice(), context, block, process)
        }
    }
}

/// The step of a block, with the flow of its body.
#[cycle(walk)]
fn block_step<'a, F: Fn(Global, &Checked, u32, u32) -> Result<Process, NoMemory>>(
    alloc: Global,
    body: &[Statement],
    context: &Context<'a>,
    block: Block,
    process: &F,
) -> Result<CwlStep<Process>, NoMemory>
    requires { Calls context.now.checked.now context.now.depth (F.pre process.now) (F.post process.now) }
    ensures { IfOk result (λ s. s ≡ spec.block_step block (draft.drafts_of context.now body.now)) }
{
    let Block {
        id,
        wires,
        inputs,
        mut scope,
        mode,
    } = block;
    let seen = scope.len();
    let steps = body_steps(alloc, body, context, &mut scope, process)?;
    let links = &scope.as_slice()[seen..];
    let outs = ids_of(alloc, links)?;
    let outputs = outputs_of(alloc, links)?;
    let run = flow_process(inputs, outputs, steps);
    Ok(CwlStep {
        id,
        wires,
        outs,
        run,
        mode,
    })
}

/// The steps of a body. Each sees the outputs of those before it.
#[cycle(walk)]
pub fn body_steps<'a, F: Fn(Global, &Checked, u32, u32) -> Result<Process, NoMemory>>(
    alloc: Global,
    body: &[Statement],
    context: &Context<'a>,
    scope: &mut Index<Linkage>,
    process: &F,
) -> Result<Items<CwlStep<Process>>, NoMemory>
    requires { Calls context.now.checked.now context.now.depth (F.pre process.now) (F.post process.now) }
    ensures steps { IfOk result (λ ss. ss ≡ image.body_steps (draft.drafts_of context.now body.now) scope.old) }
    ensures scope { OnOk result (scope.new ≡ scope.old ++ image.body_links (draft.drafts_of context.now body.now)) }
{
    let mut steps = Items::new(alloc);
    for statement in body {
        steps.push(step(alloc, statement, context, scope, process)?)?;
        add_links(alloc, statement, context, scope)?;
    }
    Ok(steps)
}
