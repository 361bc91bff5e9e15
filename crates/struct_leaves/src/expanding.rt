//! Bodies, with leaves in the places of struct inputs.

ghost use Rattle.std.specs.Prelude.{◌≡◌, ◌++◌, ◌∷◌, [], IfOk, OnOk, map, slice_get};
ghost use Rattle.wdl_swaps.specs.Swaps as swap;
ghost use Rattle.leaf_image.specs.Records as spec;
ghost use Rattle.struct_leaves.specs.Settings as views;

use crate::arguments::{Callee, Own, expanded_args};
use crate::inputs::{expanded_inputs, swaps_of};
use leaf_image::Leaf;
use sqlite_items::at;
use std::alloc::Global;
use wdl_swaps::{Swap, boxed_expr, kept_call, kept_decl, kept_if, kept_scatter};
use wdl_typed::{FlowDef, Statement, TDecl, TInput, Target};
use wdl_value::{Items, NoMemory};

/// The workflows, the leaves of the struct inputs of each, and what a body sees of its own
/// workflow.
#[derive(Drop)]
pub struct Setting<'a> {
    pub flows: &'a [FlowDef],
    pub leaves: &'a [Items<Leaf>],
    pub own: &'a Own<'a>,
}

/// The inputs of the workflow of that number.
pub fn inputs_at<'a>(flows: &'a [FlowDef], number: usize) -> &'a [TInput]
    ensures { result.now ≡ spec.inputs_at (slice_get flows.now number) }
{
    match at(flows, number) {
        Some(flow) => flow.inputs.as_slice(),
        None => &[],
    }
}

/// The leaves of the workflow of that number.
pub fn leaves_at<'a>(leaves: &'a [Items<Leaf>], number: usize) -> &'a [Leaf]
    ensures { result.now ≡ spec.leaves_at (slice_get leaves.now number) }
{
    match at(leaves, number) {
        Some(leaves) => leaves.as_slice(),
        None => &[],
    }
}

fn callee_of<'a>(flows: &'a [FlowDef], leaves: &'a [Items<Leaf>], target: Target) -> Callee<'a>
    ensures { views.callee_of result ≡ spec.callee_of flows.now leaves.now target }
{
    match target {
        Target::Task(_) => Callee {
            inputs: &[],
            leaves: &[],
        },
        Target::Flow(number) => Callee {
            inputs: inputs_at(flows, number as usize),
            leaves: leaves_at(leaves, number as usize),
        },
    }
}

/// What stands in the place of a statement.
#[cycle(expanding)]
#[tactic(auto, using(leaf_image::proofs::ExpandLaws::equations))]
fn expanded<'a>(
    alloc: Global,
    statement: &Statement,
    setting: &Setting<'a>,
) -> Result<Items<Statement>, NoMemory>
    ensures { IfOk result (λ ss. ss ≡ spec.expanded (views.setting_of setting.now) statement.now ∷ []) }
{
    match statement {
        Statement::Decl(d) => {
            let value = boxed_expr(alloc, &d.value, setting.own.swaps)?;
            kept_decl(alloc, d, value)
        }
        Statement::Call(c) => {
            let callee = callee_of(setting.flows, setting.leaves, c.target);
            let args = expanded_args(alloc, c.args.as_slice(), setting.own, &callee)?;
            kept_call(alloc, c, args)
        }
        Statement::Scatter(s) => {
            let over = boxed_expr(alloc, &s.over, setting.own.swaps)?;
            let body = expanded_body(alloc, s.body.as_slice(), setting)?;
            kept_scatter(alloc, s, over, body)
        }
        Statement::If(i) => {
            let cond = boxed_expr(alloc, &i.cond, setting.own.swaps)?;
            let body = expanded_body(alloc, i.body.as_slice(), setting)?;
            kept_if(alloc, i, cond, body)
        }
    }
}

#[cycle(expanding)]
#[tactic(auto, using(leaf_image::proofs::ExpandLaws::equations))]
fn expanded_body<'a>(
    alloc: Global,
    body: &[Statement],
    setting: &Setting<'a>,
) -> Result<Items<Statement>, NoMemory>
    ensures { IfOk result (λ ss. ss ≡ map (spec.expanded (views.setting_of setting.now)) body.now) }
{
    let mut all = Items::new(alloc);
    for statement in body {
        all.append(expanded(alloc, statement, setting)?)?;
    }
    Ok(all)
}

fn push_output(
    alloc: Global,
    output: &TDecl,
    swaps: &[Swap],
    outputs: &mut Items<TDecl>,
) -> Result<(), NoMemory>
    ensures { OnOk result (outputs.new ≡ outputs.old ++ swap.swapped_decl swaps.now output.now ∷ []) }
{
    let value = boxed_expr(alloc, &output.value, swaps)?;
    let name = output.name.copy(alloc)?;
    let ty = output.ty.copy(alloc)?;
    outputs.push(TDecl {
        name,
        ty,
        value: value.into_inner(),
        span: output.span,
    })?;
    Ok(())
}

/// Outputs with these swaps in their expressions.
pub fn swapped_outputs(
    alloc: Global,
    outputs: &[TDecl],
    swaps: &[Swap],
) -> Result<Items<TDecl>, NoMemory>
    ensures { IfOk result (λ ds. ds ≡ map (swap.swapped_decl swaps.now) outputs.now) }
{
    let mut all = Items::new(alloc);
    for output in outputs {
        push_output(alloc, output, swaps, &mut all)?;
    }
    Ok(all)
}

/// Adds the workflow with leaves in the places of its struct inputs.
pub fn push_expanded(
    alloc: Global,
    flow: &FlowDef,
    flows: &[FlowDef],
    leaves: &[Items<Leaf>],
    own_leaves: &[Leaf],
    all: &mut Items<FlowDef>,
) -> Result<(), NoMemory>
    ensures { OnOk result (all.new ≡ all.old ++ spec.expanded_flow flows.now leaves.now own_leaves.now flow.now ∷ []) }
{
    let swaps = swaps_of(alloc, own_leaves)?;
    let own = Own {
        inputs: flow.inputs.as_slice(),
        swaps: swaps.as_slice(),
    };
    let setting = Setting {
        flows,
        leaves,
        own: &own,
    };
    let inputs = expanded_inputs(alloc, own.inputs, own_leaves, own.swaps)?;
    let body = expanded_body(alloc, flow.body.as_slice(), &setting)?;
    let outputs = swapped_outputs(alloc, flow.outputs.as_slice(), own.swaps)?;
    let name = flow.name.copy(alloc)?;
    all.push(FlowDef {
        name,
        inputs,
        body,
        outputs,
        span: flow.span,
    })?;
    Ok(())
}
