//! The layout of all workflows.

ghost use Rattle.std.specs.Prelude.{◌≡◌, [], Some, slice_get, IfOk, OnOk};
ghost use Rattle.wdl_typed.specs.Bodies.{library};
ghost use Rattle.plan_layout.specs.Laid.{
  IsLayout,
  anything,
  default_needs,
  input_needs,
  output_needs,
  with_inputs,
  with_plain,
};
ghost use Rattle.plan_layout.specs.Sees.{Sees};
ghost use Rattle.plan_layout.specs.Steps.{LaysFlow};

use crate::layout::{BodyLayout, FlowLayout, Layout, Need};
use crate::needs::expr_needs;
use crate::scope::{CellScope, Origin};
use crate::walk::lay_body;
use std::alloc::Global;
use wdl_typed::{Checked, FlowDef, TDecl, TExpr, TInput};
use wdl_value::{Items, Name, NoMemory};

/// Adds a name of the workflow's own body, at the slot behind those that are seen there.
fn add_plain(alloc: Global, name: &Name, scope: &mut CellScope) -> Result<(), NoMemory>
    requires { scope.old.path ≡ [] }
    ensures { OnOk result (scope.new ≡ record { names = with_plain scope.old.names name.now; calls = scope.old.calls; path = [] }) }
{
    let slot = scope.names.len();
    scope.add_name(alloc, name, slot)
}

/// What the default of an input needs.
fn lay_default(
    alloc: Global,
    value: &Option<TExpr>,
    scope: &CellScope,
) -> Result<Items<Need>, NoMemory>
    ensures { IfOk result (λ needs. needs ≡ default_needs scope.now.names value.now) }
{
    match value {
        Some(value) => expr_needs(alloc, value, &scope.names),
        None => Ok(Items::new(alloc)),
    }
}

/// What the defaults of inputs need, each of which sees those before it.
fn lay_inputs(
    alloc: Global,
    inputs: &[TInput],
    scope: &mut CellScope,
) -> Result<Items<Items<Need>>, NoMemory>
    requires { scope.old.path ≡ [] }
    ensures needs { IfOk result (λ laid. laid ≡ input_needs scope.old.names inputs.now) }
    ensures seen { OnOk result (scope.new ≡ record { names = with_inputs scope.old.names inputs.now; calls = scope.old.calls; path = [] }) }
{
    let mut laid = Items::new(alloc);
    for input in inputs {
        laid.push(lay_default(alloc, &input.value, scope)?)?;
        add_plain(alloc, &input.name, scope)?;
    }
    Ok(laid)
}

/// What outputs need, each of which sees those before it.
fn lay_outputs(
    alloc: Global,
    outputs: &[TDecl],
    scope: &mut CellScope,
) -> Result<Items<Items<Need>>, NoMemory>
    requires { scope.old.path ≡ [] }
    ensures { IfOk result (λ laid. laid ≡ output_needs scope.old.names outputs.now) }
{
    let mut laid = Items::new(alloc);
    for output in outputs {
        laid.push(expr_needs(alloc, &output.value, &scope.names)?)?;
        add_plain(alloc, &output.name, scope)?;
    }
    Ok(laid)
}

/// Lays out a workflow.
fn lay_flow<'a>(
    alloc: Global,
    def: &FlowDef,
    origin: &Origin<'a>,
    bodies: &mut Items<BodyLayout>,
) -> Result<FlowLayout, NoMemory>
    requires { slice_get origin.now.checked.now.flows origin.now.flow ≡ Some def.now }
    ensures { IfOk result (LaysFlow origin.now def.now bodies.old bodies.new) }
{
    let mut scope = CellScope::empty(alloc);
    let inputs = lay_inputs(alloc, def.inputs.as_slice(), &mut scope)?;
    let before = def.inputs.len();
    let after = def.outputs.len();
    let body = def.body.as_slice();
    let body = lay_body(alloc, body, before, after, origin, &mut scope, bodies)?;
    let first_output = scope.names.len();
    let outputs = lay_outputs(alloc, def.outputs.as_slice(), &mut scope)?;
    Ok(FlowLayout {
        body,
        inputs,
        outputs,
        first_output,
    })
}

/// Lays out the workflows, in their order.
fn lay_flows(alloc: Global, checked: &Checked) -> Result<Layout, NoMemory>
    ensures { IfOk result (IsLayout anything (library checked.now.structs checked.now.tasks checked.now.flows)) }
{
    let mut flows = Items::new(alloc);
    let mut bodies = Items::new(alloc);
    for flow in 0..checked.flows.len() {
        let def = &checked.flows.as_slice()[flow];
        let origin = Origin { checked, flow };
        let laid = lay_flow(alloc, def, &origin, &mut bodies)?;
        flows.push(laid)?;
    }
    Ok(Layout { flows, bodies })
}

impl Layout {
    /// The layout of all workflows of a checked form.
    pub fn of(alloc: Global, checked: &Checked) -> Result<Layout, NoMemory>
        ensures { IfOk result (IsLayout (Sees (library checked.now.structs checked.now.tasks checked.now.flows)) (library checked.now.structs checked.now.tasks checked.now.flows)) }
    {
        lay_flows(alloc, checked)
    }
}
