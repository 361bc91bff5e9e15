//! The outputs of the main workflow, where nothing failed and nothing waits.

ghost use Rattle.std.specs.Prelude.{◌≡◌, ◌≤◌, ◌+◌, ◌++◌, List, IfOk, OnOk, Some, length, slice_get};
ghost use Rattle.wdl_value.specs.declared.env.Bind.{Bind};
ghost use Rattle.wdl_typed.specs.declared.flow.FlowDef.{FlowDef};
ghost use Rattle.wdl_typed.specs.Declarations.{plain_key};
ghost use Rattle.wdl_typed.specs.Flow.{bound_by};
ghost use Rattle.value_net.specs.Nets.{value_at, view};
ghost use Rattle.plan_layout.specs.declared.layout.FlowLayout.{FlowLayout};
ghost use Rattle.plan_steps.specs.Doing.{state};
ghost use Rattle.scatter_plan.specs.Settling.{IsMadeOf, env_at, is_over, outputs_when};

use plan_bodies::Net;
use plan_steps::{Asking, Ground, Growth};
use std::alloc::Global;
use wdl_typed::TDecl;
use wdl_value::{Bind, Env, Items, NoMemory};

/// Adds an output with the value of its cell, where it is set.
fn push_output(
    alloc: Global,
    output: &TDecl,
    cell: usize,
    net: &Net,
    env: &mut Env,
) -> Result<(), NoMemory>
    ensures { OnOk result (env.new ≡ env.old ++ bound_by (plain_key output.now.name) (value_at (view net.now).values cell)) }
{
    let Some(value) = net.value(cell) else {
        return Ok(());
    };
    let value = value.get().copy(alloc)?;
    env.push(Bind::plain(alloc, &output.name, value)?)?;
    Ok(())
}

/// The outputs with the values of their cells, from the first one on, of so many.
pub fn outputs_at(
    alloc: Global,
    outputs: &[TDecl],
    first: usize,
    cells: usize,
    net: &Net,
) -> Result<Env, NoMemory>
    requires within { first + length outputs.now ≤ cells }
    ensures outputs { IfOk result (λ env. env ≡ env_at (view net.now).values first outputs.now) }
{
    let mut env = Items::new(alloc);
    for k in 0..outputs.len() {
        push_output(alloc, &outputs[k], first + k, net, &mut env)?;
    }
    Ok(env)
}

/// The outputs of the main workflow, of that number, where nothing failed and nothing waits.
pub fn outputs_now<'a>(
    alloc: Global,
    main: usize,
    ground: &Ground<'a>,
    growth: &Growth,
    asking: &Asking,
) -> Result<Option<Env>, NoMemory>
    requires made { (given : List Bind) × IsMadeOf ground.now.checked.now ground.now.layout.now main given }
    ensures outputs { (f : FlowDef) (l : FlowLayout) → slice_get ground.now.checked.now.flows main ≡ Some f → slice_get ground.now.layout.now.flows main ≡ Some l → IfOk result (λ o. o ≡ outputs_when (is_over (state growth.now asking.now)) (view growth.now.entered.net).values l.first_output f.outputs) }
{
    if asking.ready.as_slice().len() > 0 {
        return Ok(None);
    }
    if growth.faults.as_slice().len() > 0 {
        return Ok(None);
    }
    let outputs = ground.checked.flows.as_slice()[main].outputs.as_slice();
    let layout = &ground.layout.flows.as_slice()[main];
    let cells = ground.layout.bodies.as_slice()[layout.body].cells;
    let net = &growth.entered.net;
    Ok(Some(outputs_at(alloc, outputs, layout.first_output, cells, net)?))
}
