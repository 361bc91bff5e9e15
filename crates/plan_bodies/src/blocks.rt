//! The bodies of conditions and of called workflows, each entered with the steps that copy what it
//! gives out.

ghost use Rattle.std.specs.Prelude.{◌≡◌, ◌<◌, ◌≤◌, length, OnOk};
ghost use Rattle.value_net.specs.Nets.{IsSound, view};
ghost use Rattle.plan_growth.specs.Blocks.{with_call, with_condition};
ghost use Rattle.plan_bodies.specs.Bases.{last_base as base_of};
ghost use Rattle.plan_bodies.specs.Plots.{cell_count, plot};
ghost use Rattle.plan_room.specs.Reached.{HasRoom};
ghost use Rattle.plan_room.specs.Room.{HasFlowRoom, HasInner, HasRuns};

use crate::address::last_base;
use crate::entered::Entered;
use crate::entering::add_instance;
use crate::joints::copy_cells;
use crate::outside::copy_block;
use crate::workflow::{enter_flow, flow_dones};
use plan_growth::Rule;
use plan_layout::{BodyLayout, FlowLayout, StatementLayout};
use std::alloc::Global;
use wdl_typed::FlowDef;
use wdl_value::{Env, NoMemory, Place};

/// Enters the body of a condition, and adds the steps that copy what it gives out.
pub fn enter_body(
    alloc: Global,
    bases: &[usize],
    place: Place,
    inner: &BodyLayout,
    line: &StatementLayout,
    entered: &mut Entered,
) -> Result<(), NoMemory>
    requires bases { 0 < length bases.now }
    requires room { HasRoom (cell_count (view entered.old.net)) bases.now inner.now }
    requires runs { HasRuns (cell_count (view entered.old.net)) (base_of bases.now) line.now }
    requires inner { HasInner line.now inner.now }
    requires sound { IsSound entered.old.net }
    ensures sound { OnOk result (IsSound entered.new.net) }
    ensures entered { OnOk result (plot entered.new ≡ with_condition bases.now place inner.now line.now (base_of bases.now) (plot entered.old)) }
{
    let base = last_base(bases);
    let first = add_instance(alloc, line.inner, bases, place, inner, entered)?;
    copy_block(alloc, first, inner, line, base, &mut entered.net)
}

/// Enters a workflow, and adds the steps that copy its outputs.
pub fn enter_call(
    alloc: Global,
    flow: &FlowDef,
    args: &Env,
    bases: &[usize],
    place: Place,
    layout: &FlowLayout,
    body: &BodyLayout,
    line: &StatementLayout,
    entered: &mut Entered,
) -> Result<(), NoMemory>
    requires bases { 0 < length bases.now }
    requires room { HasFlowRoom (cell_count (view entered.old.net)) flow.now layout.now body.now }
    requires runs { HasRuns (cell_count (view entered.old.net)) (base_of bases.now) line.now }
    requires outputs { line.now.names ≤ length flow.now.outputs }
    requires sound { IsSound entered.old.net }
    ensures sound { OnOk result (IsSound entered.new.net) }
    ensures entered { OnOk result (plot entered.new ≡ with_call flow.now args.now place layout.now body.now line.now (base_of bases.now) (plot entered.old)) }
{
    let base = last_base(bases);
    let first = enter_flow(alloc, flow, args, place, layout, body, entered)?;
    let dones = flow_dones(alloc, flow, layout, body, first)?;
    let net = &mut entered.net;
    copy_cells(
        first,
        layout.first_output,
        base,
        line.first_name,
        line.names,
        net,
    )?;
    let into = base + line.done;
    net.add_step(Rule::Ends { into }, dones.as_slice())?;
    Ok(())
}
