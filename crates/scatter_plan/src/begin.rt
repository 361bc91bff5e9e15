//! What a plan has besides what it was made of, from its beginning on.

ghost use Rattle.std.specs.Prelude.{◌≡◌, true, ℕ, List, OnOk};
ghost use Rattle.wdl_value.specs.declared.env.Bind.{Bind};
ghost use Rattle.wdl_value.specs.Tables.{Row};
ghost use Rattle.plan_room.specs.Room.{HasFlowRoom};
ghost use Rattle.value_net.specs.Nets.{IsSound};
ghost use Rattle.scatter_plan.specs.Answering.{Settles};
ghost use Rattle.plan_steps.specs.Askings.{IsAsking};
ghost use Rattle.scatter_plan.specs.Calls.{is_waiting, row};
ghost use Rattle.plan_steps.specs.Doing.{state};
ghost use Rattle.scatter_plan.specs.Holding.{IsHolding};
ghost use Rattle.scatter_plan.specs.Settling as spec;

use crate::arrival::answer_call;
use crate::outputs::outputs_now;
use crate::turning::turn;
use plan_bodies::enter_flow;
use plan_layout::{BodyLayout, FlowLayout, flows_see};
use plan_steps::{Asking, Ground, Growth, PlanFault, add_count};
use std::alloc::Global;
use std::sync::ledger::Ledger;
use wdl_typed::FlowDef;
use wdl_value::{Answer, Env, Items, NoMemory, Place, Steps};

/// What grew, what was asked, and the outputs of the main workflow.
#[derive(Drop)]
pub struct Begun {
    pub growth: Growth,
    pub asking: Asking,
    pub outputs: Option<Env>,
}

/// Enters a workflow of this layout as the first one.
fn enter_first(
    alloc: Global,
    flow: &FlowDef,
    inputs: &Env,
    layout: &FlowLayout,
    body: &BodyLayout,
) -> Result<Growth, PlanFault>
    requires room { HasFlowRoom 0 flow.now layout.now body.now }
    ensures enters { spec.EntersFirst flow.now inputs.now layout.now body.now result }
{
    let mut growth = Growth::empty(alloc);
    match add_count(&mut growth.count, 1, flow.body.len()) {
        Ok(()) => {}
        Err(fault) => return Err(fault),
    }
    let place = Items::new(alloc);
    let entered = &mut growth.entered;
    match enter_flow(alloc, flow, inputs, place, layout, body, entered) {
        Ok(_) => Ok(growth),
        Err(NoMemory) => Err(PlanFault::NoMemory),
    }
}

/// Enters the main workflow, of that number.
fn enter_main<'a>(
    alloc: Global,
    main: usize,
    inputs: &Env,
    ground: &Ground<'a>,
) -> Result<Growth, PlanFault>
    requires made { spec.IsMadeOf ground.now.checked.now ground.now.layout.now main inputs.now }
    ensures enters { spec.Enters ground.now.checked.now ground.now.layout.now main inputs.now ground.now.site.now result }
{
    flows_see();
    let flow = &ground.checked.flows.as_slice()[main];
    let layout = &ground.layout.flows.as_slice()[main];
    let body = &ground.layout.bodies.as_slice()[layout.body];
    enter_first(alloc, flow, inputs, layout, body)
}

/// The main workflow is entered, and each step is done that is ready.
pub fn begin<'a, L: Ledger>(
    alloc: Global,
    main: usize,
    inputs: &Env,
    ground: &Ground<'a>,
    steps: &mut Steps<L>,
) -> Result<Begun, PlanFault>
    requires made { spec.IsMadeOf ground.now.checked.now ground.now.layout.now main inputs.now }
    ensures begins { spec.Begins ground.now.checked.now ground.now.layout.now main inputs.now ground.now.site.now steps.old steps.new result }
{
    let mut growth = match enter_main(alloc, main, inputs, ground) {
        Ok(growth) => growth,
        Err(fault) => return Err(fault),
    };
    let mut asking = Asking::empty(alloc);
    match turn(alloc, ground, &mut growth, &mut asking, steps) {
        Ok(()) => {}
        Err(fault) => return Err(fault),
    }
    match outputs_now(alloc, main, ground, &growth, &asking) {
        Ok(outputs) => Ok(Begun {
            growth,
            asking,
            outputs,
        }),
        Err(NoMemory) => Err(PlanFault::NoMemory),
    }
}

/// An answer arrives, and each step is done that is ready then. The answer is the outputs now.
pub fn settle<'a, L: Ledger>(
    alloc: Global,
    main: usize,
    place: &Place,
    answer: &Answer,
    ground: &Ground<'a>,
    growth: &mut Growth,
    asking: &mut Asking,
    steps: &mut Steps<L>,
) -> Result<Option<Env>, PlanFault>
    requires waits { (attempt : ℕ) × (is_waiting asking.old.ready.items place.now attempt ≡ true) }
    requires made { (given : List Bind) × spec.IsMadeOf ground.now.checked.now ground.now.layout.now main given }
    requires holds { (given : List Bind) × (rows : List Row) × IsHolding ground.now.checked.now ground.now.layout.now main given ground.now.site.now rows (state growth.old asking.old) }
    requires asking { IsAsking asking.old }
    requires sound { IsSound growth.old.entered.net }
    ensures sound { OnOk result (IsSound growth.new.entered.net) }
    ensures asking { OnOk result (IsAsking asking.new) }
    ensures settles { (given : List Bind) (rows : List Row) (was : IsHolding ground.now.checked.now ground.now.layout.now main given ground.now.site.now rows (state growth.old asking.old)) (attempt : ℕ) → is_waiting asking.old.ready.items place.now attempt ≡ true → Settles ground.now.checked.now ground.now.layout.now main given ground.now.site.now rows (state growth.old asking.old) was (row place.now attempt answer.now) (state growth.new asking.new) steps.old steps.new result }
{
    match answer_call(alloc, place, answer, ground, growth, asking, steps) {
        Ok(()) => {}
        Err(fault) => return Err(fault),
    }
    match turn(alloc, ground, growth, asking, steps) {
        Ok(()) => {}
        Err(fault) => return Err(fault),
    }
    match outputs_now(alloc, main, ground, growth, asking) {
        Ok(outputs) => Ok(outputs),
        Err(NoMemory) => Err(PlanFault::NoMemory),
    }
}
