//! Calls (OpenWDL 1.1, "Call Statement").

ghost use Rattle.std.specs.Prelude.{◌≡◌, ◌<◌, ◌≤◌, ◌+◌, ◌++◌, ◌∷◌, [], ◌^◌, List, Ok, length, OnOk};
ghost use Rattle.wdl_base.specs.declared.place.Segment.TheVariants as segment;
ghost use Rattle.wdl_value.specs.declared.env.Bind.{Bind};
ghost use Rattle.wdl_typed.specs.Flow.{args_met as flow_args_met};
ghost use Rattle.wdl_typed.specs.Requests.{Asked, asks as asks_of};
ghost use Rattle.wdl_task.specs.Counts.{prepare_count};
ghost use Rattle.wdl_task.specs.Readiness.{Kept};
ghost use Rattle.wdl_task.specs.Tells.{Tells};
ghost use Rattle.flow_soundness.specs.Readiness.{AreArgsReady};
ghost use Rattle.value_net.specs.Nets.{IsSound, view};
ghost use Rattle.plan_steps.specs.Askings.{IsAsking, IsNew, calls};
ghost use Rattle.plan_steps.specs.Doing.{
  CalledWith,
  Called,
  CanCall,
  IsPastCall,
  IsPastWith,
  TaskCalled,
  asks,
  call_count,
  field,
  flow_called,
  state,
};
ghost use Rattle.plan_bodies.specs.Bases.{last_base as base_of};
ghost use Rattle.plan_steps.specs.Passes.{Passes};
ghost use Rattle.plan_bodies.specs.Plots.{cell_count};
ghost use Rattle.plan_room.specs.Reached.{AreReached};
ghost use Rattle.plan_room.specs.Room.{HasFlowRoom, HasRuns};
ghost use Rattle.plan_steps.specs.Values.{own_env};

use crate::arguments::args_met;
use crate::asking::{Asking, JOB_LIMIT};
use crate::counting::{COUNT_LIMIT, add_count};
use crate::fault::PlanFault;
use crate::growth::{Ground, Growth};
use crate::telling::{call_place, push_failing};
use plan_bodies::{Net, enter_call, env_of};
use plan_layout::{BodyLayout, FlowLayout, StatementLayout};
use std::alloc::Global;
use std::sync::ledger::Ledger;
use wdl_task::{CallFault, prepare};
use wdl_typed::{FlowDef, TCall, Target, TaskDef};
use wdl_value::{Env, Fault, Items, NoMemory, Place, Steps, Text};

/// Calls a task at a place: its first attempt is asked, within the limit, or the call has a fault.
pub fn call_task<L: Ledger>(
    alloc: Global,
    task: &TaskDef,
    args: &Env,
    site: &Text,
    place: &Place,
    step: usize,
    faults: &mut Items<Fault>,
    asking: &mut Asking,
    steps: &mut Steps<L>,
) -> Result<(), PlanFault>
    requires kept { Kept task.now args.now }
    requires new { IsNew (calls asking.old) place.now }
    requires sound { IsAsking asking.old }
    ensures sound { OnOk result (IsAsking asking.new) }
    ensures called { Passes (TaskCalled site.now place.now step faults.old (asks asking.old) faults.new (asks asking.new) (asks_of task.now args.now)) ((a : Asked) × (asks_of task.now args.now ≡ Ok a) × (JOB_LIMIT ≤ asking.old.jobs)) result }
    ensures steps { steps.new ≤ steps.old + prepare_count task.now args.now }
    ensures jobs { asking.old.jobs ≤ JOB_LIMIT → OnOk result (asking.new.jobs ≤ JOB_LIMIT) }
{
    match prepare(alloc, task, args, site, place, 0, steps) {
        Ok(prepared) => asking.ask(alloc, step, prepared),
        Err(CallFault::Bad { name, why }) => {
            push_failing(alloc, place, name, why, faults)?;
            Ok(())
        }
        Err(CallFault::NoMemory) => Err(PlanFault::NoMemory),
    }
}

/// Calls a workflow at a place, within the limit.
pub fn call_flow(
    alloc: Global,
    flow: &FlowDef,
    args: &Env,
    bases: &[usize],
    place: Place,
    layout: &FlowLayout,
    body: &BodyLayout,
    line: &StatementLayout,
    growth: &mut Growth,
) -> Result<(), PlanFault>
    requires bases { 0 < length bases.now }
    requires room { HasFlowRoom (cell_count (view growth.old.entered.net)) flow.now layout.now body.now }
    requires runs { HasRuns (cell_count (view growth.old.entered.net)) (base_of bases.now) line.now }
    requires outputs { line.now.names ≤ length flow.now.outputs }
    requires count { growth.old.count ≤ COUNT_LIMIT }
    requires sound { IsSound growth.old.entered.net }
    ensures sound { OnOk result (IsSound growth.new.entered.net) }
    ensures called { Passes ((field growth.new ≡ flow_called flow.now args.now bases.now place layout.now body.now line.now (field growth.old)) × (growth.new.count ≤ COUNT_LIMIT)) (COUNT_LIMIT < growth.old.count + length flow.now.body) result }
{
    add_count(&mut growth.count, 1, flow.body.len())?;
    let entered = &mut growth.entered;
    enter_call(alloc, flow, args, bases, place, layout, body, line, entered)?;
    Ok(())
}

/// Does a call whose arguments are met.
fn call_target<'a, L: Ledger>(
    alloc: Global,
    target: Target,
    args: &Env,
    line: &StatementLayout,
    bases: &[usize],
    place: Place,
    step: usize,
    ground: &Ground<'a>,
    growth: &mut Growth,
    asking: &mut Asking,
    steps: &mut Steps<L>,
) -> Result<(), PlanFault>
    requires bases { 0 < length bases.now }
    requires can { CanCall ground.now.checked.now ground.now.layout.now [] bases.now place 0 line.now (state growth.old asking.old) args.now place target }
    requires runs { HasRuns (cell_count (view growth.old.entered.net)) (base_of bases.now) line.now }
    requires count { growth.old.count ≤ COUNT_LIMIT }
    requires sound { IsSound growth.old.entered.net }
    requires asking { IsAsking asking.old }
    ensures sound { OnOk result (IsSound growth.new.entered.net) }
    ensures asking { OnOk result (IsAsking asking.new) }
    ensures count { OnOk result (growth.new.count ≤ COUNT_LIMIT) }
    ensures called { Passes (Called ground.now.checked.now ground.now.layout.now ground.now.site.now bases.now place step line.now args.now place (state growth.old asking.old) (state growth.new asking.new) target) (IsPastCall ground.now.checked.now ground.now.layout.now [] bases.now place step line.now args.now (state growth.old asking.old) target) result }
    ensures steps { steps.new ≤ steps.old + call_count ground.now.checked.now ground.now.layout.now [] bases.now place step line.now target (Ok args.now) }
    ensures jobs { asking.old.jobs ≤ JOB_LIMIT → OnOk result (asking.new.jobs ≤ JOB_LIMIT) }
{
    match target {
        Target::Task(k) => {
            let task = &ground.checked.tasks.as_slice()[k as usize];
            let faults = &mut growth.faults;
            call_task(
                alloc,
                task,
                args,
                ground.site,
                &place,
                step,
                faults,
                asking,
                steps,
            )
        }
        Target::Flow(k) => {
            let flow = &ground.checked.flows.as_slice()[k as usize];
            let layout = &ground.layout.flows.as_slice()[k as usize];
            let body = &ground.layout.bodies.as_slice()[layout.body];
            call_flow(alloc, flow, args, bases, place, layout, body, line, growth)
        }
    }
}

/// The arguments of a call, over the names that its step needs.
fn args_of<L: Ledger>(
    alloc: Global,
    call: &TCall,
    line: &StatementLayout,
    bases: &[usize],
    net: &Net,
    steps: &mut Steps<L>,
) -> Result<Env, CallFault>
    requires reached { AreReached (2 ^ 64) bases.now line.now.needs }
    requires ready { AreArgsReady (own_env (view net.now) bases.now line.now.needs) call.now.args }
    ensures value { Tells (flow_args_met (own_env (view net.now) bases.now line.now.needs) call.now.args) result }
    ensures steps { steps.new ≤ steps.old + length call.now.args }
{
    let env = env_of(alloc, bases, line.needs.as_slice(), net)?;
    args_met(alloc, call.args.as_slice(), &env, steps)
}

/// Does a call of an instance at a place.
pub fn call<'a, L: Ledger>(
    alloc: Global,
    call: &TCall,
    line: &StatementLayout,
    bases: &[usize],
    place: &Place,
    step: usize,
    ground: &Ground<'a>,
    growth: &mut Growth,
    asking: &mut Asking,
    steps: &mut Steps<L>,
) -> Result<(), PlanFault>
    requires bases { 0 < length bases.now }
    requires reached { AreReached (cell_count (view growth.old.entered.net)) bases.now line.now.needs }
    requires runs { HasRuns (cell_count (view growth.old.entered.net)) (base_of bases.now) line.now }
    requires ready { AreArgsReady (own_env (view growth.old.entered.net) bases.now line.now.needs) call.now.args }
    requires can { (args : List Bind) → flow_args_met (own_env (view growth.old.entered.net) bases.now line.now.needs) call.now.args ≡ Ok args → CanCall ground.now.checked.now ground.now.layout.now [] bases.now place.now 0 line.now (state growth.old asking.old) args (place.now ++ segment.Call call.now.name ∷ []) call.now.target }
    requires count { growth.old.count ≤ COUNT_LIMIT }
    requires sound { IsSound growth.old.entered.net }
    requires asking { IsAsking asking.old }
    ensures sound { OnOk result (IsSound growth.new.entered.net) }
    ensures asking { OnOk result (IsAsking asking.new) }
    ensures count { OnOk result (growth.new.count ≤ COUNT_LIMIT) }
    ensures called { Passes (CalledWith ground.now.checked.now ground.now.layout.now ground.now.site.now bases.now place.now step line.now call.now.target (place.now ++ segment.Call call.now.name ∷ []) (state growth.old asking.old) (state growth.new asking.new) (flow_args_met (own_env (view growth.old.entered.net) bases.now line.now.needs) call.now.args)) (IsPastWith ground.now.checked.now ground.now.layout.now [] bases.now place.now step line.now call.now.target (state growth.old asking.old) (flow_args_met (own_env (view growth.old.entered.net) bases.now line.now.needs) call.now.args)) result }
    ensures steps { steps.new ≤ steps.old + (length call.now.args + call_count ground.now.checked.now ground.now.layout.now [] bases.now place.now step line.now call.now.target (flow_args_met (own_env (view growth.old.entered.net) bases.now line.now.needs) call.now.args)) }
    ensures jobs { asking.old.jobs ≤ JOB_LIMIT → OnOk result (asking.new.jobs ≤ JOB_LIMIT) }
{
    let place = call_place(alloc, place, &call.name)?;
    match args_of(alloc, call, line, bases, &growth.entered.net, steps) {
        Ok(args) => call_target(
            alloc,
            call.target,
            &args,
            line,
            bases,
            place,
            step,
            ground,
            growth,
            asking,
            steps,
        ),
        Err(CallFault::Bad { name, why }) => {
            push_failing(alloc, &place, name, why, &mut growth.faults)?;
            Ok(())
        }
        Err(CallFault::NoMemory) => Err(PlanFault::NoMemory),
    }
}
