//! What answers tell (OpenWDL 1.1, "Task Outputs", "maxRetries").

ghost use Rattle.std.specs.Prelude.{
  ◌≡◌,
  ◌<◌,
  ◌≤◌,
  ◌+◌,
  ◌++◌,
  ◌∷◌,
  [],
  length,
  map,
  slice_get,
  true,
  Some,
  OnOk,
};
ghost use Rattle.wdl_typed.specs.Flow.{failing_at};
ghost use Rattle.wdl_typed.specs.Requests as requests;
ghost use Rattle.wdl_task.specs.Readiness.{IsTold};
ghost use Rattle.wdl_task.specs.Views.{asked_of};
ghost use Rattle.value_net.specs.Nets.{IsSound, view};
ghost use Rattle.plan_steps.specs.Arriving.{
  IsRefused,
  ended_faults,
  ended_net,
  goes_on,
  with_ended,
};
ghost use Rattle.plan_steps.specs.Askings.{IsAsking, IsIdle, calls, place_in};
ghost use Rattle.plan_steps.specs.Doing.{asks};
ghost use Rattle.plan_steps.specs.Passes.{Passes};
ghost use Rattle.plan_bodies.specs.Plots.{cell_count};
ghost use Rattle.plan_room.specs.Room.{HasRuns};

use crate::asking::{Asking, JOB_LIMIT};
use crate::fault::PlanFault;
use crate::telling::push_failing;
use plan_bodies::Net;
use plan_layout::StatementLayout;
use std::alloc::Global;
use std::sync::ledger::Ledger;
use wdl_eval::Measured;
use wdl_task::{CallFault, Prepared, conclude, retry};
use wdl_typed::TaskDef;
use wdl_value::{Answer, Env, Fault, Items, NoMemory, Place, Steps, Structs, Text, Value, Why};

/// Sets the cells of a call's outputs, the last one first, and the call's own.
fn set_outputs(
    mut outs: Env,
    base: usize,
    first: usize,
    done: usize,
    net: &mut Net,
) -> Result<(), NoMemory>
    requires first { 0 < length outs → base + first + length outs ≤ cell_count (view net.old) }
    requires done { base + done < cell_count (view net.old) }
    requires sound { IsSound net.old }
    ensures sound { OnOk result (IsSound net.new) }
    ensures ended { OnOk result (view net.new ≡ with_ended (base + first) (base + done) outs (view net.old)) }
{
    while let Some(bind) = outs.pop() {
        net.set(base + first + outs.len(), Measured::new(bind.value))?;
    }
    net.set(base + done, Measured::new(Value::Absent))?;
    Ok(())
}

/// Ends a call whose attempt had a status of success.
pub fn end_call<L: Ledger>(
    alloc: Global,
    structs: &Structs,
    task: &TaskDef,
    prepared: &Prepared,
    answer: &Answer,
    base: usize,
    line: &StatementLayout,
    net: &mut Net,
    faults: &mut Items<Fault>,
    steps: &mut Steps<L>,
) -> Result<(), NoMemory>
    requires told { IsTold structs.now task.now prepared.now }
    requires names { line.now.names ≡ length task.now.outputs }
    requires runs { HasRuns (cell_count (view net.old)) base line.now }
    requires sound { IsSound net.old }
    ensures sound { OnOk result (IsSound net.new) }
    ensures net { OnOk result (view net.new ≡ ended_net (base + line.now.first_name) (base + line.now.done) (view net.old) (requests.tells structs.now task.now (asked_of prepared.now) prepared.now.request.dir answer.now)) }
    ensures faults { OnOk result (faults.new ≡ ended_faults prepared.now faults.old (requests.tells structs.now task.now (asked_of prepared.now) prepared.now.request.dir answer.now)) }
    ensures steps { steps.new ≤ steps.old + length task.now.outputs }
{
    match conclude(alloc, structs, task, prepared, answer, steps) {
        Ok(outs) => set_outputs(outs, base, line.first_name, line.done, net),
        Err(CallFault::Bad { name, why }) => {
            push_failing(alloc, &prepared.request.place, name, why, faults)
        }
        Err(CallFault::NoMemory) => Err(NoMemory),
    }
}

/// Adds the fault of a call whose last attempt had no status of success.
fn push_status(
    alloc: Global,
    place: &Place,
    status: u8,
    faults: &mut Items<Fault>,
) -> Result<(), NoMemory>
    ensures { OnOk result (faults.new ≡ faults.old ++ failing_at place.now (requests.bad_status status) ∷ []) }
{
    let name = Text::from_plain(alloc, "status")?;
    push_failing(alloc, place, name, Why::Status(status), faults)
}

/// Asks the next attempt of a call, or keeps the fault of the last one.
pub fn refuse(
    alloc: Global,
    at: usize,
    prepared: &Prepared,
    status: u8,
    site: &Text,
    faults: &mut Items<Fault>,
    asking: &mut Asking,
) -> Result<(), PlanFault>
    requires idle { IsIdle asking.old at }
    requires place { slice_get (map place_in (calls asking.old)) at ≡ Some prepared.now.request.place }
    requires sound { IsAsking asking.old }
    ensures sound { OnOk result (IsAsking asking.new) }
    ensures refused { Passes (IsRefused site.now prepared.now status faults.old (asks asking.old) faults.new (asks asking.new) (goes_on prepared.now)) ((goes_on prepared.now ≡ true) × (JOB_LIMIT ≤ asking.old.jobs)) result }
    ensures jobs { asking.old.jobs ≤ JOB_LIMIT → OnOk result (asking.new.jobs ≤ JOB_LIMIT) }
{
    if prepared.request.attempt < prepared.retries {
        let next = retry(alloc, prepared, site)?;
        return asking.ask_again(at, next);
    }
    push_status(alloc, &prepared.request.place, status, faults)?;
    Ok(())
}
