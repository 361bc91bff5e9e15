//! What a plan shows.

ghost use Rattle.std.specs.Prelude.{◌≡◌, ◌≤◌, false, IfOk, length, map};
ghost use Rattle.scatter_plan.specs.Plans.{outputs_in, ready_in};
ghost use Rattle.ready_core.specs.Turns as turns;

use crate::pending::Pending;
use crate::turn::Turn;
use scatter_plan::Plan;
use std::alloc::Global;
use std::collections::VecDeque;
use wdl_flow::Terms;
use wdl_task::Prepared;
use wdl_value::{Env, Fault, NoMemory, copy_env};

/// The first of the faults.
fn first_of(alloc: Global, faults: &[Fault]) -> Result<Option<Fault>, NoMemory>
    ensures first { IfOk result (λ f. f ≡ turns.first_fault faults.now) }
{
    match faults.get(0) {
        Some(fault) => Ok(Some(fault.copy(alloc)?)),
        None => Ok(None),
    }
}

/// The job of an attempt that waits.
fn pending_of(alloc: Global, prepared: &Prepared) -> Result<Pending, NoMemory>
    ensures job { IfOk result (λ p. p ≡ turns.job_in prepared.now) }
{
    let request = prepared.request.copy(alloc)?;
    let terms = Terms::new(prepared.codes.copy(alloc)?, prepared.retries);
    Pending::new(alloc, request, terms)
}

/// The jobs of the attempts that wait, in their order.
fn pending_among(alloc: Global, waiting: &[Prepared]) -> Result<VecDeque<Pending>, NoMemory>
    ensures jobs { IfOk result (λ r. r.items ≡ map turns.job_in waiting.now) }
{
    let mut ready = VecDeque::new(alloc);
    for prepared in waiting {
        ready.push_back(pending_of(alloc, prepared)?)?;
    }
    Ok(ready)
}

/// The same, and none where there is a fault.
fn pending_unless(
    alloc: Global,
    fault: &Option<Fault>,
    waiting: &[Prepared],
) -> Result<VecDeque<Pending>, NoMemory>
    ensures jobs { IfOk result (λ r. r.items ≡ turns.unless_fault fault.now (map turns.job_in waiting.now)) }
{
    match fault {
        Some(_) => Ok(VecDeque::new(alloc)),
        None => pending_among(alloc, waiting),
    }
}

/// A copy of the outputs of a plan, where there are some.
fn copy_outputs(alloc: Global, plan: &Plan) -> Result<Option<Env>, NoMemory>
    ensures outputs { IfOk result (λ o. o ≡ outputs_in plan.now) }
{
    match plan.outputs() {
        Some(outputs) => Ok(Some(copy_env(alloc, outputs.as_slice())?)),
        None => Ok(None),
    }
}

/// What a plan shows: the jobs that wait, from a number on, a fault, and the outputs.
pub fn shown_by(alloc: Global, plan: &Plan, from: usize) -> Result<Turn, NoMemory>
    requires within { from ≤ length (ready_in plan.now) }
    ensures shown { IfOk result (turns.IsShownBy plan.now from) }
{
    let fault = first_of(alloc, plan.faults())?;
    let ready = pending_unless(alloc, &fault, &plan.ready()[from..])?;
    let outcome = copy_outputs(alloc, plan)?;
    Ok(Turn {
        ready,
        fault,
        many: false,
        outcome,
    })
}
