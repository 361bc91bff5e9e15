//! Declarations, defaults of inputs, and outputs (OpenWDL 1.1, "Workflow Inputs", "Workflow
//! Outputs").

ghost use Rattle.std.specs.Prelude.{◌≡◌, ◌<◌, ◌≤◌, ◌+◌, ◌^◌, length, IfOk, OnOk};
ghost use Rattle.wdl_eval.specs.Ready.{IsReady};
ghost use Rattle.value_net.specs.Nets.{IsSound, view};
ghost use Rattle.plan_steps.specs.Doing.{declared, field};
ghost use Rattle.plan_bodies.specs.Bases.{last_base as base_of};
ghost use Rattle.plan_bodies.specs.Plots.{cell_count};
ghost use Rattle.plan_room.specs.Reached.{AreReached};
ghost use Rattle.plan_steps.specs.Values.{outcome_of, own_env, own_value, told_faults, told_net};

use crate::growth::Growth;
use crate::telling::push_code;
use plan_bodies::{Net, env_of, last_base};
use plan_layout::Need;
use std::alloc::Global;
use std::sync::ledger::Ledger;
use wdl_eval::{EvalFault, Measured, eval_lent};
use wdl_typed::TExpr;
use wdl_value::{EvalCode, Fault, Items, Name, NoMemory, Place, Steps, Value};

/// What an expression comes to.
#[derive(Debug, Drop)]
pub enum End {
    Told(Value),
    Failed(EvalCode),
}

/// What an expression comes to, once all that it needs is set.
pub fn end_of<L: Ledger>(
    alloc: Global,
    e: &TExpr,
    needs: &[Need],
    bases: &[usize],
    net: &Net,
    steps: &mut Steps<L>,
) -> Result<End, NoMemory>
    requires reached { AreReached (2 ^ 64) bases.now needs.now }
    requires ready { IsReady e.now (own_env (view net.now) bases.now needs.now) }
    ensures value { IfOk result (λ end. outcome_of end ≡ own_value (view net.now) bases.now needs.now e.now) }
    ensures steps { steps.new ≤ steps.old + 1 }
{
    let env = env_of(alloc, bases, needs, net)?;
    match eval_lent(alloc, e, &env, steps) {
        Ok(value) => Ok(End::Told(value)),
        Err(EvalFault::Code(code)) => Ok(End::Failed(code)),
        Err(EvalFault::NoMemory) => Err(NoMemory),
    }
}

/// Sets the cell of a declaration to its value, or adds its fault.
pub fn tell(
    alloc: Global,
    name: &Name,
    place: &Place,
    end: End,
    cell: usize,
    net: &mut Net,
    faults: &mut Items<Fault>,
) -> Result<(), NoMemory>
    requires cell { cell < cell_count (view net.old) }
    requires sound { IsSound net.old }
    ensures sound { OnOk result (IsSound net.new) }
    ensures net { OnOk result (view net.new ≡ told_net (view net.old) cell (outcome_of end)) }
    ensures faults { OnOk result (faults.new ≡ told_faults faults.old place.now name.now (outcome_of end)) }
{
    match end {
        End::Told(value) => {
            net.set(cell, Measured::new(value))?;
            Ok(())
        }
        End::Failed(code) => push_code(alloc, place, name, code, faults),
    }
}

/// Evaluates a declaration, a default or an output of an instance at a place, whose cell stands at
/// a slot.
pub fn declare<L: Ledger>(
    alloc: Global,
    name: &Name,
    e: &TExpr,
    needs: &[Need],
    bases: &[usize],
    place: &Place,
    slot: usize,
    growth: &mut Growth,
    steps: &mut Steps<L>,
) -> Result<(), NoMemory>
    requires bases { 0 < length bases.now }
    requires cell { base_of bases.now + slot < cell_count (view growth.old.entered.net) }
    requires reached { AreReached (cell_count (view growth.old.entered.net)) bases.now needs.now }
    requires ready { IsReady e.now (own_env (view growth.old.entered.net) bases.now needs.now) }
    requires sound { IsSound growth.old.entered.net }
    ensures sound { OnOk result (IsSound growth.new.entered.net) }
    ensures done { OnOk result (field growth.new ≡ declared (field growth.old) (base_of bases.now + slot) place.now name.now (own_value (view growth.old.entered.net) bases.now needs.now e.now)) }
    ensures count { growth.new.count ≡ growth.old.count }
    ensures steps { steps.new ≤ steps.old + 1 }
{
    let cell = last_base(bases) + slot;
    let Growth {
        entered,
        faults,
        ..
    } = growth;
    let end = end_of(alloc, e, needs, bases, &entered.net, steps)?;
    tell(alloc, name, place, end, cell, &mut entered.net, faults)
}
