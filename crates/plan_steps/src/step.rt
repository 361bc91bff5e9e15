//! The steps of a plan, each done as its rule says.

ghost use Rattle.std.specs.Prelude.{◌≡◌, ◌<◌, ◌≤◌, ◌-◌, Some, OnOk, length, slice_get};
ghost use Rattle.value_net.specs.Nets.{IsSound, view};
ghost use Rattle.plan_growth.specs.declared.rule.Rule.{Rule};
ghost use Rattle.plan_steps.specs.Askings.{IsAsking};
ghost use Rattle.plan_steps.specs.Doing.{state};
ghost use Rattle.plan_steps.specs.Passes.{Passes};
ghost use Rattle.plan_steps.specs.Stepping.{CanTake, Did, IsPastStep, IsWithin};

use crate::asking::{Asking, JOB_LIMIT};
use crate::counting::COUNT_LIMIT;
use crate::fault::PlanFault;
use crate::growth::{Ground, Growth};
use crate::taking::{take_input, take_output, take_statement};
use plan_bodies::{copy, end, gather};
use plan_growth::Rule;
use std::alloc::Global;
use std::sync::ledger::Ledger;
use wdl_value::Steps;

/// Does a step that was taken.
pub fn do_step<'a, L: Ledger>(
    alloc: Global,
    step: usize,
    ground: &Ground<'a>,
    growth: &mut Growth,
    asking: &mut Asking,
    steps: &mut Steps<L>,
) -> Result<(), PlanFault>
    requires there { step < length (view growth.old.entered.net).rules }
    requires step { step < length (view growth.old.entered.net).steps }
    requires can { (r : Rule) → slice_get (view growth.old.entered.net).rules step ≡ Some r → CanTake ground.now.checked.now ground.now.layout.now (state growth.old asking.old) step r }
    requires count { growth.old.count ≤ COUNT_LIMIT }
    requires sound { IsSound growth.old.entered.net }
    requires asking { IsAsking asking.old }
    ensures sound { OnOk result (IsSound growth.new.entered.net) }
    ensures asking { OnOk result (IsAsking asking.new) }
    ensures count { OnOk result (growth.new.count ≤ COUNT_LIMIT) }
    ensures done { (r : Rule) → slice_get (view growth.old.entered.net).rules step ≡ Some r → Passes (Did ground.now.checked.now ground.now.layout.now ground.now.site.now (state growth.old asking.old) (state growth.new asking.new) step r) (IsPastStep ground.now.checked.now ground.now.layout.now (state growth.old asking.old) step r) result }
    ensures steps { (r : Rule) → slice_get (view growth.old.entered.net).rules step ≡ Some r → IsWithin ground.now.checked.now ground.now.layout.now (state growth.old asking.old) step (steps.new - steps.old) r }
    ensures jobs { asking.old.jobs ≤ JOB_LIMIT → OnOk result (asking.new.jobs ≤ JOB_LIMIT) }
{
    let net = &mut growth.entered.net;
    match *net.rule(step) {
        Rule::Statement {
            instance,
            statement,
        } => take_statement(
            alloc, instance, statement, step, ground, growth, asking, steps,
        ),
        Rule::Input { instance, input } => {
            take_input(alloc, instance, input, ground, growth, steps)
        }
        Rule::Output { instance, output } => {
            take_output(alloc, instance, output, ground, growth, steps)
        }
        Rule::Gathers { into } => {
            gather(alloc, step, into, net)?;
            Ok(())
        }
        Rule::Ends { into } => {
            end(into, net)?;
            Ok(())
        }
        Rule::Copies { into } => {
            copy(alloc, step, into, net)?;
            Ok(())
        }
    }
}
