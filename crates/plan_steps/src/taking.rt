//! Steps of statements, defaults and outputs, each found by its numbers.

ghost use Rattle.std.specs.Prelude.{◌≡◌, ◌≤◌, ◌+◌, ◌-◌, Some, OnOk, slice_get};
ghost use Rattle.value_net.specs.Nets.{IsSound};
ghost use Rattle.plan_layout.specs.declared.layout.BodyLayout.{BodyLayout};
ghost use Rattle.plan_growth.specs.declared.instance.Instance.{Instance};
ghost use Rattle.plan_growth.specs.declared.rule.Rule.TheVariants as rule;
ghost use Rattle.plan_steps.specs.Askings.{IsAsking};
ghost use Rattle.plan_steps.specs.Doing.{field, state};
ghost use Rattle.plan_steps.specs.Passes.{Passes};
ghost use Rattle.plan_steps.specs.Stepping.{
  CanTakeInput,
  CanTakeOutput,
  CanTakeStatement,
  DidInput,
  DidOutput,
  DidStatement,
  IsPastTaken,
  IsWithin,
};

use crate::asking::{Asking, JOB_LIMIT};
use crate::counting::COUNT_LIMIT;
use crate::declaration::declare;
use crate::fault::PlanFault;
use crate::growth::{Ground, Growth};
use crate::spot::spot_of;
use crate::statement::do_statement;
use plan_layout::{BodyLayout, body_of};
use std::alloc::Global;
use std::sync::ledger::Ledger;
use wdl_value::Steps;

/// The layout of the body of an instance.
pub fn layout_of<'a>(ground: &Ground<'a>, growth: &Growth, instance: usize) -> &'a BodyLayout
    requires { (q : Instance) × (b : BodyLayout) × (slice_get growth.now.entered.instances instance ≡ Some q) × (slice_get ground.now.layout.now.bodies q.body ≡ Some b) }
    ensures { (q : Instance) (b : BodyLayout) → slice_get growth.now.entered.instances instance ≡ Some q → slice_get ground.now.layout.now.bodies q.body ≡ Some b → result.now ≡ b }
{
    let body = growth.entered.instances.as_slice()[instance].body;
    &ground.layout.bodies.as_slice()[body]
}

/// Does the step of a statement.
pub fn take_statement<'a, L: Ledger>(
    alloc: Global,
    instance: usize,
    number: usize,
    step: usize,
    ground: &Ground<'a>,
    growth: &mut Growth,
    asking: &mut Asking,
    steps: &mut Steps<L>,
) -> Result<(), PlanFault>
    requires can { CanTakeStatement ground.now.checked.now ground.now.layout.now (state growth.old asking.old) instance number }
    requires count { growth.old.count ≤ COUNT_LIMIT }
    requires sound { IsSound growth.old.entered.net }
    requires asking { IsAsking asking.old }
    ensures sound { OnOk result (IsSound growth.new.entered.net) }
    ensures asking { OnOk result (IsAsking asking.new) }
    ensures count { OnOk result (growth.new.count ≤ COUNT_LIMIT) }
    ensures done { Passes (DidStatement ground.now.checked.now ground.now.layout.now ground.now.site.now (state growth.old asking.old) (state growth.new asking.new) step instance number) (IsPastTaken ground.now.checked.now ground.now.layout.now (state growth.old asking.old) step instance number) result }
    ensures steps { IsWithin ground.now.checked.now ground.now.layout.now (state growth.old asking.old) step (steps.new - steps.old) (rule.Statement instance number) }
    ensures jobs { asking.old.jobs ≤ JOB_LIMIT → OnOk result (asking.new.jobs ≤ JOB_LIMIT) }
{
    let body = layout_of(ground, growth, instance);
    let line = &body.statements.as_slice()[number];
    let statements = body_of(ground.checked, body.flow, body.path.as_slice());
    let spot = spot_of(alloc, growth.entered.instances.as_slice(), instance)?;
    do_statement(
        alloc,
        &statements[number],
        line,
        &spot,
        step,
        ground,
        growth,
        asking,
        steps,
    )
}

/// Evaluates the default of an input.
pub fn take_input<'a, L: Ledger>(
    alloc: Global,
    instance: usize,
    input: usize,
    ground: &Ground<'a>,
    growth: &mut Growth,
    steps: &mut Steps<L>,
) -> Result<(), PlanFault>
    requires can { CanTakeInput ground.now.checked.now ground.now.layout.now (field growth.old) instance input }
    requires sound { IsSound growth.old.entered.net }
    ensures sound { OnOk result (IsSound growth.new.entered.net) }
    ensures count { growth.new.count ≡ growth.old.count }
    ensures done { Passes (DidInput ground.now.checked.now ground.now.layout.now (field growth.old) (field growth.new) instance input) ⊥ result }
    ensures steps { steps.new ≤ steps.old + 1 }
{
    let flow = layout_of(ground, growth, instance).flow;
    let needs = ground.layout.flows.as_slice()[flow].inputs.as_slice()[input].as_slice();
    let it = &ground.checked.flows.as_slice()[flow].inputs.as_slice()[input];
    let spot = spot_of(alloc, growth.entered.instances.as_slice(), instance)?;
    let Some(value) = &it.value else {
        unreachable!();
    };
    let (bases, place) = (spot.bases.as_slice(), &spot.place);
    declare(
        alloc, &it.name, value, needs, bases, place, input, growth, steps,
    )?;
    Ok(())
}

/// Evaluates an output.
pub fn take_output<'a, L: Ledger>(
    alloc: Global,
    instance: usize,
    output: usize,
    ground: &Ground<'a>,
    growth: &mut Growth,
    steps: &mut Steps<L>,
) -> Result<(), PlanFault>
    requires can { CanTakeOutput ground.now.checked.now ground.now.layout.now (field growth.old) instance output }
    requires sound { IsSound growth.old.entered.net }
    ensures sound { OnOk result (IsSound growth.new.entered.net) }
    ensures count { growth.new.count ≡ growth.old.count }
    ensures done { Passes (DidOutput ground.now.checked.now ground.now.layout.now (field growth.old) (field growth.new) instance output) ⊥ result }
    ensures steps { steps.new ≤ steps.old + 1 }
{
    let flow = layout_of(ground, growth, instance).flow;
    let layout = &ground.layout.flows.as_slice()[flow];
    let needs = layout.outputs.as_slice()[output].as_slice();
    let it = &ground.checked.flows.as_slice()[flow].outputs.as_slice()[output];
    let spot = spot_of(alloc, growth.entered.instances.as_slice(), instance)?;
    let (bases, place) = (spot.bases.as_slice(), &spot.place);
    let slot = layout.first_output + output;
    declare(
        alloc, &it.name, &it.value, needs, bases, place, slot, growth, steps,
    )?;
    Ok(())
}
