//! Answers that arrive, each at a plan of which it is known what holds.

ghost use Rattle.std.specs.Prelude.{◌≡◌, ℕ, List, true, OnOk};
ghost use Rattle.wdl_value.specs.declared.env.Bind.{Bind};
ghost use Rattle.wdl_value.specs.Tables.{Row};
ghost use Rattle.value_net.specs.Nets.{IsSound};
ghost use Rattle.scatter_plan.specs.Answering.{TakesAnswer};
ghost use Rattle.plan_steps.specs.Askings.{IsAsking};
ghost use Rattle.scatter_plan.specs.Calls.{is_waiting, row};
ghost use Rattle.plan_steps.specs.Doing.{state};
ghost use Rattle.scatter_plan.specs.Holding.{IsHolding};

use plan_steps::{Asking, Ground, Growth, PlanFault, tell_call};
use std::alloc::Global;
use std::sync::ledger::Ledger;
use wdl_value::{Answer, Place, Steps};

/// What an answer does to its call.
pub fn answer_call<'a, L: Ledger>(
    alloc: Global,
    place: &Place,
    answer: &Answer,
    ground: &Ground<'a>,
    growth: &mut Growth,
    asking: &mut Asking,
    steps: &mut Steps<L>,
) -> Result<(), PlanFault>
    requires waits { (attempt : ℕ) × (is_waiting asking.old.ready.items place.now attempt ≡ true) }
    requires holds { (main : ℕ) × (given : List Bind) × (rows : List Row) × IsHolding ground.now.checked.now ground.now.layout.now main given ground.now.site.now rows (state growth.old asking.old) }
    requires asking { IsAsking asking.old }
    requires sound { IsSound growth.old.entered.net }
    ensures sound { OnOk result (IsSound growth.new.entered.net) }
    ensures asking { OnOk result (IsAsking asking.new) }
    ensures takes { (main : ℕ) (given : List Bind) (rows : List Row) (was : IsHolding ground.now.checked.now ground.now.layout.now main given ground.now.site.now rows (state growth.old asking.old)) (attempt : ℕ) → is_waiting asking.old.ready.items place.now attempt ≡ true → TakesAnswer ground.now.checked.now ground.now.layout.now main given ground.now.site.now rows (state growth.old asking.old) was (row place.now attempt answer.now) (state growth.new asking.new) steps.old steps.new result }
{
    tell_call(alloc, place, answer, ground, growth, asking, steps)
}
