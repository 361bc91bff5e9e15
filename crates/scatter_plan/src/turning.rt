//! The steps that are ready, each done once.

ghost use Rattle.std.specs.Prelude.{ℕ, List, OnOk};
ghost use Rattle.wdl_value.specs.declared.env.Bind.{Bind};
ghost use Rattle.wdl_value.specs.Tables.{Row};
ghost use Rattle.value_net.specs.Nets.{IsSound};
ghost use Rattle.plan_steps.specs.Askings.{IsAsking};
ghost use Rattle.plan_steps.specs.Doing.{state};
ghost use Rattle.scatter_plan.specs.Holding.{IsHolding};
ghost use Rattle.scatter_plan.specs.Settling.{Turns};

use plan_layout::flows_see;
use plan_steps::{Asking, Ground, Growth, PlanFault, do_step};
use std::alloc::Global;
use std::sync::ledger::Ledger;
use wdl_value::Steps;

/// Does each step that is ready, until none is.
pub fn turn<'a, L: Ledger>(
    alloc: Global,
    ground: &Ground<'a>,
    growth: &mut Growth,
    asking: &mut Asking,
    steps: &mut Steps<L>,
) -> Result<(), PlanFault>
    requires holds { (main : ℕ) × (given : List Bind) × (rows : List Row) × IsHolding ground.now.checked.now ground.now.layout.now main given ground.now.site.now rows (state growth.old asking.old) }
    requires asking { IsAsking asking.old }
    requires sound { IsSound growth.old.entered.net }
    ensures sound { OnOk result (IsSound growth.new.entered.net) }
    ensures asking { OnOk result (IsAsking asking.new) }
    ensures turns { (main : ℕ) (given : List Bind) (rows : List Row) (was : IsHolding ground.now.checked.now ground.now.layout.now main given ground.now.site.now rows (state growth.old asking.old)) → Turns ground.now.checked.now ground.now.layout.now main given ground.now.site.now rows (state growth.old asking.old) was (state growth.new asking.new) steps.old steps.new result }
{
    flows_see();
    for _ in 0..u64::MAX {
        let Some(step) = growth.entered.net.pop()? else {
            return Ok(());
        };
        do_step(alloc, step, ground, growth, asking, steps)?;
    }
    Err(PlanFault::NoMemory)
}
