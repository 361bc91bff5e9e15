//! Statements, each done at its place.

ghost use Rattle.std.specs.Prelude.{◌≤◌, ◌+◌, [], OnOk};
ghost use Rattle.wdl_typed.specs.declared.flow.Statement.{out-Statement};
ghost use Rattle.value_net.specs.Nets.{IsSound};
ghost use Rattle.plan_steps.specs.Askings.{IsAsking};
ghost use Rattle.plan_steps.specs.Doing.{
  CanStand,
  IsPastStatement,
  StatementDone,
  state,
  statement_count,
};
ghost use Rattle.plan_steps.specs.Passes.{Passes};

use crate::asking::{Asking, JOB_LIMIT};
use crate::call::call;
use crate::condition::condition;
use crate::counting::COUNT_LIMIT;
use crate::declaration::declare;
use crate::fault::PlanFault;
use crate::growth::{Ground, Growth};
use crate::scatter::scatter;
use crate::spot::Spot;
use plan_layout::StatementLayout;
use std::alloc::Global;
use std::sync::ledger::Ledger;
use wdl_typed::Statement;
use wdl_value::Steps;

/// Does a statement of an instance at a spot.
pub fn do_statement<'a, L: Ledger>(
    alloc: Global,
    statement: &Statement,
    line: &StatementLayout,
    spot: &Spot,
    step: usize,
    ground: &Ground<'a>,
    growth: &mut Growth,
    asking: &mut Asking,
    steps: &mut Steps<L>,
) -> Result<(), PlanFault>
    requires can { CanStand ground.now.checked.now ground.now.layout.now spot.now.bases spot.now.place line.now (state growth.old asking.old) statement.now }
    requires count { growth.old.count ≤ COUNT_LIMIT }
    requires sound { IsSound growth.old.entered.net }
    requires asking { IsAsking asking.old }
    ensures sound { OnOk result (IsSound growth.new.entered.net) }
    ensures asking { OnOk result (IsAsking asking.new) }
    ensures count { OnOk result (growth.new.count ≤ COUNT_LIMIT) }
    ensures done { Passes (StatementDone ground.now.checked.now ground.now.layout.now ground.now.site.now spot.now.bases spot.now.place step line.now (state growth.old asking.old) (state growth.new asking.new) (out-Statement statement.now)) (IsPastStatement ground.now.checked.now ground.now.layout.now [] spot.now.bases spot.now.place step line.now (state growth.old asking.old) (out-Statement statement.now)) result }
    ensures steps { steps.new ≤ steps.old + statement_count ground.now.checked.now ground.now.layout.now [] spot.now.bases spot.now.place step line.now (state growth.old asking.old) (out-Statement statement.now) }
    ensures jobs { asking.old.jobs ≤ JOB_LIMIT → OnOk result (asking.new.jobs ≤ JOB_LIMIT) }
{
    let (bases, place) = (spot.bases.as_slice(), &spot.place);
    match statement {
        Statement::Decl(it) => {
            let (needs, slot) = (line.needs.as_slice(), line.first_name);
            declare(
                alloc, &it.name, &it.value, needs, bases, place, slot, growth, steps,
            )?;
            Ok(())
        }
        Statement::Call(it) => {
            call(
                alloc, it, line, bases, place, step, ground, growth, asking, steps,
            )
        }
        Statement::Scatter(it) => {
            let bodies = ground.layout.bodies.as_slice();
            scatter(
                alloc,
                it,
                bases,
                place,
                &bodies[line.inner],
                line,
                growth,
                steps,
            )
        }
        Statement::If(it) => {
            let bodies = ground.layout.bodies.as_slice();
            condition(
                alloc,
                it,
                bases,
                place,
                &bodies[line.inner],
                line,
                growth,
                steps,
            )
        }
    }
}
