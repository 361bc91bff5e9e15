//! Scatters (OpenWDL 1.1, "Scatter").

ghost use Rattle.std.specs.Prelude.{◌≡◌, ◌<◌, ◌≤◌, ◌+◌, ◌*◌, ◌++◌, ◌∷◌, [], length, OnOk};
ghost use Rattle.wdl_base.specs.declared.place.Segment.TheVariants as segment;
ghost use Rattle.wdl_value.specs.Parts as parts;
ghost use Rattle.wdl_eval.specs.Ready.{IsReady};
ghost use Rattle.value_net.specs.Nets.{IsSound, view};
ghost use Rattle.plan_growth.specs.Blocks.{with_scatter};
ghost use Rattle.plan_steps.specs.Doing.{IsPastScatter, field, scattered};
ghost use Rattle.plan_bodies.specs.Bases.{last_base as base_of};
ghost use Rattle.plan_steps.specs.Passes.{Passes};
ghost use Rattle.plan_bodies.specs.Plots.{cell_count, plot};
ghost use Rattle.plan_room.specs.Reached.{AreReached, HasRoom};
ghost use Rattle.plan_room.specs.Room.{HasInner, HasRuns};
ghost use Rattle.plan_steps.specs.Values.{own_env, own_value};

use crate::counting::{COUNT_LIMIT, add_count};
use crate::declaration::{End, end_of};
use crate::fault::PlanFault;
use crate::growth::Growth;
use crate::telling::push_code;
use plan_bodies::{enter_scatter, last_base, place_below};
use plan_layout::{BodyLayout, StatementLayout};
use std::alloc::Global;
use std::sync::ledger::Ledger;
use wdl_typed::{Statement, TScatter};
use wdl_value::{Items, Place, Segment, Steps, Value};

/// The items of an array.
fn items_in(alloc: Global, value: Value) -> Items<Value>
    ensures { result ≡ parts.items_in value }
{
    match value {
        Value::List(items) => items,
        _ => Items::new(alloc),
    }
}

/// Enters the body for each item of the value of the collection, within the limit.
fn enter_all(
    alloc: Global,
    value: Value,
    bases: &[usize],
    place: &Place,
    inner: &BodyLayout,
    line: &StatementLayout,
    growth: &mut Growth,
) -> Result<(), PlanFault>
    requires bases { 0 < length bases.now }
    requires some { 0 < inner.now.cells }
    requires room { HasRoom (cell_count (view growth.old.entered.net)) bases.now inner.now }
    requires runs { HasRuns (cell_count (view growth.old.entered.net)) (base_of bases.now) line.now }
    requires inner { HasInner line.now inner.now }
    requires count { growth.old.count ≤ COUNT_LIMIT }
    requires sound { IsSound growth.old.entered.net }
    ensures sound { OnOk result (IsSound growth.new.entered.net) }
    ensures entered { OnOk result (plot growth.new.entered ≡ with_scatter bases.now place.now inner.now line.now (base_of bases.now) (parts.items_in value) (plot growth.old.entered)) }
    ensures faults { growth.new.faults ≡ growth.old.faults }
    ensures count { Passes ((growth.new.count ≡ growth.old.count + length (parts.items_in value) * length inner.now.statements) × (growth.new.count ≤ COUNT_LIMIT)) (COUNT_LIMIT < growth.old.count + length (parts.items_in value) * length inner.now.statements) result }
{
    let items = items_in(alloc, value);
    add_count(&mut growth.count, items.len(), inner.statements.len())?;
    let base = last_base(bases);
    let entered = &mut growth.entered;
    enter_scatter(alloc, items, bases, base, place, inner, line, entered)?;
    Ok(())
}

/// Does a scatter of an instance at a place.
pub fn scatter<L: Ledger>(
    alloc: Global,
    scatter: &TScatter<Statement>,
    bases: &[usize],
    place: &Place,
    inner: &BodyLayout,
    line: &StatementLayout,
    growth: &mut Growth,
    steps: &mut Steps<L>,
) -> Result<(), PlanFault>
    requires bases { 0 < length bases.now }
    requires some { 0 < inner.now.cells }
    requires reached { AreReached (cell_count (view growth.old.entered.net)) bases.now line.now.needs }
    requires ready { IsReady scatter.now.over (own_env (view growth.old.entered.net) bases.now line.now.needs) }
    requires room { HasRoom (cell_count (view growth.old.entered.net)) bases.now inner.now }
    requires runs { HasRuns (cell_count (view growth.old.entered.net)) (base_of bases.now) line.now }
    requires inner { HasInner line.now inner.now }
    requires count { growth.old.count ≤ COUNT_LIMIT }
    requires sound { IsSound growth.old.entered.net }
    ensures sound { OnOk result (IsSound growth.new.entered.net) }
    ensures done { Passes ((field growth.new ≡ scattered bases.now (place.now ++ segment.Scatter scatter.now.number ∷ []) inner.now line.now scatter.now.item (field growth.old) (own_value (view growth.old.entered.net) bases.now line.now.needs scatter.now.over)) × (growth.new.count ≤ COUNT_LIMIT)) (IsPastScatter inner.now (field growth.old) (own_value (view growth.old.entered.net) bases.now line.now.needs scatter.now.over)) result }
    ensures steps { steps.new ≤ steps.old + 1 }
{
    let place = place_below(alloc, place, Segment::Scatter(scatter.number))?;
    let needs = line.needs.as_slice();
    match end_of(
        alloc,
        &scatter.over,
        needs,
        bases,
        &growth.entered.net,
        steps,
    )? {
        End::Told(value) => enter_all(alloc, value, bases, &place, inner, line, growth),
        End::Failed(code) => {
            push_code(alloc, &place, &scatter.item, code, &mut growth.faults)?;
            Ok(())
        }
    }
}
