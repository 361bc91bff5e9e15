//! Conditions (OpenWDL 1.1, "Conditional").

ghost use Rattle.std.specs.Prelude.{◌≡◌, ◌<◌, ◌≤◌, ◌+◌, ◌++◌, ◌∷◌, [], length, OnOk, codes};
ghost use Rattle.wdl_typed.specs.Flow.{fault_at};
ghost use Rattle.wdl_base.specs.declared.place.Segment.TheVariants as segment;
ghost use Rattle.wdl_value.specs.Parts.{bool_in};
ghost use Rattle.wdl_eval.specs.Ready.{IsReady};
ghost use Rattle.value_net.specs.Nets.{IsSound, view};
ghost use Rattle.plan_steps.specs.Doing.{IsPastChoice, IsPastCondition, chosen, conditioned, field};
ghost use Rattle.plan_bodies.specs.Bases.{last_base as base_of};
ghost use Rattle.plan_steps.specs.Passes.{Passes};
ghost use Rattle.plan_bodies.specs.Plots.{cell_count};
ghost use Rattle.plan_room.specs.Reached.{AreReached, HasRoom};
ghost use Rattle.plan_room.specs.Room.{HasInner, HasRuns};
ghost use Rattle.plan_steps.specs.Values.{own_env, own_value};

use crate::counting::{COUNT_LIMIT, add_count};
use crate::declaration::{End, end_of};
use crate::fault::PlanFault;
use crate::growth::Growth;
use crate::telling::push_failing;
use plan_bodies::{enter_body, last_base, pass_by, place_below};
use plan_layout::{BodyLayout, StatementLayout};
use std::alloc::Global;
use std::sync::ledger::Ledger;
use wdl_typed::{Statement, TIf};
use wdl_value::{EvalCode, Fault, Items, NoMemory, Place, Segment, Steps, Text, Value, Why};

/// Whether the value is true.
fn is_true(value: &Value) -> bool
    ensures { result ≡ bool_in value.now }
{
    match value {
        Value::Bool(b) => *b,
        _ => false,
    }
}

/// Enters the body of a condition that is true, within the limit, or passes it by.
fn choose(
    alloc: Global,
    is_chosen: bool,
    bases: &[usize],
    place: Place,
    inner: &BodyLayout,
    line: &StatementLayout,
    growth: &mut Growth,
) -> Result<(), PlanFault>
    requires bases { 0 < length bases.now }
    requires room { HasRoom (cell_count (view growth.old.entered.net)) bases.now inner.now }
    requires runs { HasRuns (cell_count (view growth.old.entered.net)) (base_of bases.now) line.now }
    requires inner { HasInner line.now inner.now }
    requires count { growth.old.count ≤ COUNT_LIMIT }
    requires sound { IsSound growth.old.entered.net }
    ensures sound { OnOk result (IsSound growth.new.entered.net) }
    ensures done { Passes ((field growth.new ≡ chosen bases.now place inner.now line.now (field growth.old) is_chosen) × (growth.new.count ≤ COUNT_LIMIT)) (IsPastChoice inner.now (field growth.old) is_chosen) result }
{
    if is_chosen {
        add_count(&mut growth.count, 1, inner.statements.len())?;
        enter_body(alloc, bases, place, inner, line, &mut growth.entered)?;
        return Ok(());
    }
    pass_by(line, last_base(bases), &mut growth.entered.net)?;
    Ok(())
}

/// The fault of a condition.
fn push_if_code(
    alloc: Global,
    place: &Place,
    code: EvalCode,
    faults: &mut Items<Fault>,
) -> Result<(), NoMemory>
    ensures { OnOk result (faults.new ≡ faults.old ++ fault_at place.now (codes "if") code ∷ []) }
{
    let name = Text::from_plain(alloc, "if")?;
    push_failing(alloc, place, name, Why::Code(code), faults)
}

/// Does a condition of an instance at a place.
pub fn condition<L: Ledger>(
    alloc: Global,
    condition: &TIf<Statement>,
    bases: &[usize],
    place: &Place,
    inner: &BodyLayout,
    line: &StatementLayout,
    growth: &mut Growth,
    steps: &mut Steps<L>,
) -> Result<(), PlanFault>
    requires bases { 0 < length bases.now }
    requires reached { AreReached (cell_count (view growth.old.entered.net)) bases.now line.now.needs }
    requires ready { IsReady condition.now.cond (own_env (view growth.old.entered.net) bases.now line.now.needs) }
    requires room { HasRoom (cell_count (view growth.old.entered.net)) bases.now inner.now }
    requires runs { HasRuns (cell_count (view growth.old.entered.net)) (base_of bases.now) line.now }
    requires inner { HasInner line.now inner.now }
    requires count { growth.old.count ≤ COUNT_LIMIT }
    requires sound { IsSound growth.old.entered.net }
    ensures sound { OnOk result (IsSound growth.new.entered.net) }
    ensures done { Passes ((field growth.new ≡ conditioned bases.now (place.now ++ segment.If condition.now.number ∷ []) inner.now line.now (field growth.old) (own_value (view growth.old.entered.net) bases.now line.now.needs condition.now.cond)) × (growth.new.count ≤ COUNT_LIMIT)) (IsPastCondition inner.now (field growth.old) (own_value (view growth.old.entered.net) bases.now line.now.needs condition.now.cond)) result }
    ensures steps { steps.new ≤ steps.old + 1 }
{
    let place = place_below(alloc, place, Segment::If(condition.number))?;
    let needs = line.needs.as_slice();
    match end_of(
        alloc,
        &condition.cond,
        needs,
        bases,
        &growth.entered.net,
        steps,
    )? {
        End::Told(value) => { choose(alloc, is_true(&value), bases, place, inner, line, growth) }
        End::Failed(code) => {
            push_if_code(alloc, &place, code, &mut growth.faults)?;
            Ok(())
        }
    }
}
