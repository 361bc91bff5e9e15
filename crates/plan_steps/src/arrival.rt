//! Answers that arrive (OpenWDL 1.1, "Task Outputs", "maxRetries").

ghost use Rattle.std.specs.Prelude.{
  ◌≡◌,
  ◌≤◌,
  ◌+◌,
  ℕ,
  false,
  true,
  Some,
  length,
  map,
  slice_get,
  OnOk,
};
ghost use Rattle.std.specs.Option.{option_copied};
ghost use Rattle.wdl_typed.specs.declared.flow.Statement.TheVariants as stmt;
ghost use Rattle.wdl_typed.specs.declared.flow.Target.TheVariants as target;
ghost use Rattle.wdl_typed.specs.declared.flow.TCall.{TCall};
ghost use Rattle.wdl_typed.specs.Requests.{is_success};
ghost use Rattle.wdl_typed.specs.Statuses.{successes_of};
ghost use Rattle.wdl_task.specs.declared.request.Prepared.{Prepared};
ghost use Rattle.value_net.specs.Nets.{IsSound, view};
ghost use Rattle.plan_growth.specs.declared.rule.Rule.TheVariants as rule;
ghost use Rattle.plan_steps.specs.Arriving.{Answered, CanConclude, Concluded, IsTaken, goes_on};
ghost use Rattle.plan_steps.specs.Askings.{Call, IsAsking, IsIdle, calls, place_in};
ghost use Rattle.plan_steps.specs.Doing.{Asks, asks, field};
ghost use Rattle.plan_steps.specs.Passes.{Passes};

use crate::answer::{end_call, refuse};
use crate::asking::{Asking, JOB_LIMIT};
use crate::fault::PlanFault;
use crate::growth::{Ground, Growth};
use crate::spot::spot_of;
use crate::taking::layout_of;
use plan_bodies::last_base;
use plan_growth::Rule;
use plan_layout::body_of;
use sqlite_items::at;
use std::alloc::Global;
use std::sync::ledger::Ledger;
use wdl_task::Prepared;
use wdl_typed::{Statement, Target, TaskDef};
use wdl_value::{Answer, NoMemory, Place, Steps};

/// The task that a statement calls.
fn task_of<'a>(statement: &'a Statement, ground: &Ground<'a>) -> Option<&'a TaskDef>
    ensures { (x : TCall) (k : ℕ) → statement.now ≡ stmt.Call x → x.target ≡ target.Task k → option_copied result ≡ slice_get ground.now.checked.now.tasks k }
{
    let Statement::Call(call) = statement else {
        return None;
    };
    match call.target {
        Target::Task(k) => at(ground.checked.tasks.as_slice(), k as usize),
        Target::Flow(_) => None,
    }
}

/// Ends the call of a statement whose attempt had a status of success.
fn conclude_statement<'a, L: Ledger>(
    alloc: Global,
    instance: usize,
    number: usize,
    prepared: &Prepared,
    answer: &Answer,
    ground: &Ground<'a>,
    growth: &mut Growth,
    steps: &mut Steps<L>,
) -> Result<(), NoMemory>
    requires can { CanConclude ground.now.checked.now ground.now.layout.now (field growth.old) instance number prepared.now }
    requires sound { IsSound growth.old.entered.net }
    ensures sound { OnOk result (IsSound growth.new.entered.net) }
    ensures done { OnOk result (Concluded ground.now.checked.now ground.now.layout.now (field growth.old) instance number prepared.now answer.now (field growth.new)) }
    ensures count { growth.new.count ≡ growth.old.count }
    ensures steps { (h : CanConclude ground.now.checked.now ground.now.layout.now (field growth.old) instance number prepared.now) → steps.new ≤ steps.old + length h.task.outputs }
{
    let body = layout_of(ground, growth, instance);
    let line = &body.statements.as_slice()[number];
    let statements = body_of(ground.checked, body.flow, body.path.as_slice());
    let Some(task) = task_of(&statements[number], ground) else {
        unreachable!();
    };
    let spot = spot_of(alloc, growth.entered.instances.as_slice(), instance)?;
    let base = last_base(spot.bases.as_slice());
    let structs = &ground.checked.structs;
    let Growth {
        entered,
        faults,
        ..
    } = growth;
    let net = &mut entered.net;
    end_call(
        alloc, structs, task, prepared, answer, base, line, net, faults, steps,
    )
}

/// Ends the call of a step whose attempt had a status of success.
fn conclude_step<'a, L: Ledger>(
    alloc: Global,
    step: usize,
    prepared: &Prepared,
    answer: &Answer,
    ground: &Ground<'a>,
    growth: &mut Growth,
    steps: &mut Steps<L>,
) -> Result<(), NoMemory>
    requires can { (i : ℕ) × (k : ℕ) × (slice_get (view growth.old.entered.net).rules step ≡ Some (rule.Statement i k)) × CanConclude ground.now.checked.now ground.now.layout.now (field growth.old) i k prepared.now }
    requires sound { IsSound growth.old.entered.net }
    ensures sound { OnOk result (IsSound growth.new.entered.net) }
    ensures done { (i : ℕ) (k : ℕ) → slice_get (view growth.old.entered.net).rules step ≡ Some (rule.Statement i k) → OnOk result (Concluded ground.now.checked.now ground.now.layout.now (field growth.old) i k prepared.now answer.now (field growth.new)) }
    ensures count { growth.new.count ≡ growth.old.count }
    ensures steps { (i : ℕ) (k : ℕ) → slice_get (view growth.old.entered.net).rules step ≡ Some (rule.Statement i k) → (h : CanConclude ground.now.checked.now ground.now.layout.now (field growth.old) i k prepared.now) → steps.new ≤ steps.old + length h.task.outputs }
{
    match *growth.entered.net.rule(step) {
        Rule::Statement {
            instance,
            statement,
        } => {
            conclude_statement(
                alloc, instance, statement, prepared, answer, ground, growth, steps,
            )
        }
        _ => unreachable!(),
    }
}

/// What the answer to an attempt that was taken out does to its call.
fn answer_taken<'a, L: Ledger>(
    alloc: Global,
    at: usize,
    step: usize,
    prepared: &Prepared,
    answer: &Answer,
    ground: &Ground<'a>,
    growth: &mut Growth,
    asking: &mut Asking,
    steps: &mut Steps<L>,
) -> Result<(), PlanFault>
    requires can { (i : ℕ) × (k : ℕ) × (slice_get (view growth.old.entered.net).rules step ≡ Some (rule.Statement i k)) × CanConclude ground.now.checked.now ground.now.layout.now (field growth.old) i k prepared.now }
    requires idle { IsIdle asking.old at }
    requires place { slice_get (map place_in (calls asking.old)) at ≡ Some prepared.now.request.place }
    requires asking { IsAsking asking.old }
    requires sound { IsSound growth.old.entered.net }
    ensures sound { OnOk result (IsSound growth.new.entered.net) }
    ensures asking { OnOk result (IsAsking asking.new) }
    ensures count { growth.new.count ≡ growth.old.count }
    ensures done { (i : ℕ) (k : ℕ) → slice_get (view growth.old.entered.net).rules step ≡ Some (rule.Statement i k) → Passes (Answered ground.now.checked.now ground.now.layout.now ground.now.site.now i k prepared.now answer.now (field growth.old) (asks asking.old) (field growth.new) (asks asking.new) (is_success (successes_of prepared.now.codes) answer.now.status)) ((is_success (successes_of prepared.now.codes) answer.now.status ≡ false) × (goes_on prepared.now ≡ true) × (JOB_LIMIT ≤ asking.old.jobs)) result }
    ensures steps { (i : ℕ) (k : ℕ) → slice_get (view growth.old.entered.net).rules step ≡ Some (rule.Statement i k) → (h : CanConclude ground.now.checked.now ground.now.layout.now (field growth.old) i k prepared.now) → steps.new ≤ steps.old + length h.task.outputs }
    ensures same { is_success (successes_of prepared.now.codes) answer.now.status ≡ false → steps.new ≡ steps.old }
    ensures jobs { asking.old.jobs ≤ JOB_LIMIT → OnOk result (asking.new.jobs ≤ JOB_LIMIT) }
{
    if prepared.codes.holds(answer.status) {
        conclude_step(alloc, step, prepared, answer, ground, growth, steps)?;
        return Ok(());
    }
    let (status, faults) = (answer.status, &mut growth.faults);
    refuse(alloc, at, prepared, status, ground.site, faults, asking)
}

/// What an answer does to the call of the attempt that waits at a place.
pub fn tell_call<'a, L: Ledger>(
    alloc: Global,
    place: &Place,
    answer: &Answer,
    ground: &Ground<'a>,
    growth: &mut Growth,
    asking: &mut Asking,
    steps: &mut Steps<L>,
) -> Result<(), PlanFault>
    requires waits { (k : ℕ) × (p : Prepared) × (slice_get asking.old.ready.items k ≡ Some p) × (p.request.place ≡ place.now) }
    requires can { (at : ℕ) (c : Call) (j : ℕ) (p : Prepared) → slice_get (calls asking.old) at ≡ Some c → c.place ≡ place.now → slice_get asking.old.ready.items j ≡ Some p → p.request.place ≡ place.now → (i : ℕ) × (k : ℕ) × (slice_get (view growth.old.entered.net).rules c.step ≡ Some (rule.Statement i k)) × CanConclude ground.now.checked.now ground.now.layout.now (field growth.old) i k p }
    requires asking { IsAsking asking.old }
    requires sound { IsSound growth.old.entered.net }
    ensures sound { OnOk result (IsSound growth.new.entered.net) }
    ensures asking { OnOk result (IsAsking asking.new) }
    ensures count { growth.new.count ≡ growth.old.count }
    ensures done { (at : ℕ) (c : Call) (j : ℕ) (p : Prepared) (i : ℕ) (k : ℕ) → slice_get (calls asking.old) at ≡ Some c → c.place ≡ place.now → slice_get asking.old.ready.items j ≡ Some p → p.request.place ≡ place.now → slice_get (view growth.old.entered.net).rules c.step ≡ Some (rule.Statement i k) → Passes ((between : Asks) × IsTaken at p (asks asking.old) between × Answered ground.now.checked.now ground.now.layout.now ground.now.site.now i k p answer.now (field growth.old) between (field growth.new) (asks asking.new) (is_success (successes_of p.codes) answer.now.status)) ((is_success (successes_of p.codes) answer.now.status ≡ false) × (goes_on p ≡ true) × (JOB_LIMIT ≤ asking.old.jobs)) result }
    ensures steps { (at : ℕ) (c : Call) (j : ℕ) (p : Prepared) (i : ℕ) (k : ℕ) → slice_get (calls asking.old) at ≡ Some c → c.place ≡ place.now → slice_get asking.old.ready.items j ≡ Some p → p.request.place ≡ place.now → slice_get (view growth.old.entered.net).rules c.step ≡ Some (rule.Statement i k) → (h : CanConclude ground.now.checked.now ground.now.layout.now (field growth.old) i k p) → steps.new ≤ steps.old + length h.task.outputs }
    ensures same { (j : ℕ) (p : Prepared) → slice_get asking.old.ready.items j ≡ Some p → p.request.place ≡ place.now → is_success (successes_of p.codes) answer.now.status ≡ false → steps.new ≡ steps.old }
    ensures jobs { asking.old.jobs ≤ JOB_LIMIT → OnOk result (asking.new.jobs ≤ JOB_LIMIT) }
{
    let Some(at) = asking.find(place) else {
        unreachable!();
    };
    let step = asking.asked[at].step;
    let prepared = asking.take(at);
    answer_taken(
        alloc, at, step, &prepared, answer, ground, growth, asking, steps,
    )
}
