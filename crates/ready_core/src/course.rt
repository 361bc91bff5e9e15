ghost use Rattle.std.specs.Prelude.{
  ◌≡◌,
  ◌+◌,
  ◌++◌,
  ◌∷◌,
  ◌≤◌,
  [],
  true,
  false,
  ℕ,
  IfOk,
  IsSome,
  OnOk,
  Some,
  slice_get,
};
ghost use Rattle.wdl_value.specs.Tables.{table};
ghost use Rattle.wdl_typed.specs.declared.flow.FlowDef.{FlowDef};
ghost use Rattle.wdl_typed.specs.Flow.{too_many};
ghost use Rattle.wdl_typed.specs.Journal.{inputs_fit};
ghost use Rattle.scatter_plan.specs.Calls.{IsOfSame};
ghost use Rattle.scatter_plan.specs.Plans.{IsMade, IsTold};
ghost use Rattle.ready_core.specs.Cores.{fed_at, flow_at, origin_in};
ghost use Rattle.ready_core.specs.Courses as spec;
ghost use Rattle.ready_core.specs.Turns as turns;

use crate::shown::shown_by;
use crate::turn::Turn;
use scatter_plan::{Plan, PlanFault, Unplanned};
use std::alloc::Global;
use std::sync::ledger::Ledger;
use wdl_typed::Checked;
use wdl_value::{Entry, Env, NoMemory, Steps, Text};

/// What a run is of.
#[derive(Drop)]
pub struct Over {
    pub checked: Checked,
    pub inputs: Env,
    pub site: Text,
}

/// What a run goes by: a plan, which is stale where it was told of an answer that was not settled,
/// or, past the limits of the flow, only what the run is of.
#[derive(Drop)]
pub enum Course {
    Planned { plan: Plan, stale: bool },
    Past(Over),
}

/// The course of a run, and what the flow comes to before any answer.
#[derive(Drop)]
pub struct Begun {
    pub course: Course,
    pub turn: Turn,
}

/// Begins a run. No answer came yet.
pub fn begin<S: Ledger>(
    alloc: Global,
    checked: Checked,
    inputs: Env,
    site: Text,
    steps: &mut Steps<S>,
) -> Result<Begun, NoMemory>
    requires main { IsSome checked.main }
    requires fit { (k : ℕ) (main : FlowDef) → checked.main ≡ Some k → slice_get checked.flows k ≡ Some main → inputs_fit checked.structs main.inputs inputs ≡ true }
    ensures origin { IfOk result (λ b. spec.origin_of b.course ≡ record { checked = checked; inputs = inputs; site = site }) }
    ensures fresh { IfOk result (λ b. spec.is_stale b.course ≡ false) }
    ensures course { IfOk result (λ b. spec.IsOnCourse b.course b.turn.many []) }
    ensures first { IfOk result (λ b. turns.IsFirst (spec.origin_of b.course) b.turn) }
    ensures paid { IfOk result (λ b. spec.IsPaidUp steps.old steps.new b.course b.turn.many []) }
{
    match Plan::new(alloc, checked, inputs, site, steps) {
        Ok(plan) => planned(alloc, plan),
        Err(
            Unplanned::TooMany {
                checked,
                inputs,
                site,
            },
        ) => Ok(Begun {
            course: Course::Past(Over {
                checked,
                inputs,
                site,
            }),
            turn: Turn::past_limits(alloc),
        }),
        Err(Unplanned::NoMemory) => Err(NoMemory),
    }
}

/// A run by a new plan.
fn planned(alloc: Global, plan: Plan) -> Result<Begun, NoMemory>
    requires told { IsTold plan [] }
    ensures course { IfOk result (λ b. b.course ≡ spec.planned_by plan) }
    ensures first { IfOk result (λ b. turns.IsFirst (origin_in plan) b.turn) }
{
    let turn = shown_by(alloc, &plan, 0)?;
    let course = Course::Planned { plan, stale: false };
    Ok(Begun { course, turn })
}

/// Makes a stale plan anew over the journal.
fn catch_up<S: Ledger>(
    alloc: Global,
    plan: &mut Plan,
    stale: bool,
    journal: &[Entry],
    steps: &mut Steps<S>,
) -> Result<(), NoMemory>
    requires made { IsMade plan.old }
    requires told { stale ≡ false → IsTold plan.old (table journal.now) }
    requires fed { fed_at (origin_in plan.old) journal.now ≡ true }
    requires few { too_many (flow_at (origin_in plan.old) journal.now) ≡ false }
    ensures origin { IsOfSame plan.old plan.new }
    ensures made { IsMade plan.new }
    ensures caught { OnOk result (spec.IsFurther stale (table journal.now) (table journal.now) plan.old steps.old steps.new plan.new) }
{
    if stale {
        return plan.renew(alloc, journal, steps);
    }
    Ok(())
}

/// Tells a plan of an answer, behind those of the journal.
fn tell<S: Ledger>(
    alloc: Global,
    plan: &mut Plan,
    journal: &[Entry],
    entry: &Entry,
    steps: &mut Steps<S>,
) -> Result<Turn, NoMemory>
    requires made { IsMade plan.old }
    requires told { IsTold plan.old (table journal.now) }
    requires awaited { spec.IsAwaited (flow_at (origin_in plan.old) journal.now) journal.now entry.now.request }
    ensures origin { IsOfSame plan.old plan.new }
    ensures made { IsMade plan.new }
    ensures next { IfOk result (turns.IsNext (origin_in plan.old) journal.now entry.now) }
    ensures told { (was : IsTold plan.old (table journal.now)) → IfOk result (λ t. t.many ≡ false → (told : IsTold plan.new (table (journal.now ++ entry.now ∷ []))) × (steps.new + was.paid ≤ steps.old + told.paid)) }
{
    let waiting = plan.ready().len();
    let from = waiting - 1;
    let request = &entry.request;
    match plan.arrive(alloc, &request.place, request.attempt, &entry.answer, steps) {
        Ok(()) => shown_by(alloc, plan, from),
        Err(PlanFault::TooMany) => Ok(Turn::past_limits(alloc)),
        Err(PlanFault::NoMemory) => Err(NoMemory),
    }
}

/// The same, with a plan that may be stale.
fn tell_anew<S: Ledger>(
    alloc: Global,
    plan: &mut Plan,
    stale: bool,
    journal: &[Entry],
    entry: &Entry,
    steps: &mut Steps<S>,
) -> Result<Turn, NoMemory>
    requires made { IsMade plan.old }
    requires told { stale ≡ false → IsTold plan.old (table journal.now) }
    requires fed { fed_at (origin_in plan.old) journal.now ≡ true }
    requires few { too_many (flow_at (origin_in plan.old) journal.now) ≡ false }
    requires awaited { spec.IsAwaited (flow_at (origin_in plan.old) journal.now) journal.now entry.now.request }
    ensures origin { IsOfSame plan.old plan.new }
    ensures made { IsMade plan.new }
    ensures next { IfOk result (turns.IsNext (origin_in plan.old) journal.now entry.now) }
    ensures told { IfOk result (λ t. t.many ≡ false → spec.IsFurther stale (table journal.now) (table (journal.now ++ entry.now ∷ [])) plan.old steps.old steps.new plan.new) }
{
    catch_up(alloc, plan, stale, journal, steps)?;
    tell(alloc, plan, journal, entry, steps)
}

impl Course {
    /// What an answer adds to what the flow over the journal came to. The plan is stale then, until
    /// the answer is kept.
    pub fn tell<S: Ledger>(
        &mut self,
        alloc: Global,
        many: bool,
        journal: &[Entry],
        entry: &Entry,
        steps: &mut Steps<S>,
    ) -> Result<Turn, NoMemory>
        requires main { IsSome (spec.origin_of self.old).checked.main }
        requires course { spec.IsOnCourse self.old many journal.now }
        requires fed { fed_at (spec.origin_of self.old) journal.now ≡ true }
        requires many { many ≡ too_many (flow_at (spec.origin_of self.old) journal.now) }
        requires awaited { spec.IsAwaited (flow_at (spec.origin_of self.old) journal.now) journal.now entry.now.request }
        ensures origin { spec.origin_of self.new ≡ spec.origin_of self.old }
        ensures still { spec.IsOnCourse self.new many journal.now }
        ensures course { IfOk result (λ t. spec.IsOnCourse (spec.kept self.new) t.many (journal.now ++ entry.now ∷ [])) }
        ensures next { IfOk result (turns.IsNext (spec.origin_of self.old) journal.now entry.now) }
        ensures paid { IfOk result (λ t. spec.IsPaid steps.old steps.new self.old many journal.now (spec.kept self.new) t.many (journal.now ++ entry.now ∷ [])) }
    {
        if many {
            return Ok(Turn::past_limits(alloc));
        }
        match self {
            Course::Planned { plan, stale } => {
                let was_stale = *stale;
                *stale = true;
                tell_anew(alloc, plan, was_stale, journal, entry, steps)
            }
            Course::Past(_) => Ok(Turn::past_limits(alloc)),
        }
    }

    /// Keeps the answer that the plan was told of last.
    pub fn keep(&mut self)
        ensures kept { self.new ≡ spec.kept self.old }
    {
        if let Course::Planned { stale, .. } = self {
            *stale = false;
        }
    }

    /// The checked form whose main workflow is run.
    pub fn checked(&self) -> &Checked
        ensures checked { result.now ≡ (spec.origin_of self.now).checked }
    {
        match self {
            Course::Planned { plan, .. } => plan.checked(),
            Course::Past(over) => &over.checked,
        }
    }
}
