//! The plan of a run: what the answers so far made ready, what failed, and the outputs.

ghost use Rattle.std.specs.Prelude.{
  ◌≡◌,
  true,
  false,
  ℕ,
  List,
  Err,
  Some,
  IfErr,
  IfOk,
  IsSome,
  OnErr,
  OnOk,
  ◌++◌,
  ◌∷◌,
  [],
  slice_get,
};
ghost use Rattle.std.specs.Option.{option_copied};
ghost use Rattle.wdl_value.specs.Tables.{Row, table};
ghost use Rattle.wdl_typed.specs.declared.flow.FlowDef.{FlowDef};
ghost use Rattle.wdl_typed.specs.Flow.{too_many};
ghost use Rattle.wdl_typed.specs.Journal.{inputs_fit};
ghost use Rattle.plan_steps.specs.declared.fault.PlanFault.TheVariants.{TooMany};
ghost use Rattle.scatter_plan.specs.declared.fault.Unplanned.TheVariants.{TooMany as GivenBack};
ghost use Rattle.scatter_plan.specs.Calls as calls;
ghost use Rattle.scatter_plan.specs.Plans as spec;
ghost use Rattle.scatter_plan.specs.Settling.{Begins, IsMadeOf};

use crate::begin::{Begun, begin, settle};
use crate::fault::Unplanned;
use plan_layout::Layout;
use plan_steps::{Ground, PlanFault};
use std::alloc::Global;
use std::sync::ledger::Ledger;
use wdl_task::Prepared;
use wdl_typed::Checked;
use wdl_value::{Answer, Entry, Env, Fault, NoMemory, Place, Steps, Text};

/// What a plan is of: a checked form with the number of its main workflow and its layout, inputs
/// and a site.
#[derive(Drop)]
struct Origin {
    checked: Checked,
    inputs: Env,
    site: Text,
    layout: Layout,
    main: usize,
}

/// A plan of the main workflow of a checked form, for its inputs and a site. After a refusal of
/// `arrive` or `renew` it is spent: it keeps what it was made of, and nothing is said of the rest
/// until a `renew` that gives `Ok`.
#[derive(Drop)]
pub struct Plan {
    origin: Origin,
    begun: Begun,
    spent: bool,
}

/// The main workflow is entered, and each step is done that is ready.
fn begin_of<L: Ledger>(
    alloc: Global,
    origin: &Origin,
    steps: &mut Steps<L>,
) -> Result<Begun, PlanFault>
    requires made { IsMadeOf origin.now.checked origin.now.layout origin.now.main origin.now.inputs }
    ensures begins { Begins origin.now.checked origin.now.layout origin.now.main origin.now.inputs origin.now.site steps.old steps.new result }
{
    let ground = Ground {
        checked: &origin.checked,
        layout: &origin.layout,
        site: &origin.site,
    };
    begin(alloc, origin.main, &origin.inputs, &ground, steps)
}

/// What was given comes back, since it is past a limit.
fn given_back(origin: Origin) -> Unplanned
    ensures { result ≡ GivenBack origin.checked origin.inputs origin.site }
{
    let Origin {
        checked,
        inputs,
        site,
        layout: _,
        main: _,
    } = origin;
    Unplanned::TooMany {
        checked,
        inputs,
        site,
    }
}

impl Plan {
    /// The plan of the main workflow, before any answer.
    pub fn new<L: Ledger>(
        alloc: Global,
        checked: Checked,
        inputs: Env,
        site: Text,
        steps: &mut Steps<L>,
    ) -> Result<Plan, Unplanned>
        requires main { IsSome checked.main }
        requires fit { (k : ℕ) (main : FlowDef) → checked.main ≡ Some k → slice_get checked.flows k ≡ Some main → inputs_fit checked.structs main.inputs inputs ≡ true }
        ensures plan { IfOk result (calls.IsNew checked inputs site steps.old steps.new) }
        ensures back { IfErr result (calls.GivesBack checked inputs site) }
    {
        let Some(main) = checked.main else {
            unreachable!();
        };
        let main = main as usize;
        let Ok(layout) = Layout::of(alloc, &checked) else {
            return Err(Unplanned::NoMemory);
        };
        let origin = Origin {
            checked,
            inputs,
            site,
            layout,
            main,
        };
        match begin_of(alloc, &origin, steps) {
            Ok(begun) => Ok(Plan {
                origin,
                begun,
                spent: false,
            }),
            Err(PlanFault::TooMany) => Err(given_back(origin)),
            Err(PlanFault::NoMemory) => Err(Unplanned::NoMemory),
        }
    }

    /// The answer of an attempt that is ready arrives.
    pub fn arrive<L: Ledger>(
        &mut self,
        alloc: Global,
        place: &Place,
        _attempt: u32,
        answer: &Answer,
        steps: &mut Steps<L>,
    ) -> Result<(), PlanFault>
        requires made { spec.IsMade self.old }
        requires told { calls.HasTold self.old }
        requires waits { calls.is_waiting (spec.ready_in self.old) place.now _attempt ≡ true }
        ensures origin { calls.IsOfSame self.old self.new }
        ensures made { spec.IsMade self.new }
        ensures arrives { (rows : List Row) (told : spec.IsTold self.old rows) → OnOk result (calls.Arrives self.old rows told (calls.row place.now _attempt answer.now) self.new steps.old steps.new) }
        ensures many { (rows : List Row) → spec.IsTold self.old rows → result ≡ Err TooMany → too_many (spec.flow_of self.old (rows ++ calls.row place.now _attempt answer.now ∷ [])) ≡ true }
        ensures spent { OnErr result (spec.spent_in self.new ≡ true) }
    {
        self.spent = true;
        let ground = Ground {
            checked: &self.origin.checked,
            layout: &self.origin.layout,
            site: &self.origin.site,
        };
        let main = self.origin.main;
        let growth = &mut self.begun.growth;
        let asking = &mut self.begun.asking;
        match settle(alloc, main, place, answer, &ground, growth, asking, steps) {
            Ok(outputs) => {
                self.begun.outputs = outputs;
                self.spent = false;
                Ok(())
            }
            Err(fault) => Err(fault),
        }
    }

    /// What waits for an answer.
    pub fn ready(&self) -> &[Prepared]
        ensures ready { result.now ≡ spec.ready_in self.now }
    {
        self.begun.asking.ready.as_slice()
    }

    /// The faults so far.
    pub fn faults(&self) -> &[Fault]
        ensures faults { result.now ≡ spec.faults_in self.now }
    {
        self.begun.growth.faults.as_slice()
    }

    /// The outputs of the main workflow, where nothing failed and nothing waits.
    pub fn outputs(&self) -> Option<&Env>
        ensures outputs { option_copied result ≡ spec.outputs_in self.now }
    {
        self.begun.outputs.as_ref()
    }

    /// The checked form that the plan is of.
    pub fn checked(&self) -> &Checked
        ensures checked { result.now ≡ spec.checked_in self.now }
    {
        &self.origin.checked
    }

    /// Makes the plan anew over a journal.
    pub fn renew<L: Ledger>(
        &mut self,
        alloc: Global,
        journal: &[Entry],
        steps: &mut Steps<L>,
    ) -> Result<(), NoMemory>
        requires made { spec.IsMade self.old }
        requires fed { calls.is_fed_for self.old journal.now ≡ true }
        requires few { too_many (spec.flow_of self.old (table journal.now)) ≡ false }
        ensures origin { calls.IsOfSame self.old self.new }
        ensures made { spec.IsMade self.new }
        ensures told { OnOk result (calls.IsRenewed (table journal.now) steps.old steps.new self.new) }
        ensures spent { OnErr result (spec.spent_in self.new ≡ true) }
    {
        self.restart(alloc, steps)?;
        for entry in journal {
            let request = &entry.request;
            let place = &request.place;
            match self.arrive(alloc, place, request.attempt, &entry.answer, steps) {
                Ok(()) => {}
                Err(_) => return Err(NoMemory),
            }
        }
        Ok(())
    }

    /// Makes the plan anew, before any answer.
    fn restart<L: Ledger>(&mut self, alloc: Global, steps: &mut Steps<L>) -> Result<(), NoMemory>
        requires made { spec.IsMade self.old }
        ensures origin { self.new.origin ≡ self.old.origin }
        ensures told { OnOk result (calls.IsRenewed [] steps.old steps.new self.new) }
        ensures spent { OnErr result (spec.spent_in self.new ≡ true) }
    {
        self.spent = true;
        let Ok(begun) = begin_of(alloc, &self.origin, steps) else {
            return Err(NoMemory);
        };
        self.begun = begun;
        self.spent = false;
        Ok(())
    }
}
