//! Calls of tasks that were asked, and their attempts that wait for an answer.

ghost use Rattle.std.specs.Prelude.{
  ◌≡◌,
  ◌<◌,
  ◌≤◌,
  ◌+◌,
  ◌++◌,
  ◌∷◌,
  [],
  Some,
  OnOk,
  length,
  map,
  slice_get,
  slice_index,
  swap_remove,
};
ghost use Rattle.plan_steps.specs.Askings.{
  IsAnswered,
  IsAsking,
  IsFoundAt,
  IsIdle,
  IsNew,
  IsTakenFrom,
  IsWaiting,
  calls,
  new_call,
  place_in,
};
ghost use Rattle.plan_steps.specs.Passes.{Passes};

use crate::fault::PlanFault;
use std::alloc::Global;
use wdl_flow::place_mark;
use wdl_names::Places;
use wdl_task::Prepared;
use wdl_value::{NoMemory, Place, copy_place, same_place};

/// The most jobs that a plan may have.
pub const JOB_LIMIT: usize = 20_000;

/// A call of a task: its place and its step, its last attempt that was answered, and where the next
/// one waits.
#[derive(Debug, Drop)]
pub struct Asked {
    pub place: Place,
    pub step: usize,
    pub last: Option<u32>,
    waits_at: usize,
}

/// All calls of tasks that were asked, in the order of asking, found by their places in logarithmic
/// time, their attempts that wait for an answer, and how many attempts there were.
#[derive(Debug, Drop)]
pub struct Asking {
    pub ready: Vec<Prepared>,
    pub asked: Vec<Asked>,
    pub jobs: usize,
    owners: Vec<usize>,
    marks: Places,
}

impl Asking {
    /// No calls.
    pub fn empty(alloc: Global) -> Asking
        ensures sound { IsAsking result }
        ensures ready { result.ready.items ≡ [] }
        ensures calls { calls result ≡ [] }
        ensures jobs { result.jobs ≡ 0 }
    {
        Asking {
            ready: Vec::new(alloc),
            asked: Vec::new(alloc),
            jobs: 0,
            owners: Vec::new(alloc),
            marks: Places::empty(alloc),
        }
    }

    /// Where the call of a place stands.
    pub fn find(&self, place: &Place) -> Option<usize>
        requires { IsAsking self.now }
        ensures { IsFoundAt (calls self.now) place.now result }
    {
        let from = self.marks.place(place_mark(place.as_slice(), 0));
        for at in from..self.asked.len() {
            if same_place(self.asked[at].place.as_slice(), place.as_slice()) {
                return Some(at);
            }
        }
        None
    }

    /// A call is asked, within the limit of jobs.
    pub fn ask(&mut self, alloc: Global, step: usize, prepared: Prepared) -> Result<(), PlanFault>
        requires new { IsNew (calls self.old) prepared.request.place }
        requires sound { IsAsking self.old }
        ensures sound { OnOk result (IsAsking self.new) }
        ensures ready { OnOk result (self.new.ready.items ≡ self.old.ready.items ++ prepared ∷ []) }
        ensures calls { OnOk result (calls self.new ≡ calls self.old ++ new_call prepared.request.place step ∷ []) }
        ensures jobs { Passes ((self.new.jobs ≡ self.old.jobs + 1) × (self.new.jobs ≤ JOB_LIMIT)) (JOB_LIMIT ≤ self.old.jobs) result }
    {
        if self.jobs >= JOB_LIMIT {
            return Err(PlanFault::TooMany);
        }
        self.add(alloc, step, prepared)?;
        self.jobs += 1;
        Ok(())
    }

    /// The next attempt of a call waits for its answer, within the limit of jobs.
    pub fn ask_again(&mut self, at: usize, prepared: Prepared) -> Result<(), PlanFault>
        requires idle { IsIdle self.old at }
        requires place { slice_get (map place_in (calls self.old)) at ≡ Some prepared.request.place }
        requires sound { IsAsking self.old }
        ensures sound { OnOk result (IsAsking self.new) }
        ensures ready { OnOk result (self.new.ready.items ≡ self.old.ready.items ++ prepared ∷ []) }
        ensures calls { OnOk result (calls self.new ≡ calls self.old) }
        ensures jobs { Passes ((self.new.jobs ≡ self.old.jobs + 1) × (self.new.jobs ≤ JOB_LIMIT)) (JOB_LIMIT ≤ self.old.jobs) result }
    {
        if self.jobs >= JOB_LIMIT {
            return Err(PlanFault::TooMany);
        }
        self.wait(at, prepared)?;
        self.jobs += 1;
        Ok(())
    }

    /// A call that was not asked before, with its first attempt.
    fn add(&mut self, alloc: Global, step: usize, prepared: Prepared) -> Result<(), NoMemory>
        requires new { IsNew (calls self.old) prepared.request.place }
        requires sound { IsAsking self.old }
        ensures sound { OnOk result (IsAsking self.new) }
        ensures ready { OnOk result (self.new.ready.items ≡ self.old.ready.items ++ prepared ∷ []) }
        ensures calls { OnOk result (calls self.new ≡ calls self.old ++ new_call prepared.request.place step ∷ []) }
        ensures jobs { OnOk result (self.new.jobs ≡ self.old.jobs) }
    {
        let place = copy_place(alloc, &prepared.request.place)?;
        let waits_at = self.ready.len();
        self.marks.push(place_mark(place.as_slice(), 0))?;
        self.owners.push(self.asked.len())?;
        self.ready.push(prepared)?;
        self.asked.push(Asked {
            place,
            step,
            last: None,
            waits_at,
        })?;
        Ok(())
    }

    /// A call that was asked waits for an answer to its next attempt.
    fn wait(&mut self, at: usize, prepared: Prepared) -> Result<(), NoMemory>
        requires idle { IsIdle self.old at }
        requires place { slice_get (map place_in (calls self.old)) at ≡ Some prepared.request.place }
        requires sound { IsAsking self.old }
        ensures sound { OnOk result (IsAsking self.new) }
        ensures ready { OnOk result (self.new.ready.items ≡ self.old.ready.items ++ prepared ∷ []) }
        ensures calls { OnOk result (calls self.new ≡ calls self.old) }
        ensures jobs { OnOk result (self.new.jobs ≡ self.old.jobs) }
    {
        let waits_at = self.ready.len();
        self.owners.push(at)?;
        self.ready.push(prepared)?;
        self.asked[at].waits_at = waits_at;
        Ok(())
    }

    /// Takes the attempt that waits there; the last one takes its place.
    fn remove(&mut self, waited: usize) -> Prepared
        requires within { waited < length self.old.owners.items }
        requires sound { IsAsking self.old }
        ensures sound { IsAsking self.new }
        ensures owners { self.new.owners.items ≡ swap_remove self.old.owners.items waited (slice_index self.old.owners.items waited) }
        ensures taken { slice_get self.old.ready.items waited ≡ Some result }
        ensures rest { self.new.ready.items ≡ swap_remove self.old.ready.items waited result }
        ensures calls { calls self.new ≡ calls self.old }
        ensures jobs { self.new.jobs ≡ self.old.jobs }
    {
        let prepared = self.ready.swap_remove(waited);
        self.owners.swap_remove(waited);
        if waited < self.owners.len() {
            let moved = self.owners[waited];
            self.asked[moved].waits_at = waited;
        }
        prepared
    }

    /// Takes the attempt of a call that waits: it is answered.
    pub fn take(&mut self, at: usize) -> Prepared
        requires waits { IsWaiting self.old at }
        requires sound { IsAsking self.old }
        ensures sound { IsAsking self.new }
        ensures idle { IsIdle self.new at }
        ensures ready { IsTakenFrom self.old.ready.items result self.new.ready.items }
        ensures place { slice_get (map place_in (calls self.old)) at ≡ Some result.request.place }
        ensures calls { IsAnswered (calls self.old) at result.request.attempt (calls self.new) }
        ensures jobs { self.new.jobs ≡ self.old.jobs }
    {
        let waited = self.asked[at].waits_at;
        let prepared = self.remove(waited);
        self.asked[at].last = Some(prepared.request.attempt);
        prepared
    }
}
