ghost use Rattle.std.specs.Prelude.{◌≡◌, [], false, IfOk};
ghost use Rattle.wdl_typed.specs.Flow as flow;
ghost use Rattle.wdl_plain.specs.Flows.{Flows, counted};
ghost use Rattle.wdl_plain.specs.Views.{codes_in, flowing_of, requests_in};

use crate::fault::PlainFault;
use crate::job::AskedJob;
use crate::known::{Ended, Known};
use std::alloc::Global;
use wdl_value::{EvalCode, Fault, Items, Key, Name, NoMemory, Place, Value, Why, copy_place};

/// The most jobs that a flow may have.
pub const JOB_LIMIT: usize = 20_000;

/// The most instances of statements that a flow may have.
pub const COUNT_LIMIT: u64 = 1_000_000;

/// What statements give: names, calls, jobs, faults, the places that wait for an answer, and how
/// many instances of statements were entered.
#[derive(Debug, Drop)]
pub struct Flowing {
    pub names: Items<Known>,
    pub calls: Items<Ended>,
    pub jobs: Items<AskedJob>,
    pub faults: Items<Fault>,
    pub waits: Items<Place>,
    pub count: u64,
}

impl Flowing {
    /// Nothing but a count of instances.
    pub fn counted(alloc: Global, count: u64) -> Flowing
        ensures { flowing_of result ≡ counted count }
    {
        Flowing {
            names: Items::new(alloc),
            calls: Items::new(alloc),
            jobs: Items::new(alloc),
            faults: Items::new(alloc),
            waits: Items::new(alloc),
            count,
        }
    }

    /// Whether it is past a limit.
    pub fn is_too_many(&self) -> bool
        ensures { result ≡ flow.too_many (flowing_of self.now) }
    {
        self.jobs.len() > JOB_LIMIT || self.count > COUNT_LIMIT
    }

    /// Whether it has no faults and no waits.
    pub fn is_clean(&self) -> bool
        ensures { result ≡ flow.is_clean (flowing_of self.now) }
    {
        matches!(self.faults.as_slice(), []) && matches!(self.waits.as_slice(), [])
    }

    /// Refuses what is past a limit.
    pub fn within(self) -> Result<Flowing, PlainFault>
        ensures { Flows (flowing_of self) result }
    {
        if self.is_too_many() {
            return Err(PlainFault::TooMany);
        }
        Ok(self)
    }

    /// What is given by these statements and by those after them.
    pub fn and(self, more: Flowing) -> Result<Flowing, PlainFault>
        requires first { flow.too_many (flowing_of self) ≡ false }
        requires second { flow.too_many (flowing_of more) ≡ false }
        ensures { Flows (flow.together (flowing_of self) (flowing_of more)) result }
    {
        let Flowing {
            mut names,
            mut calls,
            mut jobs,
            mut faults,
            mut waits,
            count,
        } = self;
        names.append(more.names)?;
        calls.append(more.calls)?;
        jobs.append(more.jobs)?;
        faults.append(more.faults)?;
        waits.append(more.waits)?;
        Flowing {
            names,
            calls,
            jobs,
            faults,
            waits,
            count: count + more.count,
        }
        .within()
    }
}

/// A name with its value, or missing.
pub fn named(alloc: Global, name: &Name, value: Option<Value>) -> Result<Flowing, NoMemory>
    ensures { IfOk result (λ f. flowing_of f ≡ flow.named (flow.known name.now value)) }
{
    let key = Key::plain(alloc, name)?;
    let mut given = Flowing::counted(alloc, 0);
    given.names.push(Known { key, value })?;
    Ok(given)
}

/// What is given, with a fault before those that it has.
pub fn with_fault(alloc: Global, fault: Fault, given: Flowing) -> Result<Flowing, NoMemory>
    ensures { IfOk result (λ f. flowing_of f ≡ flow.with_fault fault (flowing_of given)) }
{
    let mut faults = Items::new(alloc);
    faults.push(fault)?;
    faults.append(given.faults)?;
    Ok(Flowing {
        names: given.names,
        calls: given.calls,
        jobs: given.jobs,
        faults,
        waits: given.waits,
        count: given.count,
    })
}

/// What is given, with a place that waits before those that it has.
pub fn waiting(alloc: Global, place: Place, given: Flowing) -> Result<Flowing, NoMemory>
    ensures { IfOk result (λ f. flowing_of f ≡ flow.waiting place (flowing_of given)) }
{
    let mut waits = Items::new(alloc);
    waits.push(place)?;
    waits.append(given.waits)?;
    Ok(Flowing {
        names: given.names,
        calls: given.calls,
        jobs: given.jobs,
        faults: given.faults,
        waits,
        count: given.count,
    })
}

/// What is given, with jobs before those that it has.
pub fn with_jobs(mut jobs: Items<AskedJob>, given: Flowing) -> Result<Flowing, NoMemory>
    ensures { IfOk result (λ f. flowing_of f ≡ flow.with_jobs (requests_in jobs) (codes_in jobs) (flowing_of given)) }
{
    jobs.append(given.jobs)?;
    Ok(Flowing {
        names: given.names,
        calls: given.calls,
        jobs,
        faults: given.faults,
        waits: given.waits,
        count: given.count,
    })
}

/// A fault of an expression.
pub fn fault_at(
    alloc: Global,
    place: &Place,
    name: &Name,
    code: EvalCode,
) -> Result<Fault, NoMemory>
    ensures { IfOk result (λ f. f ≡ flow.fault_at place.now name.now code) }
{
    Ok(Fault {
        place: copy_place(alloc, place)?,
        name: name.to_text(alloc)?,
        why: Why::Code(code),
    })
}
