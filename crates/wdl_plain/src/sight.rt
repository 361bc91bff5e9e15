ghost use Rattle.std.specs.Prelude.{◌≡◌, ◌++◌, length, take, OnOk};
ghost use Rattle.wdl_typed.specs.Flow as flow;
ghost use Rattle.wdl_plain.specs.Views.{first, flowing_of, sight_of};

use crate::calls::Calls;
use crate::flowing::Flowing;
use crate::known::{Ended, Known};
use crate::known_names::KnownNames;
use std::alloc::Global;
use wdl_value::{Items, NoMemory, Place, Segment};

/// What a statement sees: names, calls, and the place of its body's instance.
#[derive(Debug, Drop)]
pub struct Sight {
    pub names: KnownNames,
    pub calls: Calls,
    pub place: Place,
}

/// How many names and calls are seen, and how long the place is.
#[derive(Clone, Copy, Debug)]
pub struct SightMark {
    pub names: usize,
    pub calls: usize,
    pub segments: usize,
}

fn enter_names(alloc: Global, names: &mut KnownNames, more: &[Known]) -> Result<(), NoMemory>
    ensures { OnOk result (names.new ≡ names.old ++ more.now) }
{
    for known in more {
        names.enter(known.copy(alloc)?)?;
    }
    Ok(())
}

fn enter_calls(alloc: Global, calls: &mut Calls, more: &[Ended]) -> Result<(), NoMemory>
    ensures { OnOk result (calls.new ≡ calls.old ++ more.now) }
{
    for end in more {
        calls.enter(end.copy(alloc)?)?;
    }
    Ok(())
}

fn keep_segments(place: &mut Items<Segment>, count: usize)
    ensures { place.new ≡ take count place.old }
{
    while place.len() > count {
        place.pop();
    }
}

impl Sight {
    /// What the first statement of a workflow at a place sees.
    pub fn beginning(alloc: Global, place: Place) -> Sight
        ensures { sight_of result ≡ flow.beginning place }
    {
        Sight {
            names: KnownNames::empty(alloc),
            calls: Calls::empty(alloc),
            place,
        }
    }

    /// Adds what a statement gives.
    pub fn enter(&mut self, alloc: Global, given: &Flowing) -> Result<(), NoMemory>
        ensures { OnOk result (sight_of self.new ≡ flow.seeing (sight_of self.old) (flowing_of given.now)) }
    {
        enter_names(alloc, &mut self.names, given.names.as_slice())?;
        enter_calls(alloc, &mut self.calls, given.calls.as_slice())
    }

    /// How much is seen.
    pub fn mark(&self) -> SightMark
        ensures names { result.names ≡ length (sight_of self.now).names }
        ensures calls { result.calls ≡ length (sight_of self.now).calls }
        ensures segments { result.segments ≡ length (sight_of self.now).place }
    {
        SightMark {
            names: self.names.len(),
            calls: self.calls.len(),
            segments: self.place.len(),
        }
    }

    /// Takes away what was seen after a mark.
    pub fn back_to(&mut self, mark: SightMark)
        ensures { sight_of self.new ≡ first mark.names mark.calls mark.segments (sight_of self.old) }
    {
        self.names.keep(mark.names);
        self.calls.keep(mark.calls);
        keep_segments(&mut self.place, mark.segments);
    }
}
