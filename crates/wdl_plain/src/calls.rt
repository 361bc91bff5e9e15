ghost use Rattle.std.specs.Prelude.{
  ◌≡◌,
  ◌++◌,
  ◌∷◌,
  [],
  length,
  take,
  OnOk,
  OnErr,
  IfOk,
  MatchOption,
};
ghost use Rattle.wdl_typed.specs.Flow as flow;
ghost use Rattle.wdl_plain.specs.Views.{endeds_of};
ghost use Rattle.wdl_plain.specs.SightMarks.{call_marks};

use crate::known::Ended;
use crate::mark::name_mark;
use std::alloc::Global;
use std::marker::Model;
use wdl_names::Places;
use wdl_value::{Items, Name, NoMemory};

/// Calls, and whether they have ended, found by a look-up in logarithmic time. Of two with one name
/// the first counts.
#[derive(Debug, Drop)]
pub struct Calls {
    ends: Items<Ended>,
    marks: Places,
}

impl Model for Calls {
    ghost use Rattle.std.specs.Prelude.{◌≡◌, List};
    ghost use Rattle.wdl_plain.specs.declared.known.Ended.{Ended};
    ghost use Rattle.wdl_plain.specs.SightMarks.{call_marks};

    ghost Value = { List Ended };

    ghost view = { λ c. c.ends };

    ghost invariant = { λ c. c.marks ≡ call_marks c.ends };
}

fn has_ended_among(ends: &[Ended], name: &Name) -> bool
    ensures { result ≡ flow.has_ended (endeds_of ends.now) name.now }
{
    for end in ends {
        if end.call.same(name) {
            return end.ended;
        }
    }
    false
}

fn marks_of(alloc: Global, ends: &[Ended]) -> Result<Places, NoMemory>
    ensures { IfOk result (λ m. m ≡ call_marks ends.now) }
{
    let mut marks = Places::empty(alloc);
    for end in ends {
        marks.push(name_mark(&end.call))?;
    }
    Ok(marks)
}

impl Calls {
    /// No calls.
    pub fn empty(alloc: Global) -> Calls
        ensures { result ≡ [] }
    {
        Calls {
            ends: Items::new(alloc),
            marks: Places::empty(alloc),
        }
    }

    /// The index of a list of calls.
    pub fn of(alloc: Global, ends: Items<Ended>) -> Result<Calls, NoMemory>
        ensures { IfOk result (λ c. c ≡ ends) }
    {
        let marks = marks_of(alloc, ends.as_slice())?;
        Ok(Calls { ends, marks })
    }

    /// How many calls there are.
    pub fn len(&self) -> usize
        ensures { result ≡ length self.now }
    {
        self.ends.len()
    }

    /// Adds a call behind the others.
    pub fn enter(&mut self, end: Ended) -> Result<(), NoMemory>
        ensures ok { OnOk result (self.new ≡ self.old ++ end ∷ []) }
        ensures err { OnErr result (self.new ≡ self.old) }
    {
        let mark = name_mark(&end.call);
        if self.marks.push(mark).is_err() {
            return Err(NoMemory);
        }
        if self.ends.push(end).is_err() {
            self.marks.pop();
            return Err(NoMemory);
        }
        Ok(())
    }

    /// Takes the last call away.
    fn leave(&mut self) -> Option<Ended>
        ensures { MatchOption result ((self.old ≡ []) × (self.new ≡ [])) (λ last. self.old ≡ self.new ++ last ∷ []) }
    {
        self.marks.pop();
        self.ends.pop()
    }

    /// Takes the last calls away until there are at most that many.
    pub fn keep(&mut self, count: usize)
        ensures { self.new ≡ take count self.old }
    {
        while self.len() > count {
            self.leave();
        }
    }

    /// Whether the first call of that name has ended.
    pub fn has_ended(&self, name: &Name) -> bool
        ensures { result ≡ flow.has_ended (endeds_of self.now) name.now }
    {
        let from = self.marks.place(name_mark(name));
        has_ended_among(&self.ends.as_slice()[from..], name)
    }
}
