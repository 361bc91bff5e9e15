ghost use Rattle.std.specs.Prelude.{
  ◌≡◌,
  ◌++◌,
  ◌∷◌,
  [],
  length,
  take,
  OnOk,
  OnErr,
  IfOk,
  MatchOption,
};
ghost use Rattle.std.specs.Option.{option_copied};
ghost use Rattle.wdl_typed.specs.Scope as scope;
ghost use Rattle.wdl_plain.specs.Views.{env_in};
ghost use Rattle.wdl_plain.specs.SightMarks.{known_marks};

use crate::known::Known;
use crate::mark::key_mark;
use std::alloc::Global;
use std::marker::Model;
use wdl_names::Places;
use wdl_value::{Items, Key, Name, NoMemory, Value};

/// Names with their values, or missing, found by a look-up in logarithmic time. Of two with one key
/// the first that has a value counts.
#[derive(Debug, Drop)]
pub struct KnownNames {
    knowns: Items<Known>,
    marks: Places,
}

impl Model for KnownNames {
    ghost use Rattle.std.specs.Prelude.{◌≡◌, List};
    ghost use Rattle.std.specs.Coded.{coded_list};
    ghost use Rattle.wdl_plain.specs.declared.known.Known.{Known};
    ghost use Rattle.wdl_plain.specs.contracts.known.Known as known;
    ghost use Rattle.wdl_plain.specs.SightMarks.{known_marks};

    ghost Value = { List Known };

    ghost coded = { coded_list known.the_row.coded };

    ghost view = { λ n. n.knowns };

    ghost invariant = { λ n. n.marks ≡ known_marks n.knowns };
}

/// Whether both are the same name, or none.
fn same_second(a: &Option<Name>, b: &Option<Name>) -> bool
    ensures { result ≡ scope.same_second a.now b.now }
{
    match (a, b) {
        (None, None) => true,
        (Some(a), Some(b)) => a.same(b),
        _ => false,
    }
}

fn same_key(a: &Key, b: &Key) -> bool
    ensures { result ≡ scope.same_key a.now b.now }
{
    a.first.same(&b.first) && same_second(&a.second, &b.second)
}

/// The value, if there is one and it is that of the key.
fn value_at<'a>(known: &'a Known, key: &Key) -> Option<&'a Value>
    ensures { option_copied result ≡ scope.lookup (env_in (known.now ∷ [])) key.now }
{
    let Some(value) = &known.value else {
        return None;
    };
    if same_key(&known.key, key) {
        return Some(value);
    }
    None
}

fn value_among<'a>(knowns: &'a [Known], key: &Key) -> Option<&'a Value>
    ensures { option_copied result ≡ scope.lookup (env_in knowns.now) key.now }
{
    for known in knowns {
        if let Some(value) = value_at(known, key) {
            return Some(value);
        }
    }
    None
}

fn marks_of(alloc: Global, knowns: &[Known]) -> Result<Places, NoMemory>
    ensures { IfOk result (λ m. m ≡ known_marks knowns.now) }
{
    let mut marks = Places::empty(alloc);
    for known in knowns {
        marks.push(key_mark(&known.key, known.value.is_some()))?;
    }
    Ok(marks)
}

impl KnownNames {
    /// No names.
    pub fn empty(alloc: Global) -> KnownNames
        ensures { result ≡ [] }
    {
        KnownNames {
            knowns: Items::new(alloc),
            marks: Places::empty(alloc),
        }
    }

    /// The index of a list of names.
    pub fn of(alloc: Global, knowns: Items<Known>) -> Result<KnownNames, NoMemory>
        ensures { IfOk result (λ n. n ≡ knowns) }
    {
        let marks = marks_of(alloc, knowns.as_slice())?;
        Ok(KnownNames { knowns, marks })
    }

    /// How many names there are.
    pub fn len(&self) -> usize
        ensures { result ≡ length self.now }
    {
        self.knowns.len()
    }

    /// Adds a name behind the others.
    pub fn enter(&mut self, known: Known) -> Result<(), NoMemory>
        ensures ok { OnOk result (self.new ≡ self.old ++ known ∷ []) }
        ensures err { OnErr result (self.new ≡ self.old) }
    {
        let mark = key_mark(&known.key, known.value.is_some());
        if self.marks.push(mark).is_err() {
            return Err(NoMemory);
        }
        if self.knowns.push(known).is_err() {
            self.marks.pop();
            return Err(NoMemory);
        }
        Ok(())
    }

    /// Takes the last name away.
    fn leave(&mut self) -> Option<Known>
        ensures { MatchOption result ((self.old ≡ []) × (self.new ≡ [])) (λ last. self.old ≡ self.new ++ last ∷ []) }
    {
        self.marks.pop();
        self.knowns.pop()
    }

    /// Takes the last names away until there are at most that many.
    pub fn keep(&mut self, count: usize)
        ensures { self.new ≡ take count self.old }
    {
        while self.len() > count {
            self.leave();
        }
    }

    /// The value of the first name of that key that has one.
    pub fn lookup(&self, key: &Key) -> Option<&Value>
        ensures { option_copied result ≡ scope.lookup (env_in self.now) key.now }
    {
        let from = self.marks.place(key_mark(key, true));
        value_among(&self.knowns.as_slice()[from..], key)
    }
}
