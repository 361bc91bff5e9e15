ghost use Rattle.std.specs.Prelude.{
  ◌≡◌,
  ◌&&◌,
  ◌==◌,
  ◌≤◌,
  nat_lt,
  ◌++◌,
  ◌∷◌,
  [],
  length,
  slice_index,
  OnOk,
  OnErr,
  MatchOption,
};
ghost use Rattle.wdl_names.specs.Marks.{first_place};

use sqlite_items::Items;
use std::alloc::Global;
use std::collections::BTreeMap;
use std::marker::Model;
use wdl_value::NoMemory;

/// A stack of numbers that finds where each first stands.
#[derive(Debug, Drop)]
pub struct Places {
    numbers: Items<u64>,
    firsts: BTreeMap<u64, usize>,
}

impl Model for Places {
    ghost use Rattle.std.specs.Prelude.{◌≡◌, ◌<◌, ℕ, List, Some, length};
    ghost use Rattle.std.specs.Ordering.{nat_cmp};
    ghost use Rattle.std.specs.BTreeMap.{get};
    ghost use Rattle.wdl_names.specs.Marks.{first_place};

    ghost Value = { List ℕ };

    ghost view = { λ p. p.numbers };

    ghost invariant = { λ p. (q : ℕ) → first_place q p.numbers < length p.numbers
        → get nat_cmp p.firsts q ≡ Some (first_place q p.numbers) };
}

fn stands(numbers: &[u64], place: usize, number: u64) -> bool
    ensures { result ≡ (nat_lt place (length numbers.now) && slice_index numbers.now place == number) }
{
    place < numbers.len() && numbers[place] == number
}

impl Places {
    /// No numbers.
    pub fn empty(alloc: Global) -> Places
        ensures { result ≡ [] }
    {
        Places {
            numbers: Items::new(alloc),
            firsts: BTreeMap::new(alloc),
        }
    }

    /// How many numbers there are.
    pub fn len(&self) -> usize
        ensures { result ≡ length self.now }
    {
        self.numbers.len()
    }

    /// Where the number first stands, or how many numbers there are where it does not, in
    /// logarithmic time.
    pub fn place(&self, number: u64) -> usize
        ensures place { result ≡ first_place number self.now }
        ensures within { result ≤ length self.now }
    {
        let Some(place) = self.firsts.get(&number) else {
            return self.numbers.len();
        };
        if stands(self.numbers.as_slice(), *place, number) {
            *place
        } else {
            self.numbers.len()
        }
    }

    /// Adds a number behind the others.
    pub fn push(&mut self, number: u64) -> Result<(), NoMemory>
        ensures ok { OnOk result (self.new ≡ self.old ++ number ∷ []) }
        ensures err { OnErr result (self.new ≡ self.old) }
    {
        let count = self.numbers.len();
        if self.place(number) == count {
            self.firsts.insert(number, count)?;
        }
        self.numbers.push(number)?;
        Ok(())
    }

    /// Takes the last number away.
    pub fn pop(&mut self) -> Option<u64>
        ensures { MatchOption result ((self.old ≡ []) × (self.new ≡ [])) (λ last. self.old ≡ self.new ++ last ∷ []) }
    {
        self.numbers.pop()
    }
}
