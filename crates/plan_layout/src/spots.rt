//! Names with the places of their cells, in an index.

ghost use Rattle.std.specs.Prelude.{◌≡◌, ◌++◌, ◌∷◌, [], length, take, OnOk, MatchOption};
ghost use Rattle.std.specs.Option.{option_copied};
ghost use Rattle.plan_layout.specs.Spots as spec;

use crate::layout::Need;
use std::alloc::Global;
use std::marker::Model;
use wdl_names::{Index, Keyed};
use wdl_value::{Items, Key, NoMemory};

impl Keyed for Need {
    ghost keyed = { λ n. n.key };

    fn key(&self) -> &Key {
        &self.key
    }
}

/// Names with the places of their cells, found by a look-up in logarithmic time. Of two with one
/// key the first counts.
#[derive(Drop)]
pub struct Spots {
    spots: Index<Need>,
}

impl Model for Spots {
    ghost use Rattle.std.specs.Prelude.{List};
    ghost use Rattle.std.specs.Coded.{coded_list};
    ghost use Rattle.plan_layout.specs.declared.layout.Need.{Need};
    ghost use Rattle.plan_layout.specs.contracts.layout.Need as need;

    ghost Value = { List Need };

    ghost coded = { coded_list need.the_row.coded };

    ghost view = { λ s. s.spots };
}

impl Spots {
    /// No names.
    pub fn empty(alloc: Global) -> Spots
        ensures { result ≡ [] }
    {
        Spots {
            spots: Index::empty(alloc),
        }
    }

    /// The list of the names.
    pub fn into_items(self) -> Items<Need>
        ensures { result ≡ self }
    {
        let Spots { spots } = self;
        spots.into_items()
    }

    /// How many names there are.
    pub fn len(&self) -> usize
        ensures { result ≡ length self.now }
    {
        self.spots.len()
    }

    /// Adds a name behind the others.
    pub fn enter(&mut self, spot: Need) -> Result<(), NoMemory>
        ensures { OnOk result (self.new ≡ self.old ++ spot ∷ []) }
    {
        self.spots.push(spot)
    }

    /// Takes the last name away.
    fn leave(&mut self) -> Option<Need>
        ensures { MatchOption result ((self.old ≡ []) × (self.new ≡ [])) (λ last. self.old ≡ self.new ++ last ∷ []) }
    {
        self.spots.pop()
    }

    /// Takes the last names away until there are at most that many.
    pub fn keep(&mut self, count: usize)
        ensures { self.new ≡ take count self.old }
    {
        while self.len() > count {
            self.leave();
        }
    }

    /// The first name of that key.
    pub fn find(&self, key: &Key) -> Option<&Need>
        ensures { option_copied result ≡ spec.find_spot self.now key.now }
    {
        self.spots.find(key)
    }
}
