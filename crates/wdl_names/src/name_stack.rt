ghost use Rattle.std.specs.Prelude.{
  ◌≡◌,
  ◌++◌,
  ◌∷◌,
  [],
  length,
  take,
  option_and_then,
  slice_get,
  OnOk,
  OnErr,
  MatchOption,
};
ghost use Rattle.std.specs.Str.{bytes_eq};
ghost use Rattle.wdl_typed.specs.Lists as spec;
ghost use Rattle.wdl_names.specs.Firsts.{passes};

use crate::name_places::NamePlaces;
use sqlite_items::Items;
use std::alloc::Global;
use std::marker::Model;
use wdl_value::{Name, NoMemory};

/// A stack of names, which are found in logarithmic time.
#[derive(Debug, Drop)]
pub struct NameStack {
    names: Items<Name>,
    places: NamePlaces,
}

impl Model for NameStack {
    ghost use Rattle.std.specs.Prelude.{List, ℕ};
    ghost use Rattle.std.specs.BTreeMap.{get_by_text};
    ghost use Rattle.std.specs.Str.{bytes_eq};
    ghost use Rattle.wdl_names.specs.Firsts.{Finds};

    ghost Value = { List (List ℕ) };

    ghost view = { λ w. w.names };

    ghost invariant = { λ w. Finds (λ (q : List ℕ) (n : List ℕ). bytes_eq n q) (get_by_text w.places.places) w.names };
}

/// Whether that name stands at the place.
fn stands(names: &[Name], place: Option<usize>, name: &Name) -> bool
    ensures { result ≡ passes (λ n. bytes_eq n name.now) (option_and_then (slice_get names.now) place) }
{
    let Some(place) = place else {
        return false;
    };
    match names.get(place) {
        Some(other) => other.same(name),
        None => false,
    }
}

impl NameStack {
    /// No names.
    pub fn empty(alloc: Global) -> NameStack
        ensures { result ≡ [] }
    {
        NameStack {
            names: Items::new(alloc),
            places: NamePlaces::empty(alloc),
        }
    }

    /// How many names there are.
    pub fn len(&self) -> usize
        ensures { result ≡ length self.now }
    {
        self.names.len()
    }

    /// Whether the name is one of them.
    pub fn has(&self, name: &Name) -> bool
        ensures { result ≡ spec.has_name name.now self.now }
    {
        let place = self.places.get(name);
        stands(self.names.as_slice(), place, name)
    }

    /// Adds a name behind the others.
    pub fn enter(&mut self, name: Name) -> Result<(), NoMemory>
        ensures ok { OnOk result (self.new ≡ self.old ++ name ∷ []) }
        ensures err { OnErr result (self.new ≡ self.old) }
    {
        let place = self.names.len();
        let known = self.has(&name);
        self.places.put_new(&name, place, known)?;
        self.names.push(name)?;
        Ok(())
    }

    /// Takes the last name away.
    pub fn leave(&mut self) -> Option<Name>
        ensures { MatchOption result ((self.old ≡ []) × (self.new ≡ [])) (λ last. self.old ≡ self.new ++ last ∷ []) }
    {
        self.names.pop()
    }

    /// Takes the last names away until there are at most that many.
    pub fn keep(&mut self, count: usize)
        ensures { self.new ≡ take count self.old }
    {
        while self.len() > count {
            self.leave();
        }
    }
}
