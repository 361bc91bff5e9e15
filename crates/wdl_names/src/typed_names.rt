ghost use Rattle.std.specs.Prelude.{
  ◌≡◌,
  ◌++◌,
  ◌∷◌,
  [],
  length,
  take,
  option_and_then,
  option_map,
  slice_get,
  OnOk,
  OnErr,
  MatchOption,
};
ghost use Rattle.std.specs.Option.{option_copied};
ghost use Rattle.wdl_typed.specs.Scope as scope;
ghost use Rattle.wdl_typed.specs.declared.scope.Bound.{Bound};
ghost use Rattle.wdl_names.specs.Firsts.{passes};
ghost use Rattle.wdl_names.specs.Names as spec;

use crate::index::Index;
use crate::keyed::Keyed;
use crate::name_places::NamePlaces;
use std::alloc::Global;
use std::marker::Model;
use wdl_typed::Bound;
use wdl_value::{Key, Name, NoMemory, Ty};

/// The names that an expression may refer to, with their types, found by a look-up in logarithmic
/// time. Of two with one key the first counts.
#[derive(Debug, Drop)]
pub struct TypedNames {
    bounds: Index<Bound>,
    calls: NamePlaces,
}

impl Model for TypedNames {
    ghost use Rattle.std.specs.Prelude.{List};
    ghost use Rattle.std.specs.BTreeMap.{get_by_text};
    ghost use Rattle.wdl_typed.specs.declared.scope.Bound.{Bound};
    ghost use Rattle.wdl_names.specs.Firsts.{Finds};
    ghost use Rattle.wdl_names.specs.Names.{is_call_of};

    ghost Value = { List Bound };

    ghost use Rattle.std.specs.Coded.{coded_list};
    ghost use Rattle.wdl_typed.specs.contracts.scope.Bound as bound;

    ghost coded = { coded_list bound.the_row.coded };

    ghost view = { λ n. n.bounds };

    ghost invariant = { λ n. Finds is_call_of (get_by_text n.calls.places) n.bounds };
}

impl Keyed for Bound {
    ghost keyed = { λ b. b.key };

    fn key(&self) -> &Key {
        &self.key
    }
}

fn is_output_of(key: &Key, name: &Name) -> bool
    ensures { result ≡ spec.is_output_of key.now.first key.now.second name.now }
{
    key.second.is_some() && key.first.same(name)
}

/// Whether an output of a call of that name stands at the place.
fn stands(bounds: &[Bound], place: Option<usize>, name: &Name) -> bool
    ensures { result ≡ passes (spec.is_call_of name.now) (option_and_then (slice_get bounds.now) place) }
{
    let Some(place) = place else {
        return false;
    };
    match bounds.get(place) {
        Some(bound) => is_output_of(&bound.key, name),
        None => false,
    }
}

fn ty_of(bound: Option<&Bound>) -> Option<&Ty>
    ensures { option_copied result ≡ option_map (λ (b : Bound). b.ty) (option_copied bound.entry) }
{
    match bound {
        Some(bound) => Some(&bound.ty),
        None => None,
    }
}

impl TypedNames {
    /// No names.
    pub fn empty(alloc: Global) -> TypedNames
        ensures { result ≡ [] }
    {
        TypedNames {
            bounds: Index::empty(alloc),
            calls: NamePlaces::empty(alloc),
        }
    }

    /// How many names there are.
    pub fn len(&self) -> usize
        ensures { result ≡ length self.now }
    {
        self.bounds.len()
    }

    /// Whether the key is no output of a call, or one of a call that is there.
    fn is_known(&self, key: &Key) -> bool
        ensures { result ≡ spec.is_known self.now key.now.first key.now.second }
    {
        match &key.second {
            None => true,
            Some(_) => self.is_call(&key.first),
        }
    }

    /// Adds a name behind the others.
    pub fn enter(&mut self, bound: Bound) -> Result<(), NoMemory>
        ensures ok { OnOk result (self.new ≡ self.old ++ bound ∷ []) }
        ensures err { OnErr result (self.new ≡ self.old) }
    {
        let place = self.bounds.len();
        let known = self.is_known(&bound.key);
        self.calls.put_new(&bound.key.first, place, known)?;
        self.bounds.add(bound)
    }

    /// Takes the last name away.
    pub fn leave(&mut self) -> Option<Bound>
        ensures { MatchOption result ((self.old ≡ []) × (self.new ≡ [])) (λ last. self.old ≡ self.new ++ last ∷ []) }
    {
        self.bounds.pop()
    }

    /// Takes the last names away until there are at most that many.
    pub fn keep(&mut self, count: usize)
        ensures { self.new ≡ take count self.old }
    {
        while self.len() > count {
            self.leave();
        }
    }

    /// The type of the first name of that key.
    pub fn type_of(&self, key: &Key) -> Option<&Ty>
        ensures { option_copied result ≡ scope.type_in self.now key.now }
    {
        ty_of(self.bounds.find(key))
    }

    /// Whether one of the names is an output of a call of that name.
    pub fn is_call(&self, name: &Name) -> bool
        ensures { result ≡ spec.is_call self.now name.now }
    {
        let place = self.calls.get(name);
        stands(self.bounds.as_slice(), place, name)
    }
}
