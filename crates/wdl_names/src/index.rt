ghost use Rattle.std.specs.Prelude.{◌≡◌, ◌++◌, ◌∷◌, [], length, is_some, OnOk, OnErr, MatchOption};
ghost use Rattle.std.specs.List.{find};
ghost use Rattle.std.specs.Option.{option_copied};
ghost use Rattle.wdl_typed.specs.Scope as scope;

use crate::key_places::KeyPlaces;
use crate::keyed::Keyed;
use crate::standing::keyed_at;
use std::alloc::Global;
use std::marker::Model;
use wdl_value::{Items, Key, NoMemory};

/// A list that grows, whose items are found by their keys in logarithmic time. Of two with one key
/// the first counts.
#[derive(Debug, Drop)]
pub struct Index<T: Keyed + Drop> {
    items: Items<T>,
    places: KeyPlaces,
}

impl<T: Keyed + Drop> Model for Index<T> {
    ghost use Rattle.std.specs.Prelude.{List};
    ghost use Rattle.std.specs.Coded.{coded_list};
    ghost use Rattle.wdl_base.specs.declared.name.Key.{Key};
    ghost use Rattle.wdl_typed.specs.Scope.{same_key};
    ghost use Rattle.wdl_names.specs.Firsts.{Finds};
    ghost use Rattle.wdl_names.specs.KeyTexts.{place_of};

    ghost Value = { List T };

    ghost coded = { coded_list T.code };

    ghost view = { λ s. s.items };

    ghost invariant = { λ s. Finds (λ (k : Key) (x : T). same_key (T.keyed x) k) (place_of s.places.alone s.places.outputs) s.items };
}

impl<T: Keyed + Drop> Index<T> {
    /// No items.
    pub fn empty(alloc: Global) -> Index<T>
        ensures { result ≡ [] }
    {
        Index {
            items: Items::new(alloc),
            places: KeyPlaces::empty(alloc),
        }
    }

    /// How many items there are.
    pub fn len(&self) -> usize
        ensures { result ≡ length self.now }
    {
        self.items.len()
    }

    /// The items, in the order in which they were added.
    pub fn as_slice(&self) -> &[T]
        ensures { result.now ≡ self.now }
    {
        self.items.as_slice()
    }

    /// The list of the items.
    pub fn into_items(self) -> Items<T>
        ensures { result ≡ self }
    {
        let Index { items, places } = self;
        drop(places);
        items
    }

    fn has(&self, key: &Key) -> bool
        ensures { result ≡ is_some (find (λ x. scope.same_key (T.keyed x) key.now) self.now) }
    {
        self.find(key).is_some()
    }

    /// Adds an item behind the others.
    pub(crate) fn add(&mut self, item: T) -> Result<(), NoMemory>
        ensures ok { OnOk result (self.new ≡ self.old ++ item ∷ []) }
        ensures err { OnErr result (self.new ≡ self.old) }
    {
        let place = self.items.len();
        let known = self.has(item.key());
        self.places.put_new(item.key(), place, known)?;
        self.items.push(item)?;
        Ok(())
    }

    /// Adds an item behind the others.
    pub fn push(&mut self, item: T) -> Result<(), NoMemory>
        ensures { OnOk result (self.new ≡ self.old ++ item ∷ []) }
    {
        self.add(item)
    }

    /// Takes the last item away.
    pub fn pop(&mut self) -> Option<T>
        ensures { MatchOption result ((self.old ≡ []) × (self.new ≡ [])) (λ last. self.old ≡ self.new ++ last ∷ []) }
    {
        self.items.pop()
    }

    /// The first item of that key.
    pub fn find(&self, key: &Key) -> Option<&T>
        ensures { option_copied result ≡ find (λ x. scope.same_key (T.keyed x) key.now) self.now }
    {
        let place = self.places.get(key);
        keyed_at(self.items.as_slice(), place, key)
    }
}
