ghost use Rattle.std.specs.Prelude.{◌≡◌, ℕ, List, Some, None, if◌then◌else◌, OnOk, OnErr};
ghost use Rattle.std.specs.BTreeMap.{get_by_text};
ghost use Rattle.std.specs.Str.{bytes_eq};

use std::alloc::Global;
use std::collections::BTreeMap;
use wdl_value::{Name, NoMemory};

/// Where names stand, found by their text: a look-up compares no more names than the logarithm of
/// their count, whatever they are. No hash stands for a name, so a document has no names by which a
/// look-up takes longer.
#[derive(Debug, Drop)]
pub(crate) struct NamePlaces {
    alloc: Global,
    places: BTreeMap<String, usize>,
}

impl NamePlaces {
    pub(crate) fn empty(alloc: Global) -> NamePlaces
        ensures { (name : List ℕ) → get_by_text result.places name ≡ None }
    {
        NamePlaces {
            alloc,
            places: BTreeMap::new(alloc),
        }
    }

    /// Where the name was put last.
    pub(crate) fn get(&self, name: &Name) -> Option<usize>
        ensures { result ≡ get_by_text self.now.places name.now }
    {
        self.places.get(name.as_str()).copied()
    }

    /// Puts a copy of the name at a place.
    pub(crate) fn put(&mut self, name: &Name, place: usize) -> Result<(), NoMemory>
        ensures ok { OnOk result ((other : List ℕ) → get_by_text self.new.places other ≡ (if bytes_eq name.now other then Some place else get_by_text self.old.places other)) }
        ensures err { OnErr result ((other : List ℕ) → get_by_text self.new.places other ≡ get_by_text self.old.places other) }
    {
        let text = String::from_str(self.alloc, name.as_str())?;
        self.places.insert(text, place)?;
        Ok(())
    }

    /// Puts a copy of the name at a place, unless it is known.
    pub(crate) fn put_new(&mut self, name: &Name, place: usize, known: bool) -> Result<(), NoMemory>
        ensures ok { OnOk result ((other : List ℕ) → get_by_text self.new.places other ≡ (if known then get_by_text self.old.places other else if bytes_eq name.now other then Some place else get_by_text self.old.places other)) }
        ensures err { OnErr result ((other : List ℕ) → get_by_text self.new.places other ≡ get_by_text self.old.places other) }
    {
        if known {
            return Ok(());
        }
        self.put(name, place)
    }
}
