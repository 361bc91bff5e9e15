ghost use Rattle.std.specs.Prelude.{◌≡◌, Some, None, if◌then◌else◌, OnOk, OnErr};
ghost use Rattle.std.specs.BTreeMap.{get_by_text};
ghost use Rattle.std.specs.Option.{option_copied};
ghost use Rattle.wdl_base.specs.declared.name.Key.{Key};
ghost use Rattle.wdl_typed.specs.Scope as scope;
ghost use Rattle.wdl_names.specs.KeyTexts as spec;

use crate::name_places::NamePlaces;
use std::alloc::Global;
use std::collections::BTreeMap;
use wdl_value::{Key, Name, NoMemory};

/// Where keys stand, found by the text of the first name and then by that of the second, each in
/// logarithmic time.
#[derive(Debug, Drop)]
pub(crate) struct KeyPlaces {
    alloc: Global,
    alone: NamePlaces,
    outputs: BTreeMap<String, NamePlaces>,
}

impl KeyPlaces {
    pub(crate) fn empty(alloc: Global) -> KeyPlaces {
        KeyPlaces {
            alloc,
            alone: NamePlaces::empty(alloc),
            outputs: BTreeMap::new(alloc),
        }
    }

    fn outputs_of(&self, call: &Name) -> Option<&NamePlaces>
        ensures { option_copied result ≡ get_by_text self.now.outputs call.now }
    {
        self.outputs.get(call.as_str())
    }

    fn output(&self, call: &Name, name: &Name) -> Option<usize>
        ensures { result ≡ spec.place_under self.now.alone self.now.outputs call.now (Some name.now) }
    {
        match self.outputs_of(call) {
            Some(outputs) => outputs.get(name),
            None => None,
        }
    }

    /// Where the key was put last.
    pub(crate) fn get(&self, key: &Key) -> Option<usize>
        ensures { result ≡ spec.place_of self.now.alone self.now.outputs key.now }
    {
        match &key.second {
            None => self.alone.get(&key.first),
            Some(second) => self.output(&key.first, second),
        }
    }

    fn put_output(&mut self, first: &Name, second: &Name, place: usize) -> Result<(), NoMemory>
        ensures ok { OnOk result ((key : Key) → spec.place_of self.new.alone self.new.outputs key ≡ (if spec.is_output first.now second.now key then Some place else spec.place_of self.old.alone self.old.outputs key)) }
        ensures err { OnErr result ((key : Key) → spec.place_of self.new.alone self.new.outputs key ≡ spec.place_of self.old.alone self.old.outputs key) }
    {
        if let Some(outputs) = self.outputs.get_mut(first.as_str()) {
            return outputs.put(second, place);
        }
        let mut outputs = NamePlaces::empty(self.alloc);
        outputs.put(second, place)?;
        let text = String::from_str(self.alloc, first.as_str())?;
        self.outputs.insert(text, outputs)?;
        Ok(())
    }

    /// Puts a copy of the key at a place.
    pub(crate) fn put(&mut self, key: &Key, place: usize) -> Result<(), NoMemory>
        ensures ok { OnOk result ((other : Key) → spec.place_of self.new.alone self.new.outputs other ≡ (if scope.same_key key.now other then Some place else spec.place_of self.old.alone self.old.outputs other)) }
        ensures err { OnErr result ((other : Key) → spec.place_of self.new.alone self.new.outputs other ≡ spec.place_of self.old.alone self.old.outputs other) }
    {
        match &key.second {
            None => self.alone.put(&key.first, place),
            Some(second) => self.put_output(&key.first, second, place),
        }
    }

    /// Puts a copy of the key at a place, unless it is known.
    pub(crate) fn put_new(&mut self, key: &Key, place: usize, known: bool) -> Result<(), NoMemory>
        ensures ok { OnOk result ((other : Key) → spec.place_of self.new.alone self.new.outputs other ≡ (if known then spec.place_of self.old.alone self.old.outputs other else if scope.same_key key.now other then Some place else spec.place_of self.old.alone self.old.outputs other)) }
        ensures err { OnErr result ((other : Key) → spec.place_of self.new.alone self.new.outputs other ≡ spec.place_of self.old.alone self.old.outputs other) }
    {
        if known {
            return Ok(());
        }
        self.put(key, place)
    }
}
