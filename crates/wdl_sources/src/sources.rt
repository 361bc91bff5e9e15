//! The documents that were read.

ghost use Rattle.std.specs.Prelude.{
  ◌≡◌,
  ◌<◌,
  ◌++◌,
  ◌∷◌,
  [],
  false,
  length,
  slice_get,
  Some,
  IfSome,
  IfNone,
  OnOk,
};
ghost use Rattle.wdl_base.specs.Names.{is_among};
ghost use Rattle.wdl_sources.specs.Walks as spec;

use crate::source::Source;
use indexmap::IndexMap;
use indexmap::map::IntoValues;
use std::alloc::Global;
use std::marker::Model;
use wdl_value::{NoMemory, Text};

/// Documents in the order in which they were read, each found by its path.
#[derive(Drop)]
pub struct Sources {
    by_path: IndexMap<String, Source>,
}

impl Model for Sources {
    ghost use Rattle.std.specs.Prelude.{◌≡◌, List, map, string_bytes};
    ghost use Rattle.std.specs.Coded.{coded_list};
    ghost use Rattle.indexmap.specs.IndexMap.{keys, values};
    ghost use Rattle.wdl_sources.specs.declared.source.Source.{Source};
    ghost use Rattle.wdl_sources.specs.contracts.source.Source as source;
    ghost use Rattle.wdl_sources.specs.Walks.{paths};

    ghost Value = { List Source };

    ghost coded = { coded_list source.the_row.coded };

    ghost view = { λ s. values s.by_path };

    ghost invariant = { λ s. map (λ k. string_bytes k) (keys s.by_path) ≡ paths (values s.by_path) };
}

impl Sources {
    /// No documents.
    pub(crate) fn empty(alloc: Global) -> Sources
        ensures { result ≡ [] }
    {
        Sources {
            by_path: IndexMap::new(alloc),
        }
    }

    /// How many documents there are.
    pub fn len(&self) -> usize
        ensures { result ≡ length self.now }
    {
        self.by_path.len()
    }

    /// The documents, in their order.
    pub fn as_slice(&self) -> &[Source]
        ensures { result.now ≡ self.now }
    {
        self.by_path.values().as_slice()
    }

    /// Whether a document was read at a path.
    pub(crate) fn has(&self, path: &Text) -> bool
        ensures { result ≡ is_among path.now (spec.paths self.now) }
    {
        self.by_path.contains_key(path.as_str())
    }

    /// The number of the document that was read at a path, if there is one.
    pub fn number_of(&self, path: &Text) -> Option<usize>
        ensures some { IfSome result (λ k. slice_get (spec.paths self.now) k ≡ Some path.now) }
        ensures within { IfSome result (λ k. k < length self.now) }
        ensures none { IfNone result (is_among path.now (spec.paths self.now) ≡ false) }
    {
        self.by_path.get_index_of(path.as_str())
    }

    /// Puts a document behind the others.
    pub(crate) fn push(&mut self, alloc: Global, source: Source) -> Result<(), NoMemory>
        requires { is_among source.path (spec.paths self.old) ≡ false }
        ensures { OnOk result (self.new ≡ self.old ++ source ∷ []) }
    {
        let path = String::from_str(alloc, source.path.as_str())?;
        self.by_path.insert(path, source)?;
        Ok(())
    }
}

impl IntoIterator for Sources {
    type Item = Source;

    type IntoIter = IntoValues<String, Source>;

    ghost into_iter_gives = { λ s r. r ≡ s };

    fn into_iter(self) -> IntoValues<String, Source> {
        let Sources { by_path } = self;
        by_path.into_values()
    }
}
