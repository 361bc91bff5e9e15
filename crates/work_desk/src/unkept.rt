ghost use Rattle.std.specs.Prelude.{◌≡◌, [], false, Some, None};

use sqlite_items::Items;
use std::alloc::Global;
use wdl_port::{KeepFault, Keeper};
use wdl_value::{Entry, Text};

/// The keeper of a run whose journal is not kept: it tells nothing, never fails, and lets no row
/// lapse.
#[derive(Drop)]
pub(crate) struct Unkept {
    path: Option<Text>,
}

impl Unkept {
    /// Such a keeper, started on the empty path. It takes no memory.
    pub(crate) fn started(alloc: Global) -> Unkept
        ensures path { result.path ≡ Some [] }
    {
        Unkept {
            path: Some(Text::empty(alloc)),
        }
    }
}

impl Keeper for Unkept {
    ghost kept = { λ s. None };

    ghost path = { λ s. s.path };

    ghost faults = { λ s. 0 };

    ghost lapses = { λ s row. false };

    fn start(&mut self, alloc: Global, at: &str) -> Result<(), KeepFault> {
        self.path = Some(Text::from_plain(alloc, at)?);
        Ok(())
    }

    fn rows(&mut self, alloc: Global) -> Result<Items<Entry>, KeepFault> {
        Ok(Items::new(alloc))
    }

    fn put(&mut self, _alloc: Global, _entry: &Entry) -> Result<(), KeepFault> {
        Ok(())
    }

    fn stands(&mut self, _alloc: Global, _entry: &Entry) -> Result<bool, KeepFault> {
        Ok(true)
    }
}
