ghost use Rattle.std.specs.Prelude.{◌≡◌, [], Some, None, Err, false, IsErrOf, OnOk};
ghost use Rattle.wdl_base.specs.Plain.{has_nul};
ghost use Rattle.wdl_port.specs.Causes.{HasCauseOf};

use crate::fault::KeepFault;
use crate::keeper::Keeper;
use sqlite_items::Items;
use std::alloc::Global;
use wdl_value::{Entry, Text};

/// A keeper without rows. It counts a fault at each call.
#[derive(Debug, Drop)]
pub struct NoKeeper {
    pub path: Option<Text>,
    pub faults: u64,
}

impl NoKeeper {
    /// A keeper that was not started. It takes no memory.
    pub fn new() -> NoKeeper
        ensures path { result.path ≡ None }
        ensures faults { result.faults ≡ 0 }
    {
        NoKeeper {
            path: None,
            faults: 0,
        }
    }
}

impl Keeper for NoKeeper {
    ghost kept = { λ s. Some [] };

    ghost lapses = { λ s e. false };

    ghost path = { λ s. s.path };

    ghost faults = { λ s. s.faults };

    fn start(&mut self, alloc: Global, at: &str) -> Result<(), KeepFault>
        requires fresh { self.old.path ≡ None }
        requires plain { has_nul at.now ≡ false }
        ensures fails { OnOk result ⊥ }
        ensures started_too { IsErrOf result KeepFault.Failed → self.new.path ≡ Some at.now }
        ensures not_started { IsErrOf result KeepFault.NoMemory → self.new.path ≡ None }
        ensures cause { HasCauseOf self.old.faults self.new.faults result KeepFault.Failed }
    {
        self.path = Some(Text::from_plain(alloc, at)?);
        self.faults = self.faults.saturating_add(1);
        Err(KeepFault::Failed)
    }

    fn rows(&mut self, _alloc: Global) -> Result<Items<Entry>, KeepFault>
        ensures fails { result ≡ Err KeepFault.Failed }
        ensures path { self.new.path ≡ self.old.path }
        ensures cause { HasCauseOf self.old.faults self.new.faults result KeepFault.Failed }
    {
        self.faults = self.faults.saturating_add(1);
        Err(KeepFault::Failed)
    }

    fn put(&mut self, _alloc: Global, _entry: &Entry) -> Result<(), KeepFault>
        ensures fails { result ≡ Err KeepFault.Failed }
        ensures path { self.new.path ≡ self.old.path }
        ensures cause { HasCauseOf self.old.faults self.new.faults result KeepFault.Failed }
    {
        self.faults = self.faults.saturating_add(1);
        Err(KeepFault::Failed)
    }

    fn stands(&mut self, _alloc: Global, _entry: &Entry) -> Result<bool, KeepFault>
        ensures fails { result ≡ Err KeepFault.Failed }
        ensures path { self.new.path ≡ self.old.path }
        ensures cause { HasCauseOf self.old.faults self.new.faults result KeepFault.Failed }
    {
        self.faults = self.faults.saturating_add(1);
        Err(KeepFault::Failed)
    }
}
