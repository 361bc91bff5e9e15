ghost use Rattle.std.specs.Prelude.{
  ◌≡◌,
  [],
  true,
  false,
  not,
  Some,
  None,
  IsSome,
  IfOk,
  OnOk,
  OnErr,
  IsErrOf,
};
ghost use Rattle.wdl_base.specs.Plain.{has_nul};
ghost use Rattle.wdl_port.specs.Causes.{HasCauseOf};
ghost use Rattle.wdl_port.specs.Memory.{FailsAs, counted, has_place as spec_has, is_listed as spec_is};
ghost use Rattle.wdl_port.specs.Rows.{are_kept, put_row as spec_put, kept_row, rises};

use crate::fault::KeepFault;
use crate::keeper::Keeper;
use crate::listed::{has_place, is_listed};
use crate::row::{copy_rows, put_row, row_of};
use sqlite_items::Items;
use std::alloc::Global;
use wdl_value::{Entry, Place, Text};

/// A journal in memory, which tells its rows. The calls with the listed numbers fail, and no other
/// one; calls are numbered from 1. The entries of the places in `lapsed` lapse, and no other one. A
/// `put` looks its place up by halves, and `stands` goes over `lapsed`.
#[derive(Debug, Drop)]
pub struct MapKeeper {
    pub rows: Vec<Entry>,
    pub fails: Items<u64>,
    pub lapsed: Items<Place>,
    pub path: Option<Text>,
    pub calls: u64,
    pub faults: u64,
    pub ghost rise: { rises rows.items ≡ true },
    pub ghost sources: { are_kept rows.items ≡ true },
}

impl MapKeeper {
    /// A keeper without rows that was not started, in which nothing lapses. It takes no memory.
    pub fn new(alloc: Global, fails: Items<u64>) -> MapKeeper
        ensures rows { result.rows.items ≡ [] }
        ensures fails { result.fails ≡ fails }
        ensures lapsed { result.lapsed ≡ [] }
        ensures path { result.path ≡ None }
        ensures calls { result.calls ≡ 0 }
        ensures faults { result.faults ≡ 0 }
    {
        MapKeeper {
            rows: Vec::new(alloc),
            fails,
            lapsed: Items::new(alloc),
            path: None,
            calls: 0,
            faults: 0,
        }
    }

    /// A keeper with the same rows and lapsed places that was not started. Its calls are numbered
    /// from 1 again. It takes no memory.
    pub fn again(self, fails: Items<u64>) -> MapKeeper
        ensures rows { result.rows.items ≡ self.rows.items }
        ensures fails { result.fails ≡ fails }
        ensures lapsed { result.lapsed ≡ self.lapsed }
        ensures path { result.path ≡ None }
        ensures calls { result.calls ≡ 0 }
        ensures faults { result.faults ≡ 0 }
    {
        MapKeeper {
            rows: self.rows,
            fails,
            lapsed: self.lapsed,
            path: None,
            calls: 0,
            faults: 0,
        }
    }

    /// The same keeper, in which the entries of these places lapse, and no other one. It takes no
    /// memory.
    pub fn with_lapsed(self, lapsed: Items<Place>) -> MapKeeper
        ensures rows { result.rows.items ≡ self.rows.items }
        ensures fails { result.fails ≡ self.fails }
        ensures lapsed { result.lapsed ≡ lapsed }
        ensures path { result.path ≡ self.path }
        ensures calls { result.calls ≡ self.calls }
        ensures faults { result.faults ≡ self.faults }
    {
        MapKeeper {
            rows: self.rows,
            fails: self.fails,
            lapsed,
            path: self.path,
            calls: self.calls,
            faults: self.faults,
        }
    }
}

impl Keeper for MapKeeper {
    ghost kept = { λ s. Some s.rows.items };

    ghost lapses = { λ s e. spec_has e.request.place s.lapsed };

    ghost path = { λ s. s.path };

    ghost faults = { λ s. s.faults };

    fn start(&mut self, alloc: Global, at: &str) -> Result<(), KeepFault>
        requires fresh { self.old.path ≡ None }
        requires plain { has_nul at.now ≡ false }
        ensures started { OnOk result (self.new.path ≡ Some at.now) }
        ensures started_too { IsErrOf result KeepFault.Failed → self.new.path ≡ Some at.now }
        ensures not_started { IsErrOf result KeepFault.NoMemory → self.new.path ≡ None }
        ensures rows { self.new.rows.items ≡ self.old.rows.items }
        ensures calls { self.new.calls ≡ counted self.old.calls }
        ensures lists { (self.new.fails ≡ self.old.fails) × (self.new.lapsed ≡ self.old.lapsed) }
        ensures fails { FailsAs (spec_is self.new.calls self.old.fails) result }
        ensures cause { HasCauseOf self.old.faults self.new.faults result KeepFault.Failed }
    {
        self.calls = self.calls.saturating_add(1);
        self.path = Some(Text::from_plain(alloc, at)?);
        if is_listed(self.calls, self.fails.as_slice()) {
            self.faults = self.faults.saturating_add(1);
            return Err(KeepFault::Failed);
        }
        Ok(())
    }

    fn rows(&mut self, alloc: Global) -> Result<Items<Entry>, KeepFault>
        requires { IsSome self.old.path }
        ensures told { IfOk result (λ all. all ≡ self.old.rows.items) }
        ensures rows { self.new.rows.items ≡ self.old.rows.items }
        ensures path { self.new.path ≡ self.old.path }
        ensures calls { self.new.calls ≡ counted self.old.calls }
        ensures lists { (self.new.fails ≡ self.old.fails) × (self.new.lapsed ≡ self.old.lapsed) }
        ensures fails { FailsAs (spec_is self.new.calls self.old.fails) result }
        ensures cause { HasCauseOf self.old.faults self.new.faults result KeepFault.Failed }
    {
        self.calls = self.calls.saturating_add(1);
        if is_listed(self.calls, self.fails.as_slice()) {
            self.faults = self.faults.saturating_add(1);
            return Err(KeepFault::Failed);
        }
        Ok(copy_rows(alloc, self.rows.as_slice())?)
    }

    #[tactic(auto, using(crate::proofs::RowLemmas::rises_put, crate::proofs::RowLemmas::kept_put))]
    fn put(&mut self, alloc: Global, entry: &Entry) -> Result<(), KeepFault>
        requires { IsSome self.old.path }
        ensures kept { OnOk result (self.new.rows.items ≡ spec_put (kept_row entry.now) self.old.rows.items) }
        ensures left { OnErr result (self.new.rows.items ≡ self.old.rows.items) }
        ensures path { self.new.path ≡ self.old.path }
        ensures calls { self.new.calls ≡ counted self.old.calls }
        ensures lists { (self.new.fails ≡ self.old.fails) × (self.new.lapsed ≡ self.old.lapsed) }
        ensures fails { FailsAs (spec_is self.new.calls self.old.fails) result }
        ensures cause { HasCauseOf self.old.faults self.new.faults result KeepFault.Failed }
    {
        self.calls = self.calls.saturating_add(1);
        if is_listed(self.calls, self.fails.as_slice()) {
            self.faults = self.faults.saturating_add(1);
            return Err(KeepFault::Failed);
        }
        let row = row_of(alloc, entry)?;
        Ok(put_row(alloc, row, &mut self.rows)?)
    }

    fn stands(&mut self, _alloc: Global, entry: &Entry) -> Result<bool, KeepFault>
        requires { IsSome self.old.path }
        ensures value { IfOk result (λ b. b ≡ not (spec_has entry.now.request.place self.old.lapsed)) }
        ensures rows { self.new.rows.items ≡ self.old.rows.items }
        ensures path { self.new.path ≡ self.old.path }
        ensures calls { self.new.calls ≡ counted self.old.calls }
        ensures lists { (self.new.fails ≡ self.old.fails) × (self.new.lapsed ≡ self.old.lapsed) }
        ensures fails { FailsAs (spec_is self.new.calls self.old.fails) result }
        ensures cause { HasCauseOf self.old.faults self.new.faults result KeepFault.Failed }
    {
        self.calls = self.calls.saturating_add(1);
        if is_listed(self.calls, self.fails.as_slice()) {
            self.faults = self.faults.saturating_add(1);
            return Err(KeepFault::Failed);
        }
        Ok(!has_place(entry.request.place.as_slice(), self.lapsed.as_slice()))
    }
}
