ghost use Rattle.std.specs.Prelude.{
  ◌≡◌,
  ℕ,
  List,
  Option,
  Some,
  None,
  Ok,
  Bool,
  true,
  false,
  IfOk,
  OnOk,
  OnErr,
  IsErrOf,
  IsSome,
};
ghost use Rattle.wdl_port.specs.Causes.{HasCauseOf};
ghost use Rattle.wdl_port.specs.Rows.{are_kept, rises, with_entry, ToldRise, AreRows};
ghost use Rattle.wdl_base.specs.Plain.{has_nul};
ghost use Rattle.wdl_base.specs.declared.entry.Entry.{Entry as Row};

use crate::fault::KeepFault;
use sqlite_items::Items;
use std::alloc::Global;
use wdl_value::Entry;

/// What keeps the journal of a run: its rows are entries with the source `Kept`, at most one for a
/// place and attempt, in strictly rising order of the text of the place and then of the attempt.
///
/// `Failed` comes only where the count of faults rose in that call, or stands at the last value of
/// `u64`. A call that fails, or that wants memory, leaves the rows as they were. No call changes
/// which entries lapse.
pub trait Keeper {
    /// The rows, where the keeper tells them.
    ghost kept: { Self → Option (List Row) };

    /// Whether an entry may no longer stand for its files.
    ghost lapses: { Self → Row → Bool };

    /// The path on which it was started, if any.
    ghost path: { Self → Option (List ℕ) };

    /// How often it has failed.
    ghost faults: { Self → ℕ };

    /// Begins the use of the journal of that path. From then on the keeper is started on this path,
    /// after `Failed` too; after `NoMemory` it is not started.
    fn start(&mut self, alloc: Global, at: &str) -> Result<(), KeepFault>
        requires fresh { path self.old ≡ None }
        requires plain { has_nul at.now ≡ false }
        ensures started { OnOk result (path self.new ≡ Some at.now) }
        ensures started_too { IsErrOf result KeepFault.Failed → path self.new ≡ Some at.now }
        ensures not_started { IsErrOf result KeepFault.NoMemory → path self.new ≡ None }
        ensures rows { kept self.new ≡ kept self.old }
        ensures rise { ToldRise (kept self.new) }
        ensures lapses { lapses self.new ≡ lapses self.old }
        ensures cause { HasCauseOf (faults self.old) (faults self.new) result KeepFault.Failed };

    /// The rows of a keeper that was started, in their order.
    fn rows(&mut self, alloc: Global) -> Result<Items<Entry>, KeepFault>
        requires { IsSome (path self.old) }
        ensures told { IfOk result (AreRows (kept self.old)) }
        ensures order { IfOk result (λ all. rises all ≡ true) }
        ensures sources { IfOk result (λ all. are_kept all ≡ true) }
        ensures rows { kept self.new ≡ kept self.old }
        ensures path { path self.new ≡ path self.old }
        ensures lapses { lapses self.new ≡ lapses self.old }
        ensures cause { HasCauseOf (faults self.old) (faults self.new) result KeepFault.Failed };

    /// Replaces the row of the entry's place and attempt, or adds it, in a keeper that was started.
    /// No other row is changed. The row is the entry with the source `Kept`.
    fn put(&mut self, alloc: Global, entry: &Entry) -> Result<(), KeepFault>
        requires { IsSome (path self.old) }
        ensures kept { OnOk result (kept self.new ≡ with_entry (kept self.old) entry.now) }
        ensures left { OnErr result (kept self.new ≡ kept self.old) }
        ensures rise { ToldRise (kept self.new) }
        ensures path { path self.new ≡ path self.old }
        ensures lapses { lapses self.new ≡ lapses self.old }
        ensures cause { HasCauseOf (faults self.old) (faults self.new) result KeepFault.Failed };

    /// Whether the files of an entry are still those of which its row speaks, in a keeper that was
    /// started. It may be `true` for an entry that lapses, and is `false` for no other one.
    fn stands(&mut self, alloc: Global, entry: &Entry) -> Result<bool, KeepFault>
        requires { IsSome (path self.old) }
        ensures lapsed { result ≡ Ok false → lapses self.old entry.now ≡ true }
        ensures rows { kept self.new ≡ kept self.old }
        ensures path { path self.new ≡ path self.old }
        ensures lapses { lapses self.new ≡ lapses self.old }
        ensures cause { HasCauseOf (faults self.old) (faults self.new) result KeepFault.Failed };
}
