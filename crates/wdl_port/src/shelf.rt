ghost use Rattle.std.specs.Prelude.{◌≡◌, ◌↔◌, ℕ, List, Option, IfOk, IsErrOf, OnOk};
ghost use Rattle.wdl_port.specs.Causes.{HasCauseOf};
ghost use Rattle.wdl_port.specs.Files.{IsFile};
ghost use Rattle.wdl_port.specs.declared.fault.ReadFault.TheVariants as read;

use crate::fault::ReadFault;
use sqlite_items::Items;
use std::alloc::Global;

/// Files by path. No call changes what it tells of them, nor which paths it refuses; its count of
/// faults never falls.
pub trait Shelf {
    /// The bytes of the file at a path, where the shelf tells them.
    ghost tells: { Self → List ℕ → Option (List ℕ) };

    /// The paths that it may fail to read.
    ghost refuses: { Self → List ℕ → Type 0 };

    /// How often it has failed.
    ghost faults: { Self → ℕ };

    /// The bytes of the file, cut after the first 1,048,577. `Failed` comes only for a path that
    /// the shelf refuses, and only where the count of faults rose in this call, or stands at the
    /// last value of `u64`.
    fn read(&mut self, alloc: Global, path: &str) -> Result<Items<u8>, ReadFault>
        ensures bytes { IfOk result (IsFile (tells self.old path.now)) }
        ensures refused { IsErrOf result ReadFault.Failed → refuses self.old path.now }
        ensures cause { HasCauseOf (faults self.old) (faults self.new) result ReadFault.Failed }
        ensures counted { OnOk result (faults self.new ≡ faults self.old) }
        ensures same_files { (p : List ℕ) → tells self.new p ≡ tells self.old p }
        ensures same_refusals { (p : List ℕ) → refuses self.new p ↔ refuses self.old p };
}
