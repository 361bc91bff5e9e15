//! Rows of a journal, brought to the last version.

ghost use Rattle.std.specs.Prelude.{◌≡◌, ◌<◌, ◌^◌, ℕ, length, IfOk, IsErrOf, Err};
ghost use Rattle.run_keeper.specs.Reads.{IsNoRow};
ghost use Rattle.run_keeper.specs.declared.error.RowFault.TheVariants.{NotARow};
ghost use Rattle.library_calls.specs.Renewals.{AreRenewed, IsFirstBad, IsRenewed};
ghost use Rattle.library_calls.specs.declared.migration.MigrateFault.TheVariants.{
  NotARow as BadRow,
  NoMemory as NoRoom,
};

use run_keeper::{RowFault, entry_of, row_text};
use std::alloc::{AllocError, Global};
use thiserror::Error;
use wdl_value::{Items, Text};

/// Why a list of strings is not brought to the last version.
#[derive(Clone, Copy, Debug, PartialEq, Eq, Error)]
pub enum MigrateFault {
    /// The string of that number, counted from 0, is the first that is no row's text.
    #[error("row {index} is no row of a journal")]
    NotARow { index: u32 },
    #[error("out of memory")]
    NoMemory,
}

impl From<AllocError> for MigrateFault {
    ghost from_gives = { λ _ e. e ≡ NoRoom };

    fn from(_e: AllocError) -> MigrateFault {
        MigrateFault::NoMemory
    }
}

/// The text in which the entry of a row's text is written.
fn renewed(alloc: Global, row: &Text) -> Result<Text, RowFault>
    ensures row { IfOk result (IsRenewed row.now) }
    ensures refused { IsErrOf result NotARow → IsNoRow row.now }
{
    let entry = entry_of(alloc, row.as_str())?;
    Ok(row_text(alloc, &entry)?)
}

/// Each row's text, replaced by that in which its entry is written, in order: version 2 where the
/// request reads and has neither attributes nor inputs, else version 3. It is `NotARow` exactly
/// where a text is no row's, with the number of the first such.
pub fn migrate(alloc: Global, rows: &[Text]) -> Result<Items<Text>, MigrateFault>
    requires { length rows.now < 2 ^ 32 }
    ensures value { IfOk result (AreRenewed rows.now) }
    ensures refused { (index : ℕ) → result ≡ Err (BadRow index) → IsFirstBad index rows.now }
{
    let mut all = Items::new(alloc);
    let mut index: u32 = 0;
    for row in rows {
        match renewed(alloc, row) {
            Ok(text) => all.push(text)?,
            Err(RowFault::NotARow) => return Err(MigrateFault::NotARow { index }),
            Err(RowFault::NoMemory) => return Err(MigrateFault::NoMemory),
        }
        index += 1;
    }
    Ok(all)
}
