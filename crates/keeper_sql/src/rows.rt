ghost use Rattle.std.specs.Prelude.{◌≡◌, true, pos, string_bytes, IfOk};
ghost use Rattle.run_keeper.specs.RowText.{IsRowOf};
ghost use Rattle.wdl_base.specs.Places.{place_text as spec_text};
ghost use Rattle.wdl_base.specs.declared.entry.Source.TheVariants.{Kept};
ghost use Rattle.wdl_port.specs.Rows.{are_kept, rises as spec_rises};

use crate::database::{Database, read_all};
use crate::reason::Reason;
use crate::trouble::Trouble;
use run_keeper::{entry_of, row_text};
use sqlite::params;
use sqlite_items::Items;
use std::alloc::Global;
use wdl_port::rises;
use wdl_value::{Entry, place_text};

const PUT: &str = "INSERT OR REPLACE INTO entry (place, attempt, body) VALUES (?1, ?2, ?3)";

/// A row of the table.
#[derive(Drop)]
pub(crate) struct Stored {
    pub(crate) place: String,
    pub(crate) attempt: i64,
    pub(crate) body: String,
}

/// The entry of a row whose body is a row of a journal, of the same place and attempt.
pub(crate) fn entry_in(alloc: Global, row: &Stored) -> Result<Entry, Trouble>
    ensures row { IfOk result (IsRowOf (string_bytes row.now.body)) }
    ensures kept { IfOk result (λ e. e.source ≡ Kept) }
    ensures place { IfOk result (λ e. spec_text e.request.place ≡ string_bytes row.now.place) }
    ensures attempt { IfOk result (λ e. pos e.request.attempt ≡ row.now.attempt) }
{
    let entry = entry_of(alloc, row.body.as_str())?;
    let place = place_text(alloc, &entry.request.place)?;
    if place.is(row.place.as_str()) && i64::from(entry.request.attempt) == row.attempt {
        Ok(entry)
    } else {
        Err(Trouble::Failed(Reason::OtherRow))
    }
}

/// The entries of the table, in strictly rising order.
pub(crate) fn read(alloc: Global, database: &mut Database) -> Result<Items<Entry>, Trouble>
    ensures order { IfOk result (λ all. spec_rises all ≡ true) }
    ensures sources { IfOk result (λ all. are_kept all ≡ true) }
{
    let all = read_all(alloc, database)?;
    if rises(alloc, all.as_slice())? {
        Ok(all)
    } else {
        Err(Trouble::Failed(Reason::OtherRow))
    }
}

/// Writes the row of an entry. Outside a transaction it is on the disk when the call returns.
pub(crate) fn write(alloc: Global, database: &mut Database, entry: &Entry) -> Result<(), Trouble> {
    let place = place_text(alloc, &entry.request.place)?;
    let body = row_text(alloc, entry)?;
    let attempt = i64::from(entry.request.attempt);
    database.execute(PUT, params![place.as_str(), attempt, body.as_str()])?;
    Ok(())
}
