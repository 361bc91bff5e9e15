ghost use Rattle.std.specs.Prelude.{◌≡◌, true, IfOk};
ghost use Rattle.wdl_port.specs.Rows.{are_kept};

use crate::rows::{Stored, entry_in};
use crate::trouble::Trouble;
use sqlite::types::ValueRef;
use sqlite::{Connection, Error, File, FileStore, Row, Rows};
use sqlite_items::Items;
use std::alloc::Global;
use std::rt::HostRuntime;
use wdl_value::Entry;

/// The rows in the order of the bytes of the place and then of the attempt.
const READ: &str = "SELECT place, attempt, body FROM entry ORDER BY place, attempt";

/// A SQLite file and the log beside it, which no other process can open meanwhile. What a call
/// changed is on the disk when the call returns, and stays there if the process is killed.
///
/// No function outside this file holds a value of `sqlite`, so the drops of its types are proved
/// once.
pub struct Database {
    conn: Connection<FileStore<File>>,
}

impl Drop for Database {
    fn drop(self) {
        let Database { conn } = self;
        // The log is copied into the file. Where that fails, the next open reads the log.
        let _ = conn.close();
    }
}

impl Database {
    /// Opens the file of a path, or makes it. It fails where another process has the file open.
    pub fn open(rt: &HostRuntime, path: &str) -> Result<Database, Trouble> {
        Ok(Database {
            conn: Connection::open(rt, path)?,
        })
    }

    /// Runs a statement that shows no rows, and returns the number of rows that it changed.
    pub fn execute(&mut self, sql: &str, values: &[ValueRef<'_>]) -> Result<usize, Trouble> {
        Ok(self.conn.execute(sql, values)?)
    }

    /// Returns the text in the first column of a query's first row, if there is a row.
    pub fn text(&mut self, sql: &str, values: &[ValueRef<'_>]) -> Result<Option<String>, Trouble> {
        match self.conn.query_row(sql, values) {
            Ok(row) => Ok(Some(row.get(0)?)),
            Err(Error::QueryReturnedNoRows) => Ok(None),
            Err(e) => Err(Trouble::from(e)),
        }
    }

    /// Returns the number in the first column of a query's first row.
    pub fn number(&mut self, sql: &str, values: &[ValueRef<'_>]) -> Result<i64, Trouble> {
        Ok(self.conn.query_row(sql, values)?.get(0)?)
    }
}

fn query(database: &mut Database) -> Result<Rows<'_, FileStore<File>>, Error> {
    database.conn.query(READ, &[])
}

fn take(row: &Row) -> Result<Stored, Error> {
    Ok(Stored {
        place: row.get(0)?,
        attempt: row.get(1)?,
        body: row.get(2)?,
    })
}

/// Returns the next row of the table, if there is one.
fn next_row(rows: &mut Rows<'_, FileStore<File>>) -> Result<Option<Stored>, Trouble> {
    match rows.next()? {
        Some(row) => Ok(Some(take(row)?)),
        None => Ok(None),
    }
}

/// Returns the entries of all rows of the table.
#[tactic(auto, using(crate::proofs::Kept::kept_push))]
pub(crate) fn read_all(alloc: Global, database: &mut Database) -> Result<Items<Entry>, Trouble>
    ensures { IfOk result (λ all. are_kept all ≡ true) }
{
    let mut rows = query(database)?;
    let mut all = Items::new(alloc);
    for _ in 0..u64::MAX {
        let Some(row) = next_row(&mut rows)? else {
            break;
        };
        all.push(entry_in(alloc, &row)?)?;
    }
    Ok(all)
}
