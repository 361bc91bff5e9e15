//! Journals in files: what is put is kept, old rows are rewritten, one keeper has a file alone, and
//! a file that is no journal is left as it is.
ghost use Rattle.std.specs.Prelude.{◌≡◌, None, false, OnOk, IsSome};
ghost use Rattle.wdl_base.specs.Plain.{has_nul};

use crate::want::Want;
use keeper_sql::{Database, KeeperNotes, SqlKeeper};
use run_keeper::{entry_of, row_text};
use sqlite::params;
use std::alloc::{AllocError, Global};
use std::fs::{Files, OpenOptions};
use std::io::Sink;
use std::rt::HostRuntime;
use std::test::Fail;
use std::{fs, io};
use wdl_port::{KeepFault, Keeper};
use wdl_value::{Entry, NoMemory, Source};

pub(crate) const TABLE: &str =
    "CREATE TABLE entry (place TEXT NOT NULL, attempt INTEGER NOT NULL, body TEXT NOT NULL, PRIMARY KEY (place, attempt)) STRICT";

const INSERT: &str = "INSERT INTO entry (place, attempt, body) VALUES ('say', ?1, ?2)";

const COUNT_OF: &str = "SELECT count(*) FROM entry WHERE attempt = ?1 AND body = ?2";

const COUNT_OF_ALL: &str = "SELECT count(*) FROM entry";

/// The row of a call that wrote `hi`.
const ROW: &str =
    "{\"attempt\":0,\"command\":\"echo hi\",\"dir\":\"/tmp/wdl-run/say\",\"err\":\"\",\"files\":[],\"laid\":[],\"out\":\"68690a\",\"place\":\"say\",\"status\":0,\"v\":2}";

/// The same in version 1, and a row of another attempt in version 2.
const OLD_AND_LATER: &str = "\
{\"command\":\"echo hi\",\"dir\":\"/tmp/wdl-run/say\",\"err\":\"\",\"files\":[],\"out\":\"68690a\",\"place\":\"say\",\"status\":0,\"v\":1}\n\
{\"attempt\":1,\"command\":\"echo hi\",\"dir\":\"/tmp/wdl-run/say\",\"err\":\"\",\"files\":[],\"laid\":[],\"out\":\"68690a\",\"place\":\"say\",\"status\":0,\"v\":2}\n";

/// What becomes of them.
const ROW_AND_LATER: &str = "\
{\"attempt\":0,\"command\":\"echo hi\",\"dir\":\"/tmp/wdl-run/say\",\"err\":\"\",\"files\":[],\"laid\":[],\"out\":\"68690a\",\"place\":\"say\",\"status\":0,\"v\":2}\n\
{\"attempt\":1,\"command\":\"echo hi\",\"dir\":\"/tmp/wdl-run/say\",\"err\":\"\",\"files\":[],\"laid\":[],\"out\":\"68690a\",\"place\":\"say\",\"status\":0,\"v\":2}\n";

/// Tables that are no journal's, one a line.
const TABLES: &str = "CREATE TABLE note (id INTEGER)\nCREATE TABLE entry (id INTEGER)";

/// Cases of rows that are no journal's, apart by semicolons: one with other members, the row in
/// version 1 beside such a one, a row of another place, and a row of another attempt.
const ROWS: &str = "\
{\"v\":2};\
{\"command\":\"echo hi\",\"dir\":\"/tmp/wdl-run/say\",\"err\":\"\",\"files\":[],\"out\":\"68690a\",\"place\":\"say\",\"status\":0,\"v\":1}\n\
{\"v\":2};\
{\"attempt\":0,\"command\":\"echo hi\",\"dir\":\"/tmp/wdl-run/say\",\"err\":\"\",\"files\":[],\"laid\":[],\"out\":\"68690a\",\"place\":\"tell\",\"status\":0,\"v\":2};\
{\"attempt\":1,\"command\":\"echo hi\",\"dir\":\"/tmp/wdl-run/say\",\"err\":\"\",\"files\":[],\"laid\":[],\"out\":\"68690a\",\"place\":\"say\",\"status\":0,\"v\":2}";

/// How many entries are put.
const COUNT: u32 = 1_000;

/// The row's text of the entry of that number in the order of a keeper: with four digits the order
/// of numbers is that of texts.
fn text(alloc: Global, item: u32, status: u8) -> Result<String, AllocError> {
    format!(in alloc;
        "{{\"attempt\":{},\"command\":\"\",\"dir\":\"/d\",\"err\":null,\"files\":[],\"laid\":[],\"out\":\"68690a\",\"place\":\"scatter-0/{}/say\",\"status\":{},\"v\":2}}",
        item % 2,
        1_000 + item / 2,
        status
    )
}

/// Puts that entry as one that was launched.
fn put(alloc: Global, keeper: &mut SqlKeeper<'_, Sink>, item: u32, status: u8) -> Result<(), Want>
    requires { IsSome keeper.old.path }
    ensures { OnOk result (IsSome keeper.new.path) }
{
    let text = text(alloc, item, status)?;
    let mut entry = entry_of(alloc, text.as_str())?;
    entry.source = Source::Launched;
    Ok(keeper.put(alloc, &entry)?)
}

/// Puts an answer of the first entry, and then all entries, the last first.
fn fill(alloc: Global, keeper: &mut SqlKeeper<'_, Sink>) -> Result<(), Want>
    requires { IsSome keeper.old.path }
    ensures { OnOk result (IsSome keeper.new.path) }
{
    put(alloc, keeper, 0, 3)?;
    for i in 0..COUNT {
        put(alloc, keeper, COUNT - 1 - i, 0)?;
    }
    Ok(())
}

fn is_entry(alloc: Global, item: u32, row: &Entry) -> Result<bool, NoMemory> {
    let text = text(alloc, item, 0)?;
    Ok(row.source == Source::Kept && row_text(alloc, row)?.is(text.as_str()))
}

/// Whether these rows are the entries, in their order.
fn are_entries(alloc: Global, rows: &[Entry]) -> Result<bool, NoMemory> {
    for i in 0..COUNT {
        let Some(row) = rows.get(i as usize) else {
            return Ok(false);
        };
        if !is_entry(alloc, i, row)? {
            return Ok(false);
        }
    }
    Ok(rows.len() == COUNT as usize)
}

/// Whether the keeper gives the entries.
fn keeps_entries(alloc: Global, keeper: &mut SqlKeeper<'_, Sink>) -> Result<bool, Want>
    requires { IsSome keeper.old.path }
{
    let rows = keeper.rows(alloc)?;
    Ok(are_entries(alloc, rows.as_slice())? && keeper.faults == 0)
}

/// An empty directory.
fn make_dir(rt: &HostRuntime, dir: &str) -> Result<(), Want> {
    // It may be there from a run that failed.
    let _ = fs::remove_dir_all(rt, dir);
    Ok(fs::create_dir(rt, dir)?)
}

/// Whether a keeper gives all entries that it was given.
fn keeps_what_is_put(rt: &HostRuntime) -> Result<bool, Want> {
    let mut keeper = SqlKeeper::new(rt, KeeperNotes::new(io::sink(), ""));
    keeper.start(rt.alloc(), "kept/j")?;
    fill(rt.alloc(), &mut keeper)?;
    keeps_entries(rt.alloc(), &mut keeper)
}

/// Whether the next keeper of the file gives them too.
fn keeps_what_was_put(rt: &HostRuntime) -> Result<bool, Want> {
    let mut keeper = SqlKeeper::new(rt, KeeperNotes::new(io::sink(), ""));
    keeper.start(rt.alloc(), "kept/j")?;
    keeps_entries(rt.alloc(), &mut keeper)
}

#[test]
fn a_thousand_entries_are_kept(rt: HostRuntime) -> Result<(), Fail> {
    make_dir(&rt, "kept")?;
    assert!(rt; keeps_what_is_put(&rt)? && keeps_what_was_put(&rt)?);
    Ok(fs::remove_dir_all(&rt, "kept")?)
}

/// Makes a database of a table, with a row of the place `say` for each of the bodies, one a line,
/// from attempt 0 on.
fn make_database(rt: &HostRuntime, at: &str, table: &str, bodies: &str) -> Result<(), Want> {
    let mut database = Database::open(rt, at)?;
    database.execute(table, &[])?;
    let mut attempt: i64 = 0;
    for body in bodies.lines() {
        database.execute(INSERT, params![attempt, body])?;
        attempt = attempt.saturating_add(1);
    }
    Ok(())
}

/// Whether these are the bodies of the rows, one a line, in the order of their attempts.
fn holds(rt: &HostRuntime, at: &str, bodies: &str) -> Result<bool, Want> {
    let mut database = Database::open(rt, at)?;
    let mut attempt: i64 = 0;
    for body in bodies.lines() {
        if database.number(COUNT_OF, params![attempt, body])? != 1 {
            return Ok(false);
        }
        attempt = attempt.saturating_add(1);
    }
    Ok(database.number(COUNT_OF_ALL, &[])? == attempt)
}

/// Whether a keeper of the file starts and gives so many rows.
fn gives_rows(rt: &HostRuntime, at: &str, count: usize) -> Result<bool, Want>
    requires { has_nul at.now ≡ false }
{
    let mut keeper = SqlKeeper::new(rt, KeeperNotes::new(io::sink(), ""));
    keeper.start(rt.alloc(), at)?;
    Ok(keeper.rows(rt.alloc())?.len() == count && keeper.faults == 0)
}

#[test]
fn old_rows_are_rewritten(rt: HostRuntime) -> Result<(), Fail> {
    make_dir(&rt, "old")?;
    make_database(&rt, "old/j", TABLE, OLD_AND_LATER)?;
    assert!(rt; gives_rows(&rt, "old/j", 2)? && holds(&rt, "old/j", ROW_AND_LATER)?);
    Ok(fs::remove_dir_all(&rt, "old")?)
}

/// Whether `start` on that path and then `rows` count a fault each.
fn counts_faults(alloc: Global, keeper: &mut SqlKeeper<'_, Sink>, at: &str) -> bool
    requires plain { has_nul at.now ≡ false }
    requires fresh { keeper.old.path ≡ None }
{
    match keeper.start(alloc, at) {
        Err(KeepFault::Failed) => {}
        _ => return false,
    }
    let first = keeper.faults;
    matches!(&keeper.rows(alloc), Err(KeepFault::Failed)) && first == 1 && keeper.faults == 2
}

/// Whether a second keeper cannot have the file of the first, which goes on.
fn has_it_alone(rt: &HostRuntime) -> Result<bool, Want> {
    let mut keeper = SqlKeeper::new(rt, KeeperNotes::new(io::sink(), ""));
    keeper.start(rt.alloc(), "one/j")?;
    put(rt.alloc(), &mut keeper, 0, 0)?;
    let is_refused = counts_faults(
        rt.alloc(),
        &mut SqlKeeper::new(rt, KeeperNotes::new(io::sink(), "")),
        "one/j",
    );
    put(rt.alloc(), &mut keeper, 1, 0)?;
    Ok(is_refused && keeper.faults == 0)
}

#[test]
fn one_keeper_has_a_file_alone(rt: HostRuntime) -> Result<(), Fail> {
    make_dir(&rt, "one")?;
    assert!(rt; has_it_alone(&rt)? && gives_rows(&rt, "one/j", 2)?);
    Ok(fs::remove_dir_all(&rt, "one")?)
}

/// Where a file that is no journal stands.
const BAD: &str = "bad/j";

/// Whether the file is refused, and left as it is.
fn is_refused(rt: &HostRuntime) -> Result<bool, Want> {
    let before = fs::read(rt, BAD)?;
    let refused = counts_faults(
        rt.alloc(),
        &mut SqlKeeper::new(rt, KeeperNotes::new(io::sink(), "")),
        BAD,
    );
    Ok(refused && fs::read(rt, BAD)?.as_slice() == before.as_slice())
}

/// The same of a database that is made of a table and the bodies of its rows, one a line.
fn is_foreign(rt: &HostRuntime, table: &str, bodies: &str) -> Result<bool, Want> {
    make_dir(rt, "bad")?;
    make_database(rt, BAD, table, bodies)?;
    is_refused(rt)
}

/// Whether a journal is refused once it was cut in the middle.
fn is_refused_when_cut(rt: &HostRuntime) -> Result<bool, Want> {
    make_dir(rt, "bad")?;
    make_database(rt, BAD, TABLE, ROW)?;
    let bytes = fs::read(rt, BAD)?;
    fs::write(rt, BAD, &bytes[..bytes.len() / 2])?;
    is_refused(rt)
}

/// Whether a journal that may not be written is refused; the superuser writes it all the same.
fn is_refused_when_read_only(rt: &HostRuntime) -> Result<bool, Want> {
    make_dir(rt, "bad")?;
    make_database(rt, BAD, TABLE, ROW)?;
    let mut permissions = fs::metadata(rt, BAD)?.permissions();
    permissions.set_readonly(true);
    rt.set_permissions(BAD, permissions)?;
    let is_writable = OpenOptions::new().append(true).open(rt, BAD).is_ok();
    Ok(is_writable || is_refused(rt)?)
}

/// Whether a text is refused.
fn is_refused_as_text(rt: &HostRuntime) -> Result<bool, Want> {
    make_dir(rt, "bad")?;
    fs::write(rt, BAD, "SQLite format, but no database")?;
    is_refused(rt)
}

/// Whether a folder is refused, and a path in no folder.
fn is_refused_as_folder(rt: &HostRuntime) -> Result<bool, Want> {
    make_dir(rt, "bad")?;
    fs::create_dir(rt, BAD)?;
    let is_folder_refused = counts_faults(
        rt.alloc(),
        &mut SqlKeeper::new(rt, KeeperNotes::new(io::sink(), "")),
        BAD,
    );
    Ok(
        is_folder_refused
            && counts_faults(
                rt.alloc(),
                &mut SqlKeeper::new(rt, KeeperNotes::new(io::sink(), "")),
                "bad/none/j",
            ),
    )
}

/// Whether each database of another table is refused.
fn is_refused_by_table(rt: &HostRuntime) -> Result<bool, Want> {
    for table in TABLES.lines() {
        if !is_foreign(rt, table, "")? {
            return Ok(false);
        }
    }
    Ok(true)
}

/// Whether a database of these rows is refused, and its table left as it is. An empty table of
/// stamps stands beside it then.
fn has_foreign_rows(rt: &HostRuntime, bodies: &str) -> Result<bool, Want> {
    make_dir(rt, "bad")?;
    make_database(rt, BAD, TABLE, bodies)?;
    let refused = counts_faults(
        rt.alloc(),
        &mut SqlKeeper::new(rt, KeeperNotes::new(io::sink(), "")),
        BAD,
    );
    Ok(refused && holds(rt, BAD, bodies)?)
}

/// Whether each database of other rows is refused.
fn is_refused_by_rows(rt: &HostRuntime) -> Result<bool, Want> {
    for bodies in ROWS.split(';') {
        if !has_foreign_rows(rt, bodies)? {
            return Ok(false);
        }
    }
    Ok(true)
}

#[test]
fn a_file_that_is_no_journal_is_left_as_it_is(rt: HostRuntime) -> Result<(), Fail> {
    assert!(rt; is_refused_by_table(&rt)? && is_refused_by_rows(&rt)?);
    assert!(rt; is_refused_as_text(&rt)? && is_refused_as_folder(&rt)?);
    assert!(rt; is_refused_when_cut(&rt)? && is_refused_when_read_only(&rt)?);
    Ok(fs::remove_dir_all(&rt, "bad")?)
}
