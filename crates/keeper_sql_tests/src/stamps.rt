//! Rows stand for their files: what is changed, replaced or gone is noticed, and nothing else.
ghost use Rattle.std.specs.Prelude.{OnOk, IsSome};

use crate::tests::TABLE;
use crate::want::Want;
use keeper_sql::{Database, KeeperNotes, SqlKeeper};
use run_keeper::entry_of;
use sqlite::params;
use std::alloc::Global;
use std::fs::File;
use std::io::Sink;
use std::os::unix::fs::symlink;
use std::rt::HostRuntime;
use std::test::Fail;
use std::time::{Duration, UNIX_EPOCH};
use std::{fs, io};
use wdl_port::Keeper;
use wdl_value::Entry;

/// The row of a job that left a file and a link, not all of whose names are kept, with an input
/// whose path is whole and one whose path is not.
const ROW: &str =
    "{\"attempt\":0,\"attributes\":[],\"command\":\"\",\"dir\":\"stamps/job\",\"err\":null,\"files\":[[\".\",null],[\"a\",null],[\"b/c\",null]],\"inputs\":[\"/proc/self/cwd/stamps/in\",\"stamps/other\"],\"laid\":[],\"out\":null,\"place\":\"say\",\"reads\":true,\"status\":0,\"v\":3}";

const INSERT: &str = "INSERT INTO entry (place, attempt, body) VALUES ('say', 0, ?1)";

/// A journal in which nothing was put.
const JOURNAL: &str = "stamps/j";

/// The directory of the job, with what it left, and the inputs.
fn lay_down(rt: &HostRuntime) -> Result<(), Want> {
    // It may be there from a run that failed.
    let _ = fs::remove_dir_all(rt, "stamps");
    fs::create_dir_all(rt, "stamps/job/b")?;
    for path in ["a", "_stdout", "_stderr", "b/target"] {
        write(rt, path, "some")?;
    }
    symlink(rt, "target", "stamps/job/b/c")?;
    fs::write(rt, "stamps/in", "some")?;
    fs::write(rt, "stamps/other", "some")?;
    Ok(())
}

fn write(rt: &HostRuntime, name: &str, text: &str) -> Result<(), Want> {
    let path = format!(in rt.alloc(); "stamps/job/{name}")?;
    Ok(fs::write(rt, path.as_str(), text)?)
}

/// Gives a file another time, and leaves its bytes.
fn touch(rt: &HostRuntime, path: &str) -> Result<(), Want> {
    let time = UNIX_EPOCH + Duration::from_nanos(1_700_000_000_000_000_007);
    Ok(
        File::options()
            .write(true)
            .open(rt, path)?
            .set_modified(time)?,
    )
}

/// Changes what the row speaks of, in the way of that name.
fn change(rt: &HostRuntime, way: &str) -> Result<(), Want> {
    match way {
        "length" => write(rt, "a", "longer"),
        "time" => touch(rt, "stamps/job/a"),
        "gone" => Ok(fs::remove_file(rt, "stamps/job/a")?),
        "folder" => Ok(fs::create_dir(rt, "stamps/job/a")?),
        "back" => Ok(fs::remove_dir(rt, "stamps/job/a")?),
        "link" => touch(rt, "stamps/job/b/target"),
        "stdout" => write(rt, "_stdout", "longer"),
        "stderr" => Ok(fs::remove_file(rt, "stamps/job/_stderr")?),
        "input" => touch(rt, "stamps/in"),
        _ => Err(Want),
    }
}

/// Changes what the row does not speak of.
fn change_others(rt: &HostRuntime) -> Result<(), Want> {
    write(rt, "more", "some")?;
    Ok(fs::remove_file(rt, "stamps/other")?)
}

fn stands(alloc: Global, keeper: &mut SqlKeeper<'_, Sink>, entry: &Entry) -> Result<bool, Want>
    requires { IsSome keeper.old.path }
    ensures { OnOk result (IsSome keeper.new.path) }
{
    Ok(keeper.stands(alloc, entry)?)
}

/// Whether the row that was put before, or has no stamps, stands for its files.
fn stands_still(rt: &HostRuntime) -> Result<bool, Want> {
    let entry = entry_of(rt.alloc(), ROW)?;
    let mut keeper = SqlKeeper::new(rt, KeeperNotes::new(io::sink(), ""));
    keeper.start(rt.alloc(), JOURNAL)?;
    Ok(stands(rt.alloc(), &mut keeper, &entry)? && keeper.faults == 0)
}

/// Whether the row stands once it was put, and no longer after that change.
fn notices(rt: &HostRuntime, way: &str) -> Result<bool, Want> {
    let entry = entry_of(rt.alloc(), ROW)?;
    let mut keeper = SqlKeeper::new(rt, KeeperNotes::new(io::sink(), ""));
    keeper.start(rt.alloc(), JOURNAL)?;
    keeper.put(rt.alloc(), &entry)?;
    let stood = stands(rt.alloc(), &mut keeper, &entry)?;
    change(rt, way)?;
    Ok(stood && !stands(rt.alloc(), &mut keeper, &entry)? && keeper.faults == 0)
}

#[test]
fn each_change_of_a_file_is_noticed(rt: HostRuntime) -> Result<(), Fail> {
    lay_down(&rt)?;
    for way in [
        "length", "time", "gone", "folder", "back", "link", "stdout", "stderr", "input",
    ] {
        assert!(rt; notices(&rt, way)?, "at {way}");
        assert!(rt; !stands_still(&rt)?, "later at {way}");
    }
    Ok(fs::remove_dir_all(&rt, "stamps")?)
}

/// A journal of an earlier version that has the row.
fn make_earlier(rt: &HostRuntime) -> Result<(), Want> {
    let mut database = Database::open(rt, JOURNAL)?;
    database.execute(TABLE, &[])?;
    database.execute(INSERT, params![ROW])?;
    Ok(())
}

#[test]
fn a_row_without_stamps_stands_while_its_files_are_there(rt: HostRuntime) -> Result<(), Fail> {
    lay_down(&rt)?;
    make_earlier(&rt)?;
    for way in ["length", "time", "stdout", "stderr", "input"] {
        change(&rt, way)?;
        assert!(rt; stands_still(&rt)?, "at {way}");
    }
    for way in ["gone", "folder"] {
        change(&rt, way)?;
        assert!(rt; !stands_still(&rt)?, "at {way}");
    }
    Ok(fs::remove_dir_all(&rt, "stamps")?)
}

/// Whether a row that was put stands in a later run after changes of other files.
fn stands_later(rt: &HostRuntime) -> Result<bool, Want> {
    let entry = entry_of(rt.alloc(), ROW)?;
    let mut keeper = SqlKeeper::new(rt, KeeperNotes::new(io::sink(), ""));
    keeper.start(rt.alloc(), JOURNAL)?;
    keeper.put(rt.alloc(), &entry)?;
    drop(keeper);
    change_others(rt)?;
    stands_still(rt)
}

#[test]
fn a_change_of_other_files_is_not_noticed(rt: HostRuntime) -> Result<(), Fail> {
    lay_down(&rt)?;
    assert!(rt; stands_later(&rt)?);
    Ok(fs::remove_dir_all(&rt, "stamps")?)
}
