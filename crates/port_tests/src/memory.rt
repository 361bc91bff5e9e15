//! The objects in memory.
ghost use Rattle.std.specs.Prelude.{◌≡◌, None, OnOk, IsSome};

use sqlite_items::Items;
use std::alloc::Global;
use std::test::Fail;
use wdl_port::{
    KeepFault, Keeper, LaunchFault, Launcher, MapKeeper, MemoryShelf, MemorySink, NoKeeper,
    PathFile, ReadFault, Shelf, Sink, TableLauncher, TableRow,
};
use wdl_value::{
    Answer, Body, Entry, Name, NameFault, Place, Request, Segment, Source, Text, TextFault,
};

/// What a test's own steps want, which is memory or a plain text.
#[derive(Debug, Drop)]
struct Want;

impl From<std::alloc::AllocError> for Want {
    fn from(_e: std::alloc::AllocError) -> Want {
        Want
    }
}

impl From<wdl_value::NoMemory> for Want {
    fn from(_e: wdl_value::NoMemory) -> Want {
        Want
    }
}

impl From<TextFault> for Want {
    fn from(_e: TextFault) -> Want {
        Want
    }
}

impl From<NameFault> for Want {
    fn from(_e: NameFault) -> Want {
        Want
    }
}

fn place(alloc: Global, name: &str) -> Result<Place, Want> {
    let mut segments = Items::new(alloc);
    segments.push(Segment::Call(Name::new(alloc, name)?))?;
    Ok(segments)
}

fn answer(alloc: Global, status: u8) -> Result<Answer, Want> {
    let empty = Body::Bytes(Items::new(alloc));
    match Answer::new(status, empty, Body::Long, Items::new(alloc)) {
        Ok(answer) => Ok(answer),
        Err(_) => Err(Want),
    }
}

fn request(alloc: Global, name: &str, attempt: u32) -> Result<Request, Want> {
    Ok(Request {
        place: place(alloc, name)?,
        attempt,
        dir: Text::empty(alloc),
        command: Text::empty(alloc),
        files: Items::new(alloc),
        attributes: Items::new(alloc),
        inputs: Items::new(alloc),
        reads: true,
    })
}

fn entry(alloc: Global, name: &str, attempt: u32, status: u8) -> Result<Entry, Want> {
    Ok(Entry {
        request: request(alloc, name, attempt)?,
        answer: answer(alloc, status)?,
        source: Source::Launched,
    })
}

fn row(alloc: Global, name: &str, status: u8) -> Result<TableRow, Want> {
    Ok(TableRow {
        place: place(alloc, name)?,
        attempt: 0,
        answer: answer(alloc, status)?,
    })
}

fn calls(alloc: Global, number: u64) -> Result<Items<u64>, Want> {
    let mut numbers = Items::new(alloc);
    numbers.push(number)?;
    Ok(numbers)
}

fn file(alloc: Global, path: &str, bytes: &[u8]) -> Result<PathFile, Want> {
    Ok(PathFile {
        path: Text::new(alloc, path)?,
        bytes: Items::from_slice(alloc, bytes)?,
    })
}

fn shelf(alloc: Global, fails: Items<u64>) -> Result<MemoryShelf, Want> {
    let mut files = Items::new(alloc);
    files.push(file(alloc, "a", b"first")?)?;
    files.push(file(alloc, "a", b"second")?)?;
    Ok(MemoryShelf::new(files, fails))
}

#[test]
fn a_shelf_reads_the_first_file_and_fails_at_its_calls(rt: HostRuntime) -> Result<(), Fail> {
    let alloc = rt.alloc();
    let mut shelf = shelf(alloc, calls(alloc, 2)?)?;
    let bytes = shelf.read(alloc, "a")?;
    assert_eq!(rt; bytes.as_slice(), b"first".as_slice());
    assert!(rt; matches!(&shelf.read(alloc, "a"), Err(ReadFault::Failed)));
    assert!(rt; matches!(&shelf.read(alloc, "b"), Err(ReadFault::Failed)));
    assert_eq!(rt; shelf.faults, 2);
    Ok(())
}

#[test]
fn a_sink_takes_what_fits(rt: HostRuntime) -> Result<(), Fail> {
    let alloc = rt.alloc();
    let mut sink = MemorySink::new(alloc, 5, calls(alloc, 2)?)?;
    assert_eq!(rt; sink.write(b"abc"), Ok(3));
    assert!(rt; sink.write(b"d").is_err());
    assert_eq!(rt; sink.write(b"defg"), Ok(2));
    assert!(rt; sink.write(b"f").is_err());
    assert_eq!(rt; sink.write(b""), Ok(0));
    assert_eq!(rt; sink.bytes.as_slice(), b"abcde".as_slice());
    assert_eq!(rt; sink.faults, 2);
    Ok(())
}

fn table(alloc: Global) -> Result<TableLauncher, Want> {
    let mut rows = Items::new(alloc);
    rows.push(row(alloc, "b", 1)?)?;
    rows.push(row(alloc, "a", 2)?)?;
    rows.push(row(alloc, "b", 3)?)?;
    rows.push(row(alloc, "c", 4)?)?;
    let mut refused = Items::new(alloc);
    refused.push(place(alloc, "c")?)?;
    Ok(TableLauncher::new(alloc, rows, refused)?)
}

/// The status that is given for a place, or 100 where the launch is refused.
fn given(launcher: &TableLauncher, alloc: Global, name: &str, attempt: u32) -> Result<u8, Want> {
    match launcher.launch(alloc, &request(alloc, name, attempt)?) {
        Ok(answer) => Ok(answer.status),
        Err(LaunchFault::Refused) => Ok(100),
        Err(LaunchFault::NoMemory) => Err(Want),
    }
}

#[test]
fn a_table_gives_the_first_row(rt: HostRuntime) -> Result<(), Fail> {
    let alloc = rt.alloc();
    let table = table(alloc)?;
    assert_eq!(rt; given(&table, alloc, "b", 0)?, 1);
    assert_eq!(rt; given(&table, alloc, "a", 0)?, 2);
    assert_eq!(rt; given(&table, alloc, "c", 0)?, 100);
    assert_eq!(rt; given(&table, alloc, "b", 1)?, 100);
    assert_eq!(rt; given(&table, alloc, "d", 0)?, 100);
    Ok(())
}

/// The statuses of the rows with the source `Kept`.
fn shown(alloc: Global, rows: &[Entry]) -> Result<Vec<u8>, Want> {
    let mut all = Vec::new(alloc);
    for row in rows {
        if row.source == Source::Kept && all.push(row.answer.status).is_err() {
            return Err(Want);
        }
    }
    Ok(all)
}

fn start(alloc: Global, keeper: &mut MapKeeper) -> Result<(), Want>
    requires { keeper.old.path ≡ None }
    ensures { OnOk result (IsSome keeper.new.path) }
{
    match keeper.start(alloc, "j") {
        Ok(()) => Ok(()),
        Err(_) => Err(Want),
    }
}

/// Puts an entry, and says whether it was kept.
fn put(
    alloc: Global,
    keeper: &mut MapKeeper,
    name: &str,
    attempt: u32,
    status: u8,
) -> Result<bool, Want>
    requires { IsSome keeper.old.path }
    ensures { keeper.new.path ≡ keeper.old.path }
{
    let entry = entry(alloc, name, attempt, status)?;
    Ok(keeper.put(alloc, &entry).is_ok())
}

/// The statuses of the rows that a keeper gives.
fn kept(alloc: Global, keeper: &mut MapKeeper) -> Result<Vec<u8>, Want>
    requires { IsSome keeper.old.path }
{
    match keeper.rows(alloc) {
        Ok(rows) => shown(alloc, rows.as_slice()),
        Err(_) => Err(Want),
    }
}

#[test]
fn a_keeper_keeps_its_rows_in_order(rt: HostRuntime) -> Result<(), Fail> {
    let alloc = rt.alloc();
    let mut keeper = MapKeeper::new(alloc, calls(alloc, 6)?);
    start(alloc, &mut keeper)?;
    let mut all = put(alloc, &mut keeper, "b", 0, 1)?;
    all &= put(alloc, &mut keeper, "a", 1, 2)?;
    all &= put(alloc, &mut keeper, "a", 0, 3)?;
    all &= put(alloc, &mut keeper, "b", 0, 4)?;
    assert!(rt; all);
    assert!(rt; !put(alloc, &mut keeper, "b", 0, 5)?);
    assert_eq!(rt; keeper.faults, 1);
    let mut keeper = keeper.again(Items::new(alloc));
    start(alloc, &mut keeper)?;
    assert_eq!(rt;
        kept(alloc, &mut keeper)?.as_slice(),
        [3u8, 2, 4].as_slice()
    );
    Ok(())
}

/// Whether an entry of that name stands for its files.
fn stands(alloc: Global, keeper: &mut MapKeeper, name: &str) -> Result<bool, Want>
    requires { IsSome keeper.old.path }
    ensures { keeper.new.path ≡ keeper.old.path }
{
    let entry = entry(alloc, name, 0, 0)?;
    match keeper.stands(alloc, &entry) {
        Ok(stands) => Ok(stands),
        Err(_) => Err(Want),
    }
}

#[test]
fn a_keeper_lets_the_listed_places_lapse(rt: HostRuntime) -> Result<(), Fail> {
    let alloc = rt.alloc();
    let mut lapsed = Items::new(alloc);
    lapsed.push(place(alloc, "b")?)?;
    let mut keeper = MapKeeper::new(alloc, calls(alloc, 4)?).with_lapsed(lapsed);
    start(alloc, &mut keeper)?;
    assert!(rt; stands(alloc, &mut keeper, "a")?);
    assert!(rt; !stands(alloc, &mut keeper, "b")?);
    assert!(rt; stands(alloc, &mut keeper, "a").is_err());
    let mut keeper = keeper.again(Items::new(alloc));
    start(alloc, &mut keeper)?;
    assert!(rt; !stands(alloc, &mut keeper, "b")?);
    Ok(())
}

#[test]
fn a_keeper_without_rows_counts_each_call(rt: HostRuntime) -> Result<(), Fail> {
    let alloc = rt.alloc();
    let mut keeper = NoKeeper::new();
    assert!(rt; matches!(&keeper.start(alloc, "j"), Err(KeepFault::Failed)));
    assert!(rt; keeper.path.is_some());
    let entry = entry(alloc, "a", 0, 0)?;
    assert!(rt; matches!(&keeper.stands(alloc, &entry), Err(KeepFault::Failed)));
    assert_eq!(rt; keeper.faults, 2);
    Ok(())
}
