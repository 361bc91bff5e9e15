//! Rows of a journal.

use run_keeper::{RowFault, entry_of, row_text};
use sqlite_items::Items;
use std::alloc::Global;
use std::test::Fail;
use wdl_value::{Answer, Body, Entry, Name, NoMemory, Place, Request, Segment, Source, Text};

const ROW: &str = "\
    {\"attempt\":0,\"command\":\"echo hi\",\"dir\":\"/tmp/wdl-run/say\",\
        \"err\":\"\",\"files\":[],\"laid\":[],\
        \"out\":\"68690a\",\"place\":\"say\",\"status\":0,\"v\":2}";

const OLD: &str = "\
    {\"command\":\"echo hi\",\"dir\":\"/tmp/wdl-run/say\",\
        \"err\":\"\",\"files\":[],\"out\":\"68690a\",\"place\":\"say\",\"status\":0,\"v\":1}";

/// A row with two files, two laid files, a long body, an attempt, and a text with escapes.
const FULL: &str = "\
    {\"attempt\":2,\"command\":\"a\\\"\\\\\\n\\u0001é\",\"dir\":\"/d\",\
        \"err\":null,\"files\":[[\"a\",null],[\"b/c\",\"00ff\"]],\
        \"laid\":[[\".written-0\",\"610a\"],[\".written-1\",\"\"]],\
        \"out\":\"\",\"place\":\"scatter-0/12/say\",\"status\":255,\"v\":2}";

/// The row of a request with attributes and inputs whose outputs read nothing.
const WIDE: &str = "\
    {\"attempt\":0,\"attributes\":[[\"cpu\",\"4\"],[\"container\",\"a\\nb\"]],\
        \"command\":\"\",\"dir\":\"/d\",\"err\":\"\",\"files\":[[\".\",null]],\
        \"inputs\":[\"/data/é\",\"x\"],\"laid\":[],\"out\":null,\"place\":\"say\",\
        \"reads\":false,\"status\":0,\"v\":3}";

/// The same without attributes and inputs.
const SILENT: &str = "\
    {\"attempt\":0,\"attributes\":[],\"command\":\"\",\"dir\":\"/d\",\
        \"err\":\"\",\"files\":[],\"inputs\":[],\"laid\":[],\"out\":null,\"place\":\"say\",\
        \"reads\":false,\"status\":0,\"v\":3}";

/// Texts that are no rows, one a line. The last ones are of version 3: of a request that version 2
/// tells, with a name that is none, without a member, and of another version.
const BAD: &str = "\
    {}\n\
    \n\
    []\n\
    {\"command\":\"echo hi\",\"dir\":\"/tmp/wdl-run/say\",\
        \"err\":\"\",\"files\":[],\"out\":\"68690a\",\"place\":\"say\",\"status\":0,\"v\":1} \n\
    {\"command\":\"echo hi\", \"dir\":\"/tmp/wdl-run/say\",\
        \"err\":\"\",\"files\":[],\"out\":\"68690a\",\"place\":\"say\",\"status\":0,\"v\":1}\n\
    {\"dir\":\"/tmp/wdl-run/say\",\"command\":\"echo hi\",\
        \"err\":\"\",\"files\":[],\"out\":\"68690a\",\"place\":\"say\",\"status\":0,\"v\":1}\n\
    {\"command\":\"echo hi\",\"dir\":\"/tmp/wdl-run/say\",\
        \"err\":\"\",\"files\":[],\"out\":\"68690A\",\"place\":\"say\",\"status\":0,\"v\":1}\n\
    {\"command\":\"echo hi\",\"dir\":\"/tmp/wdl-run/say\",\
        \"err\":\"\",\"files\":[],\"out\":\"68690\",\"place\":\"say\",\"status\":0,\"v\":1}\n\
    {\"command\":\"echo hi\",\"dir\":\"/tmp/wdl-run/say\",\
        \"err\":\"\",\"files\":[],\"out\":\"68690a\",\"place\":\"say\",\"status\":256,\"v\":1}\n\
    {\"command\":\"echo hi\",\"dir\":\"/tmp/wdl-run/say\",\
        \"err\":\"\",\"files\":[],\"out\":\"68690a\",\"place\":\"say/\",\"status\":0,\"v\":1}\n\
    {\"command\":\"echo hi\",\"dir\":\"/tmp/wdl-run/say\",\
        \"err\":\"\",\"files\":[],\"out\":\"68690a\",\"place\":\"say\",\"status\":0,\"v\":3}\n\
    {\"command\":\"echo hi\",\"dir\":\"/tmp/wdl-run/say\",\
        \"err\":\"\",\"files\":[],\"more\":0,\
        \"out\":\"68690a\",\"place\":\"say\",\"status\":0,\"v\":1}\n\
    {\"command\":\"echo hi\",\"dir\":\"/tmp/wdl-run/say\",\
        \"err\":\"\",\"files\":[[\"b\",\"\"],[\"a\",\"\"]],\
        \"out\":\"68690a\",\"place\":\"say\",\"status\":0,\"v\":1}\n\
    {\"command\":\"echo\\u0020hi\",\"dir\":\"/tmp/wdl-run/say\",\
        \"err\":\"\",\"files\":[],\"out\":\"68690a\",\"place\":\"say\",\"status\":0,\"v\":1}\n\
    {\"attempt\":0,\"command\":\"echo hi\",\"dir\":\"/tmp/wdl-run/say\",\
        \"err\":\"\",\"files\":[],\"laid\":[],\
        \"out\":\"68690a\",\"place\":\"say\",\"status\":0,\"v\":1}\n\
    {\"command\":\"echo hi\",\"dir\":\"/tmp/wdl-run/say\",\
        \"err\":\"\",\"files\":[],\"out\":\"68690a\",\"place\":\"say\",\"status\":0,\"v\":2}\n\
    {\"attempt\":0,\"attributes\":[],\"command\":\"\",\"dir\":\"/d\",\
        \"err\":\"\",\"files\":[],\"inputs\":[],\"laid\":[],\"out\":null,\"place\":\"say\",\
        \"reads\":true,\"status\":0,\"v\":3}\n\
    {\"attempt\":0,\"attributes\":[[\"4\",\"4\"]],\"command\":\"\",\"dir\":\"/d\",\
        \"err\":\"\",\"files\":[],\"inputs\":[],\"laid\":[],\"out\":null,\"place\":\"say\",\
        \"reads\":true,\"status\":0,\"v\":3}\n\
    {\"attempt\":0,\"attributes\":[],\"command\":\"\",\"dir\":\"/d\",\
        \"err\":\"\",\"files\":[],\"laid\":[],\"out\":null,\"place\":\"say\",\
        \"reads\":false,\"status\":0,\"v\":3}\n\
    {\"attempt\":0,\"attributes\":[],\"command\":\"\",\"dir\":\"/d\",\
        \"err\":\"\",\"files\":[],\"inputs\":[],\"laid\":[],\"out\":null,\"place\":\"say\",\
        \"reads\":false,\"status\":0,\"v\":2}\n\
    {\"attempt\":0,\"attributes\":[],\"command\":\"\",\"dir\":\"/d\",\
        \"err\":\"\",\"files\":[],\"inputs\":[],\"laid\":[],\"out\":null,\"place\":\"say\",\
        \"reads\":false,\"status\":0,\"v\":4}";

fn place(alloc: Global) -> Result<Place, NoMemory> {
    let Ok(name) = Name::new(alloc, "say") else {
        return Err(NoMemory);
    };
    let mut place = Items::new(alloc);
    place.push(Segment::Call(name))?;
    Ok(place)
}

fn request(alloc: Global) -> Result<Request, NoMemory> {
    Ok(Request {
        place: place(alloc)?,
        attempt: 0,
        dir: Text::from_plain(alloc, "/tmp/wdl-run/say")?,
        command: Text::from_plain(alloc, "echo hi")?,
        files: Items::new(alloc),
        attributes: Items::new(alloc),
        inputs: Items::new(alloc),
        reads: true,
    })
}

/// The answer of a call that wrote `hi`.
fn answer(alloc: Global) -> Result<Answer, NoMemory> {
    let out = Body::Bytes(Items::from_slice(alloc, b"hi\n")?);
    match Answer::new(0, out, Body::Bytes(Items::new(alloc)), Items::new(alloc)) {
        Ok(answer) => Ok(answer),
        Err(_) => Err(NoMemory),
    }
}

/// The row's text of that call.
fn written(alloc: Global) -> Result<Text, NoMemory> {
    let entry = Entry {
        request: request(alloc)?,
        answer: answer(alloc)?,
        source: Source::Launched,
    };
    row_text(alloc, &entry)
}

/// Whether a row's text is read as an entry whose text is this one.
fn is_read(alloc: Global, row: &str, renewed: &str) -> Result<bool, NoMemory> {
    match entry_of(alloc, row) {
        Ok(entry) => Ok(entry.source == Source::Kept && row_text(alloc, &entry)?.is(renewed)),
        Err(_) => Ok(false),
    }
}

#[test]
fn an_entry_is_written_and_read(rt: HostRuntime) -> Result<(), Fail> {
    let alloc = rt.alloc();
    assert_eq!(rt; written(alloc)?.as_str(), ROW);
    for (row, renewed) in [
        (ROW, ROW),
        (OLD, ROW),
        (FULL, FULL),
        (WIDE, WIDE),
        (SILENT, SILENT),
    ] {
        assert!(rt; is_read(alloc, row, renewed)?, "at {row}");
    }
    Ok(())
}

fn is_refused(alloc: Global, row: &str) -> bool {
    matches!(&entry_of(alloc, row), Err(RowFault::NotARow))
}

#[test]
fn no_other_text_is_a_row(rt: HostRuntime) {
    let alloc = rt.alloc();
    for row in BAD.split('\n') {
        assert!(rt; is_refused(alloc, row), "at {row}");
    }
}
