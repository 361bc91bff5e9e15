use crate::answers::{push_answer, push_letters, push_other, push_seen};
use crate::files::{begin_say, begin_version, push_file, push_line, push_times};
use crate::sinks::{Sinks, sink};
use std::alloc::Global;
use std::test::Fail;
use wdl_port::{MapKeeper, MemoryShelf, TableRow};
use wdl_value::{Items, NoMemory, Place, Seen, place_of};

/// What is read of a case.
#[derive(Drop)]
pub struct Case {
    /// The text of the next file.
    pub text: String,
    /// The files of the next answer.
    pub left: Items<Seen>,
    pub shelf: MemoryShelf,
    pub rows: Items<TableRow>,
    pub refused: Items<Place>,
    /// The rows of the journal.
    pub keeper: MapKeeper,
    /// The numbers of the keeper's calls that fail.
    pub unkept: Items<u64>,
    /// The places whose rows no longer stand for their files.
    pub lapsed: Items<Place>,
    pub words: Vec<String>,
    pub sinks: Sinks,
}

/// A case of no files, no answers and no words.
fn start(alloc: Global) -> Result<Case, NoMemory> {
    let sinks = Sinks::new(alloc)?;
    Ok(Case {
        text: String::new(alloc),
        left: Items::new(alloc),
        shelf: MemoryShelf::new(Items::new(alloc), Items::new(alloc)),
        rows: Items::new(alloc),
        refused: Items::new(alloc),
        keeper: MapKeeper::new(alloc, Items::new(alloc)),
        unkept: Items::new(alloc),
        lapsed: Items::new(alloc),
        words: Vec::new(alloc),
        sinks,
    })
}

fn push_words(alloc: Global, words: &mut Vec<String>, line: &str) -> Result<(), Fail> {
    if line.is_empty() {
        return Ok(());
    }
    for word in line.split(' ') {
        words.push(String::from_str(alloc, word)?)?;
    }
    Ok(())
}

fn set_rooms(alloc: Global, sinks: &mut Sinks, rest: &str) -> Result<(), Fail> {
    let (out, err) = rest.split_once(' ').unwrap_or((rest, ""));
    sinks.out = sink(alloc, out.parse::<usize>()?)?;
    sinks.err = sink(alloc, err.parse::<usize>()?)?;
    Ok(())
}

fn set_notes(alloc: Global, sinks: &mut Sinks, rest: &str) -> Result<(), Fail> {
    let room = rest.parse::<usize>()?;
    sinks.notes = sink(alloc, room)?;
    sinks.lines = sink(alloc, room)?;
    Ok(())
}

/// A line that makes a file, or a call of the shelf or the keeper that fails; whether it is one.
fn read_file_line(alloc: Global, case: &mut Case, word: &str, rest: &str) -> Result<bool, Fail> {
    match word {
        "say" => begin_say(&mut case.text, rest)?,
        "version" => begin_version(&mut case.text, rest)?,
        "text" => case.text.push_str(rest)?,
        "line" => push_line(&mut case.text, rest)?,
        "times" => push_times(&mut case.text, rest)?,
        "file" => {
            push_file(alloc, &mut case.shelf.files, rest, case.text.as_bytes())?;
            case.text.clear();
        }
        "inputs" => push_file(alloc, &mut case.shelf.files, "i.json", rest.as_bytes())?,
        "lost" => case.shelf.fails.push(rest.parse::<u64>()?)?,
        "unkept" => case.unkept.push(rest.parse::<u64>()?)?,
        "lapsed" => case.lapsed.push(place_of(alloc, rest)?)?,
        _ => return Ok(false),
    }
    Ok(true)
}

/// A line that makes an answer; whether it is one.
fn read_answer_line(alloc: Global, case: &mut Case, word: &str, rest: &str) -> Result<bool, Fail> {
    match word {
        "left" => push_seen(alloc, &mut case.left, rest)?,
        "answer" => {
            let left = std::mem::replace(&mut case.left, Items::new(alloc));
            push_answer(alloc, &mut case.rows, left, rest)?;
        }
        "letters" => push_letters(alloc, &mut case.rows, rest)?,
        "odd" | "long" => push_other(alloc, &mut case.rows, word, rest)?,
        "refuse" => case.refused.push(place_of(alloc, rest)?)?,
        _ => return Ok(false),
    }
    Ok(true)
}

fn read_line(alloc: Global, case: &mut Case, line: &str) -> Result<(), Fail> {
    let (word, rest) = line.split_once(' ').unwrap_or((line, ""));
    if read_file_line(alloc, case, word, rest)? || read_answer_line(alloc, case, word, rest)? {
        return Ok(());
    }
    match word {
        "$" => push_words(alloc, &mut case.words, rest),
        "room" => set_rooms(alloc, &mut case.sinks, rest),
        "notes" => set_notes(alloc, &mut case.sinks, rest),
        _ => Ok(()),
    }
}

/// The case that these lines write.
pub fn read_case(alloc: Global, lines: &str) -> Result<Case, Fail> {
    let mut case = start(alloc)?;
    for line in lines.split('\n') {
        read_line(alloc, &mut case, line)?;
    }
    Ok(case)
}

impl Case {
    /// Puts a file on the shelf.
    pub fn add_file(&mut self, alloc: Global, path: &str, bytes: &[u8]) -> Result<(), Fail> {
        push_file(alloc, &mut self.shelf.files, path, bytes)
    }
}
