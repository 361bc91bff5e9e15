use std::alloc::Global;
use std::test::Fail;
use wdl_port::TableRow;
use wdl_value::{Answer, Body, Items, Seen, Text, place_of};

/// A file with one line: `NAME LINE`.
pub fn push_seen(alloc: Global, left: &mut Items<Seen>, rest: &str) -> Result<(), Fail> {
    let (name, line) = rest.split_once(' ').unwrap_or((rest, ""));
    let name = Text::new(alloc, name)?;
    let body = line_body(alloc, line)?;
    left.push(Seen { name, body })?;
    Ok(())
}

fn line_body(alloc: Global, line: &str) -> Result<Body, Fail> {
    let mut text = String::from_str(alloc, line)?;
    text.push_str("\n")?;
    Ok(Body::new(Items::from_slice(alloc, text.as_bytes())?))
}

fn push_row(
    alloc: Global,
    rows: &mut Items<TableRow>,
    place: &str,
    attempt: u32,
    answer: Answer,
) -> Result<(), Fail> {
    let place = place_of(alloc, place)?;
    rows.push(TableRow {
        place,
        attempt,
        answer,
    })?;
    Ok(())
}

/// The answer of a status with that body as standard output and these files.
fn answer_of(alloc: Global, status: u8, out: Body, files: Items<Seen>) -> Result<Answer, Fail> {
    let err = Body::Bytes(Items::new(alloc));
    Ok(Answer::new(status, out, err, files)?)
}

/// `PLACE ATTEMPT STATUS OUT`
pub fn push_answer(
    alloc: Global,
    rows: &mut Items<TableRow>,
    left: Items<Seen>,
    rest: &str,
) -> Result<(), Fail> {
    let (place, rest) = rest.split_once(' ').unwrap_or((rest, ""));
    let (attempt, rest) = rest.split_once(' ').unwrap_or((rest, ""));
    let (status, line) = rest.split_once(' ').unwrap_or((rest, ""));
    let answer = answer_of(alloc, status.parse::<u8>()?, line_body(alloc, line)?, left)?;
    push_row(alloc, rows, place, attempt.parse::<u32>()?, answer)
}

/// An answer of status 0 with that body and no files.
fn push_body(
    alloc: Global,
    rows: &mut Items<TableRow>,
    place: &str,
    out: Body,
) -> Result<(), Fail> {
    let answer = answer_of(alloc, 0, out, Items::new(alloc))?;
    push_row(alloc, rows, place, 0, answer)
}

/// `PLACE NUMBER`
pub fn push_letters(alloc: Global, rows: &mut Items<TableRow>, rest: &str) -> Result<(), Fail> {
    let (place, number) = rest.split_once(' ').unwrap_or((rest, ""));
    let letters = vec![in alloc; b'a'; number.parse::<usize>()?]?;
    push_body(alloc, rows, place, Body::new(Items::from_vec(letters)))
}

/// A body that is no text, or one that is longer than what is kept.
pub fn push_other(
    alloc: Global,
    rows: &mut Items<TableRow>,
    word: &str,
    place: &str,
) -> Result<(), Fail> {
    let out = match word {
        "odd" => Body::new(Items::from_slice(alloc, b"\xff")?),
        _ => Body::Long,
    };
    push_body(alloc, rows, place, out)
}
