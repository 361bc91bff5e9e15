ghost use Rattle.std.specs.Prelude.{◌≡◌, ◌<◌, ◌^◌, ℕ, List, Ok};
ghost use Rattle.serde_json.specs.Data.{number, unsigned, string};
ghost use Rattle.serde_json.specs.View.{view};
ghost use Rattle.wdl_base.specs.PlaceReading.{IsPlace};
ghost use Rattle.wdl_base.specs.Places.{place_text};
ghost use Rattle.wdl_base.specs.declared.answer.Answer.{Answer as AnswerOf};
ghost use Rattle.wdl_base.specs.declared.request.Request.{Request as RequestOf};
ghost use Rattle.wdl_base.specs.declared.place.Segment.{Segment};
ghost use Rattle.run_keeper.specs.Entries.{IsAnswer, IsRequest};
ghost use Rattle.run_keeper.specs.Members.{HasAnswer, HasRequest};
ghost use Rattle.run_keeper.specs.Reads.{Gives};

use crate::error::RowFault;
use crate::list::seen_list;
use crate::optional::{attempt_in, attributes_in, inputs_in, laid_in, reads_in};
use crate::row_value::{body_of, text_of};
use serde_json::Value;
use std::alloc::Global;
use wdl_value::{Answer, Place, PlaceFault, Request, place_of};

pub(crate) fn number_of(value: &Value) -> Result<u64, RowFault>
    ensures { (n : ℕ) → view value.now ≡ number (unsigned n) → result ≡ Ok n }
{
    match value.as_u64() {
        Some(n) => Ok(n),
        None => Err(RowFault::NotARow),
    }
}

pub(crate) fn attempt_of(value: &Value) -> Result<u32, RowFault>
    ensures { (n : ℕ) → n < 2 ^ 32 → view value.now ≡ number (unsigned n) → result ≡ Ok n }
{
    match u32::try_from(number_of(value)?) {
        Ok(n) => Ok(n),
        Err(_) => Err(RowFault::NotARow),
    }
}

fn status_of(value: &Value) -> Result<u8, RowFault>
    ensures { (n : ℕ) → n < 256 → view value.now ≡ number (unsigned n) → result ≡ Ok n }
{
    match u8::try_from(number_of(value)?) {
        Ok(n) => Ok(n),
        Err(_) => Err(RowFault::NotARow),
    }
}

fn place_in(alloc: Global, value: &Value) -> Result<Place, RowFault>
    ensures { (p : List Segment) → IsPlace p → view value.now ≡ string (place_text p) → Gives result p }
{
    let Some(s) = value.as_str() else {
        return Err(RowFault::NotARow);
    };
    match place_of(alloc, s) {
        Ok(place) => Ok(place),
        Err(PlaceFault::NotAPlace) => Err(RowFault::NotARow),
        Err(PlaceFault::NoMemory) => Err(RowFault::NoMemory),
    }
}

/// The answer of a row.
pub(crate) fn answer_in(alloc: Global, row: &Value) -> Result<Answer, RowFault>
    ensures { (a : AnswerOf) → IsAnswer a → HasAnswer (view row.now) a → Gives result a }
{
    let Some(status) = row.get("status") else {
        return Err(RowFault::NotARow);
    };
    let Some(out) = row.get("out") else {
        return Err(RowFault::NotARow);
    };
    let Some(err) = row.get("err") else {
        return Err(RowFault::NotARow);
    };
    let Some(files) = row.get("files") else {
        return Err(RowFault::NotARow);
    };
    let status = status_of(status)?;
    let out = body_of(alloc, out)?;
    let err = body_of(alloc, err)?;
    let files = seen_list(alloc, files)?;
    match Answer::new(status, out, err, files) {
        Ok(answer) => Ok(answer),
        Err(_) => Err(RowFault::NotARow),
    }
}

/// The request of a row.
pub(crate) fn request_in(alloc: Global, row: &Value) -> Result<Request, RowFault>
    ensures { (r : RequestOf) → IsRequest r → HasRequest (view row.now) r → Gives result r }
{
    let Some(place) = row.get("place") else {
        return Err(RowFault::NotARow);
    };
    let Some(dir) = row.get("dir") else {
        return Err(RowFault::NotARow);
    };
    let Some(command) = row.get("command") else {
        return Err(RowFault::NotARow);
    };
    Ok(Request {
        place: place_in(alloc, place)?,
        attempt: attempt_in(row)?,
        dir: text_of(alloc, dir)?,
        command: text_of(alloc, command)?,
        files: laid_in(alloc, row)?,
        attributes: attributes_in(alloc, row)?,
        inputs: inputs_in(alloc, row)?,
        reads: reads_in(row)?,
    })
}
