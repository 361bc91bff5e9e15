ghost use Rattle.std.specs.Prelude.{◌≡◌, IfOk, OnOk};
ghost use Rattle.serde_json.specs.Data.{string};
ghost use Rattle.serde_json.specs.View.{view, members_view};
ghost use Rattle.serde_json.specs.Written.{compact_text};
ghost use Rattle.run_keeper.specs.RowText.{
  hex_data,
  body_data,
  seen_data,
  laid_data,
  attribute_data,
  list_data,
  is_plain as spec_plain,
  row_data,
  old_data,
  row_text as new_text,
  old_text as old_row_text,
};
ghost use Rattle.run_keeper.specs.Written.{IsWritten};
ghost use Rattle.run_keeper.specs.Written as spec;

use serde_json::{Map, Value, json, put};
use std::alloc::Global;
use wdl_value::{Answer, Attribute, Body, Entry, Laid, NoMemory, Request, Seen, Text, place_text};

fn hex_value(alloc: Global, bytes: &[u8]) -> Result<Value, NoMemory>
    ensures { IfOk result (λ v. view v ≡ hex_data bytes.now) }
{
    Ok(Value::from(hex::encode(alloc, bytes)?))
}

fn body_value(alloc: Global, body: &Body) -> Result<Value, NoMemory>
    ensures { IfOk result (λ v. view v ≡ body_data body.now) }
{
    match body {
        Body::Bytes(bytes) => hex_value(alloc, bytes.as_slice()),
        Body::Long => Ok(Value::Null),
    }
}

fn seen_pair(alloc: Global, file: &Seen) -> Result<Value, NoMemory>
    ensures { IfOk result (λ v. view v ≡ seen_data file.now) }
{
    let body = body_value(alloc, &file.body)?;
    Ok(json!(in alloc; [file.name.as_str(), body])?)
}

fn laid_pair(alloc: Global, file: &Laid) -> Result<Value, NoMemory>
    ensures { IfOk result (λ v. view v ≡ laid_data file.now) }
{
    let body = hex_value(alloc, file.body.as_str().as_bytes())?;
    Ok(json!(in alloc; [file.name.as_str(), body])?)
}

fn attribute_pair(alloc: Global, attribute: &Attribute) -> Result<Value, NoMemory>
    ensures { IfOk result (λ v. view v ≡ attribute_data attribute.now) }
{
    let value = Value::try_from_str(alloc, attribute.value.as_str())?;
    Ok(json!(in alloc; [attribute.name.as_str(), value])?)
}

fn files_value(alloc: Global, files: &[Seen]) -> Result<Value, NoMemory>
    ensures { IfOk result (λ v. view v ≡ list_data seen_data files.now) }
{
    let mut all = Vec::new(alloc);
    for file in files {
        all.push(seen_pair(alloc, file)?)?;
    }
    Ok(Value::from(all))
}

fn laid_value(alloc: Global, files: &[Laid]) -> Result<Value, NoMemory>
    ensures { IfOk result (λ v. view v ≡ list_data laid_data files.now) }
{
    let mut all = Vec::new(alloc);
    for file in files {
        all.push(laid_pair(alloc, file)?)?;
    }
    Ok(Value::from(all))
}

fn attributes_value(alloc: Global, attributes: &[Attribute]) -> Result<Value, NoMemory>
    ensures { IfOk result (λ v. view v ≡ list_data attribute_data attributes.now) }
{
    let mut all = Vec::new(alloc);
    for attribute in attributes {
        all.push(attribute_pair(alloc, attribute)?)?;
    }
    Ok(Value::from(all))
}

fn texts_value(alloc: Global, texts: &[Text]) -> Result<Value, NoMemory>
    ensures { IfOk result (λ v. view v ≡ list_data string texts.now) }
{
    let mut all = Vec::new(alloc);
    for text in texts {
        all.push(Value::try_from_str(alloc, text.as_str())?)?;
    }
    Ok(Value::from(all))
}

/// Adds the members of a request that all versions have.
fn put_request(
    alloc: Global,
    row: &mut Map<String, Value>,
    request: &Request,
) -> Result<(), NoMemory>
    ensures { OnOk result (members_view row.new.entries ≡ spec.with_request request.now (members_view row.old.entries)) }
{
    let command = Value::try_from_str(alloc, request.command.as_str())?;
    put(row, alloc, "command", command)?;
    let dir = Value::try_from_str(alloc, request.dir.as_str())?;
    put(row, alloc, "dir", dir)?;
    let place = place_text(alloc, &request.place)?;
    let place = Value::try_from_str(alloc, place.as_str())?;
    put(row, alloc, "place", place)?;
    Ok(())
}

/// Adds the members of an answer.
fn put_answer(alloc: Global, row: &mut Map<String, Value>, answer: &Answer) -> Result<(), NoMemory>
    ensures { OnOk result (members_view row.new.entries ≡ spec.with_answer answer.now (members_view row.old.entries)) }
{
    let err = body_value(alloc, &answer.err)?;
    put(row, alloc, "err", err)?;
    let files = files_value(alloc, answer.files.as_slice())?;
    put(row, alloc, "files", files)?;
    let out = body_value(alloc, &answer.out)?;
    put(row, alloc, "out", out)?;
    put(row, alloc, "status", Value::from(answer.status))?;
    Ok(())
}

/// Adds the members of a request that versions 2 and 3 have besides.
fn put_attempt(
    alloc: Global,
    row: &mut Map<String, Value>,
    request: &Request,
) -> Result<(), NoMemory>
    ensures { OnOk result (members_view row.new.entries ≡ spec.with_attempt request.now (members_view row.old.entries)) }
{
    put(row, alloc, "attempt", Value::from(request.attempt))?;
    let laid = laid_value(alloc, request.files.as_slice())?;
    put(row, alloc, "laid", laid)?;
    Ok(())
}

/// Adds the members of a request that version 3 has besides.
fn put_surroundings(
    alloc: Global,
    row: &mut Map<String, Value>,
    request: &Request,
) -> Result<(), NoMemory>
    ensures { OnOk result (members_view row.new.entries ≡ spec.with_surroundings request.now (members_view row.old.entries)) }
{
    let attributes = attributes_value(alloc, request.attributes.as_slice())?;
    put(row, alloc, "attributes", attributes)?;
    let inputs = texts_value(alloc, request.inputs.as_slice())?;
    put(row, alloc, "inputs", inputs)?;
    put(row, alloc, "reads", Value::from(request.reads))?;
    Ok(())
}

/// Whether version 2 tells all of a request: it reads, and has neither attributes nor inputs.
pub(crate) fn is_plain(request: &Request) -> bool
    ensures { result ≡ spec_plain request.now }
{
    request.reads
        && request.attributes.as_slice().is_empty()
        && request.inputs.as_slice().is_empty()
}

#[tactic(auto, using(crate::proofs::RowLemmas::plain_members, crate::proofs::RowLemmas::full_members))]
fn new_value(alloc: Global, e: &Entry) -> Result<Value, NoMemory>
    ensures { IfOk result (λ v. view v ≡ row_data e.now) }
{
    let mut row = Map::new(alloc);
    put_request(alloc, &mut row, &e.request)?;
    put_answer(alloc, &mut row, &e.answer)?;
    put_attempt(alloc, &mut row, &e.request)?;
    if is_plain(&e.request) {
        put(&mut row, alloc, "v", Value::from(2u8))?;
    } else {
        put_surroundings(alloc, &mut row, &e.request)?;
        put(&mut row, alloc, "v", Value::from(3u8))?;
    }
    Ok(Value::from(row))
}

#[tactic(auto, using(crate::proofs::RowLemmas::old_members))]
fn old_value(alloc: Global, e: &Entry) -> Result<Value, NoMemory>
    ensures { IfOk result (λ v. view v ≡ old_data e.now) }
{
    let mut row = Map::new(alloc);
    put_request(alloc, &mut row, &e.request)?;
    put_answer(alloc, &mut row, &e.answer)?;
    put(&mut row, alloc, "v", Value::from(1u8))?;
    Ok(Value::from(row))
}

fn text_of(alloc: Global, row: &Value) -> Result<Text, NoMemory>
    requires { IsWritten (view row.now) }
    ensures { IfOk result (λ t. t ≡ compact_text (view row.now)) }
{
    Ok(Text::from_string(row.to_string(alloc)?))
}

/// The row's text of an entry: in version 2 where its request reads and has neither attributes nor
/// inputs, else in version 3.
#[tactic(auto, unfolding(crate::specs::RowText::row_text))]
pub fn row_text(alloc: Global, e: &Entry) -> Result<Text, NoMemory>
    ensures value { IfOk result (λ t. t ≡ new_text e.now) }
{
    let row = new_value(alloc, e)?;
    text_of(alloc, &row)
}

/// The row's text in version 1, which tells no attempt, and of files only those that were left.
#[tactic(auto, unfolding(crate::specs::RowText::old_text))]
pub(crate) fn old_text(alloc: Global, e: &Entry) -> Result<Text, NoMemory>
    ensures { IfOk result (λ t. t ≡ old_row_text e.now) }
{
    let row = old_value(alloc, e)?;
    text_of(alloc, &row)
}
