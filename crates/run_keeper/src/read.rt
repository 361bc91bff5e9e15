ghost use Rattle.std.specs.Prelude.{◌≡◌, true, Some, None, Ok, IfOk, IsErrOf};
ghost use Rattle.serde_json.specs.Read.{read};
ghost use Rattle.serde_json.specs.View.{view};
ghost use Rattle.wdl_base.specs.declared.entry.Entry.{Entry as EntryOf};
ghost use Rattle.wdl_base.specs.declared.entry.Source.TheVariants.{Kept};
ghost use Rattle.wdl_port.specs.Rows.{kept_row};
ghost use Rattle.run_keeper.specs.Entries.{IsEntry};
ghost use Rattle.run_keeper.specs.Members.{HasAnswer, HasRequest};
ghost use Rattle.run_keeper.specs.Reads.{Gives, IsNoRow};
ghost use Rattle.run_keeper.specs.RowText.{
  IsRowOf,
  IsOldRow,
  is_first as spec_first,
  row_text as new_text,
  old_text as old_row_text,
  row_data,
  old_data,
};
ghost use Rattle.run_keeper.specs.declared.error.RowFault.TheVariants.{NotARow};

use crate::error::RowFault;
use crate::member::{answer_in, number_of, request_in};
use crate::write::{is_plain, old_text, row_text};
use serde_json::Value;
use std::alloc::Global;
use wdl_value::{Entry, Request, Source, Text};

fn parse(alloc: Global, s: &str) -> Result<Value, RowFault>
    ensures value { IfOk result (λ v. read s.now ≡ Some (view v)) }
    ensures refused { IsErrOf result NotARow → read s.now ≡ None }
{
    match Value::from_str(alloc, s) {
        Ok(value) => Ok(value),
        Err(e) => {
            if e.is_memory() {
                Err(RowFault::NoMemory)
            } else {
                Err(RowFault::NotARow)
            }
        }
    }
}

/// The entry of a row's members.
fn entry_in(alloc: Global, row: &Value) -> Result<Entry, RowFault>
    ensures kept { IfOk result (λ e. e.source ≡ Kept) }
    ensures reads { (e : EntryOf) → IsEntry e → HasRequest (view row.now) e.request → HasAnswer (view row.now) e.answer → Gives result (kept_row e) }
{
    Ok(Entry {
        request: request_in(alloc, row)?,
        answer: answer_in(alloc, row)?,
        source: Source::Kept,
    })
}

/// The entry, where its text is the string.
fn when_same(entry: Entry, text: &Text, s: &str) -> Result<Entry, RowFault>
    ensures ok { IfOk result (λ e. (e ≡ entry) × (s.now ≡ text.now)) }
    ensures same { s.now ≡ text.now → result ≡ Ok entry }
{
    if text.is(s) {
        Ok(entry)
    } else {
        Err(RowFault::NotARow)
    }
}

/// Whether version 1 tells all of a request.
fn is_first(request: &Request) -> bool
    ensures { result ≡ spec_first request.now }
{
    request.attempt == 0 && request.files.as_slice().is_empty() && is_plain(request)
}

/// The text of an entry in version 1, if that tells all of its request.
fn first_text(alloc: Global, entry: &Entry) -> Result<Text, RowFault>
    ensures row { IfOk result (λ t. IsOldRow t entry.now) }
    ensures gives { spec_first entry.now.request ≡ true → Gives result (old_row_text entry.now) }
{
    if is_first(&entry.request) {
        Ok(old_text(alloc, entry)?)
    } else {
        Err(RowFault::NotARow)
    }
}

/// The entry, where the string is its text in version 1.
fn old_row(alloc: Global, s: &str, entry: Entry) -> Result<Entry, RowFault>
    ensures row { IfOk result (λ e. (e ≡ entry) × IsOldRow s.now e) }
    ensures reads { IsOldRow s.now entry → Gives result entry }
{
    let text = first_text(alloc, &entry)?;
    when_same(entry, &text, s)
}

/// The entry, where the string is its row's text.
fn new_row(alloc: Global, s: &str, entry: Entry) -> Result<Entry, RowFault>
    ensures row { IfOk result (λ e. (e ≡ entry) × (s.now ≡ new_text e)) }
    ensures reads { s.now ≡ new_text entry → Gives result entry }
{
    let text = row_text(alloc, &entry)?;
    when_same(entry, &text, s)
}

/// The entry of a row that was parsed, by its version.
fn entry_by_version(alloc: Global, s: &str, row: &Value) -> Result<Entry, RowFault>
    ensures row { IfOk result (IsRowOf s.now) }
    ensures kept { IfOk result (λ e. e.source ≡ Kept) }
    ensures reads_new { (e : EntryOf) → IsEntry e → view row.now ≡ row_data e → s.now ≡ new_text e → Gives result (kept_row e) }
    ensures reads_old { (e : EntryOf) → IsEntry e → view row.now ≡ old_data e → IsOldRow s.now e → Gives result (kept_row e) }
{
    let Some(version) = row.get("v") else {
        return Err(RowFault::NotARow);
    };
    let version = number_of(version)?;
    let entry = entry_in(alloc, row)?;
    if version == 1 {
        old_row(alloc, s, entry)
    } else {
        new_row(alloc, s, entry)
    }
}

/// The entry of a row's text, in version 3, 2 or 1, with the source `Kept`. It is `NotARow` exactly
/// where the string is no row's text.
pub fn entry_of(alloc: Global, s: &str) -> Result<Entry, RowFault>
    ensures row { IfOk result (IsRowOf s.now) }
    ensures kept { IfOk result (λ e. e.source ≡ Kept) }
    ensures reads { (e : EntryOf) → IsEntry e → IsRowOf s.now e → Gives result (kept_row e) }
    ensures refused { IsErrOf result NotARow → IsNoRow s.now }
{
    let row = parse(alloc, s)?;
    entry_by_version(alloc, s, &row)
}
