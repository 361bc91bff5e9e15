ghost use Rattle.std.specs.Prelude.{◌≡◌, ℕ, List, IfOk, drop};
ghost use Rattle.std.specs.BTreeMap.{get_by_text};
ghost use Rattle.std.specs.Option.{option_copied};
ghost use Rattle.wdl_base.specs.Places.{place_text as spec_text};
ghost use Rattle.wdl_port.specs.Table as spec;

use crate::table_row::TableRow;
use std::alloc::Global;
use std::collections::BTreeMap;
use wdl_value::{Answer, NoMemory, Place, Segment, place_text, same_place};

/// For the text of each place, the number of its first row.
pub(crate) fn index_of(
    alloc: Global,
    rows: &[TableRow],
) -> Result<BTreeMap<String, usize>, NoMemory>
    ensures { IfOk result (λ first. (text : List ℕ) → get_by_text first text ≡ spec.first_at 0 rows.now text) }
{
    let mut first = BTreeMap::new(alloc);
    let mut i = rows.len();
    while i > 0 {
        i -= 1;
        let text = place_text(alloc, &rows[i].place)?;
        first.insert(String::from_str(alloc, text.as_str())?, i)?;
    }
    Ok(first)
}

/// The number of the first row of a place.
fn first_of(
    alloc: Global,
    place: &Place,
    first: &BTreeMap<String, usize>,
) -> Result<Option<usize>, NoMemory>
    ensures { IfOk result (λ at. at ≡ get_by_text first.now (spec_text place.now)) }
{
    let text = place_text(alloc, place)?;
    Ok(first.get(text.as_str()).copied())
}

fn rows_from(rows: &[TableRow], at: usize) -> &[TableRow]
    ensures { result.now ≡ drop at rows.now }
{
    if at < rows.len() {
        return &rows[at..];
    }
    &[]
}

fn scan<'a>(place: &[Segment], attempt: u32, rows: &'a [TableRow]) -> Option<&'a Answer>
    ensures { option_copied result ≡ spec.answer_of rows.now place.now attempt }
{
    for row in rows {
        if same_place(row.place.as_slice(), place) && row.attempt == attempt {
            return Some(&row.answer);
        }
    }
    None
}

/// The answer of the first row of a place and attempt. It goes over the rows from the first one of
/// the place.
pub(crate) fn answer_of<'a>(
    alloc: Global,
    place: &Place,
    attempt: u32,
    rows: &'a [TableRow],
    first: &BTreeMap<String, usize>,
) -> Result<Option<&'a Answer>, NoMemory>
    requires { (text : List ℕ) → get_by_text first.now text ≡ spec.first_at 0 rows.now text }
    ensures { IfOk result (λ answer. option_copied answer ≡ spec.answer_of rows.now place.now attempt) }
{
    match first_of(alloc, place, first)? {
        Some(at) => Ok(scan(place.as_slice(), attempt, rows_from(rows, at))),
        None => Ok(None),
    }
}
