ghost use Rattle.std.specs.Prelude.{◌≡◌, ◌≤◌, ◌<◌, [], length, map, IfOk};
ghost use Rattle.std.specs.List.{range_with_len};
ghost use Rattle.wdl_base.specs.declared.body.Body.TheVariants.{Bytes};
ghost use Rattle.wdl_load.specs.Loads.{
  AreLoadRows,
  IsLoadAnswer,
  IsLoadRow,
  call_name,
  load_place,
  load_value,
};

use crate::value::load_values;
use std::alloc::Global;
use wdl_port::{TableLauncher, TableRow};
use wdl_value::{Answer, Body, Items, Name, NameFault, NoMemory, Place, Segment};

/// The name of a call.
#[tactic(auto, using(crate::proofs::Names::call_is_name))]
fn load_name(alloc: Global, number: u32) -> Result<Name, NoMemory>
    requires few { number < 10000 }
    ensures value { IfOk result (λ n. n ≡ call_name number) }
{
    let text = format!(in alloc; "c{number}")?;
    match Name::new(alloc, text.as_str()) {
        Ok(name) => Ok(name),
        Err(NameFault::NoMemory) => Err(NoMemory),
        Err(NameFault::NotAName) => unreachable!(),
    }
}

/// The place of a call.
fn place_of(alloc: Global, number: u32) -> Result<Place, NoMemory>
    requires few { number < 10000 }
    ensures value { IfOk result (λ p. p ≡ load_place number) }
{
    let name = load_name(alloc, number)?;
    let mut place = Items::new(alloc);
    place.push(Segment::Call(name))?;
    Ok(place)
}

/// The answer that has these bytes as its standard output, and nothing else.
fn answer_with(alloc: Global, bytes: Items<u8>) -> Answer
    requires short { length bytes ≤ 65536 }
    ensures status { result.status ≡ 0 }
    ensures out { result.out ≡ Bytes bytes }
    ensures err { result.err ≡ Bytes [] }
    ensures files { result.files ≡ [] }
{
    let nothing = Items::new(alloc);
    let files = Items::new(alloc);
    Answer {
        status: 0,
        out: Body::Bytes(bytes),
        err: Body::Bytes(nothing),
        files,
    }
}

/// The answer of a call that has this value.
#[tactic(auto, using(crate::proofs::Names::line_is_short))]
fn answer_of(alloc: Global, number: u32, value: u32) -> Result<Answer, NoMemory>
    requires is_value { value ≡ load_value number }
    ensures value { IfOk result (IsLoadAnswer number) }
{
    let text = format!(in alloc; "{value}\n")?;
    let bytes = Items::from_slice(alloc, text.as_bytes())?;
    Ok(answer_with(alloc, bytes))
}

/// The row of a call with its value.
fn row_of(alloc: Global, number: u32, value: u32) -> Result<TableRow, NoMemory>
    requires few { number < 10000 }
    requires is_value { value ≡ load_value number }
    ensures value { IfOk result (IsLoadRow number) }
{
    let place = place_of(alloc, number)?;
    let answer = answer_of(alloc, number, value)?;
    Ok(TableRow {
        place,
        attempt: 0,
        answer,
    })
}

/// The rows of so many calls with their values.
fn rows_of(alloc: Global, values: &[u32], count: u32) -> Result<Items<TableRow>, NoMemory>
    requires few { count ≤ 10000 }
    requires are_values { values.now ≡ map load_value (range_with_len 0 count) }
    ensures rows { IfOk result (AreLoadRows count) }
{
    let mut rows = Items::new(alloc);
    for number in 0..count {
        let value = values[number as usize];
        let row = row_of(alloc, number, value)?;
        rows.push(row)?;
    }
    Ok(rows)
}

/// The launcher that answers each of so many calls with its value, at its first attempt.
pub fn load_table(alloc: Global, count: u32) -> Result<TableLauncher, NoMemory>
    requires some { 1 ≤ count }
    requires few { count ≤ 10000 }
    ensures rows { IfOk result (λ t. AreLoadRows count t.rows) }
    ensures refused { IfOk result (λ t. t.refused ≡ []) }
{
    let values = load_values(alloc, count)?;
    let rows = rows_of(alloc, values.as_slice(), count)?;
    TableLauncher::new(alloc, rows, Items::new(alloc))
}
