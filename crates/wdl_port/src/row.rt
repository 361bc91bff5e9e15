ghost use Rattle.std.specs.Prelude.{◌≡◌, true, IfOk, OnOk, OnErr};
ghost use Rattle.std.specs.Cmp.Lexicographic.{slice_cmp};
ghost use Rattle.std.specs.Ordering.{is_lt, nat_cmp, ordering_then};
ghost use Rattle.wdl_base.specs.Places.{place_text as spec_text};
ghost use Rattle.wdl_port.specs.Rows.{
  kept_row,
  put_row as spec_put,
  rises as spec_rises,
  row_order,
};
ghost use Rattle.wdl_port.specs.Spots.{IsSpot};

use sqlite_items::Items;
use std::alloc::Global;
use std::cmp::Ordering;
use wdl_value::{Entry, NoMemory, Request, Source, Text, place_text};

/// Where a row belongs in rows that rise: in the place of the row of its place and attempt, or
/// before a row.
enum Spot {
    At(usize),
    Before(usize),
}

/// The row of an entry.
pub(crate) fn row_of(alloc: Global, entry: &Entry) -> Result<Entry, NoMemory>
    ensures { IfOk result (λ row. row ≡ kept_row entry.now) }
{
    Ok(Entry {
        request: entry.request.copy(alloc)?,
        answer: entry.answer.copy(alloc)?,
        source: Source::Kept,
    })
}

pub(crate) fn copy_rows(alloc: Global, rows: &[Entry]) -> Result<Items<Entry>, NoMemory>
    ensures { IfOk result (λ all. all ≡ rows.now) }
{
    let mut all = Items::new(alloc);
    for row in rows {
        all.push(row.copy(alloc)?)?;
    }
    Ok(all)
}

fn order_of(
    alloc: Global,
    place: &Text,
    attempt: u32,
    other: &Request,
) -> Result<Ordering, NoMemory>
    ensures { IfOk result (λ order. order ≡ ordering_then (slice_cmp nat_cmp place.now (spec_text other.now.place)) (nat_cmp attempt other.now.attempt)) }
{
    let text = place_text(alloc, &other.place)?;
    Ok(
        place
            .as_str()
            .cmp(text.as_str())
            .then(attempt.cmp(&other.attempt)),
    )
}

/// Where the row belongs. It looks at the rows by halves.
fn spot_of(alloc: Global, row: &Entry, rows: &[Entry]) -> Result<Spot, NoMemory>
    requires { spec_rises rows.now ≡ true }
    ensures { IfOk result (IsSpot row.now rows.now) }
{
    let place = place_text(alloc, &row.request.place)?;
    let mut low = 0;
    let mut high = rows.len();
    while low < high {
        let middle = low + (high - low) / 2;
        match order_of(alloc, &place, row.request.attempt, &rows[middle].request)? {
            Ordering::Less => high = middle,
            Ordering::Equal => return Ok(Spot::At(middle)),
            Ordering::Greater => low = middle + 1,
        }
    }
    Ok(Spot::Before(low))
}

/// Puts a row among rows that rise.
pub(crate) fn put_row(alloc: Global, row: Entry, rows: &mut Vec<Entry>) -> Result<(), NoMemory>
    requires { spec_rises rows.old.items ≡ true }
    ensures ok { OnOk result (rows.new.items ≡ spec_put row rows.old.items) }
    ensures err { OnErr result (rows.new.items ≡ rows.old.items) }
{
    match spot_of(alloc, &row, rows.as_slice())? {
        Spot::At(at) => rows[at] = row,
        Spot::Before(at) => rows.insert(at, row)?,
    }
    Ok(())
}

/// Whether the first row is before the next.
fn is_before(alloc: Global, row: &Entry, next: &Entry) -> Result<bool, NoMemory>
    ensures { IfOk result (λ b. b ≡ is_lt (row_order row.now next.now)) }
{
    let place = place_text(alloc, &row.request.place)?;
    Ok(order_of(alloc, &place, row.request.attempt, &next.request)?.is_lt())
}

/// Whether the rows strictly rise, by the texts of their places and then by their attempts.
pub fn rises(alloc: Global, rows: &[Entry]) -> Result<bool, NoMemory>
    ensures value { IfOk result (λ b. b ≡ spec_rises rows.now) }
{
    let mut rest = rows;
    while let [row, more @ ..] = rest {
        let [next, ..] = more else {
            return Ok(true);
        };
        if !is_before(alloc, row, next)? {
            return Ok(false);
        }
        rest = more;
    }
    Ok(true)
}
