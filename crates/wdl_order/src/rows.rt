ghost use Rattle.std.specs.Prelude.{◌≡◌, ◌<◌, [], ◌∷◌, ◌++◌, length, slice_set, IfOk, OnOk, IfSome};
ghost use Rattle.std.specs.List.{All};
ghost use Rattle.wdl_order.specs.Rows.{row};

use sqlite_items::Items;
use std::alloc::Global;
use std::mem;
use wdl_base::NoMemory;

/// That many rows, each empty.
pub fn empty_rows(alloc: Global, count: usize) -> Result<Vec<Items<usize>>, NoMemory>
    ensures count { IfOk result (λ rows. length rows.items ≡ count) }
    ensures empty { IfOk result (λ rows. All (λ r. r ≡ []) rows.items) }
{
    let mut rows = Vec::with_capacity(alloc, count)?;
    for _ in 0..count {
        rows.push(Items::new(alloc))?;
    }
    Ok(rows)
}

/// Puts a number at the end of a row.
pub fn push_at(rows: &mut Vec<Items<usize>>, at: usize, number: usize) -> Result<(), NoMemory>
    requires { at < length rows.old.items }
    ensures { OnOk result (rows.new.items ≡ slice_set rows.old.items at (row rows.old.items at ++ number ∷ [])) }
{
    rows[at].push(number)?;
    Ok(())
}

/// Takes a row, and leaves it empty.
pub fn take_at(alloc: Global, rows: &mut Vec<Items<usize>>, at: usize) -> Items<usize>
    requires { at < length rows.old.items }
    ensures taken { result ≡ row rows.old.items at }
    ensures rest { rows.new.items ≡ slice_set rows.old.items at [] }
{
    mem::replace(&mut rows[at], Items::new(alloc))
}

/// The first number whose flag is not set.
pub fn first_unset(flags: &[bool]) -> Option<usize>
    ensures { IfSome result (λ at. at < length flags.now) }
{
    flags.iter().position(|flag| !*flag)
}
