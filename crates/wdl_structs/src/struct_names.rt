//! The names that stand for structs.

ghost use Rattle.std.specs.Prelude.{◌≡◌, ◌+◌, ◌≤◌, ◌<◌, length, IfOk};
ghost use Rattle.wdl_structs.specs.Classes as class;
ghost use Rattle.wdl_structs.specs.Tables.{named};
ghost use Rattle.wdl_structs.specs.Nodes as spec;

use crate::class::least;
use crate::table::{Entry, Table};
use sqlite_items::Items;
use std::alloc::Global;
use wdl_library::{Doc, StructName};
use wdl_value::{Name, NoMemory};

/// The name of document 0 that stands for the name of that number: the first of its class.
fn standing<'a>(first: &'a [Entry], parents: &[usize], number: usize) -> &'a Name
    requires low { class.IsLow parents.now }
    requires lead { spec.LeadFirst (named first.now) parents.now }
    requires within { number < length parents.now }
    ensures { result.now ≡ spec.mark_of (named first.now) parents.now number }
{
    &first[least(parents, number)].name
}

/// The names of one document with those that stand for them, where the first has the number
/// `start`.
fn stands_of(
    alloc: Global,
    first: &[Entry],
    parents: &[usize],
    start: usize,
    entries: &[Entry],
) -> Result<Items<StructName>, NoMemory>
    requires low { class.IsLow parents.now }
    requires lead { spec.LeadFirst (named first.now) parents.now }
    requires within { start + length entries.now ≤ length parents.now }
    ensures { IfOk result (λ r. r ≡ spec.stands_from (spec.mark_of (named first.now) parents.now) start (named entries.now)) }
{
    let mut names = Items::new(alloc);
    for (at, entry) in entries.iter().enumerate() {
        let stands_for = standing(first, parents, start + at).copy(alloc)?;
        let name = entry.name.copy(alloc)?;
        names.push(StructName { name, stands_for })?;
    }
    Ok(names)
}

/// The names of all documents with those that stand for them.
pub fn all_stands(
    alloc: Global,
    first: &[Entry],
    parents: &[usize],
    tables: &[Table],
) -> Result<Items<Items<StructName>>, NoMemory>
    requires low { class.IsLow parents.now }
    requires lead { spec.LeadFirst (named first.now) parents.now }
    requires within { spec.total tables.now ≤ length parents.now }
    ensures { IfOk result (λ r. r ≡ spec.all_stands (spec.mark_of (named first.now) parents.now) 0 tables.now) }
{
    let mut all = Items::new(alloc);
    let mut start = 0;
    for table in tables {
        let entries = table.entries();
        all.push(stands_of(alloc, first, parents, start, entries)?)?;
        start += entries.len();
    }
    Ok(all)
}

/// The documents with these struct names. There are at most 64 documents.
pub fn with_stands(
    alloc: Global,
    docs: Items<Doc>,
    names: Items<Items<StructName>>,
) -> Result<Items<Doc>, NoMemory>
    requires { length names ≡ length docs }
    ensures { IfOk result (λ r. r ≡ spec.with_stands docs names) }
{
    let mut left = docs;
    let mut names = names;
    let mut all = Items::new(alloc);
    'docs: while left.len() > 0 {
        let structs = names.remove(0);
        all.push(with_structs(left.remove(0), structs))?;
    }
    Ok(all)
}

fn with_structs(doc: Doc, structs: Items<StructName>) -> Doc
    ensures { result ≡ spec.with_structs doc structs }
{
    let Doc {
        path,
        document,
        imports,
        structs: _,
    } = doc;
    Doc {
        path,
        document,
        imports,
        structs,
    }
}
