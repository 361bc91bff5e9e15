//! Which names are one struct.

ghost use Rattle.std.specs.Prelude.{◌≡◌, ◌+◌, ◌≤◌, ◌<◌, ℕ, true, length, IfOk, OnOk};
ghost use Rattle.wdl_typed.specs.Lists.{are_distinct};
ghost use Rattle.wdl_library.specs.Sections.{imports_in, imports_of};
ghost use Rattle.wdl_library.specs.Structs.{all_have};
ghost use Rattle.wdl_structs.specs.Classes as class;
ghost use Rattle.wdl_structs.specs.Tables.{AreSeen, named, names_of, imported_by, seen_by};
ghost use Rattle.wdl_structs.specs.Nodes as spec;

use crate::class::join;
use crate::renamed::given;
use crate::table::{Entry, Table, entries_at, place};
use sqlite_items::Items;
use std::alloc::Global;
use wdl_ast::{Import, Section};
use wdl_library::{Doc, Link};
use wdl_names::Indexed;
use wdl_value::{Name, NoMemory};

/// The names of documents in classes: the number of the first name of each document, and the parent
/// of each name.
#[derive(Drop)]
pub struct Classes {
    pub starts: Items<usize>,
    pub parents: Items<usize>,
}

/// Adds numbers, each in a class of its own.
fn add_alone(parents: &mut Vec<usize>, count: usize) -> Result<(), NoMemory>
    requires { (i : ℕ) → class.parent parents.old.items i ≡ i }
    ensures len { OnOk result (length parents.new.items ≡ length parents.old.items + count) }
    ensures alone { OnOk result ((i : ℕ) → class.parent parents.new.items i ≡ i) }
{
    for _ in 0..count {
        let number = parents.len();
        parents.push(number)?;
    }
    Ok(())
}

/// A class for each name.
fn numbered(alloc: Global, tables: &[Table]) -> Result<(Items<usize>, Vec<usize>), NoMemory>
    ensures { IfOk result (λ r. spec.AreNumbered tables.now r.0 r.1.items) }
{
    let mut starts = Items::new(alloc);
    let mut parents = Vec::new(alloc);
    for table in tables {
        starts.push(parents.len())?;
        add_alone(&mut parents, table.len())?;
    }
    Ok((starts, parents))
}

/// Joins an imported name with those that an import gives for it.
fn join_group(
    parents: &mut [usize],
    index: &Indexed<Entry>,
    start: usize,
    from: usize,
    group: &[Name],
)
    requires low { class.IsLow parents.old }
    requires from { from < length parents.old }
    requires room { start + length index.now ≤ length parents.old }
    requires distinct { are_distinct (named index.now) ≡ true }
    requires known { spec.all_among (named index.now) group.now ≡ true }
    ensures { spec.AreJoined parents.old parents.new (λ g. all_have (spec.label_from g start (named index.now)) (g from) group.now) }
{
    for name in group {
        let Some(at) = place(index, name) else {
            unreachable!()
        };
        join(parents, from, start + at);
    }
}

/// Joins the imported names, of which the first has the number `first`, with those that an import
/// gives for them.
fn join_groups(
    parents: &mut [usize],
    index: &Indexed<Entry>,
    start: usize,
    first: usize,
    groups: &[Items<Name>],
)
    requires low { class.IsLow parents.old }
    requires from { first + length groups.now ≤ length parents.old }
    requires room { start + length index.now ≤ length parents.old }
    requires distinct { are_distinct (named index.now) ≡ true }
    requires known { spec.groups_among (named index.now) groups.now ≡ true }
    ensures { spec.AreJoined parents.old parents.new (λ g. spec.holds_groups (spec.label_from g start (named index.now)) g first groups.now) }
{
    for (at, group) in groups.iter().enumerate() {
        join_group(parents, index, start, first + at, group.as_slice());
    }
}

/// The number of the first name of a document.
fn start_of(tables: &[Table], starts: &[usize], number: usize) -> usize
    requires starts { starts.now ≡ spec.starts_from 0 tables.now }
    requires within { number < length tables.now }
    ensures { result ≡ spec.start tables.now number }
{
    starts[number]
}

/// Joins the names of one imported document with those that an import gives for them.
fn join_import(
    alloc: Global,
    parents: &mut [usize],
    tables: &[Table],
    starts: &[usize],
    number: usize,
    index: &Indexed<Entry>,
    import: &Import,
    link: &Link,
) -> Result<(), NoMemory>
    requires here { spec.IsAt tables.now starts.now parents.old number (named index.now) }
    requires known { spec.gives_among (names_of tables.now) number import.now link.now ≡ true }
    ensures { OnOk result (spec.AreJoined parents.old parents.new (λ g. spec.import_by (spec.label_by tables.now g) (names_of tables.now) number import.now link.now)) }
{
    let from = link.doc as usize;
    if from >= tables.len() {
        return Ok(());
    }
    let groups = given(alloc, entries_at(tables, from), import.aliases.as_slice())?;
    let start = start_of(tables, starts, number);
    let first = start_of(tables, starts, from);
    join_groups(parents, index, start, first, groups.as_slice());
    Ok(())
}

/// Joins the names of the documents that one document imports with those that its imports give for
/// them.
fn join_imports(
    alloc: Global,
    parents: &mut [usize],
    tables: &[Table],
    starts: &[usize],
    number: usize,
    sections: &[Section],
    links: &[Link],
) -> Result<(), NoMemory>
    requires here { spec.IsAt tables.now starts.now parents.old number (names_of tables.now number) }
    requires known { spec.all_among (names_of tables.now number) (imported_by (names_of tables.now) (imports_in sections.now) links.now) ≡ true }
    ensures { OnOk result (spec.AreJoined parents.old parents.new (λ g. spec.along_by (spec.label_by tables.now g) (names_of tables.now) number (imports_in sections.now) links.now)) }
{
    let index = Indexed::new(alloc, entries_at(tables, number))?;
    let mut left = links;
    for section in sections {
        let import = match section {
            Section::Import(import) => import,
            Section::Struct(_) | Section::Task(_) | Section::Workflow(_) => continue,
        };
        let [link, rest @ ..] = left else {
            return Ok(());
        };
        join_import(alloc, parents, tables, starts, number, &index, import, link)?;
        left = rest;
    }
    Ok(())
}

/// Joins the names of the documents that one document imports with those that its imports give for
/// them.
fn join_doc(
    alloc: Global,
    parents: &mut [usize],
    tables: &[Table],
    starts: &[usize],
    number: usize,
    doc: &Doc,
) -> Result<(), NoMemory>
    requires here { spec.IsAt tables.now starts.now parents.old number (names_of tables.now number) }
    requires seen { names_of tables.now number ≡ seen_by (names_of tables.now) doc.now }
    ensures { OnOk result (spec.AreJoined parents.old parents.new (λ g. spec.along_by (spec.label_by tables.now g) (names_of tables.now) number (imports_of doc.now.document) doc.now.imports)) }
{
    let sections = doc.document.sections.as_slice();
    let links = doc.imports.as_slice();
    join_imports(alloc, parents, tables, starts, number, sections, links)
}

/// Joins the names of all documents with those that imports give for them.
fn join_all(
    alloc: Global,
    parents: &mut [usize],
    tables: &[Table],
    starts: &[usize],
    docs: &[Doc],
) -> Result<(), NoMemory>
    requires starts { starts.now ≡ spec.starts_from 0 tables.now }
    requires len { length parents.old ≡ spec.total tables.now }
    requires low { class.IsLow parents.old }
    requires seen { AreSeen docs.now tables.now }
    ensures { OnOk result (spec.AreJoined parents.old parents.new (λ g. spec.from_by (spec.label_by tables.now g) (names_of tables.now) 0 docs.now)) }
{
    for (number, doc) in docs.iter().enumerate() {
        join_doc(alloc, parents, tables, starts, number, doc)?;
    }
    Ok(())
}

/// The classes of the names that documents see: two names are in one class where a chain of imports
/// joins them.
pub fn classes_of(alloc: Global, docs: &[Doc], tables: &[Table]) -> Result<Classes, NoMemory>
    requires { AreSeen docs.now tables.now }
    ensures { IfOk result (λ r. spec.AreClasses docs.now tables.now r.starts r.parents) }
{
    let (starts, mut parents) = numbered(alloc, tables)?;
    join_all(
        alloc,
        parents.as_mut_slice(),
        tables,
        starts.as_slice(),
        docs,
    )?;
    let parents = Items::from_vec(parents);
    Ok(Classes { starts, parents })
}
