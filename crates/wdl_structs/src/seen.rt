//! The struct names that documents see.

ghost use Rattle.std.specs.Prelude.{◌≡◌, ℕ, true, false, map, length, IfOk, OnOk};
ghost use Rattle.wdl_links.specs.Circles.{is_marked};
ghost use Rattle.std.specs.List.{list_all};
ghost use Rattle.wdl_library.specs.Links.{has_links, has_no_circle};
ghost use Rattle.wdl_library.specs.Sections.{imports_in, structs_in};
ghost use Rattle.wdl_structs.specs.Tables as spec;

use crate::renamed::given;
use crate::table::{Table, entries_at};
use sqlite_items::Items;
use std::alloc::Global;
use wdl_ast::{Import, Section};
use wdl_library::{Doc, Link};
use wdl_links::next_end;
use wdl_value::{Name, NoMemory};

fn add_names(alloc: Global, table: &mut Table, names: &[Name]) -> Result<(), NoMemory>
    ensures { OnOk result (table.new ≡ spec.with_names table.old names.now) }
{
    for name in names {
        table.add(alloc, name)?;
    }
    Ok(())
}

fn add_groups(alloc: Global, table: &mut Table, groups: &[Items<Name>]) -> Result<(), NoMemory>
    ensures { OnOk result (table.new ≡ spec.with_groups table.old groups.now) }
{
    for group in groups {
        add_names(alloc, table, group.as_slice())?;
    }
    Ok(())
}

/// Adds the names of the struct sections.
fn add_own(alloc: Global, table: &mut Table, sections: &[Section]) -> Result<(), NoMemory>
    ensures { OnOk result (table.new ≡ spec.with_names table.old (map (λ s. s.name.name) (structs_in sections.now))) }
{
    for section in sections {
        if let Section::Struct(section) = section {
            table.add(alloc, &section.name.name)?;
        }
    }
    Ok(())
}

/// Adds the names that an import gives.
fn add_import(
    alloc: Global,
    table: &mut Table,
    tables: &[Table],
    import: &Import,
    link: &Link,
) -> Result<(), NoMemory>
    ensures { OnOk result (table.new ≡ spec.with_groups table.old (spec.groups import.now.aliases (spec.names_of tables.now link.now.doc))) }
{
    let entries = entries_at(tables, link.doc as usize);
    let groups = given(alloc, entries, import.aliases.as_slice())?;
    add_groups(alloc, table, groups.as_slice())
}

/// Adds the names that the imports give, in their order.
fn add_imported(
    alloc: Global,
    table: &mut Table,
    tables: &[Table],
    sections: &[Section],
    links: &[Link],
) -> Result<(), NoMemory>
    ensures { OnOk result (table.new ≡ spec.with_names table.old (spec.imported_by (spec.names_of tables.now) (imports_in sections.now) links.now)) }
{
    let mut left = links;
    for section in sections {
        let import = match section {
            Section::Import(import) => import,
            Section::Struct(_) | Section::Task(_) | Section::Workflow(_) => continue,
        };
        let [link, rest @ ..] = left else {
            return Ok(());
        };
        add_import(alloc, table, tables, import, link)?;
        left = rest;
    }
    Ok(())
}

/// The names that a document sees, where those of the documents that it imports are known.
fn table_of(alloc: Global, tables: &[Table], doc: &Doc) -> Result<Table, NoMemory>
    ensures { IfOk result (λ t. t ≡ spec.seen_by (spec.names_of tables.now) doc.now) }
{
    let mut table = Table::empty(alloc);
    let sections = doc.document.sections.as_slice();
    add_own(alloc, &mut table, sections)?;
    add_imported(alloc, &mut table, tables, sections, doc.imports.as_slice())?;
    Ok(table)
}

/// An empty table for each document.
fn empty_tables(alloc: Global, count: usize) -> Result<Items<Table>, NoMemory>
    ensures { IfOk result (λ ts. length ts ≡ count) }
{
    let mut tables = Items::new(alloc);
    for _ in 0..count {
        tables.push(Table::empty(alloc))?;
    }
    Ok(tables)
}

/// No marks.
fn unmarked(alloc: Global, count: usize) -> Result<Items<bool>, NoMemory>
    ensures len { IfOk result (λ marks. length marks ≡ count) }
    ensures none { IfOk result (λ marks. (k : ℕ) → is_marked marks k ≡ false) }
{
    let mut marks = Items::new(alloc);
    for _ in 0..count {
        marks.push(false)?;
    }
    Ok(marks)
}

/// The struct names that each document sees. Those of imported documents are found first.
pub fn tables_of(alloc: Global, docs: &[Doc]) -> Result<Items<Table>, NoMemory>
    requires linked { list_all (has_links docs.now) docs.now ≡ true }
    requires ends { has_no_circle docs.now ≡ true }
    ensures { IfOk result (spec.AreSeen docs.now) }
{
    let mut tables = empty_tables(alloc, docs.len())?;
    let mut marks = unmarked(alloc, docs.len())?;
    while let Some(k) = next_end(docs, marks.as_slice()) {
        let table = table_of(alloc, tables.as_slice(), &docs[k])?;
        tables.set(k, table);
        marks.set(k, true);
    }
    Ok(tables)
}
