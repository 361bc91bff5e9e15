//! Whether aliases are those of structs that imported documents see.

ghost use Rattle.std.specs.Prelude.{◌≡◌, true, IfSome, IfNone, IfOk};
ghost use Rattle.wdl_library.specs.Names.{are_known};
ghost use Rattle.wdl_library.specs.Sections.{imports_in};
ghost use Rattle.wdl_structs.specs.Faults as fault;
ghost use Rattle.wdl_structs.specs.Tables as spec;

use crate::table::{Entry, Table, entries_at, place};
use std::alloc::Global;
use wdl_ast::{Alias, Section};
use wdl_library::{Doc, Link};
use wdl_names::Indexed;
use wdl_value::{NoMemory, Span};

/// Where an alias is of none of these names.
fn unknown_among(index: &Indexed<Entry>, aliases: &[Alias]) -> Option<Span>
    ensures some { IfSome result (fault.HasUnknown (spec.named index.now) aliases.now) }
    ensures none { IfNone result (are_known (spec.named index.now) aliases.now ≡ true) }
{
    for alias in aliases {
        if place(index, &alias.from.name).is_none() {
            return Some(alias.from.span);
        }
    }
    None
}

/// Where an alias of one document is of a struct that the imported document does not see.
fn unknown_in(
    alloc: Global,
    tables: &[Table],
    sections: &[Section],
    links: &[Link],
) -> Result<Option<Span>, NoMemory>
    ensures { IfOk result (spec.TellsUnknown (spec.names_of tables.now) (imports_in sections.now) links.now) }
{
    let mut left = links;
    for section in sections {
        let import = match section {
            Section::Import(import) => import,
            Section::Struct(_) | Section::Task(_) | Section::Workflow(_) => continue,
        };
        let [link, rest @ ..] = left else {
            return Ok(None);
        };
        let index = Indexed::new(alloc, entries_at(tables, link.doc as usize))?;
        if let Some(span) = unknown_among(&index, import.aliases.as_slice()) {
            return Ok(Some(span));
        }
        left = rest;
    }
    Ok(None)
}

/// Where an alias of a document is of a struct that the imported document does not see.
pub fn unknown_alias(
    alloc: Global,
    tables: &[Table],
    docs: &[Doc],
) -> Result<Option<Span>, NoMemory>
    ensures { IfOk result (spec.TellsAlias (spec.names_of tables.now) docs.now) }
{
    for doc in docs {
        let sections = doc.document.sections.as_slice();
        if let Some(span) = unknown_in(alloc, tables, sections, doc.imports.as_slice())? {
            return Ok(Some(span));
        }
    }
    Ok(None)
}
