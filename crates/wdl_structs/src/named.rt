//! The struct names of documents, and their structs.

ghost use Rattle.std.specs.Prelude.{◌≡◌, true, length, IfOk};
ghost use Rattle.std.specs.List.{list_all};
ghost use Rattle.wdl_library.specs.Links.{has_links, has_no_circle};
ghost use Rattle.wdl_links.specs.Circles.{AreReached};
ghost use Rattle.wdl_structs.specs.Faults as spec;
ghost use Rattle.wdl_structs.specs.Classes.{IsLow};
ghost use Rattle.wdl_structs.specs.Kept.{AreNamedBy};
ghost use Rattle.wdl_structs.specs.Nodes.{LeadFirst, total};
ghost use Rattle.wdl_structs.specs.Ready.{IsReady, IsFull, HasStructsBy, stood_by};
ghost use Rattle.wdl_structs.specs.Tables.{names_of};

use crate::identity::classes_of;
use crate::kept_members::{keep_all, structs_of};
use crate::known::unknown_alias;
use crate::seen::tables_of;
use crate::struct_names::{all_stands, with_stands};
use crate::table::{Table, entries_at};
use sqlite_items::Items;
use std::alloc::Global;
use wdl_library::Doc;
use wdl_links::LinkFault;
use wdl_value::{NoMemory, Structs};

/// The documents with the names that stand for theirs.
fn with_standing_names(
    alloc: Global,
    docs: Items<Doc>,
    tables: &[Table],
    parents: &[usize],
) -> Result<Items<Doc>, NoMemory>
    requires low { IsLow parents.now }
    requires lead { LeadFirst (names_of tables.now 0) parents.now }
    requires len { length parents.now ≡ total tables.now }
    requires tables { length tables.now ≡ length docs }
    ensures { IfOk result (λ r. r ≡ stood_by docs tables.now parents.now) }
{
    let names = all_stands(alloc, entries_at(tables, 0), parents, tables)?;
    with_stands(alloc, docs, names)
}

/// The structs of documents with the names that stand for theirs.
fn structs_by(
    alloc: Global,
    docs: &[Doc],
    tables: &[Table],
    parents: &[usize],
) -> Result<Structs, LinkFault>
    requires named { AreNamedBy docs.now tables.now parents.now }
    requires full { IsFull docs.now tables.now parents.now }
    ensures { HasStructsBy docs.now tables.now parents.now result }
{
    let kept = keep_all(alloc, docs, tables, parents)?;
    let structs = structs_of(alloc, entries_at(tables, 0), parents, kept.as_slice())?;
    Ok(structs)
}

/// The documents with the names that stand for theirs, where the names that each sees are known,
/// and their structs.
fn identified(
    alloc: Global,
    docs: Items<Doc>,
    tables: &[Table],
) -> Result<(Items<Doc>, Structs), LinkFault>
    requires { IsReady docs tables.now }
    ensures { spec.IsAnswer docs result }
{
    let classes = classes_of(alloc, docs.as_slice(), tables)?;
    let docs = with_standing_names(alloc, docs, tables, classes.parents.as_slice())?;
    let structs = structs_by(alloc, docs.as_slice(), tables, classes.parents.as_slice())?;
    Ok((docs, structs))
}

/// The documents with their struct names, and the structs under the names of document 0 (OpenWDL
/// 1.1, "Import statements" and "Struct definition"). 206 is answered at an alias of a struct that
///   the imported document does not see, and 204 at a struct section whose struct has another list
///   of members.
pub fn name_structs(alloc: Global, docs: Items<Doc>) -> Result<(Items<Doc>, Structs), LinkFault>
    requires linked { list_all (has_links docs) docs ≡ true }
    requires ends { has_no_circle docs ≡ true }
    requires reached { AreReached docs }
    ensures { spec.IsAnswer docs result }
{
    let tables = tables_of(alloc, docs.as_slice())?;
    match unknown_alias(alloc, tables.as_slice(), docs.as_slice())? {
        Some(span) => Err(LinkFault::Bad { code: 206, span }),
        None => identified(alloc, docs, tables.as_slice()),
    }
}
