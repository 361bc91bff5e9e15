//! The members of structs: those of all sections that declare one struct are equal.

ghost use Rattle.std.specs.Prelude.{
  ◌≡◌,
  ◌+◌,
  ◌≤◌,
  ◌<◌,
  ℕ,
  List,
  true,
  map,
  length,
  IfOk,
  IfSome,
  IfNone,
};
ghost use Rattle.wdl_base.specs.Names.{is_among};
ghost use Rattle.wdl_value.specs.declared.ty.Member.{Member as MemberOf};
ghost use Rattle.wdl_library.specs.Names.{names_in, own_names};
ghost use Rattle.wdl_library.specs.Sections.{structs_in};
ghost use Rattle.wdl_library.specs.Structs.{stand_in};
ghost use Rattle.wdl_structs.specs.Classes as class;
ghost use Rattle.wdl_structs.specs.Nodes.{all_among};
ghost use Rattle.wdl_structs.specs.Tables.{named};
ghost use Rattle.wdl_structs.specs.Kept as spec;

use crate::class::least;
use crate::member::{copy_members, members, same_members};
use crate::table::{Entry, Table, entries_at, place};
use sqlite_items::Items;
use std::alloc::Global;
use wdl_ast::{Section, StructSection};
use wdl_library::{Doc, StructName};
use wdl_links::LinkFault;
use wdl_names::Indexed;
use wdl_value::{Member, NoMemory, StructDef, Structs};

/// The members that are kept at a place.
fn kept_at<'a>(kept: &'a [Option<Items<Member>>], at: usize) -> Option<&'a [Member]>
    requires { at < length kept.now }
    ensures some { IfSome result (λ ms. spec.Has kept.now at ms.now) }
    ensures none { IfNone result ((x : List MemberOf) → spec.Has kept.now at x → ⊥) }
{
    match &kept[at] {
        Some(members) => Some(members.as_slice()),
        None => None,
    }
}

/// Keeps members at a place. The answer is whether there are no others.
fn keep(kept: &mut Items<Option<Items<Member>>>, at: usize, members: Items<Member>) -> bool
    requires { at < length kept.old }
    ensures { spec.IsKept kept.old at members kept.new result }
{
    if let Some(others) = kept_at(kept.as_slice(), at) {
        return same_members(others, members.as_slice());
    }
    kept.set(at, Some(members));
    true
}

/// Keeps the members of a section of a document, of whose names the first has the number `start`.
/// 204 is answered where its struct has others.
fn keep_section(
    alloc: Global,
    kept: &mut Items<Option<Items<Member>>>,
    index: &Indexed<Entry>,
    names: &[StructName],
    parents: &[usize],
    start: usize,
    section: &StructSection,
) -> Result<(), LinkFault>
    requires here { spec.IsHere kept.old (named index.now) names.now parents.now start }
    requires known { is_among section.now.name.name (names_in names.now) ≡ true }
    ensures { spec.KeepsMore kept.old kept.new (spec.KeepsOne parents.now start names.now section.now) (spec.DiffersOne parents.now start names.now section.now) result }
{
    let members = members(alloc, index, names, section.members.as_slice())?;
    let Some(at) = place(index, &section.name.name) else {
        unreachable!()
    };
    if keep(kept, least(parents, start + at), members) {
        return Ok(());
    }
    Err(LinkFault::Bad {
        code: 204,
        span: section.name.span,
    })
}

/// Keeps the members of the sections of one document.
fn keep_sections(
    alloc: Global,
    kept: &mut Items<Option<Items<Member>>>,
    index: &Indexed<Entry>,
    names: &[StructName],
    parents: &[usize],
    start: usize,
    sections: &[Section],
) -> Result<(), LinkFault>
    requires here { spec.IsHere kept.old (named index.now) names.now parents.now start }
    requires known { all_among (names_in names.now) (map (λ s. s.name.name) (structs_in sections.now)) ≡ true }
    ensures { spec.KeepsMore kept.old kept.new (spec.Keeps parents.now start (names_in names.now) (stand_in names.now) (structs_in sections.now))
        (spec.DiffersIn parents.now start (names_in names.now) (stand_in names.now)
        (structs_in sections.now)) result }
{
    for section in sections {
        let section = match section {
            Section::Struct(section) => section,
            Section::Import(_) => continue,
            Section::Task(_) => continue,
            Section::Workflow(_) => continue,
        };
        keep_section(alloc, kept, index, names, parents, start, section)?;
    }
    Ok(())
}

/// Keeps the members of the sections of a document, which has the names of its table with those
/// that stand for them.
fn keep_doc(
    alloc: Global,
    kept: &mut Items<Option<Items<Member>>>,
    entries: &[Entry],
    parents: &[usize],
    start: usize,
    doc: &Doc,
) -> Result<(), LinkFault>
    requires here { spec.IsHere kept.old (named entries.now) doc.now.structs parents.now start }
    requires known { all_among (names_in doc.now.structs) (own_names doc.now) ≡ true }
    ensures { spec.KeepsMore kept.old kept.new (spec.KeepsDoc parents.now start doc.now) (spec.DiffersDoc parents.now start doc.now) result }
{
    let index = Indexed::new(alloc, entries)?;
    let names = doc.structs.as_slice();
    let sections = doc.document.sections.as_slice();
    keep_sections(alloc, kept, &index, names, parents, start, sections)
}

/// Nothing is kept.
fn none_kept(alloc: Global, count: usize) -> Result<Items<Option<Items<Member>>>, NoMemory>
    ensures len { IfOk result (λ kept. length kept ≡ count) }
    ensures none { IfOk result (λ kept. (j : ℕ) (x : List MemberOf) → spec.Has kept j x → ⊥) }
{
    let mut kept = Items::new(alloc);
    for _ in 0..count {
        kept.push(None)?;
    }
    Ok(kept)
}

/// The number behind those of some names.
fn behind(parents: &[usize], start: usize, count: usize) -> usize
    requires { start + count ≤ length parents.now }
    ensures { result ≡ start + count }
{
    start + count
}

/// The members of the structs of all documents, which have the names that they see and those that
/// stand for them. 204 is answered where a struct has two lists of members.
pub fn keep_all(
    alloc: Global,
    docs: &[Doc],
    tables: &[Table],
    parents: &[usize],
) -> Result<Items<Option<Items<Member>>>, LinkFault>
    requires { spec.AreNamedBy docs.now tables.now parents.now }
    ensures { spec.KeepsAll (spec.KeepsFrom parents.now tables.now 0 docs.now) (spec.DiffersFrom parents.now tables.now 0 docs.now) result }
{
    let mut kept = none_kept(alloc, entries_at(tables, 0).len())?;
    let mut start = 0;
    for (number, doc) in docs.iter().enumerate() {
        let entries = entries_at(tables, number);
        keep_doc(alloc, &mut kept, entries, parents, start, doc)?;
        start = behind(parents, start, entries.len());
    }
    Ok(kept)
}

/// The structs under the names of document 0.
pub fn structs_of(
    alloc: Global,
    first: &[Entry],
    parents: &[usize],
    kept: &[Option<Items<Member>>],
) -> Result<Structs, NoMemory>
    requires low { class.IsLow parents.now }
    requires within { length first.now ≤ length parents.now }
    requires full { spec.AreFull parents.now kept.now (named first.now) }
    ensures { IfOk result (spec.AreDefs parents.now kept.now 0 (named first.now)) }
{
    let mut structs = Items::new(alloc);
    for (at, entry) in first.iter().enumerate() {
        structs.push(struct_of(alloc, entry, least(parents, at), kept)?)?;
    }
    Ok(structs)
}

fn struct_of(
    alloc: Global,
    entry: &Entry,
    lead: usize,
    kept: &[Option<Items<Member>>],
) -> Result<StructDef, NoMemory>
    requires within { lead < length kept.now }
    requires full { (ms : List MemberOf) × spec.Has kept.now lead ms }
    ensures { IfOk result (λ d. (d.name ≡ entry.now.name) × spec.Has kept.now lead d.members) }
{
    let Some(members) = kept_at(kept, lead) else {
        unreachable!()
    };
    let name = entry.name.copy(alloc)?;
    let members = copy_members(alloc, members)?;
    Ok(StructDef { name, members })
}
