//! Whether the links of documents form a circle.

ghost use Rattle.std.specs.Prelude.{
  ◌≡◌,
  ℕ,
  ◌<◌,
  true,
  false,
  length,
  slice_get,
  IfOk,
  IfSome,
  IfNone,
  Some,
};
ghost use Rattle.std.specs.List.{list_all};
ghost use Rattle.wdl_library.specs.Links.{has_links};
ghost use Rattle.wdl_library.specs.Sections.{imports_in};
ghost use Rattle.wdl_links.specs.Circles as spec;

use crate::fault::LinkFault;
use crate::want::span_of;
use sqlite_items::Items;
use std::alloc::Global;
use wdl_ast::Section;
use wdl_library::{Doc, Link};
use wdl_value::{NoMemory, Span};

fn is_marked(marks: &[bool], doc: usize) -> bool
    ensures { result ≡ spec.is_marked marks.now doc }
{
    match marks.get(doc) {
        Some(mark) => *mark,
        None => false,
    }
}

fn all_marked(marks: &[bool], links: &[Link]) -> bool
    ensures { result ≡ spec.all_marked marks.now links.now }
{
    for link in links {
        if !is_marked(marks, link.doc as usize) {
            return false;
        }
    }
    true
}

/// The first document without a mark whose links all lead to marked ones, in time linear in the
/// links.
pub fn next_end(docs: &[Doc], marks: &[bool]) -> Option<usize>
    ensures some { IfSome result (λ k. (k < length docs.now) × (spec.is_next docs.now marks.now k ≡ true)) }
    ensures none { IfNone result (spec.NoneIsNext docs.now marks.now) }
{
    for (k, doc) in docs.iter().enumerate() {
        if !is_marked(marks, k) && all_marked(marks, doc.imports.as_slice()) {
            return Some(k);
        }
    }
    None
}

/// No marks.
fn unmarked(alloc: Global, count: usize) -> Result<Items<bool>, NoMemory>
    ensures len { IfOk result (λ marks. length marks ≡ count) }
    ensures none { IfOk result (λ marks. (k : ℕ) → spec.is_marked marks k ≡ false) }
{
    let mut marks = Items::new(alloc);
    for _ in 0..count {
        marks.push(false)?;
    }
    Ok(marks)
}

/// Marks the documents from which no walk goes on for ever, those that import nothing first.
fn marks_of(alloc: Global, docs: &[Doc]) -> Result<Items<bool>, NoMemory>
    ensures len { IfOk result (λ marks. length marks ≡ length docs.now) }
    ensures ends { IfOk result (spec.AreEnds (length docs.now) docs.now) }
    ensures none { IfOk result (spec.NoneIsNext docs.now) }
{
    let mut marks = unmarked(alloc, docs.len())?;
    while let Some(k) = next_end(docs, marks.as_slice()) {
        marks.set(k, true);
    }
    Ok(marks)
}

/// The first import that leads to a document without a mark: the number of that document, and where
/// the import stands.
fn open_link(marks: &[bool], sections: &[Section], links: &[Link]) -> Option<(u32, Span)>
    ensures { result ≡ spec.open_link marks.now (imports_in sections.now) links.now }
{
    let mut left = links;
    for section in sections {
        let import = match section {
            Section::Import(import) => import,
            Section::Struct(_) | Section::Task(_) | Section::Workflow(_) => continue,
        };
        let [link, rest @ ..] = left else {
            return None;
        };
        if !is_marked(marks, link.doc as usize) {
            return Some((link.doc, span_of(import)));
        }
        left = rest;
    }
    None
}

/// The first import of a document without a mark that leads to another such, which there is: the
/// number of that document, and where the import stands.
fn next_open(docs: &[Doc], marks: &[bool], at: usize) -> (u32, Span)
    requires marks { spec.HasMarks docs.now marks.now }
    requires here { slice_get marks.now at ≡ Some false }
    ensures { spec.IsNextOpen docs.now marks.now at result }
{
    let doc = &docs[at];
    match open_link(
        marks,
        doc.document.sections.as_slice(),
        doc.imports.as_slice(),
    ) {
        Some(found) => found,
        None => unreachable!(),
    }
}

/// Where the imports from document 0, each the first that leads to a document without a mark, lead
/// to a document for the second time.
fn closing(alloc: Global, docs: &[Doc], marks: &[bool]) -> Result<Span, NoMemory>
    requires marks { spec.HasMarks docs.now marks.now }
    requires here { slice_get marks.now 0 ≡ Some false }
    ensures { IfOk result (spec.IsCircle docs.now) }
{
    let mut seen = unmarked(alloc, docs.len())?;
    let mut at = 0;
    'walk: loop {
        seen.set(at, true);
        let (next, span) = next_open(docs, marks, at);
        at = next as usize;
        if is_marked(seen.as_slice(), at) {
            return Ok(span);
        }
    }
}

/// Tests that the links form no circle. Documents are read depth first, in the order of the
/// imports: 202 is answered at the first import that leads to a document that is being read. The
/// time grows with the square of the number of documents, of which there are at most
/// 64.
pub fn no_circle(alloc: Global, docs: &[Doc]) -> Result<(), LinkFault>
    requires some { 0 < length docs.now }
    requires linked { list_all (has_links docs.now) docs.now ≡ true }
    requires reached { spec.AreReached docs.now }
    ensures { spec.IsAnswer docs.now result }
{
    let marks = marks_of(alloc, docs)?;
    if is_marked(marks.as_slice(), 0) {
        return Ok(());
    }
    Err(LinkFault::Bad {
        code: 202,
        span: closing(alloc, docs, marks.as_slice())?,
    })
}
