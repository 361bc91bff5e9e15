//! The documents that imports lead to, depth first.

ghost use Rattle.std.specs.Prelude.{
  ◌≡◌,
  ◌↔◌,
  ◌≤◌,
  ◌++◌,
  ℕ,
  List,
  false,
  length,
  reverse,
  IfOk,
  OnOk,
};
ghost use Rattle.wdl_base.specs.Names.{is_among};
ghost use Rattle.wdl_base.specs.Plain.{has_nul};
ghost use Rattle.wdl_sources.specs.Walks as spec;
ghost use Rattle.wdl_port.specs.Causes.{Rose};

use crate::fault::ImportFault;
use crate::source::{Source, SourceFault, fetch};
use crate::sources::Sources;
use sqlite_items::Items;
use std::alloc::Global;
use wdl_links::{LinkFault, Want, wants_of};
use wdl_port::Shelf;
use wdl_value::{NoMemory, Span, Text};

/// The most documents of a library.
const MAX_DOCUMENTS: usize = 64;

/// A document that is to be read: its path, and the path and the place of the import that leads to
/// it.
#[derive(Drop)]
pub struct Step {
    pub path: Text,
    pub base: Text,
    pub span: Span,
}

/// The step to an imported document.
fn step_of(alloc: Global, base: &Text, want: Want) -> Result<Step, NoMemory>
    ensures { IfOk result (λ s. s ≡ spec.step_of base.now want) }
{
    let base = base.copy(alloc)?;
    let Want {
        path,
        namespace: _,
        span,
    } = want;
    Ok(Step { path, base, span })
}

/// Puts the documents that a document imports before the steps that wait; the next step stands
/// last.
fn put_before(
    alloc: Global,
    base: &Text,
    wants: Items<Want>,
    waiting: &mut Vec<Step>,
) -> Result<(), NoMemory>
    ensures { OnOk result (reverse waiting.new.items ≡ spec.steps_from base.now wants ++ reverse waiting.old.items) }
{
    let mut left = wants;
    'wants: while let Some(want) = left.pop() {
        waiting.push(step_of(alloc, base, want)?)?;
    }
    Ok(())
}

/// The source at a path.
fn source_at<F: Shelf>(
    alloc: Global,
    shelf: &mut F,
    path: Text,
    number: u32,
) -> Result<Source, ImportFault>
    ensures outcome { spec.IsSource (F.tells shelf.old path) (F.refuses shelf.old path) (Rose (F.faults shelf.old) (F.faults shelf.new)) path number result }
    ensures counted { spec.Counts result (F.faults shelf.old) (F.faults shelf.new) }
    ensures later { F.faults shelf.old ≤ F.faults shelf.new }
    ensures same_files { (p : List ℕ) → F.tells shelf.new p ≡ F.tells shelf.old p }
    ensures same_refusals { (p : List ℕ) → F.refuses shelf.new p ↔ F.refuses shelf.old p }
{
    match fetch(alloc, shelf, &path, number) {
        Ok(document) => Ok(Source { path, document }),
        Err(SourceFault::Failed) => Err(ImportFault::Read { path }),
        Err(SourceFault::Bad { code, span }) => Err(ImportFault::Bad { code, path, span }),
        Err(SourceFault::NoMemory) => Err(ImportFault::NoMemory),
    }
}

/// What a source imports.
fn with_wants(alloc: Global, source: Source) -> Result<(Source, Items<Want>), ImportFault>
    ensures { spec.Imports source result }
{
    match wants_of(alloc, &source.path, source.document.sections.as_slice()) {
        Ok(wants) => Ok((source, wants)),
        Err(LinkFault::Bad { code, span }) => {
            let Source { path, document: _ } = source;
            Err(ImportFault::Bad { code, path, span })
        }
        Err(LinkFault::NoMemory) => Err(ImportFault::NoMemory),
    }
}

/// Reads the document at a step, whose path was not read yet, and puts what it imports before the
/// steps that wait. 205 is answered where there are 64 documents.
fn take<F: Shelf>(
    alloc: Global,
    shelf: &mut F,
    sources: &mut Sources,
    waiting: &mut Vec<Step>,
    step: Step,
) -> Result<(), ImportFault>
    requires { is_among step.path (spec.paths sources.old) ≡ false }
    ensures outcome { spec.Takes (F.tells shelf.old step.path) (F.refuses shelf.old step.path) (Rose (F.faults shelf.old) (F.faults shelf.new)) step
        sources.old sources.new (reverse waiting.old.items) (reverse waiting.new.items) result }
    ensures counted { spec.Counts result (F.faults shelf.old) (F.faults shelf.new) }
    ensures later { F.faults shelf.old ≤ F.faults shelf.new }
    ensures same_files { (p : List ℕ) → F.tells shelf.new p ≡ F.tells shelf.old p }
    ensures same_refusals { (p : List ℕ) → F.refuses shelf.new p ↔ F.refuses shelf.old p }
    ensures most { OnOk result (length sources.new ≤ spec.most_documents) }
{
    let Step { path, base, span } = step;
    if sources.len() >= MAX_DOCUMENTS {
        return Err(ImportFault::Bad {
            code: 205,
            path: base,
            span,
        });
    }
    let source = source_at(alloc, shelf, path, sources.len() as u32)?;
    let (source, wants) = with_wants(alloc, source)?;
    put_before(alloc, &source.path, wants, waiting)?;
    sources.push(alloc, source)?;
    Ok(())
}

/// All documents that the one at a path leads to, depth first in the order of the imports, each
/// once. `Read` is answered only for a path that the shelf refuses, and only where its count of
/// faults rose; it is the given path, or that of an import of a document that was read before. With
/// documents, or with `Bad`, each read succeeded: the shelf has counted no fault.
pub fn read_all<F: Shelf>(alloc: Global, shelf: &mut F, path: &str) -> Result<Sources, ImportFault>
    requires { has_nul path.now ≡ false }
    ensures outcome { spec.Gathers (F.tells shelf.old) (F.refuses shelf.old) (Rose (F.faults shelf.old) (F.faults shelf.new)) path.now result }
    ensures counted { spec.Counts result (F.faults shelf.old) (F.faults shelf.new) }
    ensures later { F.faults shelf.old ≤ F.faults shelf.new }
    ensures same_files { (p : List ℕ) → F.tells shelf.new p ≡ F.tells shelf.old p }
    ensures same_refusals { (p : List ℕ) → F.refuses shelf.new p ↔ F.refuses shelf.old p }
{
    let mut sources = Sources::empty(alloc);
    let mut waiting = Vec::new(alloc);
    waiting.push(first_step(alloc, path)?)?;
    'walk: while let Some(step) = waiting.pop() {
        if sources.has(&step.path) {
            continue;
        }
        take(alloc, shelf, &mut sources, &mut waiting, step)?;
    }
    Ok(sources)
}

/// The step to the document that is named.
fn first_step(alloc: Global, path: &str) -> Result<Step, NoMemory>
    requires { has_nul path.now ≡ false }
    ensures { IfOk result (λ s. s ≡ spec.first_step path.now) }
{
    let base = Text::from_plain(alloc, path)?;
    let path = Text::from_plain(alloc, path)?;
    Ok(Step {
        path,
        base,
        span: Span {
            doc: 0,
            start: 0,
            end: 0,
        },
    })
}
