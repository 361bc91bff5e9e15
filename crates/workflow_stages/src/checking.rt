//! The documents, from their files to the checked form.

ghost use Rattle.std.specs.Prelude.{
  ◌≡◌,
  ◌≤◌,
  ◌↔◌,
  ◌<◌,
  ℕ,
  List,
  [],
  IfOk,
  IfErr,
  length,
  Some,
  None,
  slice_get,
};
ghost use Rattle.report_text.specs.Lines.{HasPath};
ghost use Rattle.wdl_port.specs.Causes.{Rose};
ghost use Rattle.workflow_stages.specs.Counting.{StopCounts};
ghost use Rattle.workflow_stages.specs.Documents as spec;
ghost use Rattle.workflow_stages.specs.Documents.{Checks, Gathers, LocatesIn, Types, paths_of};

use crate::ended::CommandStop;
use crate::explain::Explain;
use crate::note::tell;
use report_text::Status;
use std::alloc::Global;
use wdl_check_doc::{CheckFault, check};
use wdl_imports::{ImportFault, gather};
use wdl_library::Library;
use wdl_port::{Shelf, Sink};
use wdl_typed::Checked;
use wdl_value::{Items, NoMemory, Span, Text};

/// A checked form, with the paths of the documents of its library by their numbers.
#[derive(Drop)]
pub struct Located {
    pub checked: Checked,
    pub paths: Items<Text>,
}

/// A stop whose line names no document.
pub fn stop_of(alloc: Global, status: Status) -> CommandStop
    ensures status { result.status ≡ status }
    ensures paths { result.paths ≡ [] }
    ensures note { result.note ≡ None }
{
    CommandStop {
        status,
        paths: Items::new(alloc),
        note: None,
    }
}

/// Paths by the numbers of documents, of which this number has the given one.
#[tactic(auto, using(crate::proofs::Paths::last_is))]
fn paths_to(alloc: Global, number: u32, path: Text) -> Result<Items<Text>, NoMemory>
    ensures path { IfOk result (λ paths. slice_get paths number ≡ Some path) }
    ensures long { IfOk result (λ paths. number < length paths) }
{
    let mut paths = Items::new(alloc);
    'fill: while paths.len() < number as usize {
        paths.push(Text::empty(alloc))?;
    }
    paths.push(path)?;
    Ok(paths)
}

/// The stop of a document in which a rule is broken.
fn refused(alloc: Global, code: u16, path: Text, span: Span, note: Option<String>) -> CommandStop
    ensures value { spec.IsRefusal code span path result.status result.paths }
    ensures paths { HasPath result.status result.paths }
{
    match paths_to(alloc, span.doc, path) {
        Ok(paths) => CommandStop {
            status: Status::Document(code, span),
            paths,
            note,
        },
        Err(_) => stop_of(alloc, Status::NoMemory),
    }
}

/// The library of the document at a path.
pub fn gathered<F: Shelf + Explain>(
    alloc: Global,
    file: &Text,
    shelf: &mut F,
) -> Result<Library, CommandStop>
    ensures outcome { Gathers (F.tells shelf.old) file.now (F.refuses shelf.old) (Rose (F.faults shelf.old) (F.faults shelf.new)) result }
    ensures counted { StopCounts result (F.faults shelf.old) (F.faults shelf.new) }
    ensures paths { IfErr result (λ s. HasPath s.status s.paths) }
    ensures later { F.faults shelf.old ≤ F.faults shelf.new }
    ensures same_files { (p : List ℕ) → F.tells shelf.new p ≡ F.tells shelf.old p }
    ensures same_refusals { (p : List ℕ) → F.refuses shelf.new p ↔ F.refuses shelf.old p }
{
    match gather(alloc, shelf, file) {
        Ok(library) => Ok(library),
        Err(ImportFault::Read { path }) => Err(stop_of(alloc, Status::Read(path))),
        Err(ImportFault::Bad { code, path, span }) => {
            let note = shelf.document(alloc, &path, code, span, None);
            Err(refused(alloc, code, path, span, note))
        }
        Err(ImportFault::NoMemory) => Err(stop_of(alloc, Status::NoMemory)),
    }
}

/// The paths of the documents of a library.
fn library_paths(alloc: Global, library: &Library) -> Result<Items<Text>, NoMemory>
    ensures value { IfOk result (λ paths. paths ≡ paths_of library.now) }
{
    let mut paths = Items::new(alloc);
    for doc in library.docs.as_slice() {
        paths.push(doc.path.copy(alloc)?)?;
    }
    Ok(paths)
}

/// The stop of a library in which a rule is broken.
fn untyped<F: Explain>(
    alloc: Global,
    code: u16,
    span: Span,
    library: &Library,
    shelf: &F,
) -> CommandStop
    requires within { span.doc < length library.now.docs }
    ensures value { spec.IsUntypedStop code span (paths_of library.now) result.status result.paths }
    ensures paths { HasPath result.status result.paths }
{
    let path = &library.docs.as_slice()[span.doc as usize].path;
    let note = shelf.document(alloc, path, code, span, Some(library));
    match library_paths(alloc, library) {
        Ok(paths) => CommandStop {
            status: Status::Document(code, span),
            paths,
            note,
        },
        Err(_) => stop_of(alloc, Status::NoMemory),
    }
}

/// The checked form of a library.
fn typed<F: Explain>(alloc: Global, library: &Library, shelf: &F) -> Result<Checked, CommandStop>
    ensures outcome { Types library.now result }
    ensures paths { IfErr result (λ s. HasPath s.status s.paths) }
{
    match check(alloc, library) {
        Ok(checked) => Ok(checked),
        Err(CheckFault::Bad { code, span }) => Err(untyped(alloc, code, span, library, shelf)),
        Err(CheckFault::NoMemory) => Err(stop_of(alloc, Status::NoMemory)),
    }
}

/// The checked form of a library, with the paths of its documents.
pub fn located_in<F: Explain>(
    alloc: Global,
    library: &Library,
    shelf: &F,
) -> Result<Located, CommandStop>
    ensures outcome { LocatesIn library.now result }
    ensures paths { IfErr result (λ s. HasPath s.status s.paths) }
{
    let checked = match typed(alloc, library, shelf) {
        Ok(checked) => checked,
        Err(stop) => return Err(stop),
    };
    match library_paths(alloc, library) {
        Ok(paths) => Ok(Located { checked, paths }),
        Err(_) => Err(stop_of(alloc, Status::NoMemory)),
    }
}

/// The checked form of the document at a path, with its imports.
pub fn checked_of<F: Shelf + Explain>(
    alloc: Global,
    file: &Text,
    shelf: &mut F,
) -> Result<Checked, CommandStop>
    ensures outcome { Checks (F.tells shelf.old) file.now (F.refuses shelf.old) (Rose (F.faults shelf.old) (F.faults shelf.new)) result }
    ensures counted { StopCounts result (F.faults shelf.old) (F.faults shelf.new) }
    ensures paths { IfErr result (λ s. HasPath s.status s.paths) }
    ensures later { F.faults shelf.old ≤ F.faults shelf.new }
    ensures same_files { (p : List ℕ) → F.tells shelf.new p ≡ F.tells shelf.old p }
    ensures same_refusals { (p : List ℕ) → F.refuses shelf.new p ↔ F.refuses shelf.old p }
{
    match gathered(alloc, file, shelf) {
        Ok(library) => typed(alloc, &library, &*shelf),
        Err(stop) => Err(stop),
    }
}

/// The checked form of a library. `notes` gets what looks like a slip in it.
fn linted<F: Explain, N: Sink>(
    alloc: Global,
    library: &Library,
    shelf: &F,
    notes: &mut N,
) -> Result<Checked, CommandStop>
    ensures outcome { Types library.now result }
    ensures paths { IfErr result (λ s. HasPath s.status s.paths) }
{
    let checked = match typed(alloc, library, shelf) {
        Ok(checked) => checked,
        Err(stop) => return Err(stop),
    };
    tell(&shelf.lints(alloc, library, &checked), notes);
    Ok(checked)
}

/// The checked form of the document at a path, with its imports. `notes` gets what looks like a
/// slip in them.
pub fn linted_of<F: Shelf + Explain, N: Sink>(
    alloc: Global,
    file: &Text,
    shelf: &mut F,
    notes: &mut N,
) -> Result<Checked, CommandStop>
    ensures outcome { Checks (F.tells shelf.old) file.now (F.refuses shelf.old) (Rose (F.faults shelf.old) (F.faults shelf.new)) result }
    ensures counted { StopCounts result (F.faults shelf.old) (F.faults shelf.new) }
    ensures paths { IfErr result (λ s. HasPath s.status s.paths) }
    ensures later { F.faults shelf.old ≤ F.faults shelf.new }
    ensures same_files { (p : List ℕ) → F.tells shelf.new p ≡ F.tells shelf.old p }
    ensures same_refusals { (p : List ℕ) → F.refuses shelf.new p ↔ F.refuses shelf.old p }
{
    match gathered(alloc, file, shelf) {
        Ok(library) => linted(alloc, &library, &*shelf, notes),
        Err(stop) => Err(stop),
    }
}
