//! The library of a document.

ghost use Rattle.std.specs.Prelude.{◌≡◌, ◌↔◌, ◌≤◌, ◌<◌, ℕ, List, map, IfOk};
ghost use Rattle.wdl_port.specs.Causes.{Rose};
ghost use Rattle.wdl_sources.specs.Walks.{Counts};
ghost use Rattle.wdl_imports.specs.Libraries as spec;
ghost use Rattle.wdl_imports.specs.Checks as check;

use crate::link::docs_of;
use sqlite_items::Items;
use std::alloc::Global;
use wdl_library::{Doc, Library};
use wdl_links::{LinkFault, no_circle};
use wdl_port::Shelf;
use wdl_sources::{ImportFault, Sources, read_all};
use wdl_structs::name_structs;
use wdl_value::{NoMemory, Text};

/// The paths of documents.
fn paths_of(alloc: Global, docs: &[Doc]) -> Result<Items<Text>, NoMemory>
    ensures { IfOk result (λ ps. ps ≡ map (λ d. d.path) docs.now) }
{
    let mut paths = Items::new(alloc);
    for doc in docs {
        paths.push(doc.path.copy(alloc)?)?;
    }
    Ok(paths)
}

/// The fault with the path of its document.
fn placed(alloc: Global, paths: &[Text], fault: LinkFault) -> ImportFault
    requires { check.IsWithin paths.now fault }
    ensures { check.IsPlacedFault paths.now fault result }
{
    let LinkFault::Bad { code, span } = fault else {
        return ImportFault::NoMemory;
    };
    match paths[span.doc as usize].copy(alloc) {
        Ok(path) => ImportFault::Bad { code, path, span },
        Err(NoMemory) => ImportFault::NoMemory,
    }
}

/// The library of documents that are all that the first leads to, with their links.
fn library_of(alloc: Global, docs: Items<Doc>) -> Result<Library, ImportFault>
    requires { check.AreWhole docs }
    ensures { check.Makes docs result }
{
    let paths = paths_of(alloc, docs.as_slice())?;
    if let Err(fault) = no_circle(alloc, docs.as_slice()) {
        return Err(placed(alloc, paths.as_slice(), fault));
    }
    match name_structs(alloc, docs) {
        Ok((docs, structs)) => Ok(Library { docs, structs }),
        Err(fault) => Err(placed(alloc, paths.as_slice(), fault)),
    }
}

/// The library of documents that were read.
fn linked(alloc: Global, sources: Sources) -> Result<Library, ImportFault>
    requires { check.AreRead sources }
    ensures { check.Collects sources result }
{
    let docs = docs_of(alloc, sources)?;
    library_of(alloc, docs)
}

/// The library of the document at a path: that document and all that it imports, each path read
/// once, depth first in the order of the imports (OpenWDL 1.1, "Import statements" and "Struct
/// definition"). `Read` is answered only for a path that the shelf refuses, and only where its
/// count of faults rose; it is the given path, or that of an import of a document that was read
/// before. `Bad` is answered where no library stands for the bytes that were read, with a code that
/// holds in the document at its path. With a library, or with `Bad`, each read succeeded: the shelf
/// has counted no fault.
pub fn gather<F: Shelf>(alloc: Global, shelf: &mut F, path: &Text) -> Result<Library, ImportFault>
    ensures outcome { spec.Gathers (F.tells shelf.old) (F.refuses shelf.old) (Rose (F.faults shelf.old) (F.faults shelf.new)) path.now result }
    ensures counted { Counts result (F.faults shelf.old) (F.faults shelf.new) }
    ensures later { F.faults shelf.old ≤ F.faults shelf.new }
    ensures same_files { (p : List ℕ) → F.tells shelf.new p ≡ F.tells shelf.old p }
    ensures same_refusals { (p : List ℕ) → F.refuses shelf.new p ↔ F.refuses shelf.old p }
{
    let sources = read_all(alloc, shelf, path.as_str())?;
    linked(alloc, sources)
}
