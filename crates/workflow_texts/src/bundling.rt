//! The main workflow of a document and all that it imports as one document.

ghost use Rattle.std.specs.Prelude.{◌≡◌};
ghost use Rattle.wdl_port.specs.Causes.{Rose};
ghost use Rattle.workflow_stages.specs.Counting.{WorkCounts};
ghost use Rattle.workflow_stages.specs.Paths.{HasPaths};
ghost use Rattle.workflow_texts.specs.Bundling as spec;

use report_text::Status;
use std::alloc::Global;
use wdl_ast::Document;
use wdl_bundle::{BundleFault, bundle};
use wdl_library::Library;
use wdl_port::Shelf;
use wdl_print::{PrintFault, document_text};
use wdl_same::same_but_names;
use wdl_typed::Checked;
use wdl_value::{NoMemory, Span, Text};
use workflow_stages::{
    CommandStop, Explain, Located, Work, checked_of, gathered, main_in, outside, shelf_of, stop_of,
};

/// The fault of a rule that a bundle breaks as a whole.
fn fault_of(rule: u16) -> BundleFault
    ensures { result ≡ spec.fault_of rule }
{
    let span = Span {
        doc: 0,
        start: 0,
        end: 0,
    };
    BundleFault::Bad { rule, span }
}

fn text_of(alloc: Global, document: &Document) -> Result<Text, BundleFault>
    ensures value { spec.IsPrint document.now result }
{
    match document_text(alloc, document) {
        Ok(text) => Ok(text),
        Err(PrintFault::TooLong) => Err(fault_of(621)),
        Err(PrintFault::NoMemory) => Err(BundleFault::NoMemory),
    }
}

/// The text of the bundle of a library.
fn bundle_text(alloc: Global, library: &Library) -> Result<Text, BundleFault>
    ensures value { spec.HasText library.now result }
{
    match bundle(alloc, library) {
        Ok(document) => text_of(alloc, &document),
        Err(fault) => Err(fault),
    }
}

/// The checked form that the text has alone, at that path.
fn form_alone(alloc: Global, file: &Text, text: &Text) -> Result<Checked, CommandStop>
    ensures value { spec.ChecksAlone file.now text.now result }
{
    let Ok(mut shelf) = shelf_of(alloc, file, text) else {
        return Err(stop_of(alloc, Status::NoMemory));
    };
    checked_of(alloc, file, &mut shelf)
}

fn is_starved(status: &Status) -> bool
    ensures { result ≡ spec.is_starved status.now }
{
    matches!(status, Status::NoMemory)
}

/// Whether the text alone, at that path, has a checked form that is the same as this one.
fn keeps_form(alloc: Global, checked: &Checked, file: &Text, text: &Text) -> Result<bool, NoMemory>
    ensures value { spec.Compares checked.now file.now text.now result }
{
    match form_alone(alloc, file, text) {
        Ok(form) => same_but_names(alloc, checked, &form),
        Err(stop) => {
            if is_starved(&stop.status) {
                return Err(NoMemory);
            }
            Ok(false)
        }
    }
}

/// The text of the bundle of a library with this checked form, whose first document is the one at
/// the path.
fn checked_text(
    alloc: Global,
    library: &Library,
    checked: &Checked,
    file: &Text,
) -> Result<Text, BundleFault>
    ensures value { spec.HasCheckedText library.now checked.now file.now result }
{
    let text = match bundle_text(alloc, library) {
        Ok(text) => text,
        Err(fault) => return Err(fault),
    };
    match keeps_form(alloc, checked, file, &text) {
        Ok(true) => Ok(text),
        Ok(false) => Err(fault_of(622)),
        Err(_) => Err(BundleFault::NoMemory),
    }
}

fn bundle_in<F: Explain>(
    alloc: Global,
    library: &Library,
    located: Located,
    file: &Text,
    shelf: &F,
) -> Work
    ensures value { spec.BundleWork library.now located.checked located.paths file.now result }
    ensures paths { HasPaths result }
{
    let Located { checked, paths } = located;
    match checked_text(alloc, library, &checked, file) {
        Ok(text) => Work::Text(text),
        Err(BundleFault::Bad { rule, span }) => {
            Work::Stop(outside(alloc, rule, span, paths, shelf))
        }
        Err(BundleFault::NoMemory) => Work::Stop(stop_of(alloc, Status::NoMemory)),
    }
}

/// The main workflow of the document at a path and all that it imports as one document. What was
/// made is read and checked again before it is given out: it has the checked form of the documents,
/// but for the names and numbers of tasks.
pub fn bundled<F: Shelf + Explain>(alloc: Global, file: &Text, shelf: &mut F) -> Work
    ensures value { spec.WritesBundle (F.tells shelf.old) (F.refuses shelf.old) (Rose (F.faults shelf.old) (F.faults shelf.new)) file.now result }
    ensures counted { WorkCounts result (F.faults shelf.old) (F.faults shelf.new) }
    ensures paths { HasPaths result }
{
    let library = match gathered(alloc, file, shelf) {
        Ok(library) => library,
        Err(unread) => return Work::Stop(unread),
    };
    match main_in(alloc, &library, file, &*shelf) {
        Ok(located) => bundle_in(alloc, &library, located, file, &*shelf),
        Err(stop) => Work::Stop(stop),
    }
}
