//! What a run starts with: the checked form of its document, and the inputs of the main workflow.

ghost use Rattle.std.specs.Prelude.{◌≡◌, ◌≤◌, ◌↔◌, ◌∷◌, ℕ, List, [], IfOk, IfErr, IsSome};
ghost use Rattle.std.specs.Option.{option_copied};
ghost use Rattle.report_text.specs.Lines.{HasPath};
ghost use Rattle.wdl_port.specs.Causes.{Rose};
ghost use Rattle.workflow_stages.specs.Counting.{ReadCounts, StopCounts};
ghost use Rattle.wdl_json.specs.Inputs.{main_of as main_in};
ghost use Rattle.workflow_stages.specs.Documents.{LocatesMain, LocatesMainIn};
ghost use Rattle.workflow_stages.specs.Preparing as spec;

use crate::checking::{Located, gathered, located_in, stop_of};
use crate::ended::CommandStop;
use crate::explain::Explain;
use crate::inputs::{given_of, inputs_text};
use crate::note::note_on_inputs;
use report_text::Status;
use std::alloc::Global;
use wdl_library::Library;
use wdl_port::Shelf;
use wdl_typed::{Checked, FlowDef};
use wdl_value::{Env, Items, NoMemory, Span, Text};

/// A checked form with a main workflow, the paths of its documents, and inputs that fit it.
#[derive(Drop)]
pub struct Prepared {
    pub checked: Checked,
    pub paths: Items<Text>,
    pub given: Env,
}

/// The main workflow.
pub fn main_flow(checked: &Checked) -> Option<&FlowDef>
    ensures value { option_copied result ≡ main_in checked.now.flows checked.now.main }
{
    let number = checked.main?;
    checked.flows.get(number as usize)
}

fn only_path(alloc: Global, file: &Text) -> Result<Items<Text>, NoMemory>
    ensures value { IfOk result (λ paths. paths ≡ file.now ∷ []) }
{
    let mut paths = Items::new(alloc);
    paths.push(file.copy(alloc)?)?;
    Ok(paths)
}

/// The stop of a document without a main workflow.
fn stop_without_main<F: Explain>(alloc: Global, file: &Text, shelf: &F) -> CommandStop
    ensures value { spec.IsMainlessStop file.now result.status result.paths }
    ensures paths { HasPath result.status result.paths }
{
    let span = Span {
        doc: 0,
        start: 0,
        end: 0,
    };
    let note = shelf.document(alloc, file, 327, span, None);
    match only_path(alloc, file) {
        Ok(paths) => CommandStop {
            status: Status::Document(327, span),
            paths,
            note,
        },
        Err(_) => stop_of(alloc, Status::NoMemory),
    }
}

/// The checked form of a library, which has a main workflow. Its first document is the one at the
/// path.
pub fn main_in<F: Explain>(
    alloc: Global,
    library: &Library,
    file: &Text,
    shelf: &F,
) -> Result<Located, CommandStop>
    ensures outcome { LocatesMainIn library.now file.now result }
    ensures paths { IfErr result (λ s. HasPath s.status s.paths) }
{
    let located = match located_in(alloc, library, shelf) {
        Ok(located) => located,
        Err(unchecked) => return Err(unchecked),
    };
    if main_flow(&located.checked).is_none() {
        return Err(stop_without_main(alloc, file, shelf));
    }
    Ok(located)
}

/// The checked form of the document at a path, which has a main workflow.
pub fn main_of<F: Shelf + Explain>(
    alloc: Global,
    file: &Text,
    shelf: &mut F,
) -> Result<Located, CommandStop>
    ensures outcome { LocatesMain (F.tells shelf.old) file.now (F.refuses shelf.old) (Rose (F.faults shelf.old) (F.faults shelf.new)) result }
    ensures counted { StopCounts result (F.faults shelf.old) (F.faults shelf.new) }
    ensures paths { IfErr result (λ s. HasPath s.status s.paths) }
    ensures later { F.faults shelf.old ≤ F.faults shelf.new }
    ensures same_files { (p : List ℕ) → F.tells shelf.new p ≡ F.tells shelf.old p }
    ensures same_refusals { (p : List ℕ) → F.refuses shelf.new p ↔ F.refuses shelf.old p }
{
    match gathered(alloc, file, shelf) {
        Ok(library) => main_in(alloc, &library, file, &*shelf),
        Err(unread) => Err(unread),
    }
}

/// The inputs of the main workflow.
fn given_in<F: Shelf>(
    alloc: Global,
    checked: &Checked,
    inputs: &Option<Text>,
    shelf: &mut F,
) -> Result<Env, Status>
    requires main { IsSome checked.now.main }
    ensures value { spec.GivesIn (F.tells shelf.old) (F.refuses shelf.old) (Rose (F.faults shelf.old) (F.faults shelf.new)) inputs.now checked.now result }
    ensures counted { ReadCounts result (F.faults shelf.old) (F.faults shelf.new) }
{
    match inputs_text(alloc, inputs, shelf) {
        Ok(text) => given_of(alloc, text.as_slice(), checked),
        Err(status) => Err(status),
    }
}

/// The stop of inputs that break a rule or cannot be read.
fn unfit<F: Explain>(
    alloc: Global,
    status: Status,
    checked: &Checked,
    inputs: &Option<Text>,
    shelf: &F,
) -> CommandStop
    ensures status { result.status ≡ status }
    ensures paths { result.paths ≡ [] }
{
    let note = note_on_inputs(alloc, shelf, inputs, &status, checked);
    CommandStop {
        status,
        paths: Items::new(alloc),
        note,
    }
}

/// The checked form of the document at a path, and the inputs of its main workflow.
pub fn start_of<F: Shelf + Explain>(
    alloc: Global,
    file: &Text,
    inputs: &Option<Text>,
    shelf: &mut F,
) -> Result<Prepared, CommandStop>
    ensures outcome { spec.Prepares (F.tells shelf.old) (F.refuses shelf.old) (Rose (F.faults shelf.old) (F.faults shelf.new)) file.now inputs.now result }
    ensures counted { StopCounts result (F.faults shelf.old) (F.faults shelf.new) }
    ensures paths { IfErr result (λ s. HasPath s.status s.paths) }
{
    let Located { checked, paths } = match main_of(alloc, file, shelf) {
        Ok(located) => located,
        Err(stop) => return Err(stop),
    };
    match given_in(alloc, &checked, inputs, shelf) {
        Ok(given) => Ok(Prepared {
            checked,
            paths,
            given,
        }),
        Err(status) => Err(unfit(alloc, status, &checked, inputs, &*shelf)),
    }
}
