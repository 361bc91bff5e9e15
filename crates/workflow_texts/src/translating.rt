//! The CWL document of the main workflow, and the CWL input object of its inputs.

ghost use Rattle.std.specs.Prelude.{◌≡◌, ◌++◌, Some, IfOk, IfErr, IsSome, true, ℕ, codes};
ghost use Rattle.serde_json.specs.Written.{compact_text};
ghost use Rattle.cwl_model.specs.declared.process.Process.{out-Process};
ghost use Rattle.report_text.specs.Lines.{HasPath};
ghost use Rattle.wdl_port.specs.Causes.{Rose};
ghost use Rattle.cwl_emit.specs.Objects.{object_text as text_of_object};
ghost use Rattle.cwl_records.specs.WideWriting.{wide_json};
ghost use Rattle.wide_formed.specs.Forms as form;
ghost use Rattle.workflow_stages.specs.Counting.{WorkCounts};
ghost use Rattle.workflow_stages.specs.Paths.{HasPaths};
ghost use Rattle.workflow_texts.specs.Translating as spec;

use cwl_emit::{object_text, process_text};
use cwl_flow::translate;
use cwl_formed::see_texts;
use cwl_model::Process;
use cwl_records::{Lowered, RecordLeaf, lower, record_text, wrap};
use cwl_subset::{Subset, SubsetFault, in_subset};
use report_text::Status;
use std::alloc::Global;
use wdl_port::Shelf;
use wdl_typed::{Checked, TInput};
use wdl_value::{Env, Items, NoMemory, Structs, Text};
use wide_formed::see_members;
use workflow_stages::{
    CommandStop, Explain, Located, Prepared, Work, main_of, outside, start_of, stop_of,
};

/// The checked form as one of the subset.
fn subset_of<F: Explain>(
    alloc: Global,
    checked: Checked,
    paths: Items<Text>,
    shelf: &F,
) -> Result<Subset, CommandStop>
    requires main { IsSome checked.main }
    ensures value { spec.SubsetOf checked paths result }
    ensures paths { IfErr result (λ s. HasPath s.status s.paths) }
{
    match in_subset(alloc, checked) {
        Ok(subset) => Ok(subset),
        Err(SubsetFault::NotInSubset { rule, span }) => {
            Err(outside(alloc, rule, span, paths, shelf))
        }
        Err(SubsetFault::NoMemory) => Err(stop_of(alloc, Status::NoMemory)),
    }
}

/// The text of a process whose inputs are records where struct inputs were replaced (CWL v1.2
/// Workflow, "InputRecordSchema").
fn wide_text(
    alloc: Global,
    records: &[RecordLeaf],
    source: &[TInput],
    structs: &Structs,
    process: Process,
) -> Result<Text, NoMemory>
    requires { form.is_flow (out-Process process) ≡ true }
    ensures named { IfOk result (λ _. form.wide_named (form.wide_process records.now source.now structs.now process) ≡ true) }
    ensures written { IfOk result (λ t. t ≡ compact_text (wide_json (form.wide_process records.now source.now structs.now process))) }
{
    match process {
        Process::Flow(body) => {
            let wide = wrap(alloc, records, source, structs, body)?;
            see_members(&wide);
            record_text(alloc, &wide)
        }
        Process::Tool(_) => unreachable!(),
    }
}

/// The text of the process of a form without aliases and struct inputs, where these were replaced
/// by these leaves.
fn process_line(
    alloc: Global,
    records: &[RecordLeaf],
    source: &[TInput],
    structs: &Structs,
    process: Process,
) -> Result<Text, NoMemory>
    requires { form.is_flow (out-Process process) ≡ true }
    ensures named { IfOk result (λ _. form.are_named records.now source.now structs.now process ≡ true) }
    ensures written { IfOk result (λ t. t ≡ compact_text (form.document_json records.now source.now structs.now process)) }
{
    if records.is_empty() {
        process_text(alloc, &process)
    } else {
        wide_text(alloc, records, source, structs, process)
    }
}

/// The text of the CWL document, and a newline.
fn document_text(
    alloc: Global,
    subset: &Subset,
    records: &[RecordLeaf],
    source: &[TInput],
) -> Result<Text, NoMemory>
    ensures value { IfOk result (λ t. (number : ℕ) → subset.now.checked.main ≡ Some number → form.Says (spec.form_with subset.now.checked records.now source.now) number t) }
{
    let process = translate(alloc, subset)?;
    see_texts(&process);
    let structs = &subset.checked().structs;
    let mut text = process_line(alloc, records, source, structs, process)?;
    text.push_ascii(b'\n')?;
    Ok(text)
}

/// The text of the CWL input object, and a newline.
fn object_line(alloc: Global, given: &Env) -> Result<Text, NoMemory>
    ensures value { IfOk result (λ t. t ≡ text_of_object given.now ++ codes "\n") }
{
    let mut text = object_text(alloc, given.as_slice())?;
    text.push_ascii(b'\n')?;
    Ok(text)
}

/// The work that a text comes to.
fn work_of(alloc: Global, text: Result<Text, NoMemory>) -> Work
    ensures value { spec.TextWork text result }
    ensures paths { HasPaths result }
{
    match text {
        Ok(text) => Work::Text(text),
        Err(_) => Work::Stop(stop_of(alloc, Status::NoMemory)),
    }
}

/// The work of a checked form without aliases and struct inputs.
fn document_of<F: Explain>(alloc: Global, lowered: Lowered, paths: Items<Text>, shelf: &F) -> Work
    requires main { IsSome lowered.checked.main }
    ensures value { spec.FormWork lowered paths result }
    ensures paths { HasPaths result }
{
    let Lowered {
        checked,
        records,
        source,
    } = lowered;
    match subset_of(alloc, checked, paths, shelf) {
        Ok(subset) => {
            let text = document_text(alloc, &subset, records.as_slice(), source.as_slice());
            work_of(alloc, text)
        }
        Err(stop) => Work::Stop(stop),
    }
}

fn document_in<F: Explain>(alloc: Global, located: Located, shelf: &F) -> Work
    requires main { IsSome located.checked.main }
    ensures value { spec.DocumentWork located.checked located.paths result }
    ensures paths { HasPaths result }
{
    let Located { checked, paths } = located;
    match lower(alloc, checked) {
        Ok(lowered) => document_of(alloc, lowered, paths, shelf),
        Err(_) => Work::Stop(stop_of(alloc, Status::NoMemory)),
    }
}

/// The work of the inputs of a form without aliases and struct inputs.
fn object_of<F: Explain>(
    alloc: Global,
    checked: Checked,
    paths: Items<Text>,
    given: &Env,
    shelf: &F,
) -> Work
    requires main { IsSome checked.main }
    ensures value { spec.FormObjectWork checked paths given.now result }
    ensures paths { HasPaths result }
{
    match subset_of(alloc, checked, paths, shelf) {
        Ok(_) => work_of(alloc, object_line(alloc, given)),
        Err(stop) => Work::Stop(stop),
    }
}

fn object_in<F: Explain>(alloc: Global, prepared: Prepared, shelf: &F) -> Work
    requires main { IsSome prepared.checked.main }
    ensures value { spec.ObjectWork prepared.checked prepared.paths prepared.given result }
    ensures paths { HasPaths result }
{
    let Prepared {
        checked,
        paths,
        given,
    } = prepared;
    match lower(alloc, checked) {
        Ok(lowered) => object_of(alloc, lowered.checked, paths, &given, shelf),
        Err(_) => Work::Stop(stop_of(alloc, Status::NoMemory)),
    }
}

/// The CWL document of the main workflow of the document at a path.
fn document<F: Shelf + Explain>(alloc: Global, file: &Text, shelf: &mut F) -> Work
    ensures value { spec.WritesDocument (F.tells shelf.old) (F.refuses shelf.old) (Rose (F.faults shelf.old) (F.faults shelf.new)) file.now result }
    ensures counted { WorkCounts result (F.faults shelf.old) (F.faults shelf.new) }
    ensures paths { HasPaths result }
{
    match main_of(alloc, file, shelf) {
        Ok(located) => document_in(alloc, located, &*shelf),
        Err(stop) => Work::Stop(stop),
    }
}

/// The CWL input object of the inputs of a file, for the main workflow of the document at a path.
fn object<F: Shelf + Explain>(
    alloc: Global,
    file: &Text,
    inputs: &Option<Text>,
    shelf: &mut F,
) -> Work
    ensures value { spec.WritesObject (F.tells shelf.old) (F.refuses shelf.old) (Rose (F.faults shelf.old) (F.faults shelf.new)) file.now inputs.now result }
    ensures counted { WorkCounts result (F.faults shelf.old) (F.faults shelf.new) }
    ensures paths { HasPaths result }
{
    match start_of(alloc, file, inputs, shelf) {
        Ok(prepared) => object_in(alloc, prepared, &*shelf),
        Err(stop) => Work::Stop(stop),
    }
}

/// The CWL document of the main workflow of the document at a path; or, where the file of inputs is
/// named, the CWL input object of these.
pub fn cwl<F: Shelf + Explain>(
    alloc: Global,
    file: &Text,
    inputs: &Option<Text>,
    shelf: &mut F,
) -> Work
    ensures value { spec.Translates (F.tells shelf.old) (F.refuses shelf.old) (Rose (F.faults shelf.old) (F.faults shelf.new)) file.now inputs.now result }
    ensures counted { WorkCounts result (F.faults shelf.old) (F.faults shelf.new) }
    ensures paths { HasPaths result }
{
    match inputs {
        None => document(alloc, file, shelf),
        Some(_) => object(alloc, file, inputs, shelf),
    }
}
