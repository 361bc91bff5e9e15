//! The inputs of the main workflow as a form.

ghost use Rattle.std.specs.Prelude.{◌≡◌, IfOk, IsSome, Some};
ghost use Rattle.wdl_port.specs.Causes.{Rose};
ghost use Rattle.wdl_typed.specs.declared.flow.FlowDef.{FlowDef as Flow};
ghost use Rattle.wdl_json.specs.Inputs.{main_of as main_in};
ghost use Rattle.workflow_stages.specs.Counting.{WorkCounts};
ghost use Rattle.workflow_stages.specs.Paths.{HasPaths};
ghost use Rattle.workflow_texts.specs.Forming as spec;

use input_form::inputs_form;
use report_text::Status;
use std::alloc::Global;
use wdl_port::Shelf;
use wdl_typed::{Checked, FlowDef};
use wdl_value::{NoMemory, Text};
use workflow_stages::{Explain, Work, main_flow, main_of, stop_of};

/// The form of a workflow's inputs, and a newline.
fn form_line(alloc: Global, flow: &FlowDef) -> Result<Text, NoMemory>
    ensures value { IfOk result (spec.IsFormLine flow.now) }
{
    let mut text = inputs_form(alloc, flow)?;
    text.push_ascii(b'\n')?;
    Ok(text)
}

fn form_work(alloc: Global, flow: &FlowDef) -> Work
    ensures value { spec.FormWork flow.now result }
    ensures paths { HasPaths result }
{
    match form_line(alloc, flow) {
        Ok(text) => Work::Text(text),
        Err(_) => Work::Stop(stop_of(alloc, Status::NoMemory)),
    }
}

fn form_in(alloc: Global, checked: &Checked) -> Work
    requires main { IsSome (main_in checked.now.flows checked.now.main) }
    ensures value { (f : Flow) → main_in checked.now.flows checked.now.main ≡ Some f → spec.FormWork f result }
    ensures paths { HasPaths result }
{
    let Some(flow) = main_flow(checked) else {
        unreachable!();
    };
    form_work(alloc, flow)
}

/// The form of the inputs of the main workflow of the document at a path.
pub fn form<F: Shelf + Explain>(alloc: Global, file: &Text, shelf: &mut F) -> Work
    ensures value { spec.WritesForm (F.tells shelf.old) (F.refuses shelf.old) (Rose (F.faults shelf.old) (F.faults shelf.new)) file.now result }
    ensures counted { WorkCounts result (F.faults shelf.old) (F.faults shelf.new) }
    ensures paths { HasPaths result }
{
    match main_of(alloc, file, shelf) {
        Ok(located) => form_in(alloc, &located.checked),
        Err(stop) => Work::Stop(stop),
    }
}
