//! The inputs of the main workflow.

ghost use Rattle.std.specs.Prelude.{◌≡◌, Some, true, IfOk, IsSome};
ghost use Rattle.wdl_port.specs.Causes.{Rose};
ghost use Rattle.wdl_typed.specs.declared.flow.FlowDef.{FlowDef as Flow};
ghost use Rattle.wdl_typed.specs.Journal.{inputs_fit};
ghost use Rattle.wdl_json.specs.Inputs.{main_of};
ghost use Rattle.workflow_stages.specs.Counting.{ReadCounts};
ghost use Rattle.workflow_stages.specs.Preparing.{ReadsInputs, GivesInputs};

use report_text::Status;
use std::alloc::Global;
use wdl_json::{InputFault, inputs_of};
use wdl_port::{ReadFault, Shelf};
use wdl_typed::Checked;
use wdl_value::{Env, Items, Text};

/// The text of the inputs: that of the file, or `{}` where none is named.
pub fn inputs_text<F: Shelf>(
    alloc: Global,
    inputs: &Option<Text>,
    shelf: &mut F,
) -> Result<Items<u8>, Status>
    ensures value { ReadsInputs (F.tells shelf.old) (F.refuses shelf.old) (Rose (F.faults shelf.old) (F.faults shelf.new)) inputs.now result }
    ensures counted { ReadCounts result (F.faults shelf.old) (F.faults shelf.new) }
{
    let Some(path) = inputs else {
        return match Items::from_slice(alloc, b"{}") {
            Ok(text) => Ok(text),
            Err(_) => Err(Status::NoMemory),
        };
    };
    match shelf.read(alloc, path.as_str()) {
        Ok(text) => Ok(text),
        Err(ReadFault::Failed) => match path.copy(alloc) {
            Ok(path) => Err(Status::Read(path)),
            Err(_) => Err(Status::NoMemory),
        },
        Err(ReadFault::NoMemory) => Err(Status::NoMemory),
    }
}

/// The inputs that a text gives.
pub fn given_of(alloc: Global, text: &[u8], checked: &Checked) -> Result<Env, Status>
    requires main { IsSome checked.now.main }
    ensures value { (f : Flow) → main_of checked.now.flows checked.now.main ≡ Some f → GivesInputs checked.now f text.now result }
    ensures fit { (f : Flow) → main_of checked.now.flows checked.now.main ≡ Some f
        → IfOk result (λ env. inputs_fit checked.now.structs f.inputs env ≡ true) }
{
    match inputs_of(alloc, text, checked) {
        Ok(given) => Ok(given),
        Err(InputFault::Bad { code, name }) => Err(Status::Inputs(code, name)),
        Err(InputFault::NoMemory) => Err(Status::NoMemory),
    }
}
