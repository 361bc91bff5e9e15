//! The members of inputs.

ghost use Rattle.std.specs.Prelude.{◌≡◌, IfOk, option_map};
ghost use Rattle.serde_json.specs.Find.{get_member};
ghost use Rattle.serde_json.specs.View.{view, members_view};
ghost use Rattle.wdl_json.specs.Inputs as spec;

use crate::fault::InputFault;
use serde_json::{Map, Value as Json};
use std::alloc::Global;
use wdl_base::{Name, NoMemory, Text};
use wdl_typed::TInput;

/// `workflow.input`
pub fn member_name(alloc: Global, flow: &Name, input: &Name) -> Result<Text, NoMemory>
    ensures { IfOk result (λ t. t ≡ spec.member_name flow.now input.now) }
{
    let mut name = flow.to_text(alloc)?;
    name.push_ascii(b'.')?;
    name.push_str(input.as_str())?;
    Ok(name)
}

/// The member of that name.
pub fn member<'a>(members: &'a Map<String, Json>, name: &Text) -> Option<&'a Json>
    ensures { option_map (λ j. view j.now) result ≡ get_member name.now (members_view members.now.entries) }
{
    members.get(name.as_str())
}

/// A fault of an input.
pub fn named(alloc: Global, code: u16, flow: &Name, input: &TInput) -> Result<InputFault, NoMemory>
    ensures { IfOk result (λ f. f ≡ spec.named code flow.now input.now) }
{
    let name = member_name(alloc, flow, &input.name)?;
    Ok(InputFault::Bad {
        code,
        name: Some(name),
    })
}
