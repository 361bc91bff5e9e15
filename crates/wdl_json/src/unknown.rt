//! Members that are no input.

ghost use Rattle.std.specs.Prelude.{◌≡◌, ◌||◌, ℕ, List, IfOk};
ghost use Rattle.std.specs.BTreeSet.{contains_text};
ghost use Rattle.serde_json.specs.View.{members_view};
ghost use Rattle.wdl_json.specs.Inputs as spec;

use crate::fault::InputFault;
use crate::member::member_name;
use serde_json::{Map, Value as Json};
use std::alloc::Global;
use std::collections::BTreeSet;
use wdl_base::{Name, NoMemory, Text, TextFault};
use wdl_typed::TInput;

/// The names of the members of all inputs.
fn names_of(alloc: Global, flow: &Name, inputs: &[TInput]) -> Result<BTreeSet<String>, NoMemory>
    ensures { IfOk result (λ s. (q : List ℕ) → contains_text s q ≡ spec.is_input flow.now inputs.now q) }
{
    let mut names = BTreeSet::new(alloc);
    for input in inputs {
        let name = member_name(alloc, flow, &input.name)?;
        names.insert(String::from_str(alloc, name.as_str())?)?;
    }
    Ok(names)
}

fn printed(alloc: Global, name: &str) -> Result<Option<Text>, NoMemory>
    ensures { IfOk result (λ t. t ≡ spec.printed name.now) }
{
    match Text::new(alloc, name) {
        Ok(text) => Ok(Some(text)),
        Err(TextFault::Nul) => Ok(None),
        Err(TextFault::NoMemory) => Err(NoMemory),
    }
}

fn fault_of(alloc: Global, name: &str) -> Result<InputFault, NoMemory>
    ensures { IfOk result (λ f. f ≡ spec.bad 403 (spec.printed name.now)) }
{
    let name = printed(alloc, name)?;
    Ok(InputFault::Bad { code: 403, name })
}

/// Whether a member of that name is a comment.
fn is_comment(name: &str) -> bool
    ensures { result ≡ spec.is_comment name.now }
{
    matches!(name.as_bytes(), [b'#', b'#', ..])
}

/// Whether a member of that name is an input or a comment, where these are the names of the inputs.
fn is_known(names: &BTreeSet<String>, name: &str) -> bool
    ensures { result ≡ spec.is_comment name.now || contains_text names.now name.now }
{
    is_comment(name) || names.contains(name)
}

/// The fault of the first member that is neither an input nor a comment.
pub fn unknown_fault(
    alloc: Global,
    flow: &Name,
    inputs: &[TInput],
    members: &Map<String, Json>,
) -> Result<Option<InputFault>, NoMemory>
    ensures { IfOk result (λ o. o ≡ spec.unknown_fault flow.now inputs.now (members_view members.now.entries)) }
{
    let names = names_of(alloc, flow, inputs)?;
    for (name, _) in members.iter() {
        if !is_known(&names, name.as_str()) {
            return Ok(Some(fault_of(alloc, name.as_str())?));
        }
    }
    Ok(None)
}
