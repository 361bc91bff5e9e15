//! Required inputs that have no member.

ghost use Rattle.std.specs.Prelude.{◌≡◌, IfOk};
ghost use Rattle.std.specs.Option.{option_copied};
ghost use Rattle.serde_json.specs.View.{members_view};
ghost use Rattle.wdl_typed.specs.Bodies.{is_required as must_be_given};
ghost use Rattle.wdl_json.specs.Inputs as spec;

use crate::fault::InputFault;
use crate::member::{member, member_name, named};
use crate::sooner::sooner_if;
use serde_json::{Map, Value as Json};
use std::alloc::Global;
use wdl_base::{Name, NoMemory};
use wdl_typed::TInput;
use wdl_value::is_optional;

/// Whether the input has no default and no optional type.
fn is_required(input: &TInput) -> bool
    ensures { result ≡ must_be_given input.now }
{
    input.value.is_none() && !is_optional(&input.ty)
}

fn is_missing(
    alloc: Global,
    flow: &Name,
    input: &TInput,
    members: &Map<String, Json>,
) -> Result<bool, NoMemory>
    ensures { IfOk result (λ b. b ≡ spec.is_missing flow.now (members_view members.now.entries) input.now) }
{
    let name = member_name(alloc, flow, &input.name)?;
    Ok(is_required(input) && member(members, &name).is_none())
}

fn first_missing<'a>(
    alloc: Global,
    flow: &Name,
    inputs: &'a [TInput],
    members: &Map<String, Json>,
) -> Result<Option<&'a TInput>, NoMemory>
    ensures { IfOk result (λ o. option_copied o ≡ spec.first_of (spec.is_missing flow.now (members_view members.now.entries)) inputs.now) }
{
    let mut first = None;
    for input in inputs {
        let missing = is_missing(alloc, flow, input, members)?;
        first = sooner_if(first, input, missing);
    }
    Ok(first)
}

/// The fault of the first required input that has no member.
pub fn missing_fault(
    alloc: Global,
    flow: &Name,
    inputs: &[TInput],
    members: &Map<String, Json>,
) -> Result<Option<InputFault>, NoMemory>
    ensures { IfOk result (λ o. o ≡ spec.missing_fault flow.now inputs.now (members_view members.now.entries)) }
{
    match first_missing(alloc, flow, inputs, members)? {
        Some(input) => Ok(Some(named(alloc, 404, flow, input)?)),
        None => Ok(None),
    }
}
