//! The values of the inputs that are given.

ghost use Rattle.std.specs.Prelude.{◌≡◌, IfOk, option_map};
ghost use Rattle.std.specs.Option.{option_copied};
ghost use Rattle.serde_json.specs.View.{view, members_view};
ghost use Rattle.wdl_json.specs.Inputs as spec;
ghost use Rattle.wdl_json.specs.Inputs.{Gives};

use crate::fault::InputFault;
use crate::float::holds_float;
use crate::given::{GivenInput, given_as, is_misfit, push_given};
use crate::member::{member, member_name, named};
use crate::sooner::sooner_if;
use serde_json::{Map, Value as Json};
use sqlite_items::Items;
use std::alloc::Global;
use wdl_base::{Name, NoMemory};
use wdl_names::Indexed;
use wdl_typed::{FlowDef, TInput};
use wdl_value::{Bind, Env, StructDef};

/// What the text says of an input.
fn given_of(
    alloc: Global,
    flow: &Name,
    input: &TInput,
    members: &Map<String, Json>,
    structs: &Indexed<StructDef>,
) -> Result<GivenInput, NoMemory>
    ensures { IfOk result (λ g. g ≡ spec.given_of structs.now flow.now (members_view members.now.entries) input.now) }
{
    let name = member_name(alloc, flow, &input.name)?;
    given_as(alloc, member(members, &name), &input.ty, structs)
}

/// The values of the inputs that are given, and the first input whose member does not fit.
#[derive(Debug, Drop)]
struct Gathered<'a> {
    binds: Items<Bind>,
    misfit: Option<&'a TInput>,
}

fn gather<'a>(
    alloc: Global,
    flow: &Name,
    inputs: &'a [TInput],
    members: &Map<String, Json>,
    structs: &Indexed<StructDef>,
) -> Result<Gathered<'a>, NoMemory>
    ensures binds { IfOk result (λ g. g.binds ≡ spec.binds structs.now flow.now (members_view members.now.entries) inputs.now) }
    ensures misfit { IfOk result (λ g. option_copied g.misfit
        ≡ spec.first_of (spec.misfits structs.now flow.now (members_view members.now.entries))
        inputs.now) }
{
    let mut binds = Items::new(alloc);
    let mut misfit = None;
    for input in inputs {
        let given = given_of(alloc, flow, input, members, structs)?;
        misfit = sooner_if(misfit, input, is_misfit(&given));
        push_given(alloc, &mut binds, input, given)?;
    }
    Ok(Gathered { binds, misfit })
}

fn code_of(json: Option<&Json>) -> u16
    ensures { result ≡ spec.misfit_code (option_map view (option_copied json.entry)) }
{
    match json {
        Some(json) => if holds_float(json) { 406 } else { 405 },
        None => 405,
    }
}

fn misfit_of(
    alloc: Global,
    flow: &Name,
    input: &TInput,
    members: &Map<String, Json>,
) -> Result<InputFault, NoMemory>
    ensures { IfOk result (λ f. f ≡ spec.misfit flow.now (members_view members.now.entries) input.now) }
{
    let name = member_name(alloc, flow, &input.name)?;
    let code = code_of(member(members, &name));
    named(alloc, code, flow, input)
}

/// The values of the inputs that are given, or the fault of the first one that does not fit.
pub fn given_inputs(
    alloc: Global,
    flow: &FlowDef,
    members: &Map<String, Json>,
    structs: &Indexed<StructDef>,
) -> Result<Env, InputFault>
    ensures { Gives (spec.or_fault (spec.misfit_fault structs.now flow.now.name flow.now.inputs (members_view members.now.entries))
        (Ok (spec.binds structs.now flow.now.name (members_view members.now.entries)
        flow.now.inputs))) result }
{
    let Gathered { binds, misfit } = gather(
        alloc,
        &flow.name,
        flow.inputs.as_slice(),
        members,
        structs,
    )?;
    match misfit {
        Some(input) => Err(misfit_of(alloc, &flow.name, input, members)?),
        None => Ok(binds),
    }
}
