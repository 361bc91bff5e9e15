ghost use Rattle.std.specs.Prelude.{◌≡◌, ◌++◌, OnOk, IfOk, option_map};
ghost use Rattle.std.specs.Option.{option_copied};
ghost use Rattle.serde_json.specs.View.{view};
ghost use Rattle.wdl_json.specs.Inputs as spec;

use json_values::read_value;
use serde_json::Value as Json;
use sqlite_items::Items;
use std::alloc::Global;
use wdl_base::NoMemory;
use wdl_names::Indexed;
use wdl_typed::TInput;
use wdl_value::{Bind, StructDef, Ty, Value, is_within_limits};

/// What a text says of an input: nothing, a value of its type within the limits of values, or
/// anything else.
#[derive(Debug, Drop)]
pub enum GivenInput {
    LeftOut,
    Fitting(Value),
    Misfit,
}

fn fitting(value: Option<Value>) -> GivenInput
    ensures { result ≡ spec.fitting value }
{
    match value {
        Some(value) => if is_within_limits(&value) {
            GivenInput::Fitting(value)
        } else {
            GivenInput::Misfit
        },
        None => GivenInput::Misfit,
    }
}

/// What a member is at a type; none is one that is left out.
pub(crate) fn given_as(
    alloc: Global,
    json: Option<&Json>,
    t: &Ty,
    structs: &Indexed<StructDef>,
) -> Result<GivenInput, NoMemory>
    ensures { IfOk result (λ g. g ≡ spec.given_as structs.now t.now (option_map view (option_copied json.entry))) }
{
    match json {
        Some(json) => Ok(fitting(read_value(alloc, json, t, structs)?)),
        None => Ok(GivenInput::LeftOut),
    }
}

pub(crate) fn is_misfit(given: &GivenInput) -> bool
    ensures { result ≡ spec.is_misfit given.now }
{
    matches!(given, GivenInput::Misfit)
}

/// Binds the input to a value that fits.
pub(crate) fn push_given(
    alloc: Global,
    binds: &mut Items<Bind>,
    input: &TInput,
    given: GivenInput,
) -> Result<(), NoMemory>
    ensures { OnOk result (binds.new ≡ binds.old ++ spec.bind_of input.now given) }
{
    if let GivenInput::Fitting(value) = given {
        binds.push(Bind::plain(alloc, &input.name, value)?)?;
    }
    Ok(())
}
