ghost use Rattle.std.specs.Prelude.{◌≡◌, IsSome, Some, true, IfOk};
ghost use Rattle.serde_json.specs.View.{members_view};
ghost use Rattle.wdl_typed.specs.declared.flow.FlowDef.{FlowDef as Flow};
ghost use Rattle.wdl_typed.specs.Journal.{inputs_fit};
ghost use Rattle.wdl_json.specs.Inputs as spec;
ghost use Rattle.wdl_json.specs.Inputs.{Gives};

use crate::fault::InputFault;
use crate::gather::given_inputs;
use crate::missing::missing_fault;
use crate::parse::json_in;
use crate::unknown::unknown_fault;
use serde_json::{Map, Value as Json};
use std::alloc::Global;
use wdl_names::Indexed;
use wdl_typed::{Checked, FlowDef};
use wdl_value::{Env, StructDef};

/// The most bytes of a text of inputs.
pub const INPUTS_LIMIT: usize = 1_048_576;

fn from_members(
    alloc: Global,
    flow: &FlowDef,
    members: &Map<String, Json>,
    structs: &[StructDef],
) -> Result<Env, InputFault>
    ensures { Gives (spec.from_members structs.now flow.now (members_view members.now.entries)) result }
{
    if let Some(fault) = unknown_fault(alloc, &flow.name, flow.inputs.as_slice(), members)? {
        return Err(fault);
    }
    if let Some(fault) = missing_fault(alloc, &flow.name, flow.inputs.as_slice(), members)? {
        return Err(fault);
    }
    let structs = Indexed::new(alloc, structs)?;
    given_inputs(alloc, flow, members, &structs)
}

/// The inputs of a workflow that a JSON text gives, where struct names are those of `structs`. Each
/// binds the name of an input to the value that the member `workflow.input` is at its type; `null`
/// for an optional input is a given undefined value. Members whose names begin with `##` are
/// comments. The time is linear but for a logarithm.
pub fn flow_inputs(
    alloc: Global,
    bytes: &[u8],
    flow: &FlowDef,
    structs: &[StructDef],
) -> Result<Env, InputFault>
    ensures value { Gives (spec.inputs_in structs.now flow.now bytes.now) result }
{
    if bytes.len() > INPUTS_LIMIT {
        return Err(InputFault::Bad {
            code: 407,
            name: None,
        });
    }
    let Some(json) = json_in(alloc, bytes)? else {
        return Err(InputFault::Bad {
            code: 401,
            name: None,
        });
    };
    let Some(members) = json.as_object() else {
        return Err(InputFault::Bad {
            code: 402,
            name: None,
        });
    };
    from_members(alloc, flow, members, structs)
}

/// The main workflow.
fn main_flow(checked: &Checked) -> &FlowDef
    requires { IsSome checked.now.main }
    ensures { spec.main_of checked.now.flows checked.now.main ≡ Some result.now }
{
    let Some(number) = checked.main else {
        unreachable!()
    };
    let Some(flow) = checked.flows.get(number as usize) else {
        unreachable!()
    };
    flow
}

/// The inputs of the main workflow that a JSON text gives, as `flow_inputs` says.
///
/// What is given fits: each name is an input, and stands once; each required input is given; each
/// value fits its type and keeps the limits of values.
pub fn inputs_of(alloc: Global, bytes: &[u8], checked: &Checked) -> Result<Env, InputFault>
    requires main { IsSome checked.now.main }
    ensures value { (f : Flow) → spec.main_of checked.now.flows checked.now.main ≡ Some f
        → Gives (spec.inputs_in checked.now.structs f bytes.now) result }
    ensures fit { (f : Flow) → spec.main_of checked.now.flows checked.now.main ≡ Some f
        → IfOk result (λ env. inputs_fit checked.now.structs f.inputs env ≡ true) }
{
    flow_inputs(alloc, bytes, main_flow(checked), checked.structs.as_slice())
}
