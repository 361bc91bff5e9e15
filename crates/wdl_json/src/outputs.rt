ghost use Rattle.std.specs.Prelude.{◌≡◌, IfOk, OnOk};
ghost use Rattle.serde_json.specs.Data.{put as with_member};
ghost use Rattle.serde_json.specs.View.{view, members_view};
ghost use Rattle.json_values.specs.Writing.{json_of as json_data};
ghost use Rattle.wdl_json.specs.Outputs as spec;

use json_values::json_of;
use serde_json::{Map, Value as Json, put};
use std::alloc::Global;
use wdl_base::{Key, Name, NoMemory, Text};
use wdl_value::Bind;

/// `workflow.output`
fn output_name(alloc: Global, flow: &Name, key: &Key) -> Result<Text, NoMemory>
    ensures { IfOk result (λ t. t ≡ spec.output_name flow.now key.now) }
{
    let mut name = flow.to_text(alloc)?;
    name.push_ascii(b'.')?;
    name.push_str(key.first.as_str())?;
    if let Some(second) = &key.second {
        name.push_ascii(b'.')?;
        name.push_str(second.as_str())?;
    }
    Ok(name)
}

fn put_output(
    alloc: Global,
    members: &mut Map<String, Json>,
    flow: &Name,
    bind: &Bind,
) -> Result<(), NoMemory>
    ensures { OnOk result (members_view members.new.entries
        ≡ with_member (spec.output_name flow.now bind.now.key) (json_data bind.now.value)
        (members_view members.old.entries)) }
{
    let name = output_name(alloc, flow, &bind.key)?;
    let value = json_of(alloc, &bind.value)?;
    put(members, alloc, name.as_str(), value)?;
    Ok(())
}

#[tactic(auto, using(json_values::proofs::JsonViews::object_view))]
fn outputs_json(alloc: Global, flow: &Name, outs: &[Bind]) -> Result<Json, NoMemory>
    ensures { IfOk result (λ j. view j ≡ spec.outputs_json flow.now outs.now) }
{
    let mut members = Map::new(alloc);
    for bind in outs {
        put_output(alloc, &mut members, flow, bind)?;
    }
    Ok(Json::Object(members))
}

/// The outputs of a workflow as one JSON object without blanks: a member `workflow.output` for
/// each, in byte order. Its time is linear but for a logarithm.
///
/// Where the keys of each map are all Bool, all Int, all Str or all File, no two rows of it have
/// one member.
pub fn outputs_text(alloc: Global, flow: &Name, outs: &[Bind]) -> Result<Text, NoMemory>
    ensures value { IfOk result (λ t. t ≡ spec.outputs_text flow.now outs.now) }
{
    let json = outputs_json(alloc, flow, outs)?;
    Ok(Text::from_string(json.to_string(alloc)?))
}
