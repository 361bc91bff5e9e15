//! What the calls of the workflows of a library see.

ghost use Rattle.std.specs.Prelude.{[], map};
ghost use Rattle.wdl_check_types.specs.Outcome.{Answers};
ghost use Rattle.wdl_check_doc.specs.Outcomes.{AnswersAs, each};
ghost use Rattle.wdl_check_doc.specs.Runnables as spec;

use crate::fault::placed;
use crate::runnable::{FlowPart, Headed};
use std::alloc::Global;
use wdl_check_decls::Seeing;
use wdl_check_flow::{FlowHead, check_head};
use wdl_check_rules::CheckFault;
use wdl_names::{Indexed, NameStack};
use wdl_value::StructDef;

fn check_head_of(
    alloc: Global,
    structs: &Indexed<StructDef>,
    flow: &FlowPart,
) -> Result<FlowHead, CheckFault>
    ensures { Answers (spec.head_of structs.now (spec.flow_of flow.now)) result }
{
    let calls = NameStack::empty(alloc);
    let seeing = Seeing {
        structs,
        locals: flow.part.locals,
        calls: &calls,
    };
    placed(flow.part.number, check_head(alloc, &seeing, flow.workflow))
}

fn check_head_in<'d, 'n, 'k>(
    alloc: Global,
    structs: &Indexed<StructDef>,
    flow: FlowPart<'d, 'n, 'k>,
) -> Result<Headed<'d, 'n, 'k>, CheckFault>
    ensures { AnswersAs (spec.head_in structs.now (spec.flow_of flow.entry)) result spec.headed_of }
{
    let head = check_head_of(alloc, structs, &flow)?;
    Ok(Headed { flow, head })
}

/// The workflows with what their calls see.
pub fn check_heads<'d, 'n, 'k>(
    alloc: Global,
    structs: &Indexed<StructDef>,
    flows: &[FlowPart<'d, 'n, 'k>],
) -> Result<Vec<Headed<'d, 'n, 'k>>, CheckFault>
    ensures { AnswersAs (each (spec.head_in structs.now) [] (map spec.flow_of flows.now)) result (λ hs. map spec.headed_of hs.items) }
{
    let mut heads = Vec::new(alloc);
    for flow in flows {
        heads.push(check_head_in(alloc, structs, *flow)?)?;
    }
    Ok(heads)
}
