//! The workflows of a library.

ghost use Rattle.std.specs.Prelude.{◌≡◌, map, IfOk};
ghost use Rattle.wdl_check_types.specs.Outcome.{Answers};
ghost use Rattle.wdl_check_doc.specs.Flows as spec;
ghost use Rattle.wdl_check_doc.specs.Parts.{part_of};
ghost use Rattle.wdl_check_doc.specs.Runnables.{flow_of, headed_of};

use crate::flow::check_heads;
use crate::flow_rest::check_all_rests;
use crate::numbered_doc::Part;
use crate::runnable::{FlowPart, Headed, flows_of};
use std::alloc::Global;
use std::collections::VecDeque;
use wdl_check_flow::{FlowHead, FlowRest};
use wdl_check_rules::CheckFault;
use wdl_names::Indexed;
use wdl_typed::{FlowDef, TaskDef};
use wdl_value::{Items, NoMemory, Span, StructDef};

/// Where a workflow stands.
fn span_of(flow: &FlowPart) -> Span
    ensures { result ≡ spec.flow_span (flow_of flow.now) }
{
    Span {
        doc: flow.part.number,
        start: flow.workflow.keyword.start,
        end: flow.workflow.closing.end,
    }
}

fn flow_def(alloc: Global, headed: Headed, rest: FlowRest) -> Result<FlowDef, NoMemory>
    ensures { IfOk result (λ f. f ≡ spec.flow_def (headed_of headed.entry) rest) }
{
    let Headed { flow, head } = headed;
    let FlowHead { inputs, .. } = head;
    let FlowRest { body, outputs } = rest;
    Ok(FlowDef {
        name: flow.workflow.name.name.copy(alloc)?,
        inputs,
        body,
        outputs,
        span: span_of(&flow),
    })
}

/// Each workflow with its statements and outputs.
fn flow_defs(
    alloc: Global,
    mut heads: VecDeque<Headed>,
    mut rests: VecDeque<FlowRest>,
) -> Result<Items<FlowDef>, NoMemory>
    ensures { IfOk result (λ fs. fs ≡ spec.flow_defs (map headed_of heads.entry.items) rests.items) }
{
    let mut flows = Items::new(alloc);
    while let Some(headed) = heads.pop_front() {
        let Some(rest) = rests.pop_front() else {
            break;
        };
        flows.push(flow_def(alloc, headed, rest)?)?;
    }
    Ok(flows)
}

/// The workflows with all their types.
pub fn check_flows(
    alloc: Global,
    structs: &Indexed<StructDef>,
    parts: &[Part],
    tasks: &[TaskDef],
) -> Result<Items<FlowDef>, CheckFault>
    ensures { Answers (spec.flows_typed structs.now (map part_of parts.now) tasks.now) result }
{
    let flows = flows_of(alloc, parts)?;
    let heads = check_heads(alloc, structs, flows.as_slice())?;
    let rests = check_all_rests(alloc, structs, parts, tasks, heads.as_slice())?;
    Ok(flow_defs(alloc, VecDeque::from_vec(heads), rests)?)
}
