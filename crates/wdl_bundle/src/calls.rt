//! The calls of a workflow, in the order of the text.

ghost use Rattle.std.specs.Prelude.{◌≡◌, ◌++◌, map, IfOk, OnOk};
ghost use Rattle.wdl_bundle.specs.Called as spec;

use crate::reach::{Callee, Reach};
use std::alloc::Global;
use wdl_ast::{Call, Statement, WorkflowElement};
use wdl_check_types::call_span;
use wdl_value::{NoMemory, Span};

/// What a call names, and where it stands.
#[derive(Clone, Copy, Debug, PartialEq, Eq)]
pub struct Met {
    pub callee: Option<Callee>,
    pub span: Span,
}

fn seen(call: &Call, reach: &Reach) -> Met
    ensures { result ≡ spec.seen (spec.reach_of reach.now) call.now }
{
    Met {
        callee: reach.callee_of(&call.target),
        span: call_span(call),
    }
}

#[cycle(calls)]
fn push_calls(calls: &mut Vec<Met>, statement: &Statement, reach: &Reach) -> Result<(), NoMemory>
    ensures { OnOk result (calls.new.items ≡ calls.old.items ++ spec.calls_in (spec.reach_of reach.now) statement.now) }
{
    match statement {
        Statement::Declaration(_) => {}
        Statement::Call(call) => calls.push(seen(call, reach))?,
        Statement::Scatter(block) => push_all_calls(calls, block.body.as_slice(), reach)?,
        Statement::Conditional(block) => push_all_calls(calls, block.body.as_slice(), reach)?,
    }
    Ok(())
}

#[cycle(calls)]
fn push_all_calls(calls: &mut Vec<Met>, body: &[Statement], reach: &Reach) -> Result<(), NoMemory>
    ensures { OnOk result (calls.new.items ≡ calls.old.items ++ spec.append_all (map (spec.calls_in (spec.reach_of reach.now)) body.now)) }
{
    for statement in body {
        push_calls(calls, statement, reach)?;
    }
    Ok(())
}

/// The calls among the elements of a workflow.
pub fn calls_of(
    alloc: Global,
    elements: &[WorkflowElement],
    reach: &Reach,
) -> Result<Vec<Met>, NoMemory>
    ensures { IfOk result (λ cs. cs.items ≡ spec.calls_of (spec.reach_of reach.now) elements.now) }
{
    let mut calls = Vec::new(alloc);
    for element in elements {
        if let WorkflowElement::Statement(statement) = element {
            push_calls(&mut calls, statement, reach)?;
        }
    }
    Ok(calls)
}

/// Where the first call of a workflow stands.
pub fn first_workflow(calls: &[Met]) -> Option<Span>
    ensures { result ≡ spec.first_workflow calls.now }
{
    for call in calls {
        if let Some(Callee::Workflow) = call.callee {
            return Some(call.span);
        }
    }
    None
}
