//! How many blocks and calls stand on a path, through the workflows that are called.

ghost use Rattle.std.specs.Prelude.{◌≡◌};
ghost use Rattle.wdl_typed.specs.declared.flow.Statement.{out-Statement};
ghost use Rattle.wdl_check_types.specs.Outcome.{Answers};
ghost use Rattle.wdl_check_doc.specs.Flows as spec;
ghost use Rattle.wdl_check_doc.specs.Outcomes.{all};

use crate::fault::placed;
use std::alloc::Global;
use wdl_check_rules::CheckFault;
use wdl_depths::{Levels, MOST_BLOCKS, levels_of, nests};
use wdl_typed::{FlowDef, Statement};
use wdl_value::Span;

fn span_of(statement: &Statement) -> Span
    ensures { result ≡ spec.span_at (out-Statement statement.now) }
{
    match statement {
        Statement::Decl(decl) => decl.span,
        Statement::Call(call) => call.span,
        Statement::Scatter(block) => block.span,
        Statement::If(block) => block.span,
    }
}

fn check_statement(statement: &Statement, levels: &Levels) -> Result<(), CheckFault>
    requires { levels.now.1 ≡ 24 }
    ensures { Answers (spec.statement_nests levels.now.0 statement.now) result }
{
    if nests(statement, levels, MOST_BLOCKS) {
        return Ok(());
    }
    Err(CheckFault::Bad {
        code: 328,
        span: span_of(statement),
    })
}

fn check_body(body: &[Statement], levels: &Levels) -> Result<(), CheckFault>
    requires { levels.now.1 ≡ 24 }
    ensures { Answers (all (spec.statement_nests levels.now.0) body.now) result }
{
    for statement in body {
        check_statement(statement, levels)?;
    }
    Ok(())
}

fn check_flow(flow: &FlowDef, levels: &Levels) -> Result<(), CheckFault>
    requires { levels.now.1 ≡ 24 }
    ensures { Answers (spec.flow_nests levels.now.0 flow.now) result }
{
    placed(flow.span.doc, check_body(flow.body.as_slice(), levels))
}

fn check_each(flows: &[FlowDef], levels: &Levels) -> Result<(), CheckFault>
    requires { levels.now.1 ≡ 24 }
    ensures { Answers (all (spec.flow_nests levels.now.0) flows.now) result }
{
    for flow in flows {
        check_flow(flow, levels)?;
    }
    Ok(())
}

/// 328 at a statement through which more than 24 blocks and calls stand on a path, those of called
/// workflows counted.
pub fn check_nesting(alloc: Global, flows: &[FlowDef]) -> Result<(), CheckFault>
    ensures { Answers (spec.flows_nest flows.now) result }
{
    let levels = levels_of(alloc, flows)?;
    check_each(flows, &levels)
}
