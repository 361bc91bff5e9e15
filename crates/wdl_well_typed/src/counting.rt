//! How much a library has in all.

ghost use Rattle.std.specs.Prelude.{◌≡◌, min};
ghost use Rattle.wdl_typed.specs.Kept as spec;
ghost use Rattle.wdl_well_typed.specs.Counts as counts;

use wdl_typed::{FlowDef, Statement, TaskDef};

#[cycle(count)]
fn count_statement(statement: &Statement) -> u64
    ensures { result ≡ min (counts.statement_count statement.now) 18446744073709551615 }
{
    match statement {
        Statement::Decl(_) | Statement::Call(_) => 1,
        Statement::Scatter(s) => count_statements(s.body.as_slice()).saturating_add(1),
        Statement::If(i) => count_statements(i.body.as_slice()).saturating_add(1),
    }
}

#[cycle(count)]
fn count_statements(body: &[Statement]) -> u64
    ensures { result ≡ min (spec.count_statements body.now) 18446744073709551615 }
{
    let mut total: u64 = 0;
    for statement in body {
        total = total.saturating_add(count_statement(statement));
    }
    total
}

fn count_bodies(flows: &[FlowDef]) -> u64
    ensures { result ≡ min (counts.bodies_count flows.now) 18446744073709551615 }
{
    let mut total: u64 = 0;
    for flow in flows {
        total = total.saturating_add(count_statements(flow.body.as_slice()));
    }
    total
}

fn count_commands(tasks: &[TaskDef]) -> u64
    ensures { result ≡ min (counts.commands_count tasks.now) 18446744073709551615 }
{
    let mut total: u64 = 0;
    for task in tasks {
        total = total.saturating_add(task.command.len() as u64);
    }
    total
}

/// The tasks, workflows, statements and parts of commands, or the last number of `u64` where that
/// is less.
pub fn count(tasks: &[TaskDef], flows: &[FlowDef]) -> u64
    ensures { result ≡ min (counts.count_of tasks.now flows.now) 18446744073709551615 }
{
    (tasks.len() as u64)
        .saturating_add(flows.len() as u64)
        .saturating_add(count_commands(tasks))
        .saturating_add(count_bodies(flows))
}
