//! The tasks that are called.

use std::alloc::Global;
use wdl_typed::{Checked, Statement, Target};
use wdl_value::NoMemory;

fn mark(called: &mut Vec<bool>, target: Target) {
    if let Target::Task(number) = target {
        if (number as usize) < called.len() {
            called[number as usize] = true;
        }
    }
}

#[cycle(targets)]
fn mark_statement(called: &mut Vec<bool>, statement: &Statement) {
    match statement {
        Statement::Decl(_) => {}
        Statement::Call(call) => mark(called, call.target),
        Statement::Scatter(block) => mark_body(called, block.body.as_slice()),
        Statement::If(block) => mark_body(called, block.body.as_slice()),
    }
}

#[cycle(targets)]
fn mark_body(called: &mut Vec<bool>, body: &[Statement]) {
    for statement in body {
        mark_statement(called, statement);
    }
}

/// Whether some workflow calls each of the tasks, by their numbers.
pub fn called_tasks(alloc: Global, checked: &Checked) -> Result<Vec<bool>, NoMemory> {
    let mut called = Vec::new(alloc);
    for _ in checked.tasks.as_slice() {
        called.push(false)?;
    }
    for flow in checked.flows.as_slice() {
        mark_body(&mut called, flow.body.as_slice());
    }
    Ok(called)
}
