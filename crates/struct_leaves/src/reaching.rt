//! The workflows that main reaches by calls.

ghost use Rattle.std.specs.Prelude.{◌≡◌, IfOk};
ghost use Rattle.leaf_image.specs.Reached as spec;

use sqlite_items::at;
use std::alloc::Global;
use wdl_typed::{FlowDef, Statement, Target};
use wdl_value::{Items, NoMemory};

/// More than the most calls that stand on one path.
const LEVELS: usize = 25;

#[tactic(auto, using(crate::proofs::Marks::mark_set, crate::proofs::Marks::mark_past))]
fn mark(marks: &mut Items<bool>, number: usize)
    ensures { marks.new ≡ spec.mark number marks.old }
{
    if number < marks.len() {
        marks.set(number, true);
    }
}

/// Whether the workflow of that number is marked.
pub fn is_marked(marks: &[bool], number: usize) -> bool
    ensures { result ≡ spec.is_marked marks.now number }
{
    match at(marks, number) {
        Some(marked) => *marked,
        None => false,
    }
}

fn mark_target(target: Target, marks: &mut Items<bool>)
    ensures { marks.new ≡ spec.mark_target target marks.old }
{
    match target {
        Target::Task(_) => {}
        Target::Flow(number) => mark(marks, number as usize),
    }
}

#[cycle(marking)]
fn mark_called(statement: &Statement, marks: &mut Items<bool>)
    ensures { marks.new ≡ spec.mark_called statement.now marks.old }
{
    match statement {
        Statement::Decl(_) => {}
        Statement::Call(c) => mark_target(c.target, marks),
        Statement::Scatter(s) => mark_body(s.body.as_slice(), marks),
        Statement::If(i) => mark_body(i.body.as_slice(), marks),
    }
}

/// Marks the workflows that the statements call.
#[cycle(marking)]
fn mark_body(body: &[Statement], marks: &mut Items<bool>)
    ensures { marks.new ≡ spec.mark_body body.now marks.old }
{
    for statement in body {
        mark_called(statement, marks);
    }
}

fn mark_flow(flow: &FlowDef, number: usize, marks: &mut Items<bool>)
    ensures { marks.new ≡ spec.swept_flow flow.now number marks.old }
{
    if is_marked(marks.as_slice(), number) {
        mark_body(flow.body.as_slice(), marks);
    }
}

/// Marks what the marked workflows call.
fn sweep(flows: &[FlowDef], marks: &mut Items<bool>)
    ensures { marks.new ≡ spec.sweep flows.now 0 marks.old }
{
    for (number, flow) in flows.iter().enumerate() {
        mark_flow(flow, number, marks);
    }
}

fn no_marks(alloc: Global, flows: &[FlowDef]) -> Result<Items<bool>, NoMemory>
    ensures { IfOk result (λ ms. ms ≡ spec.no_marks flows.now) }
{
    let mut marks = Items::new(alloc);
    for _flow in flows {
        marks.push(false)?;
    }
    Ok(marks)
}

/// For each workflow whether main reaches it. Main reaches itself.
#[tactic(auto, using(crate::proofs::Marks::swept_none, crate::proofs::Marks::swept_more))]
pub fn reached(alloc: Global, flows: &[FlowDef], main: usize) -> Result<Items<bool>, NoMemory>
    ensures { IfOk result (λ ms. ms ≡ spec.reached flows.now main) }
{
    let mut marks = no_marks(alloc, flows)?;
    mark(&mut marks, main);
    for _level in 0..LEVELS {
        sweep(flows, &mut marks);
    }
    Ok(marks)
}
