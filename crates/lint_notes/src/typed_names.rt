//! The types of the names of tasks and workflows.

use crate::names::Names;
use crate::shape::{Leaf, Shape};
use wdl_typed::{Checked, FlowDef, Statement, TCall, TDecl, TInput, Target, TaskDef};
use wdl_value::NoMemory;

fn enter_inputs<'a>(names: &mut Names<'a>, inputs: &'a [TInput]) -> Result<(), NoMemory> {
    for input in inputs {
        names.set_shape(&input.name, Some(Shape::of(&input.ty)))?;
    }
    Ok(())
}

fn enter_decls<'a>(names: &mut Names<'a>, decls: &'a [TDecl]) -> Result<(), NoMemory> {
    for decl in decls {
        names.set_shape(&decl.name, Some(Shape::of(&decl.ty)))?;
    }
    Ok(())
}

/// The outputs of what a call runs.
fn outputs_of(checked: &Checked, target: Target) -> Option<&[TDecl]> {
    match target {
        Target::Task(number) => {
            let task = checked.tasks.as_slice().get(number as usize)?;
            Some(task.outputs.as_slice())
        }
        Target::Flow(number) => {
            let flow = checked.flows.as_slice().get(number as usize)?;
            Some(flow.outputs.as_slice())
        }
    }
}

fn enter_call<'a>(
    names: &mut Names<'a>,
    checked: &'a Checked,
    call: &'a TCall,
) -> Result<(), NoMemory> {
    let Some(outputs) = outputs_of(checked, call.target) else {
        return Ok(());
    };
    let shape = Shape {
        leaf: Leaf::Call(outputs),
        arrays: 0,
    };
    names.set_shape(&call.name, Some(shape))
}

#[cycle(statements)]
fn enter_statement<'a>(
    names: &mut Names<'a>,
    checked: &'a Checked,
    statement: &'a Statement,
) -> Result<(), NoMemory> {
    match statement {
        Statement::Decl(decl) => names.set_shape(&decl.name, Some(Shape::of(&decl.ty))),
        Statement::Call(call) => enter_call(names, checked, call),
        Statement::Scatter(block) => enter_body(names, checked, block.body.as_slice()),
        Statement::If(block) => enter_body(names, checked, block.body.as_slice()),
    }
}

#[cycle(statements)]
fn enter_body<'a>(
    names: &mut Names<'a>,
    checked: &'a Checked,
    body: &'a [Statement],
) -> Result<(), NoMemory> {
    for statement in body {
        enter_statement(names, checked, statement)?;
    }
    Ok(())
}

/// Adds the inputs, the declarations and the outputs of a task.
pub fn enter_task<'a>(names: &mut Names<'a>, task: &'a TaskDef) -> Result<(), NoMemory> {
    enter_inputs(names, task.inputs.as_slice())?;
    enter_decls(names, task.privates.as_slice())?;
    enter_decls(names, task.outputs.as_slice())
}

/// Adds the inputs, the declarations, the calls and the outputs of a workflow.
pub fn enter_flow<'a>(
    names: &mut Names<'a>,
    checked: &'a Checked,
    flow: &'a FlowDef,
) -> Result<(), NoMemory> {
    enter_inputs(names, flow.inputs.as_slice())?;
    enter_body(names, checked, flow.body.as_slice())?;
    enter_decls(names, flow.outputs.as_slice())
}
