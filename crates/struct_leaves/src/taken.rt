//! The names of a workflow.

ghost use Rattle.std.specs.Prelude.{◌≡◌, ◌++◌, IfOk, OnOk};
ghost use Rattle.wdl_typed.specs.Bodies as bodies;
ghost use Rattle.wdl_typed.specs.Declarations as declarations;
ghost use Rattle.leaf_image.specs.Leaves as spec;

use std::alloc::Global;
use wdl_names::NameStack;
use wdl_typed::{FlowDef, Statement, TDecl, TInput};
use wdl_value::NoMemory;

fn enter_inputs(alloc: Global, inputs: &[TInput], names: &mut NameStack) -> Result<(), NoMemory>
    ensures { OnOk result (names.new ≡ names.old ++ declarations.input_names inputs.now) }
{
    for input in inputs {
        names.enter(input.name.copy(alloc)?)?;
    }
    Ok(())
}

fn enter_decls(alloc: Global, decls: &[TDecl], names: &mut NameStack) -> Result<(), NoMemory>
    ensures { OnOk result (names.new ≡ names.old ++ declarations.decl_names decls.now) }
{
    for d in decls {
        names.enter(d.name.copy(alloc)?)?;
    }
    Ok(())
}

#[cycle(declared)]
fn enter_statement(
    alloc: Global,
    statement: &Statement,
    names: &mut NameStack,
) -> Result<(), NoMemory>
    ensures { OnOk result (names.new ≡ names.old ++ bodies.declared statement.now) }
{
    match statement {
        Statement::Decl(d) => names.enter(d.name.copy(alloc)?),
        Statement::Call(c) => names.enter(c.name.copy(alloc)?),
        Statement::Scatter(s) => enter_body(alloc, s.body.as_slice(), names),
        Statement::If(i) => enter_body(alloc, i.body.as_slice(), names),
    }
}

/// Adds the declarations and calls of statements and of the bodies in them.
#[cycle(declared)]
fn enter_body(alloc: Global, body: &[Statement], names: &mut NameStack) -> Result<(), NoMemory>
    ensures { OnOk result (names.new ≡ names.old ++ bodies.all_declared body.now) }
{
    for statement in body {
        enter_statement(alloc, statement, names)?;
    }
    Ok(())
}

#[cycle(items)]
fn enter_item(alloc: Global, statement: &Statement, names: &mut NameStack) -> Result<(), NoMemory>
    ensures { OnOk result (names.new ≡ names.old ++ spec.items_in statement.now) }
{
    match statement {
        Statement::Decl(_) | Statement::Call(_) => Ok(()),
        Statement::Scatter(s) => {
            names.enter(s.item.copy(alloc)?)?;
            enter_items(alloc, s.body.as_slice(), names)
        }
        Statement::If(i) => enter_items(alloc, i.body.as_slice(), names),
    }
}

/// Adds the items of the scatters in statements.
#[cycle(items)]
fn enter_items(alloc: Global, body: &[Statement], names: &mut NameStack) -> Result<(), NoMemory>
    ensures { OnOk result (names.new ≡ names.old ++ spec.items_of body.now) }
{
    for statement in body {
        enter_item(alloc, statement, names)?;
    }
    Ok(())
}

/// The names of a workflow.
pub fn taken_by(alloc: Global, flow: &FlowDef) -> Result<NameStack, NoMemory>
    ensures { IfOk result (λ w. w ≡ spec.taken_by flow.now) }
{
    let mut names = NameStack::empty(alloc);
    enter_inputs(alloc, flow.inputs.as_slice(), &mut names)?;
    enter_body(alloc, flow.body.as_slice(), &mut names)?;
    enter_decls(alloc, flow.outputs.as_slice(), &mut names)?;
    enter_items(alloc, flow.body.as_slice(), &mut names)?;
    Ok(names)
}
