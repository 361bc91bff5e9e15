//! The names that are used outside the bodies that declare them.

ghost use Rattle.std.specs.Prelude.{◌≡◌, ◌++◌, map, IfOk, OnOk};
ghost use Rattle.references.specs.Names.{argument_names};
ghost use Rattle.wdl_swaps.specs.Strays as spec;

use references::{argument_names, expression_names};
use std::alloc::Global;
use wdl_names::NameStack;
use wdl_typed::{FlowDef, Statement, TDecl, TExpr, TField};
use wdl_value::{Key, Name, NoMemory};

/// Adds a name, unless the path has it.
fn add_name(
    alloc: Global,
    name: &Name,
    path: &NameStack,
    strays: &mut NameStack,
) -> Result<(), NoMemory>
    ensures { OnOk result (strays.new ≡ strays.old ++ spec.outside path.now name.now) }
{
    if path.has(name) {
        return Ok(());
    }
    strays.enter(name.copy(alloc)?)
}

fn add_keys(
    alloc: Global,
    keys: &[&Key],
    path: &NameStack,
    strays: &mut NameStack,
) -> Result<(), NoMemory>
    ensures { OnOk result (strays.new ≡ strays.old ++ spec.all_outside path.now (map (λ k. k.now) keys.now)) }
{
    for key in keys {
        add_name(alloc, &key.first, path, strays)?;
    }
    Ok(())
}

/// Adds the names and calls to which an expression refers, without those of the path.
fn add_expr(
    alloc: Global,
    expr: &TExpr,
    path: &NameStack,
    strays: &mut NameStack,
) -> Result<(), NoMemory>
    ensures { OnOk result (strays.new ≡ strays.old ++ spec.strays_in path.now expr.now) }
{
    let keys = expression_names(alloc, expr)?;
    add_keys(alloc, keys.as_slice(), path, strays)
}

/// Adds the names and calls to which the arguments of a call refer, without those of the path.
fn add_args(
    alloc: Global,
    args: &[TField<TExpr>],
    path: &NameStack,
    strays: &mut NameStack,
) -> Result<(), NoMemory>
    ensures { OnOk result (strays.new ≡ strays.old ++ spec.all_outside path.now (argument_names args.now)) }
{
    let keys = argument_names(alloc, args)?;
    add_keys(alloc, keys.as_slice(), path, strays)
}

/// Adds what a statement uses, and puts the name that it declares in its own body behind the path.
#[cycle(bodies)]
fn add_statement(
    alloc: Global,
    statement: &Statement,
    path: &mut NameStack,
    strays: &mut NameStack,
) -> Result<(), NoMemory>
    ensures strays { OnOk result (strays.new ≡ strays.old ++ spec.strays_of statement.now path.old) }
    ensures path { OnOk result (path.new ≡ path.old ++ spec.own_of statement.now) }
{
    match statement {
        Statement::Decl(d) => {
            add_expr(alloc, &d.value, path, strays)?;
            path.enter(d.name.copy(alloc)?)
        }
        Statement::Call(c) => add_args(alloc, c.args.as_slice(), path, strays),
        Statement::Scatter(s) => {
            add_expr(alloc, &s.over, path, strays)?;
            add_block(alloc, s.body.as_slice(), path, strays)
        }
        Statement::If(i) => {
            add_expr(alloc, &i.cond, path, strays)?;
            add_block(alloc, i.body.as_slice(), path, strays)
        }
    }
}

/// Adds what the body of a block uses.
#[cycle(bodies)]
#[tactic(auto, using(crate::proofs::StrayBodies::path_kept))]
fn add_block(
    alloc: Global,
    body: &[Statement],
    path: &mut NameStack,
    strays: &mut NameStack,
) -> Result<(), NoMemory>
    ensures strays { OnOk result (strays.new ≡ strays.old ++ spec.all_strays body.now path.old) }
    ensures path { OnOk result (path.new ≡ path.old) }
{
    let count = path.len();
    add_body(alloc, body, path, strays)?;
    path.keep(count);
    Ok(())
}

#[cycle(bodies)]
fn add_body(
    alloc: Global,
    body: &[Statement],
    path: &mut NameStack,
    strays: &mut NameStack,
) -> Result<(), NoMemory>
    ensures strays { OnOk result (strays.new ≡ strays.old ++ spec.all_strays body.now path.old) }
    ensures path { OnOk result (path.new ≡ path.old ++ spec.all_own body.now) }
{
    for statement in body {
        add_statement(alloc, statement, path, strays)?;
    }
    Ok(())
}

fn add_outputs(
    alloc: Global,
    outputs: &[TDecl],
    path: &NameStack,
    strays: &mut NameStack,
) -> Result<(), NoMemory>
    ensures { OnOk result (strays.new ≡ strays.old ++ spec.outputs_strays path.now outputs.now) }
{
    for output in outputs {
        add_expr(alloc, &output.value, path, strays)?;
    }
    Ok(())
}

/// The names that a workflow uses outside the bodies that declare them. Names of inputs, items and
/// calls count as such.
pub fn flow_strays(alloc: Global, flow: &FlowDef) -> Result<NameStack, NoMemory>
    ensures { IfOk result (λ w. w ≡ spec.flow_strays flow.now) }
{
    let mut path = NameStack::empty(alloc);
    let mut strays = NameStack::empty(alloc);
    add_body(alloc, flow.body.as_slice(), &mut path, &mut strays)?;
    add_outputs(alloc, flow.outputs.as_slice(), &path, &mut strays)?;
    Ok(strays)
}
