//! What members of a list give and refer to.

ghost use Rattle.std.specs.Prelude.{◌≡◌, ◌++◌, ◌∷◌, [], map, IfOk, OnOk};
ghost use Rattle.wdl_typed.specs.Order.{all_given, all_referred};
ghost use Rattle.wdl_check_order.specs.Names as names;
ghost use Rattle.wdl_check_order.specs.Needs as spec;
ghost use Rattle.wdl_order.specs.Names.{as_needing};

use crate::call::call_arguments;
use crate::names::push_names;
use std::alloc::Global;
use wdl_ast::{
    After, Argument, Assigned, Call, Declaration, Expr, InputDeclaration, ListItem, Statement,
};
use wdl_check_types::call_ident;
use wdl_order::{Uses, condition_uses, one_name, push_copy, scatter_uses};
use wdl_value::{Items, Name, NoMemory};

fn expression_names(alloc: Global, e: &Expr) -> Result<Items<Name>, NoMemory>
    ensures { IfOk result (λ ns. ns ≡ names.names_of e.now) }
{
    let mut names = Items::new(alloc);
    push_names(alloc, e, &mut names)?;
    Ok(names)
}

fn preset_names(alloc: Global, preset: &Option<Assigned>) -> Result<Items<Name>, NoMemory>
    ensures { IfOk result (λ ns. ns ≡ spec.preset_names preset.now) }
{
    match preset {
        Some(assigned) => expression_names(alloc, &assigned.value),
        None => Ok(Items::new(alloc)),
    }
}

/// What an input gives and refers to: nothing where it has no default.
pub fn input_uses(alloc: Global, input: &InputDeclaration) -> Result<Uses, NoMemory>
    ensures { IfOk result (λ u. as_needing u ≡ spec.input_needing input.now) }
{
    let gives = one_name(alloc, &input.name.name)?;
    let refers = preset_names(alloc, &input.preset)?;
    Ok(Uses { gives, refers })
}

/// What a declaration or an output gives and refers to.
pub fn declaration_uses(alloc: Global, declaration: &Declaration) -> Result<Uses, NoMemory>
    ensures { IfOk result (λ u. as_needing u ≡ spec.declaration_needing declaration.now) }
{
    let gives = one_name(alloc, &declaration.name.name)?;
    let refers = expression_names(alloc, &declaration.value)?;
    Ok(Uses { gives, refers })
}

fn push_argument(
    alloc: Global,
    argument: &Argument,
    names: &mut Items<Name>,
) -> Result<(), NoMemory>
    ensures { OnOk result (names.new ≡ names.old ++ spec.argument_names argument.now) }
{
    match &argument.value {
        Some(assigned) => push_names(alloc, &assigned.value, names),
        None => push_copy(alloc, &argument.name.name, names),
    }
}

fn argument_names(alloc: Global, arguments: &[ListItem<Argument>]) -> Result<Items<Name>, NoMemory>
    ensures { IfOk result (λ ns. ns ≡ spec.arguments_names arguments.now) }
{
    let mut names = Items::new(alloc);
    for argument in arguments {
        push_argument(alloc, &argument.item, &mut names)?;
    }
    Ok(names)
}

fn push_after(alloc: Global, after: &[After], names: &mut Items<Name>) -> Result<(), NoMemory>
    ensures { OnOk result (names.new ≡ names.old ++ spec.after_names after.now) }
{
    for word in after {
        push_copy(alloc, &word.name.name, names)?;
    }
    Ok(())
}

fn call_uses(alloc: Global, call: &Call) -> Result<Uses, NoMemory>
    ensures { IfOk result (λ u. as_needing u ≡ spec.call_needing call.now) }
{
    let gives = one_name(alloc, &call_ident(call).name)?;
    let mut refers = argument_names(alloc, call_arguments(call))?;
    push_after(alloc, call.after.as_slice(), &mut refers)?;
    Ok(Uses { gives, refers })
}

#[cycle(needing)]
fn body_uses(alloc: Global, body: &[Statement]) -> Result<Uses, NoMemory>
    ensures { IfOk result (λ u. as_needing u ≡ record { gives = all_given (map spec.statement_needing body.now); refers = all_referred (map spec.statement_needing body.now) }) }
{
    let mut gives = Items::new(alloc);
    let mut refers = Items::new(alloc);
    for statement in body {
        let uses = statement_uses(alloc, statement)?;
        gives.append(uses.gives)?;
        refers.append(uses.refers)?;
    }
    Ok(Uses { gives, refers })
}

/// What a statement gives and refers to. A block gives what its body gives, and refers to what its
/// body refers to and does not give.
#[cycle(needing)]
pub fn statement_uses(alloc: Global, statement: &Statement) -> Result<Uses, NoMemory>
    ensures { IfOk result (λ u. as_needing u ≡ spec.statement_needing statement.now) }
{
    match statement {
        Statement::Declaration(declaration) => declaration_uses(alloc, declaration),
        Statement::Call(call) => call_uses(alloc, call),
        Statement::Scatter(block) => {
            let body = body_uses(alloc, block.body.as_slice())?;
            scatter_uses(
                alloc,
                body,
                &block.item.name,
                expression_names(alloc, &block.over)?,
            )
        }
        Statement::Conditional(block) => {
            let body = body_uses(alloc, block.body.as_slice())?;
            condition_uses(alloc, body, expression_names(alloc, &block.condition)?)
        }
    }
}
