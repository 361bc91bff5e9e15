//! Copies of the statements of the main workflow.

ghost use Rattle.std.specs.Prelude.{◌≡◌, map, IfOk};
ghost use Rattle.wdl_check_rules.specs.Locals as local;
ghost use Rattle.wdl_bundle.specs.Bodies as spec;
ghost use Rattle.wdl_bundle.specs.Called.{reach_of};
ghost use Rattle.wdl_bundle.specs.TaskNames.{name_of};

use crate::names::TaskNames;
use sqlite_items::Items;
use std::alloc::Global;
use wdl_ast::{Conditional, Scatter, Statement};
use wdl_check_rules::Local;
use wdl_copies::{copy_call, copy_declaration, copy_expr, copy_ident};
use wdl_names::Indexed;
use wdl_value::NoMemory;

fn scatter_with(
    alloc: Global,
    block: &Scatter<Statement>,
    body: Items<Statement>,
    locals: &Indexed<Local>,
) -> Result<Scatter<Statement>, NoMemory>
    ensures { IfOk result (λ s. s ≡ spec.scatter_with (local.stands_for locals.now) block.now body) }
{
    let item = copy_ident(alloc, &block.item)?;
    Ok(Scatter {
        keyword: block.keyword,
        opening_paren: block.opening_paren,
        item,
        in_word: block.in_word,
        over: copy_expr(alloc, &block.over, locals)?,
        closing_paren: block.closing_paren,
        opening: block.opening,
        body,
        closing: block.closing,
    })
}

fn conditional_with(
    alloc: Global,
    block: &Conditional<Statement>,
    body: Items<Statement>,
    locals: &Indexed<Local>,
) -> Result<Conditional<Statement>, NoMemory>
    ensures { IfOk result (λ s. s ≡ spec.conditional_with (local.stands_for locals.now) block.now body) }
{
    Ok(Conditional {
        keyword: block.keyword,
        opening_paren: block.opening_paren,
        condition: copy_expr(alloc, &block.condition, locals)?,
        closing_paren: block.closing_paren,
        opening: block.opening,
        body,
        closing: block.closing,
    })
}

/// A copy of a statement, whose calls name the tasks of the bundle.
#[cycle(body)]
pub fn copy_statement(
    alloc: Global,
    statement: &Statement,
    names: &TaskNames,
    locals: &Indexed<Local>,
) -> Result<Statement, NoMemory>
    ensures { IfOk result (λ s. s ≡ spec.statement_with (local.stands_for locals.now) (name_of (reach_of names.now.reach) names.now.names.now) statement.now) }
{
    match statement {
        Statement::Declaration(declaration) => Ok(Statement::Declaration(copy_declaration(
            alloc,
            declaration,
            locals,
        )?)),
        Statement::Call(call) => Ok(Statement::Call(copy_call(
            alloc,
            call,
            names.name_of(&call.target),
            locals,
        )?)),
        Statement::Scatter(block) => {
            let body = copy_body(alloc, block.body.as_slice(), names, locals)?;
            Ok(Statement::Scatter(scatter_with(alloc, block, body, locals)?))
        }
        Statement::Conditional(block) => {
            let body = copy_body(alloc, block.body.as_slice(), names, locals)?;
            Ok(Statement::Conditional(conditional_with(alloc, block, body, locals)?))
        }
    }
}

#[cycle(body)]
fn copy_body(
    alloc: Global,
    body: &[Statement],
    names: &TaskNames,
    locals: &Indexed<Local>,
) -> Result<Items<Statement>, NoMemory>
    ensures { IfOk result (λ ss. ss ≡ map (spec.statement_with (local.stands_for locals.now) (name_of (reach_of names.now.reach) names.now.names.now)) body.now) }
{
    let mut copies = Items::new(alloc);
    for statement in body {
        copies.push(copy_statement(alloc, statement, names, locals)?)?;
    }
    Ok(copies)
}
