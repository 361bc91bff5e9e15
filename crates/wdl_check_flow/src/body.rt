//! Bodies: statements in their dependency order.

ghost use Rattle.std.specs.Prelude.{◌≡◌, map, IfOk};
ghost use Rattle.wdl_check_flow.specs.Bodies as spec;
ghost use Rattle.wdl_check_flow.specs.Given.{seen_of};
ghost use Rattle.wdl_check_flow.specs.Stating.{States, StatesBody};
ghost use Rattle.wdl_check_flow.specs.Targets.{place_of};

use crate::call::check_call;
use crate::collection::{check_collection, check_condition};
use crate::context::Context;
use crate::numbers::numbers_of;
use crate::visible::{Gathering, Visible};
use sqlite_items::Boxed;
use std::alloc::Global;
use wdl_ast::{Declaration, Expr, Ident, Statement};
use wdl_check_decls::{Standing, check_declaration};
use wdl_check_order::order_of;
use wdl_check_rules::CheckFault;
use wdl_check_types::from_to;
use wdl_typed::{TExpr, TIf, TScatter};
use wdl_value::{Items, NoMemory, Span};

fn refs_of<'a>(alloc: Global, body: &'a [Statement]) -> Result<Vec<&'a Statement>, NoMemory>
    ensures { IfOk result (λ refs. map (λ s. s.now) refs.items ≡ body.now) }
{
    let mut refs = Vec::new(alloc);
    for statement in body {
        refs.push(statement)?;
    }
    Ok(refs)
}

/// A declaration, whose name is added to what is seen.
fn check_decl(
    alloc: Global,
    context: &Context,
    visible: &mut Visible,
    declaration: &Declaration,
) -> Result<wdl_typed::Statement, CheckFault>
    ensures { States (spec.decl_statement (place_of context.now) (seen_of visible.old) declaration.now) (seen_of visible.old) (seen_of visible.new) result }
{
    let seeing = context.seeing.with_calls(&visible.calls);
    let names = &visible.names;
    let decl = check_declaration(alloc, Standing::Body, &seeing, names, declaration)?;
    let decl = Boxed::new(alloc, decl)?;
    visible.enter_decl(alloc, decl.get())?;
    Ok(wdl_typed::Statement::Decl(decl.into_inner()))
}

fn scatter(
    alloc: Global,
    item: &Ident,
    span: Span,
    number: u32,
    over: Boxed<TExpr>,
    body: Items<wdl_typed::Statement>,
) -> Result<wdl_typed::Statement, NoMemory>
    ensures { IfOk result (λ s. s ≡ spec.scatter number item.now.name span over body) }
{
    let item = item.name.copy(alloc)?;
    Ok(wdl_typed::Statement::Scatter(TScatter {
        number,
        item,
        over: over.into_inner(),
        body,
        span,
    }))
}

fn condition(
    number: u32,
    span: Span,
    cond: Boxed<TExpr>,
    body: Items<wdl_typed::Statement>,
) -> wdl_typed::Statement
    ensures { result ≡ spec.condition number span cond body }
{
    wdl_typed::Statement::If(TIf {
        number,
        cond: cond.into_inner(),
        body,
        span,
    })
}

/// A scatter, whose body sees an item. Outside it what the body gives is a list.
#[cycle(bodies)]
fn check_scatter(
    alloc: Global,
    context: &Context,
    visible: &mut Visible,
    item: &Ident,
    over: &Expr,
    span: Span,
    body: &[Statement],
    number: u32,
) -> Result<wdl_typed::Statement, CheckFault>
    ensures { States (spec.scatter_typed (place_of context.now) item.now over.now span (spec.statements_typed (place_of context.now) body.now) number (seen_of visible.old)) (seen_of visible.old) (seen_of visible.new) result }
{
    let collection = check_collection(alloc, context, visible, over)?;
    let kept = visible.names.len();
    visible.enter(alloc, &item.name, collection.item.get())?;
    let from = visible.names.len();
    let body = check_block(alloc, context, visible, body)?;
    let some = collection.some;
    visible.gather(alloc, kept, from, Gathering::List { some })?;
    Ok(scatter(alloc, item, span, number, collection.expr, body)?)
}

/// A condition. Outside it what the body gives is optional.
#[cycle(bodies)]
fn check_conditional(
    alloc: Global,
    context: &Context,
    visible: &mut Visible,
    test: &Expr,
    span: Span,
    body: &[Statement],
    number: u32,
) -> Result<wdl_typed::Statement, CheckFault>
    ensures { States (spec.conditional_typed (place_of context.now) test.now span (spec.statements_typed (place_of context.now) body.now) number (seen_of visible.old)) (seen_of visible.old) (seen_of visible.new) result }
{
    let cond = check_condition(alloc, context, visible, test)?;
    let kept = visible.names.len();
    let body = check_block(alloc, context, visible, body)?;
    visible.gather(alloc, kept, kept, Gathering::Optional)?;
    Ok(condition(number, span, cond, body))
}

/// A statement, whose names are added to what is seen.
#[cycle(bodies)]
fn check_statement(
    alloc: Global,
    context: &Context,
    visible: &mut Visible,
    statement: &Statement,
    number: u32,
) -> Result<wdl_typed::Statement, CheckFault>
    ensures { States (spec.statement_typed (place_of context.now) statement.now number (seen_of visible.old)) (seen_of visible.old) (seen_of visible.new) result }
{
    match statement {
        Statement::Declaration(declaration) => check_decl(alloc, context, visible, declaration),
        Statement::Call(call) => check_call(alloc, context, visible, call),
        Statement::Scatter(block) => {
            let span = from_to(block.keyword, block.closing);
            let body = block.body.as_slice();
            check_scatter(
                alloc,
                context,
                visible,
                &block.item,
                &block.over,
                span,
                body,
                number,
            )
        }
        Statement::Conditional(block) => {
            let span = from_to(block.keyword, block.closing);
            let body = block.body.as_slice();
            check_conditional(
                alloc,
                context,
                visible,
                &block.condition,
                span,
                body,
                number,
            )
        }
    }
}

/// The body of a block: statements in their dependency order, each of which sees what those give
/// that stand before it.
#[cycle(bodies)]
fn check_block(
    alloc: Global,
    context: &Context,
    visible: &mut Visible,
    body: &[Statement],
) -> Result<Items<wdl_typed::Statement>, CheckFault>
    ensures { StatesBody (spec.statements_typed (place_of context.now) body.now (seen_of visible.old)) (seen_of visible.old) (seen_of visible.new) result }
{
    let refs = refs_of(alloc, body)?;
    let numbers = numbers_of(alloc, refs.as_slice())?;
    let positions = order_of(alloc, refs.as_slice())?;
    let mut done = Items::new(alloc);
    for position in positions.as_slice() {
        let Some(statement) = body.get(*position) else {
            continue;
        };
        let Some(number) = numbers.get(*position) else {
            continue;
        };
        done.push(check_statement(alloc, context, visible, statement, *number)?)?;
    }
    Ok(done)
}

/// The statements of a workflow in their dependency order. Each sees what those give that stand
/// before it in this order; what all give is added to what is seen (OpenWDL 1.1, "Workflow
/// Definition").
pub fn check_body(
    alloc: Global,
    context: &Context,
    visible: &mut Visible,
    body: &[&Statement],
) -> Result<Items<wdl_typed::Statement>, CheckFault>
    ensures { StatesBody (spec.statements_typed (place_of context.now) (map (λ s. s.now) body.now) (seen_of visible.old)) (seen_of visible.old) (seen_of visible.new) result }
{
    let numbers = numbers_of(alloc, body)?;
    let positions = order_of(alloc, body)?;
    let mut done = Items::new(alloc);
    for position in positions.as_slice() {
        let Some(statement) = body.get(*position) else {
            continue;
        };
        let Some(number) = numbers.get(*position) else {
            continue;
        };
        done.push(check_statement(alloc, context, visible, statement, *number)?)?;
    }
    Ok(done)
}
