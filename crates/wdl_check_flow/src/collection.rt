//! The collections of scatters, and the conditions of blocks.

ghost use Rattle.std.specs.Prelude.{◌≡◌, IfOk};
ghost use Rattle.wdl_check_rules.specs.Rules.{condition_of};
ghost use Rattle.wdl_check_types.specs.Outcome as outcome;
ghost use Rattle.wdl_check_flow.specs.Blocks as spec;
ghost use Rattle.wdl_check_flow.specs.Given.{seen_of};
ghost use Rattle.wdl_check_flow.specs.Targets.{place_of};

use crate::context::Context;
use crate::visible::Visible;
use sqlite_items::Boxed;
use std::alloc::Global;
use wdl_ast::Expr;
use wdl_check_decls::check_in;
use wdl_check_rules::{CheckFault, Typed, span_of};
use wdl_typed::TExpr;
use wdl_value::{NoMemory, Ty};

/// The collection of a scatter, with the type of its items and whether it has one.
#[derive(Drop)]
pub struct Collection {
    pub expr: Boxed<TExpr>,
    pub item: Boxed<Ty>,
    pub some: bool,
}

fn collection_of(alloc: Global, x: Typed) -> Result<Option<Collection>, NoMemory>
    ensures { IfOk result (λ c. c ≡ spec.collection_of x) }
{
    let (expr, ty) = x.into_parts(alloc)?;
    match ty {
        Ty::Array { item, some } => Ok(Some(Collection { expr, item, some })),
        _ => Ok(None),
    }
}

/// The collection of a scatter: 326 where it is no array.
pub fn check_collection(
    alloc: Global,
    context: &Context,
    visible: &Visible,
    over: &Expr,
) -> Result<Collection, CheckFault>
    ensures { outcome.Answers (spec.collection_typed (place_of context.now) (seen_of visible.now) over.now) result }
{
    let seeing = context.seeing.with_calls(&visible.calls);
    let typed = check_in(alloc, &seeing, &visible.names, false, false, over)?;
    match collection_of(alloc, typed)? {
        Some(collection) => Ok(collection),
        None => Err(CheckFault::Bad {
            code: 326,
            span: span_of(over),
        }),
    }
}

fn bool_of(alloc: Global, x: Typed) -> Result<Option<Boxed<TExpr>>, NoMemory>
    ensures { IfOk result (λ e. e ≡ condition_of x) }
{
    let (expr, ty) = x.into_parts(alloc)?;
    match ty {
        Ty::Bool => Ok(Some(expr)),
        _ => Ok(None),
    }
}

/// The condition of a block: 325 where it is no Boolean.
pub fn check_condition(
    alloc: Global,
    context: &Context,
    visible: &Visible,
    condition: &Expr,
) -> Result<Boxed<TExpr>, CheckFault>
    ensures { outcome.Answers (spec.condition_typed (place_of context.now) (seen_of visible.now) condition.now) result }
{
    let seeing = context.seeing.with_calls(&visible.calls);
    let typed = check_in(alloc, &seeing, &visible.names, false, false, condition)?;
    match bool_of(alloc, typed)? {
        Some(expr) => Ok(expr),
        None => Err(CheckFault::Bad {
            code: 325,
            span: span_of(condition),
        }),
    }
}
