//! The checks of an expression that documents ask for.

ghost use Rattle.wdl_check_rules.specs.Conditions.{Answers, conditions, conditions_as};
ghost use Rattle.wdl_check_rules.specs.Checked.{Gives, checked_as};
ghost use Rattle.wdl_check_rules.specs.Scopes.{scope_of};
ghost use Rattle.wdl_check_rules.specs.Typed.{typed, typed_as};

use crate::check::check;
use std::alloc::Global;
use wdl_ast::Expr;
use wdl_check_rules::{CheckFault, Scope, Typed, coerced, span_of};
use wdl_typed::TExpr;
use wdl_value::Ty;

/// The type of an expression in a scope, and its typed tree with each cast written out (OpenWDL
/// 1.1, "Expressions"). `Bad` comes exactly where it has no typing; the code's condition holds at
///   the span.
pub fn check_expr(alloc: Global, scope: &Scope, e: &Expr) -> Result<Typed, CheckFault>
    ensures typing { Answers (typed (scope_of scope.now) e.now) (conditions (scope_of scope.now) e.now) result }
{
    check(alloc, e, scope, scope.placeholder)
}

/// The typed tree of an expression, cast to a type (OpenWDL 1.1, "Type Coercion"): without a cast
/// where it has that type. `Bad` comes exactly where it has no typing or its type does not coerce;
/// the code's condition holds at the span.
pub fn check_as(alloc: Global, scope: &Scope, e: &Expr, t: &Ty) -> Result<TExpr, CheckFault>
    ensures typing { Answers (typed_as (scope_of scope.now) e.now t.now) (conditions_as (scope_of scope.now) e.now t.now) result }
{
    check_to(alloc, scope, e, t)
}

fn check_to(alloc: Global, scope: &Scope, e: &Expr, t: &Ty) -> Result<TExpr, CheckFault>
    ensures { Gives (checked_as (scope_of scope.now) e.now t.now) result }
{
    let typed = check(alloc, e, scope, scope.placeholder)?;
    match coerced(alloc, typed, t)? {
        Some(expr) => Ok(expr),
        None => Err(CheckFault::Bad {
            code: 303,
            span: span_of(e),
        }),
    }
}
