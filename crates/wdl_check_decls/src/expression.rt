//! Expressions where they stand in a document.

ghost use Rattle.wdl_check_types.specs.Outcome as outcome;
ghost use Rattle.wdl_check_decls.specs.Expressions as spec;

use crate::seeing::Seeing;
use std::alloc::Global;
use wdl_ast::Expr;
use wdl_check_expr::{check_as, check_expr};
use wdl_check_rules::{CheckFault, Scope, Typed};
use wdl_names::TypedNames;
use wdl_typed::TExpr;
use wdl_value::Ty;

/// The typing of an expression: `outputs` where it may read what a command left, `placeholder`
/// inside a placeholder.
pub fn check_in(
    alloc: Global,
    seeing: &Seeing,
    names: &TypedNames,
    outputs: bool,
    placeholder: bool,
    e: &Expr,
) -> Result<Typed, CheckFault>
    ensures { outcome.Answers (spec.expr_typed (spec.world seeing.now) names.now outputs placeholder e.now) result }
{
    let scope = Scope {
        names,
        calls: seeing.calls,
        structs: seeing.structs,
        locals: seeing.locals,
        outputs,
        placeholder,
    };
    check_expr(alloc, &scope, e)
}

/// The typed tree of an expression outside placeholders, cast to a type.
pub fn check_as_in(
    alloc: Global,
    seeing: &Seeing,
    names: &TypedNames,
    outputs: bool,
    e: &Expr,
    t: &Ty,
) -> Result<TExpr, CheckFault>
    ensures { outcome.Answers (spec.expr_as (spec.world seeing.now) names.now outputs e.now t.now) result }
{
    let scope = Scope {
        names,
        calls: seeing.calls,
        structs: seeing.structs,
        locals: seeing.locals,
        outputs,
        placeholder: false,
    };
    check_as(alloc, &scope, e, t)
}
