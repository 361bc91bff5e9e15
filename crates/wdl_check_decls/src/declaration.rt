//! Declarations and outputs.

ghost use Rattle.std.specs.Prelude.{◌≡◌, ◌++◌, ◌∷◌, [], map, IfOk, OnOk};
ghost use Rattle.wdl_typed.specs.Declarations.{bound, decls_bound};
ghost use Rattle.wdl_check_types.specs.Outcome as outcome;
ghost use Rattle.wdl_check_decls.specs.Declarations as spec;
ghost use Rattle.wdl_check_decls.specs.Expressions as seen;

use crate::expression::check_as_in;
use crate::seeing::Seeing;
use crate::standing::Standing;
use crate::write::check_in_place;
use sqlite_items::at;
use std::alloc::Global;
use wdl_ast::{Declaration, Expr};
use wdl_check_order::order_of;
use wdl_check_rules::{CheckFault, coerced, let_go, span_of};
use wdl_check_types::{declaration_span, written_type};
use wdl_names::TypedNames;
use wdl_typed::{Bound, TDecl, TExpr};
use wdl_value::{Items, Key, Name, NoMemory, Ty};

fn check_private(
    alloc: Global,
    seeing: &Seeing,
    names: &TypedNames,
    e: &Expr,
    t: &Ty,
) -> Result<TExpr, CheckFault>
    ensures { outcome.Answers (spec.value_typed Standing.Private (seen.world seeing.now) names.now e.now t.now) result }
{
    let typed = check_in_place(alloc, seeing, names, false, e)?;
    match coerced(alloc, typed, t)? {
        Some(expr) => Ok(expr),
        None => Err(CheckFault::Bad {
            code: 303,
            span: span_of(e),
        }),
    }
}

fn check_value(
    alloc: Global,
    standing: Standing,
    seeing: &Seeing,
    names: &TypedNames,
    e: &Expr,
    t: &Ty,
) -> Result<TExpr, CheckFault>
    ensures { outcome.Answers (spec.value_typed standing (seen.world seeing.now) names.now e.now t.now) result }
{
    match standing {
        Standing::Private => check_private(alloc, seeing, names, e, t),
        Standing::Output => check_as_in(alloc, seeing, names, true, e, t),
        Standing::Body => check_as_in(alloc, seeing, names, false, e, t),
    }
}

/// A declaration of that type with its typed expression.
fn declared(
    alloc: Global,
    standing: Standing,
    seeing: &Seeing,
    names: &TypedNames,
    declaration: &Declaration,
    ty: Ty,
) -> Result<TDecl, CheckFault>
    ensures { outcome.Answers (spec.decl_as standing (seen.world seeing.now) names.now declaration.now ty) result }
{
    let name = declaration.name.name.copy(alloc)?;
    let value = check_value(alloc, standing, seeing, names, &declaration.value, &ty)?;
    Ok(TDecl {
        name,
        ty,
        value,
        span: declaration_span(declaration),
    })
}

/// A declaration with its typed expression, which is cast to the declared type (OpenWDL 1.1,
/// "Declarations").
pub fn check_declaration(
    alloc: Global,
    standing: Standing,
    seeing: &Seeing,
    names: &TypedNames,
    declaration: &Declaration,
) -> Result<TDecl, CheckFault>
    ensures { outcome.Answers (spec.decl_typed standing (seen.world seeing.now) names.now declaration.now) result }
{
    let ty = written_type(alloc, &declaration.ty, seeing.locals)?;
    declared(alloc, standing, seeing, names, declaration, ty)
}

/// Adds a name with its type behind the others.
pub fn enter(alloc: Global, names: &mut TypedNames, name: &Name, t: &Ty) -> Result<(), NoMemory>
    ensures { OnOk result (names.new ≡ names.old ++ bound name.now t.now ∷ []) }
{
    let ty = t.copy(alloc)?;
    let key = Key::plain(alloc, name)?;
    names.enter(Bound { key, ty })
}

/// A declaration, whose name is added to the names.
fn declare(
    alloc: Global,
    standing: Standing,
    seeing: &Seeing,
    names: &mut TypedNames,
    declaration: &Declaration,
) -> Result<TDecl, CheckFault>
    ensures value { outcome.Answers (spec.decl_typed standing (seen.world seeing.now) names.old declaration.now) result }
    ensures names { IfOk result (λ d. names.new ≡ names.old ++ bound d.name d.ty ∷ []) }
{
    let decl = check_declaration(alloc, standing, seeing, names, declaration)?;
    match enter(alloc, names, &decl.name, &decl.ty) {
        Ok(()) => Ok(decl),
        Err(NoMemory) => {
            let_go(decl);
            Err(CheckFault::NoMemory)
        }
    }
}

/// Declarations, or outputs, in their dependency order. Each sees the names and those declarations
/// that stand before it in this order, and its own name is added to the names. `Bad` comes with 320
/// at a declaration where there is no such order.
pub fn check_declarations(
    alloc: Global,
    standing: Standing,
    seeing: &Seeing,
    names: &mut TypedNames,
    list: &[&Declaration],
) -> Result<Items<TDecl>, CheckFault>
    ensures value { outcome.Answers (spec.decls_typed standing (seen.world seeing.now) names.old (map (λ d. d.now) list.now)) result }
    ensures names { IfOk result (λ ds. names.new ≡ names.old ++ decls_bound ds) }
{
    let positions = order_of(alloc, list)?;
    let mut done = Items::new(alloc);
    for position in positions.as_slice() {
        let Some(declaration) = at(list, *position) else {
            continue;
        };
        let decl = declare(alloc, standing, seeing, names, declaration)?;
        done.push(decl)?;
    }
    Ok(done)
}
