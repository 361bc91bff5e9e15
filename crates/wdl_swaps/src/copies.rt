//! Statements of a body with other expressions in them.

ghost use Rattle.std.specs.Prelude.{◌≡◌, ◌∷◌, [], IfOk};
ghost use Rattle.wdl_typed.specs.declared.expr.TExpr.{TExpr};
ghost use Rattle.wdl_typed.specs.declared.flow.Statement.TheVariants as statement;

use std::alloc::Global;
use wdl_typed::{Statement, TCall, TDecl, TExpr, TField, TIf, TScatter};
use wdl_value::{Boxed, Items, Name, NoMemory};

fn copy_names(alloc: Global, names: &[Name]) -> Result<Items<Name>, NoMemory>
    ensures { IfOk result (λ ns. ns ≡ names.now) }
{
    let mut copies = Items::new(alloc);
    for name in names {
        copies.push(name.copy(alloc)?)?;
    }
    Ok(copies)
}

/// A declaration with another value.
pub fn kept_decl(
    alloc: Global,
    d: &TDecl,
    value: Boxed<TExpr>,
) -> Result<Items<Statement>, NoMemory>
    ensures { IfOk result (λ ss. ss ≡ statement.Decl (record { name = d.now.name; ty = d.now.ty; value = value; span = d.now.span }) ∷ []) }
{
    let name = d.name.copy(alloc)?;
    let ty = d.ty.copy(alloc)?;
    let mut kept = Items::new(alloc);
    kept.push(Statement::Decl(TDecl {
        name,
        ty,
        value: value.into_inner(),
        span: d.span,
    }))?;
    Ok(kept)
}

/// A call with other arguments.
pub fn kept_call(
    alloc: Global,
    call: &TCall,
    args: Items<TField<TExpr>>,
) -> Result<Items<Statement>, NoMemory>
    ensures { IfOk result (λ ss. ss ≡ statement.Call (record { name = call.now.name; target = call.now.target; args = args; after = call.now.after; span = call.now.span }) ∷ []) }
{
    let name = call.name.copy(alloc)?;
    let after = copy_names(alloc, call.after.as_slice())?;
    let mut kept = Items::new(alloc);
    kept.push(Statement::Call(TCall {
        name,
        target: call.target,
        args,
        after,
        span: call.span,
    }))?;
    Ok(kept)
}

/// A scatter with another collection and another body.
pub fn kept_scatter(
    alloc: Global,
    s: &TScatter<Statement>,
    over: Boxed<TExpr>,
    body: Items<Statement>,
) -> Result<Items<Statement>, NoMemory>
    ensures { IfOk result (λ ss. ss ≡ statement.Scatter (record { number = s.now.number; item = s.now.item; over = over; body = body; span = s.now.span }) ∷ []) }
{
    let item = s.item.copy(alloc)?;
    let mut kept = Items::new(alloc);
    kept.push(Statement::Scatter(TScatter {
        number: s.number,
        item,
        over: over.into_inner(),
        body,
        span: s.span,
    }))?;
    Ok(kept)
}

/// A condition with another condition and another body.
pub fn kept_if(
    alloc: Global,
    i: &TIf<Statement>,
    cond: Boxed<TExpr>,
    body: Items<Statement>,
) -> Result<Items<Statement>, NoMemory>
    ensures { IfOk result (λ ss. ss ≡ statement.If (record { number = i.now.number; cond = cond; body = body; span = i.now.span }) ∷ []) }
{
    let mut kept = Items::new(alloc);
    kept.push(Statement::If(TIf {
        number: i.number,
        cond: cond.into_inner(),
        body,
        span: i.span,
    }))?;
    Ok(kept)
}
