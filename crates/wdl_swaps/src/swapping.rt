//! Copies of expressions, with chains in the places of references and of members behind them.

ghost use Rattle.std.specs.Prelude.{◌≡◌, [], IfOk, map};
ghost use Rattle.wdl_typed.specs.declared.expr.Choice.{Choice};
ghost use Rattle.wdl_typed.specs.declared.expr.TExpr.TheVariants as form;
ghost use Rattle.wdl_swaps.specs.Chains as chain;
ghost use Rattle.wdl_swaps.specs.Swaps as spec;
ghost use Rattle.wdl_swaps.specs.declared.chain.Hop.TheVariants as hop;

use crate::chain::{chain_of, expr_of, member_behind};
use crate::swap::{Swap, swap_at};
use std::alloc::Global;
use wdl_typed::{Choice, TExpr, TField, THole, TPair, TPart};
use wdl_value::{Boxed, Items, Key, Name, NoMemory};

fn copy_choice(alloc: Global, choice: &Choice) -> Result<Choice, NoMemory>
    ensures { IfOk result (λ c. c ≡ choice.now) }
{
    match choice {
        Choice::Plain => Ok(Choice::Plain),
        Choice::Sep(text) => Ok(Choice::Sep(text.copy(alloc)?)),
        Choice::Both { yes, no } => {
            let yes = yes.copy(alloc)?;
            let no = no.copy(alloc)?;
            Ok(Choice::Both { yes, no })
        }
        Choice::Default(text) => Ok(Choice::Default(text.copy(alloc)?)),
    }
}

fn swapped_name(alloc: Global, key: &Key, swaps: &[Swap]) -> Result<TExpr, NoMemory>
    ensures { IfOk result (λ e. e ≡ spec.or_chain (form.Get key.now) (spec.swap_at swaps.now key.now [])) }
{
    match swap_at(swaps, key, &[]) {
        Some(chain) => Ok(expr_of(alloc, chain)?.into_inner()),
        None => Ok(TExpr::Get(key.copy(alloc)?)),
    }
}

fn swapped_member(
    alloc: Global,
    base: Boxed<TExpr>,
    name: &Name,
    swaps: &[Swap],
) -> Result<TExpr, NoMemory>
    ensures { IfOk result (λ e. e ≡ spec.or_chain (form.Member base name.now) (spec.swap_chain swaps.now (chain.behind (hop.Member name.now) (chain.chain_of base)))) }
{
    let chain = chain_of(alloc, base.get())?;
    if let Some(chain) = member_behind(alloc, chain, name)? {
        if let Some(found) = swap_at(swaps, &chain.key, chain.hops.as_slice()) {
            return Ok(expr_of(alloc, found)?.into_inner());
        }
    }
    Ok(TExpr::Member(base, name.copy(alloc)?))
}

/// The same in a box, as the parts of an expression stand. `NoMemory` comes where the allocator
/// refuses, and nothing else is refused.
#[cycle(swapped)]
#[tactic(auto, using(crate::proofs::SwapLaws::equations))]
pub fn boxed_expr(alloc: Global, expr: &TExpr, swaps: &[Swap]) -> Result<Boxed<TExpr>, NoMemory>
    ensures { IfOk result (λ e. e ≡ spec.swapped swaps.now expr.now) }
{
    let copy = swapped(alloc, expr, swaps)?;
    Ok(Boxed::new(alloc, copy)?)
}

#[cycle(swapped)]
#[tactic(auto, using(crate::proofs::SwapLaws::equations))]
fn items(alloc: Global, exprs: &[TExpr], swaps: &[Swap]) -> Result<Items<TExpr>, NoMemory>
    ensures { IfOk result (λ es. es ≡ map (spec.swapped swaps.now) exprs.now) }
{
    let mut done = Items::new(alloc);
    for expr in exprs {
        done.push(swapped(alloc, expr, swaps)?)?;
    }
    Ok(done)
}

#[cycle(swapped)]
#[tactic(auto, using(crate::proofs::SwapLaws::equations))]
fn rows(
    alloc: Global,
    rows: &[TPair<TExpr>],
    swaps: &[Swap],
) -> Result<Items<TPair<TExpr>>, NoMemory>
    ensures { IfOk result (λ rs. rs ≡ spec.rows_with (spec.swapped swaps.now) rows.now) }
{
    let mut done = Items::new(alloc);
    for row in rows {
        let key = boxed_expr(alloc, &row.key, swaps)?;
        let value = boxed_expr(alloc, &row.value, swaps)?;
        done.push(TPair {
            key: key.into_inner(),
            value: value.into_inner(),
        })?;
    }
    Ok(done)
}

/// The members of a struct literal, or the arguments of a call.
#[cycle(swapped)]
#[tactic(auto, using(crate::proofs::SwapLaws::equations))]
pub fn swapped_fields(
    alloc: Global,
    fields: &[TField<TExpr>],
    swaps: &[Swap],
) -> Result<Items<TField<TExpr>>, NoMemory>
    ensures { IfOk result (λ fs. fs ≡ spec.fields_with (spec.swapped swaps.now) fields.now) }
{
    let mut done = Items::new(alloc);
    for field in fields {
        let name = field.name.copy(alloc)?;
        let value = swapped(alloc, &field.value, swaps)?;
        done.push(TField { name, value })?;
    }
    Ok(done)
}

#[cycle(swapped)]
#[tactic(auto, using(crate::proofs::SwapLaws::equations))]
fn parts(
    alloc: Global,
    parts: &[TPart<TExpr>],
    swaps: &[Swap],
) -> Result<Items<TPart<TExpr>>, NoMemory>
    ensures { IfOk result (λ ps. ps ≡ spec.parts_with (spec.swapped swaps.now) parts.now) }
{
    let mut done = Items::new(alloc);
    for part in parts {
        match part {
            TPart::Chars(text) => done.push(TPart::Chars(text.copy(alloc)?))?,
            TPart::Hole(hole) => {
                let choice = copy_choice(alloc, &hole.choice)?;
                let expr = swapped(alloc, &hole.expr, swaps)?;
                done.push(TPart::Hole(THole { expr, choice }))?
            }
        }
    }
    Ok(done)
}

/// A copy of an expression with the chains in their places.
#[cycle(swapped)]
#[tactic(auto, using(crate::proofs::SwapLaws::equations))]
pub fn swapped(alloc: Global, expr: &TExpr, swaps: &[Swap]) -> Result<TExpr, NoMemory>
    ensures { IfOk result (λ e. e ≡ spec.swapped swaps.now expr.now) }
{
    match expr {
        TExpr::Lit(value) => Ok(TExpr::Lit(value.copy(alloc)?)),
        TExpr::Get(key) => swapped_name(alloc, key, swaps),
        TExpr::Member(a, name) => {
            let base = boxed_expr(alloc, a.get(), swaps)?;
            swapped_member(alloc, base, name, swaps)
        }
        TExpr::At(a, b) => {
            let a = boxed_expr(alloc, a.get(), swaps)?;
            Ok(TExpr::At(a, boxed_expr(alloc, b.get(), swaps)?))
        }
        TExpr::Not(a) => Ok(TExpr::Not(boxed_expr(alloc, a.get(), swaps)?)),
        TExpr::Neg(a) => Ok(TExpr::Neg(boxed_expr(alloc, a.get(), swaps)?)),
        TExpr::Binary(operator, a, b) => {
            let a = boxed_expr(alloc, a.get(), swaps)?;
            Ok(TExpr::Binary(*operator, a, boxed_expr(alloc, b.get(), swaps)?))
        }
        TExpr::Choose(c, a, b) => {
            let c = boxed_expr(alloc, c.get(), swaps)?;
            let a = boxed_expr(alloc, a.get(), swaps)?;
            Ok(TExpr::Choose(c, a, boxed_expr(alloc, b.get(), swaps)?))
        }
        TExpr::ListOf(exprs) => Ok(TExpr::ListOf(items(alloc, exprs.as_slice(), swaps)?)),
        TExpr::MapOf(pairs) => Ok(TExpr::MapOf(rows(alloc, pairs.as_slice(), swaps)?)),
        TExpr::PairOf(a, b) => {
            let a = boxed_expr(alloc, a.get(), swaps)?;
            Ok(TExpr::PairOf(a, boxed_expr(alloc, b.get(), swaps)?))
        }
        TExpr::StructOf(name, fields) => {
            let name = name.copy(alloc)?;
            Ok(TExpr::StructOf(name, swapped_fields(alloc, fields.as_slice(), swaps)?))
        }
        TExpr::Apply(func, exprs) => Ok(TExpr::Apply(
            *func,
            items(alloc, exprs.as_slice(), swaps)?,
        )),
        TExpr::Strung(pieces) => Ok(TExpr::Strung(parts(alloc, pieces.as_slice(), swaps)?)),
        TExpr::Cast(a, ty) => {
            let a = boxed_expr(alloc, a.get(), swaps)?;
            Ok(TExpr::Cast(a, ty.copy(alloc)?))
        }
    }
}
