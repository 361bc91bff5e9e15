//! References with the members and casts behind them.

ghost use Rattle.std.specs.Prelude.{◌≡◌, ◌++◌, ◌∷◌, [], IfOk};
ghost use Rattle.wdl_typed.specs.declared.expr.TExpr.TheVariants as form;
ghost use Rattle.wdl_swaps.specs.Chains as spec;
ghost use Rattle.wdl_swaps.specs.declared.chain.Hop.TheVariants as hop;

use std::alloc::Global;
use wdl_typed::TExpr;
use wdl_value::{Boxed, Items, Key, Name, NoMemory, Ty};

/// A step from a value: to a member of it, or to its value at another type.
#[derive(Debug, Drop)]
pub enum Hop {
    Member(Name),
    Cast(Ty),
}

/// A reference, and the members and casts behind it in their order.
#[derive(Debug, Drop)]
pub struct Chain {
    pub key: Key,
    pub hops: Items<Hop>,
}

/// The reference alone.
pub fn reference(alloc: Global, key: &Key) -> Result<Chain, NoMemory>
    ensures { IfOk result (λ c. c ≡ spec.chain key.now []) }
{
    let key = key.copy(alloc)?;
    Ok(Chain {
        key,
        hops: Items::new(alloc),
    })
}

fn further(mut chain: Chain, hop: Hop) -> Result<Chain, NoMemory>
    ensures { IfOk result (λ c. c ≡ spec.chain chain.key (chain.hops ++ hop ∷ [])) }
{
    chain.hops.push(hop)?;
    Ok(chain)
}

/// The chain with the member behind it.
pub fn member_behind(
    alloc: Global,
    chain: Option<Chain>,
    name: &Name,
) -> Result<Option<Chain>, NoMemory>
    ensures { IfOk result (λ c. c ≡ spec.behind (hop.Member name.now) chain) }
{
    match chain {
        Some(chain) => Ok(Some(further(chain, Hop::Member(name.copy(alloc)?))?)),
        None => Ok(None),
    }
}

fn cast_behind(alloc: Global, chain: Option<Chain>, ty: &Ty) -> Result<Option<Chain>, NoMemory>
    ensures { IfOk result (λ c. c ≡ spec.behind (hop.Cast ty.now) chain) }
{
    match chain {
        Some(chain) => Ok(Some(further(chain, Hop::Cast(ty.copy(alloc)?))?)),
        None => Ok(None),
    }
}

/// The chain that an expression is, if it is one.
pub fn chain_of(alloc: Global, expr: &TExpr) -> Result<Option<Chain>, NoMemory>
    ensures { IfOk result (λ c. c ≡ spec.chain_of expr.now) }
{
    match expr {
        TExpr::Get(key) => Ok(Some(reference(alloc, key)?)),
        TExpr::Member(inner, name) => {
            let chain = chain_of(alloc, inner.get())?;
            member_behind(alloc, chain, name)
        }
        TExpr::Cast(inner, ty) => {
            let chain = chain_of(alloc, inner.get())?;
            cast_behind(alloc, chain, ty)
        }
        _ => Ok(None),
    }
}

/// An expression with a hop behind it.
fn hopped(alloc: Global, expr: Boxed<TExpr>, hop: &Hop) -> Result<TExpr, NoMemory>
    ensures { IfOk result (λ e. e ≡ spec.hopped expr hop.now) }
{
    match hop {
        Hop::Member(name) => Ok(TExpr::Member(expr, name.copy(alloc)?)),
        Hop::Cast(ty) => Ok(TExpr::Cast(expr, ty.copy(alloc)?)),
    }
}

fn hopped_box(alloc: Global, expr: Boxed<TExpr>, hop: &Hop) -> Result<Boxed<TExpr>, NoMemory>
    ensures { IfOk result (λ e. e ≡ spec.hopped expr hop.now) }
{
    let expr = hopped(alloc, expr, hop)?;
    Ok(Boxed::new(alloc, expr)?)
}

fn name_box(alloc: Global, key: &Key) -> Result<Boxed<TExpr>, NoMemory>
    ensures { IfOk result (λ e. e ≡ form.Get key.now) }
{
    let key = key.copy(alloc)?;
    Ok(Boxed::new(alloc, TExpr::Get(key))?)
}

/// The expression that is the chain.
pub fn expr_of(alloc: Global, chain: &Chain) -> Result<Boxed<TExpr>, NoMemory>
    ensures { IfOk result (λ e. e ≡ spec.expr_of chain.now) }
{
    let mut expr = name_box(alloc, &chain.key)?;
    for hop in chain.hops.as_slice() {
        expr = hopped_box(alloc, expr, hop)?;
    }
    Ok(expr)
}

/// A copy of the chain.
pub fn copy_chain(alloc: Global, chain: &Chain) -> Result<Chain, NoMemory>
    ensures { IfOk result (λ c. c ≡ chain.now) }
{
    let key = chain.key.copy(alloc)?;
    let hops = copy_hops(alloc, chain.hops.as_slice())?;
    Ok(Chain { key, hops })
}

fn copy_hop(alloc: Global, hop: &Hop) -> Result<Hop, NoMemory>
    ensures { IfOk result (λ h. h ≡ hop.now) }
{
    match hop {
        Hop::Member(name) => Ok(Hop::Member(name.copy(alloc)?)),
        Hop::Cast(ty) => Ok(Hop::Cast(ty.copy(alloc)?)),
    }
}

fn copy_hops(alloc: Global, hops: &[Hop]) -> Result<Items<Hop>, NoMemory>
    ensures { IfOk result (λ hs. hs ≡ hops.now) }
{
    let mut copies = Items::new(alloc);
    for hop in hops {
        copies.push(copy_hop(alloc, hop)?)?;
    }
    Ok(copies)
}
