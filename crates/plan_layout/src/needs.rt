//! What expressions need: their names, each once, where their cells stand.

ghost use Rattle.std.specs.Prelude.{◌≡◌, map, IfOk, OnOk};
ghost use Rattle.wdl_typed.specs.Scope.{names_of};
ghost use Rattle.net_laws.specs.Rules.{arg_keys};
ghost use Rattle.plan_layout.specs.Spots as spec;

use crate::layout::Need;
use crate::spots::Spots;
use references::{argument_names, expression_names};
use std::alloc::Global;
use wdl_typed::{TExpr, TField};
use wdl_value::{Items, Key, Name, NoMemory};

fn copy_need(alloc: Global, need: &Need) -> Result<Need, NoMemory>
    ensures { IfOk result (λ n. n ≡ need.now) }
{
    let key = need.key.copy(alloc)?;
    Ok(Need {
        key,
        level: need.level,
        slot: need.slot,
    })
}

/// Adds the name, where it is seen and not there yet.
fn pick(alloc: Global, key: &Key, seen: &Spots, needs: &mut Spots) -> Result<(), NoMemory>
    ensures { OnOk result (needs.new ≡ spec.pick seen.now needs.old key.now) }
{
    if needs.find(key).is_some() {
        return Ok(());
    }
    let Some(need) = seen.find(key) else {
        return Ok(());
    };
    needs.enter(copy_need(alloc, need)?)
}

/// These names, each once, as they are seen.
fn picked(alloc: Global, keys: &[&Key], seen: &Spots) -> Result<Items<Need>, NoMemory>
    ensures { IfOk result (λ needs. needs ≡ spec.needs_of seen.now (map (λ k. k.now) keys.now)) }
{
    let mut needs = Spots::empty(alloc);
    for key in keys {
        pick(alloc, key, seen, &mut needs)?;
    }
    Ok(needs.into_items())
}

/// What an expression needs.
pub fn expr_needs(alloc: Global, e: &TExpr, seen: &Spots) -> Result<Items<Need>, NoMemory>
    ensures { IfOk result (λ needs. needs ≡ spec.needs_of seen.now (names_of e.now)) }
{
    let names = expression_names(alloc, e)?;
    picked(alloc, names.as_slice(), seen)
}

/// What the arguments of a call need.
#[tactic(auto, using(crate::proofs::Names::keys_are))]
pub fn arg_needs(
    alloc: Global,
    args: &[TField<TExpr>],
    seen: &Spots,
) -> Result<Items<Need>, NoMemory>
    ensures { IfOk result (λ needs. needs ≡ spec.needs_of seen.now (arg_keys args.now)) }
{
    let names = argument_names(alloc, args)?;
    picked(alloc, names.as_slice(), seen)
}

/// The calls of these names, as they are seen.
pub fn call_needs(alloc: Global, calls: &[Name], seen: &Spots) -> Result<Items<Need>, NoMemory>
    ensures { IfOk result (λ needs. needs ≡ spec.needs_of seen.now (spec.plain_keys calls.now)) }
{
    let mut needs = Spots::empty(alloc);
    for call in calls {
        let key = Key::plain(alloc, call)?;
        pick(alloc, &key, seen, &mut needs)?;
    }
    Ok(needs.into_items())
}
