//! Arguments, with one for each leaf in the place of one for a struct input.

ghost use Rattle.std.specs.Prelude.{◌≡◌, ◌++◌, ◌∷◌, [], IfOk, OnOk, map};
ghost use Rattle.wdl_swaps.specs.Chains as chains;
ghost use Rattle.leaf_image.specs.Records as spec;
ghost use Rattle.struct_leaves.specs.Settings as views;

use crate::places::is_record;
use leaf_image::Leaf;
use std::alloc::Global;
use wdl_swaps::{Chain, Hop, Swap, boxed_expr, chain_of, copy_chain, expr_of, swap_at};
use wdl_typed::{TExpr, TField, TInput};
use wdl_value::{Boxed, Items, Key, Name, NoMemory};

/// The inputs of a workflow, and what stands in the places of the struct inputs among them.
#[derive(Drop)]
pub struct Own<'a> {
    pub inputs: &'a [TInput],
    pub swaps: &'a [Swap],
}

/// The inputs of the workflow that a call names, with the leaves of the struct inputs among them.
#[derive(Drop)]
pub struct Callee<'a> {
    pub inputs: &'a [TInput],
    pub leaves: &'a [Leaf],
}

/// Whether one of the inputs has that name and is a struct input.
fn is_record_of(inputs: &[TInput], name: &Name) -> bool
    ensures { result ≡ spec.is_record_of inputs.now name.now }
{
    for input in inputs {
        if input.name.same(name) {
            return is_record(input);
        }
    }
    false
}

fn is_own(inputs: &[TInput], key: &Key) -> bool
    ensures { result ≡ spec.is_own inputs.now key.now }
{
    match &key.second {
        Some(_) => false,
        None => is_record_of(inputs, &key.first),
    }
}

/// Whether there are members alone, and no casts.
fn is_path(hops: &[Hop]) -> bool
    ensures { result ≡ spec.is_path hops.now }
{
    for hop in hops {
        if let Hop::Cast(_) = hop {
            return false;
        }
    }
    true
}

fn push_members(alloc: Global, path: &[Name], hops: &mut Items<Hop>) -> Result<(), NoMemory>
    ensures { OnOk result (hops.new ≡ hops.old ++ spec.member_hops path.now) }
{
    for name in path {
        hops.push(Hop::Member(name.copy(alloc)?))?;
    }
    Ok(())
}

/// The chain with these members behind it.
fn farther(alloc: Global, chain: &Chain, path: &[Name]) -> Result<Chain, NoMemory>
    ensures { IfOk result (λ c. c ≡ spec.farther chain.now path.now) }
{
    let Chain { key, mut hops } = copy_chain(alloc, chain)?;
    push_members(alloc, path, &mut hops)?;
    Ok(Chain { key, hops })
}

/// What stands in the place of the chain.
fn in_place(alloc: Global, chain: &Chain, swaps: &[Swap]) -> Result<Boxed<TExpr>, NoMemory>
    ensures { IfOk result (λ e. e ≡ chains.expr_of (spec.in_place swaps.now chain.now)) }
{
    match swap_at(swaps, &chain.key, chain.hops.as_slice()) {
        Some(found) => expr_of(alloc, found),
        None => expr_of(alloc, chain),
    }
}

fn push_leaf_arg(
    alloc: Global,
    chain: &Chain,
    leaf: &Leaf,
    swaps: &[Swap],
    args: &mut Items<TField<TExpr>>,
) -> Result<(), NoMemory>
    ensures { OnOk result (args.new ≡ args.old ++ spec.leaf_arg swaps.now chain.now leaf.now ∷ []) }
{
    let name = leaf.name.copy(alloc)?;
    let whole = farther(alloc, chain, leaf.path.as_slice())?;
    let value = in_place(alloc, &whole, swaps)?;
    args.push(TField {
        name,
        value: value.into_inner(),
    })?;
    Ok(())
}

/// Adds an argument for each leaf of the input of that name.
fn push_leaf_args(
    alloc: Global,
    name: &Name,
    chain: &Chain,
    leaves: &[Leaf],
    swaps: &[Swap],
    args: &mut Items<TField<TExpr>>,
) -> Result<(), NoMemory>
    ensures { OnOk result (args.new ≡ args.old ++ map (spec.leaf_arg swaps.now chain.now) (spec.of_input name.now leaves.now)) }
{
    for leaf in leaves {
        if leaf.input.same(name) {
            push_leaf_arg(alloc, chain, leaf, swaps, args)?;
        }
    }
    Ok(())
}

fn push_arg(
    alloc: Global,
    arg: &TField<TExpr>,
    swaps: &[Swap],
    args: &mut Items<TField<TExpr>>,
) -> Result<(), NoMemory>
    ensures { OnOk result (args.new ≡ args.old ++ spec.plain_arg swaps.now arg.now ∷ []) }
{
    let name = arg.name.copy(alloc)?;
    let value = boxed_expr(alloc, &arg.value, swaps)?;
    args.push(TField {
        name,
        value: value.into_inner(),
    })?;
    Ok(())
}

/// Adds the arguments for a struct input.
fn push_record_arg<'a>(
    alloc: Global,
    arg: &TField<TExpr>,
    own: &Own<'a>,
    leaves: &[Leaf],
    args: &mut Items<TField<TExpr>>,
) -> Result<(), NoMemory>
    ensures { OnOk result (args.new ≡ args.old ++ spec.leaf_args (views.own_of own.now) leaves.now arg.now (chains.chain_of arg.now.value)) }
{
    let Some(chain) = chain_of(alloc, &arg.value)? else {
        return push_arg(alloc, arg, own.swaps, args);
    };
    if is_own(own.inputs, &chain.key) && is_path(chain.hops.as_slice()) {
        push_leaf_args(alloc, &arg.name, &chain, leaves, own.swaps, args)
    } else {
        push_arg(alloc, arg, own.swaps, args)
    }
}

fn push_each<'a, 'b>(
    alloc: Global,
    arg: &TField<TExpr>,
    own: &Own<'a>,
    callee: &Callee<'b>,
    args: &mut Items<TField<TExpr>>,
) -> Result<(), NoMemory>
    ensures { OnOk result (args.new ≡ args.old ++ spec.each_arg (views.own_of own.now) (views.callee_of callee.now) arg.now) }
{
    if is_record_of(callee.inputs, &arg.name) {
        push_record_arg(alloc, arg, own, callee.leaves, args)
    } else {
        push_arg(alloc, arg, own.swaps, args)
    }
}

/// The arguments of a call, with one for each leaf in the place of one for a struct input.
pub fn expanded_args<'a, 'b>(
    alloc: Global,
    args: &[TField<TExpr>],
    own: &Own<'a>,
    callee: &Callee<'b>,
) -> Result<Items<TField<TExpr>>, NoMemory>
    ensures { IfOk result (λ as_. as_ ≡ spec.all_args (views.own_of own.now) (views.callee_of callee.now) args.now) }
{
    let mut all = Items::new(alloc);
    for arg in args {
        push_each(alloc, arg, own, callee, &mut all)?;
    }
    Ok(all)
}
