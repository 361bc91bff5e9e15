//! Inputs, with leaves in the places of struct inputs.

ghost use Rattle.std.specs.Prelude.{◌≡◌, ◌++◌, ◌∷◌, [], IfOk, None, OnOk, Some, map};
ghost use Rattle.wdl_swaps.specs.Swaps as swap;
ghost use Rattle.leaf_image.specs.Records as spec;
ghost use Rattle.struct_leaves.specs.Settings as views;

use crate::places::{copy_names, is_record};
use leaf_image::Leaf;
use std::alloc::Global;
use wdl_swaps::{Chain, Swap, boxed_expr};
use wdl_typed::{TExpr, TInput};
use wdl_value::{Boxed, Items, Key, Name, NoMemory, Span, Ty};

fn leaf_swap(alloc: Global, leaf: &Leaf) -> Result<Swap, NoMemory>
    ensures { IfOk result (λ s. s ≡ spec.leaf_swap leaf.now) }
{
    let key = Key::plain(alloc, &leaf.input)?;
    let path = copy_names(alloc, leaf.path.as_slice())?;
    let value = Chain {
        key: Key::plain(alloc, &leaf.name)?,
        hops: Items::new(alloc),
    };
    Ok(Swap { key, path, value })
}

/// What stands in the places of the struct inputs with these leaves.
pub fn swaps_of(alloc: Global, leaves: &[Leaf]) -> Result<Items<Swap>, NoMemory>
    ensures { IfOk result (λ ss. ss ≡ spec.swaps_of leaves.now) }
{
    let mut all = Items::new(alloc);
    for leaf in leaves {
        all.push(leaf_swap(alloc, leaf)?)?;
    }
    Ok(all)
}

/// Adds an input without a default.
fn push_required(
    alloc: Global,
    name: &Name,
    ty: &Ty,
    span: Span,
    inputs: &mut Items<TInput>,
) -> Result<(), NoMemory>
    ensures { OnOk result (inputs.new ≡ inputs.old ++ views.input name.now ty.now None span ∷ []) }
{
    let name = name.copy(alloc)?;
    let ty = ty.copy(alloc)?;
    inputs.push(TInput {
        name,
        ty,
        value: None,
        span,
    })?;
    Ok(())
}

/// Adds the leaves of the struct input of that name as inputs.
fn push_leaves(
    alloc: Global,
    name: &Name,
    leaves: &[Leaf],
    span: Span,
    inputs: &mut Items<TInput>,
) -> Result<(), NoMemory>
    ensures { OnOk result (inputs.new ≡ inputs.old ++ map (spec.leaf_input span) (spec.of_input name.now leaves.now)) }
{
    for leaf in leaves {
        if leaf.input.same(name) {
            push_required(alloc, &leaf.name, &leaf.ty, span, inputs)?;
        }
    }
    Ok(())
}

/// Adds an input with that default.
fn push_optional(
    alloc: Global,
    input: &TInput,
    value: Boxed<TExpr>,
    inputs: &mut Items<TInput>,
) -> Result<(), NoMemory>
    ensures { OnOk result (inputs.new ≡ inputs.old ++ views.input input.now.name input.now.ty (Some value) input.now.span ∷ []) }
{
    let name = input.name.copy(alloc)?;
    let ty = input.ty.copy(alloc)?;
    inputs.push(TInput {
        name,
        ty,
        value: Some(value.into_inner()),
        span: input.span,
    })?;
    Ok(())
}

/// Adds an input that is no struct input.
fn push_plain(
    alloc: Global,
    input: &TInput,
    swaps: &[Swap],
    inputs: &mut Items<TInput>,
) -> Result<(), NoMemory>
    ensures { OnOk result (inputs.new ≡ inputs.old ++ swap.swapped_input swaps.now input.now ∷ []) }
{
    match &input.value {
        Some(expr) => {
            let value = boxed_expr(alloc, expr, swaps)?;
            push_optional(alloc, input, value, inputs)
        }
        None => push_required(alloc, &input.name, &input.ty, input.span, inputs),
    }
}

/// Adds an input, or the leaves of a struct input.
fn push_input(
    alloc: Global,
    input: &TInput,
    leaves: &[Leaf],
    swaps: &[Swap],
    inputs: &mut Items<TInput>,
) -> Result<(), NoMemory>
    requires { swaps.now ≡ spec.swaps_of leaves.now }
    ensures { OnOk result (inputs.new ≡ inputs.old ++ spec.input_leaves leaves.now input.now) }
{
    if is_record(input) {
        push_leaves(alloc, &input.name, leaves, input.span, inputs)
    } else {
        push_plain(alloc, input, swaps, inputs)
    }
}

/// The inputs, with the leaves in the places of the struct inputs.
pub fn expanded_inputs(
    alloc: Global,
    inputs: &[TInput],
    leaves: &[Leaf],
    swaps: &[Swap],
) -> Result<Items<TInput>, NoMemory>
    requires { swaps.now ≡ spec.swaps_of leaves.now }
    ensures { IfOk result (λ is. is ≡ spec.all_inputs leaves.now inputs.now) }
{
    let mut all = Items::new(alloc);
    for input in inputs {
        push_input(alloc, input, leaves, swaps, &mut all)?;
    }
    Ok(all)
}

fn swapped_inputs(
    alloc: Global,
    inputs: &[TInput],
    swaps: &[Swap],
) -> Result<Items<TInput>, NoMemory>
    ensures { IfOk result (λ is. is ≡ map (swap.swapped_input swaps.now) inputs.now) }
{
    let mut all = Items::new(alloc);
    for input in inputs {
        push_plain(alloc, input, swaps, &mut all)?;
    }
    Ok(all)
}

/// A copy of inputs.
#[tactic(auto, using(crate::proofs::InputLaws::inputs_kept))]
pub fn copy_inputs(alloc: Global, inputs: &[TInput]) -> Result<Items<TInput>, NoMemory>
    ensures { IfOk result (λ is. is ≡ inputs.now) }
{
    swapped_inputs(alloc, inputs, &[])
}
