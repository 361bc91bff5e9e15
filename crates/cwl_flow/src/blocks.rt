//! Blocks: what stands before the body of a scatter or of a condition.

ghost use Rattle.std.specs.Prelude.{◌≡◌, ◌++◌, ◌∷◌, [], IfOk, OnOk, map};
ghost use Rattle.wdl_typed.specs.Declarations.{plain_key as spec_key};
ghost use Rattle.cwl_model.specs.declared.ty.CwlTy.{out-CwlTy};
ghost use Rattle.cwl_image.specs.Image as image;
ghost use Rattle.cwl_flow.specs.Blocks as spec;
ghost use Rattle.cwl_flow.specs.Drafts as draft;

use crate::context::Context;
use crate::ids::{block_id, id_of};
use crate::links::Kind;
use crate::uses::{only, outer_uses};
use crate::wires::{add_outer_wires, add_wire, seen_type, type_at};
use cwl_image::Linkage;
use cwl_model::{CwlIn, CwlTy, FlowOut, Link, Mode, Wire};
use std::alloc::Global;
use wdl_names::Index;
use wdl_typed::{Statement, TExpr, TIf, TScatter};
use wdl_value::{Items, Key, Name, NoMemory, Text};

/// A block whose body is still to be walked: the id, the inputs and the mode of its step, the
/// inputs of its flow, and what its body sees.
#[derive(Drop)]
pub struct Block {
    pub id: Text,
    pub wires: Items<Wire>,
    pub inputs: Items<CwlIn>,
    pub scope: Index<Linkage>,
    pub mode: Mode,
}

/// An input that stands for a reference from outside.
fn inner_linkage(alloc: Global, scope: &Index<Linkage>, key: &Key) -> Result<Linkage, NoMemory>
    ensures { IfOk result (λ l. l ≡ image.inner_linkage scope.now key.now) }
{
    let link = Link::Input(id_of(alloc, key)?);
    let ty = type_at(alloc, scope, key)?;
    let key = key.copy(alloc)?;
    Ok(Linkage { key, link, ty })
}

/// Adds to what a body sees the references from outside.
fn add_inner(
    alloc: Global,
    scope: &Index<Linkage>,
    keys: &[Key],
    inner: &mut Index<Linkage>,
) -> Result<(), NoMemory>
    ensures { OnOk result (inner.new ≡ inner.old ++ image.inner_scope scope.now keys.now) }
{
    for key in keys {
        inner.push(inner_linkage(alloc, scope, key)?)?;
    }
    Ok(())
}

/// The type of the items of a list.
fn item_type(alloc: Global, ty: &CwlTy) -> Result<CwlTy, NoMemory>
    ensures { IfOk result (λ t. t ≡ image.item_type (out-CwlTy ty.now)) }
{
    match ty {
        CwlTy::List(item) => item.get().copy(alloc),
        _ => Ok(CwlTy::Str),
    }
}

/// The type of the items of a collection.
fn type_of_items(alloc: Global, scope: &Index<Linkage>, over: &TExpr) -> Result<CwlTy, NoMemory>
    ensures { IfOk result (λ t. t ≡ image.item_type (out-CwlTy (image.seen_type scope.now over.now))) }
{
    let collection = seen_type(alloc, scope, over)?;
    item_type(alloc, &collection)
}

/// The item of a scatter, as its body sees it.
fn item_linkage(
    alloc: Global,
    scope: &Index<Linkage>,
    item: &Name,
    over: &TExpr,
) -> Result<Linkage, NoMemory>
    ensures { IfOk result (λ l. l ≡ image.item_linkage scope.now item.now over.now) }
{
    let key = Key::plain(alloc, item)?;
    let link = Link::Input(item.to_text(alloc)?);
    let ty = type_of_items(alloc, scope, over)?;
    Ok(Linkage { key, link, ty })
}

fn input_of(alloc: Global, linkage: &Linkage) -> Result<CwlIn, NoMemory>
    ensures { IfOk result (λ i. i ≡ image.input_of linkage.now) }
{
    let id = id_of(alloc, &linkage.key)?;
    let ty = linkage.ty.copy(alloc)?;
    Ok(CwlIn {
        id,
        ty,
        preset: None,
    })
}

/// Adds an input of a block's flow for each reference that its body sees.
fn add_inputs(
    alloc: Global,
    linkages: &[Linkage],
    inputs: &mut Items<CwlIn>,
) -> Result<(), NoMemory>
    ensures { OnOk result (inputs.new ≡ inputs.old ++ map image.input_of linkages.now) }
{
    for linkage in linkages {
        inputs.push(input_of(alloc, linkage)?)?;
    }
    Ok(())
}

fn output_of(alloc: Global, linkage: &Linkage) -> Result<FlowOut, NoMemory>
    ensures { IfOk result (λ o. o ≡ image.block_out linkage.now) }
{
    let id = id_of(alloc, &linkage.key)?;
    let ty = linkage.ty.copy(alloc)?;
    let source = linkage.link.copy(alloc)?;
    Ok(FlowOut { id, ty, source })
}

/// The outputs of a block's flow: those of the steps of its body.
pub fn outputs_of(alloc: Global, linkages: &[Linkage]) -> Result<Items<FlowOut>, NoMemory>
    ensures { IfOk result (λ os. os ≡ map image.block_out linkages.now) }
{
    let mut outputs = Items::new(alloc);
    for linkage in linkages {
        outputs.push(output_of(alloc, linkage)?)?;
    }
    Ok(outputs)
}

/// What the body of a scatter sees: its item, and then the references from outside.
fn scatter_scope(
    alloc: Global,
    scatter: &TScatter<Statement>,
    uses: &[Key],
    scope: &Index<Linkage>,
) -> Result<Index<Linkage>, NoMemory>
    ensures { IfOk result (λ s. s ≡ image.item_linkage scope.now scatter.now.item scatter.now.over ∷ image.inner_scope scope.now uses.now) }
{
    let mut inner = Index::empty(alloc);
    inner.push(item_linkage(alloc, scope, &scatter.item, &scatter.over)?)?;
    add_inner(alloc, scope, uses, &mut inner)?;
    Ok(inner)
}

/// The inputs of the step of a block: one for its collection or condition, and then the references
/// from outside.
fn block_wires(
    alloc: Global,
    scope: &Index<Linkage>,
    id: Text,
    expr: &TExpr,
    uses: &[Key],
) -> Result<Items<Wire>, NoMemory>
    ensures { IfOk result (λ ws. ws ≡ image.wire_to scope.now id (image.reference expr.now) ++ map (image.outer_wire scope.now) uses.now) }
{
    let mut wires = Items::new(alloc);
    add_wire(alloc, scope, id, expr, &mut wires)?;
    add_outer_wires(alloc, scope, uses, &mut wires)?;
    Ok(wires)
}

/// The references of a scatter's body that come from outside its block.
fn scatter_uses<'a>(
    alloc: Global,
    context: &Context<'a>,
    scatter: &TScatter<Statement>,
) -> Result<Index<Key>, NoMemory>
    ensures { IfOk result (λ ks. ks ≡ image.outer_uses (spec_key scatter.now.item ∷ []) (draft.drafts_of context.now scatter.now.body)) }
{
    let item = only(alloc, &scatter.item)?;
    outer_uses(alloc, scatter.body.as_slice(), context, item)
}

/// The inputs of the step of a scatter: one for its collection, and then the references from
/// outside.
fn scatter_wires(
    alloc: Global,
    scatter: &TScatter<Statement>,
    uses: &[Key],
    scope: &Index<Linkage>,
) -> Result<Items<Wire>, NoMemory>
    ensures { IfOk result (λ ws. ws ≡ image.wire_to scope.now scatter.now.item (image.reference scatter.now.over) ++ map (image.outer_wire scope.now) uses.now) }
{
    let item = scatter.item.to_text(alloc)?;
    block_wires(alloc, scope, item, &scatter.over, uses)
}

/// The inputs of a scatter's flow.
fn scatter_inputs(alloc: Global, inner: &[Linkage]) -> Result<Items<CwlIn>, NoMemory>
    ensures { IfOk result (λ is. is ≡ map image.input_of inner.now) }
{
    let mut inputs = Items::new(alloc);
    add_inputs(alloc, inner, &mut inputs)?;
    Ok(inputs)
}

/// The block of a scatter.
pub fn scatter_block<'a>(
    alloc: Global,
    context: &Context<'a>,
    scatter: &TScatter<Statement>,
    scope: &Index<Linkage>,
) -> Result<Block, NoMemory>
    ensures { IfOk result (λ b. b ≡ spec.scatter_block scatter.now.number scatter.now.item scatter.now.over (draft.drafts_of context.now scatter.now.body) scope.now) }
{
    let uses = scatter_uses(alloc, context, scatter)?;
    let wires = scatter_wires(alloc, scatter, uses.as_slice(), scope)?;
    let inner = scatter_scope(alloc, scatter, uses.as_slice(), scope)?;
    let inputs = scatter_inputs(alloc, inner.as_slice())?;
    let item = scatter.item.to_text(alloc)?;
    Ok(Block {
        id: block_id(alloc, Kind::Scatter, scatter.number)?,
        wires,
        inputs,
        scope: inner,
        mode: Mode::Scatter(item),
    })
}

/// The first input of a condition's flow.
fn when_input(alloc: Global) -> Result<CwlIn, NoMemory>
    ensures { IfOk result (λ i. i ≡ image.when_input) }
{
    let id = Text::from_plain(alloc, "_when")?;
    Ok(CwlIn {
        id,
        ty: CwlTy::Bool,
        preset: None,
    })
}

/// The inputs of a condition's flow.
fn if_inputs(alloc: Global, inner: &[Linkage]) -> Result<Items<CwlIn>, NoMemory>
    ensures { IfOk result (λ is. is ≡ image.when_input ∷ map image.input_of inner.now) }
{
    let mut inputs = Items::new(alloc);
    inputs.push(when_input(alloc)?)?;
    add_inputs(alloc, inner, &mut inputs)?;
    Ok(inputs)
}

/// The block of a condition.
pub fn if_block<'a>(
    alloc: Global,
    context: &Context<'a>,
    condition: &TIf<Statement>,
    scope: &Index<Linkage>,
) -> Result<Block, NoMemory>
    ensures { IfOk result (λ b. b ≡ spec.if_block condition.now.number condition.now.cond (draft.drafts_of context.now condition.now.body) scope.now) }
{
    let uses = outer_uses(
        alloc,
        condition.body.as_slice(),
        context,
        Index::empty(alloc),
    )?;
    let when = Text::from_plain(alloc, "_when")?;
    let wires = block_wires(alloc, scope, when, &condition.cond, uses.as_slice())?;
    let mut inner = Index::empty(alloc);
    add_inner(alloc, scope, uses.as_slice(), &mut inner)?;
    let inputs = if_inputs(alloc, inner.as_slice())?;
    Ok(Block {
        id: block_id(alloc, Kind::If, condition.number)?,
        wires,
        inputs,
        scope: inner,
        mode: Mode::When,
    })
}
