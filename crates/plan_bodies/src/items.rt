//! The instances of a scatter's body.

ghost use Rattle.std.specs.Prelude.{◌≡◌, ◌<◌, ◌++◌, ◌∷◌, [], IfOk, OnOk, reverse};
ghost use Rattle.wdl_base.specs.declared.place.Segment.TheVariants as segment;
ghost use Rattle.value_net.specs.Nets.{IsSound, view};
ghost use Rattle.plan_growth.specs.Blocks.{with_scatter};
ghost use Rattle.plan_growth.specs.Entering as entering;
ghost use Rattle.plan_bodies.specs.Plots.{cell_count, plot};
ghost use Rattle.plan_room.specs.Reached.{HasRoom};
ghost use Rattle.plan_room.specs.Room.{HasInner, HasRuns};

use crate::entered::Entered;
use crate::entering::add_instance;
use crate::outside::gather_block;
use crate::place::place_below;
use plan_layout::{BodyLayout, StatementLayout};
use std::alloc::Global;
use wdl_eval::Measured;
use wdl_value::{Items, NoMemory, Place, Segment, Value};

/// Enters the body for an item.
fn enter_item(
    alloc: Global,
    item: Value,
    body: usize,
    outer: &[usize],
    place: Place,
    layout: &BodyLayout,
    entered: &mut Entered,
) -> Result<usize, NoMemory>
    requires some { 0 < layout.now.cells }
    requires room { HasRoom (cell_count (view entered.old.net)) outer.now layout.now }
    requires sound { IsSound entered.old.net }
    ensures sound { OnOk result (IsSound entered.new.net) }
    ensures first { IfOk result (λ first. first ≡ cell_count (view entered.old.net)) }
    ensures entered { OnOk result (plot entered.new ≡ entering.with_item body outer.now place layout.now item (plot entered.old)) }
{
    let first = add_instance(alloc, body, outer, place, layout, entered)?;
    entered.net.set(first, Measured::new(item))?;
    Ok(first)
}

/// The place of an item of a scatter.
fn item_place(alloc: Global, place: &Place, index: usize) -> Result<Place, NoMemory>
    ensures { IfOk result (λ p. p ≡ place.now ++ segment.Index index ∷ []) }
{
    let Ok(index) = u32::try_from(index) else {
        return Err(NoMemory);
    };
    place_below(alloc, place, Segment::Index(index))
}

/// The items, the last one first.
fn backwards(alloc: Global, mut items: Items<Value>) -> Result<Items<Value>, NoMemory>
    ensures { IfOk result (λ turned. turned ≡ reverse items) }
{
    let mut turned = Items::new(alloc);
    while let Some(item) = items.pop() {
        turned.push(item)?;
    }
    Ok(turned)
}

/// Enters the body for each item, in their order. Answers the first cell of each.
fn enter_items(
    alloc: Global,
    items: Items<Value>,
    body: usize,
    outer: &[usize],
    place: &Place,
    layout: &BodyLayout,
    entered: &mut Entered,
) -> Result<Vec<usize>, NoMemory>
    requires some { 0 < layout.now.cells }
    requires room { HasRoom (cell_count (view entered.old.net)) outer.now layout.now }
    requires sound { IsSound entered.old.net }
    ensures sound { OnOk result (IsSound entered.new.net) }
    ensures firsts { IfOk result (λ firsts. firsts.items ≡ entering.firsts_of body outer.now place.now layout.now 0 items (plot entered.old)) }
    ensures entered { OnOk result (plot entered.new ≡ entering.with_items body outer.now place.now layout.now 0 items (plot entered.old)) }
{
    let mut left = backwards(alloc, items)?;
    let mut firsts = Vec::new(alloc);
    while let Some(item) = left.pop() {
        let place = item_place(alloc, place, firsts.len())?;
        firsts.push(enter_item(alloc, item, body, outer, place, layout, entered)?)?;
    }
    Ok(firsts)
}

/// Enters the body of a scatter for each item, and adds the steps that gather what it gives out.
pub fn enter_scatter(
    alloc: Global,
    items: Items<Value>,
    bases: &[usize],
    base: usize,
    place: &Place,
    inner: &BodyLayout,
    layout: &StatementLayout,
    entered: &mut Entered,
) -> Result<(), NoMemory>
    requires some { 0 < inner.now.cells }
    requires room { HasRoom (cell_count (view entered.old.net)) bases.now inner.now }
    requires runs { HasRuns (cell_count (view entered.old.net)) base layout.now }
    requires inner { HasInner layout.now inner.now }
    requires sound { IsSound entered.old.net }
    ensures sound { OnOk result (IsSound entered.new.net) }
    ensures entered { OnOk result (plot entered.new ≡ with_scatter bases.now place.now inner.now layout.now base items (plot entered.old)) }
{
    let firsts = enter_items(alloc, items, layout.inner, bases, place, inner, entered)?;
    gather_block(
        alloc,
        firsts.as_slice(),
        inner,
        layout,
        base,
        &mut entered.net,
    )
}
