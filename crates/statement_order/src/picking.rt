ghost use Rattle.std.specs.Prelude.{◌≡◌, true, Some, length, map, IfOk};
ghost use Rattle.wdl_typed.specs.Lists.{are_below, numbers_differ};
ghost use Rattle.wdl_typed.specs.Order as spec;

use std::alloc::Global;
use wdl_value::{Items, NoMemory};

/// The items, each in a slot from which it can be taken.
fn slots<T: Drop>(alloc: Global, mut list: Items<T>) -> Result<Vec<Option<T>>, NoMemory>
    ensures { IfOk result (λ s. s.items ≡ map Some list) }
{
    let mut slots = Vec::with_capacity(alloc, list.len())?;
    while let Some(item) = list.pop() {
        slots.push(Some(item))?;
    }
    slots.reverse();
    Ok(slots)
}

/// The items at these positions, in their order; the others are dropped.
pub fn picked<T: Drop>(
    alloc: Global,
    list: Items<T>,
    positions: &[usize],
) -> Result<Items<T>, NoMemory>
    requires below { are_below (length list) positions.now ≡ true }
    requires differ { numbers_differ positions.now ≡ true }
    ensures { IfOk result (λ items. items ≡ spec.picked list positions.now) }
{
    let mut slots = slots(alloc, list)?;
    let mut items = Items::new(alloc);
    for at in positions {
        let Some(item) = slots[*at].take() else {
            continue;
        };
        items.push(item)?;
    }
    Ok(items)
}
