//! What a block gives and refers to, by what its body does.

ghost use Rattle.std.specs.Prelude.{◌≡◌, ◌++◌, ◌∷◌, IfOk, OnOk};
ghost use Rattle.wdl_typed.specs.Order.{without};
ghost use Rattle.wdl_order.specs.Names.{as_needing};

use crate::uses::{Uses, push_copy};
use std::alloc::Global;
use wdl_names::NameStack;
use wdl_value::{Items, Name, NoMemory};

fn enter_all(alloc: Global, inside: &mut NameStack, names: &[Name]) -> Result<(), NoMemory>
    ensures { OnOk result (inside.new ≡ inside.old ++ names.now) }
{
    for name in names {
        inside.enter(name.copy(alloc)?)?;
    }
    Ok(())
}

/// Appends those names of a body that are not among the ones inside.
fn push_outer(
    alloc: Global,
    inside: &NameStack,
    body: &[Name],
    names: &mut Items<Name>,
) -> Result<(), NoMemory>
    ensures { OnOk result (names.new ≡ names.old ++ without inside.now body.now) }
{
    for name in body {
        if !inside.has(name) {
            push_copy(alloc, name, names)?;
        }
    }
    Ok(())
}

/// What a block gives and refers to, by its body, the names that its head gives to the body, and
/// those that the head refers to.
fn block_uses(
    alloc: Global,
    body: Uses,
    mut inside: NameStack,
    mut names: Items<Name>,
) -> Result<Uses, NoMemory>
    ensures { IfOk result (λ u. as_needing u ≡ record { gives = body.gives; refers = names ++ without (inside ++ body.gives) body.refers }) }
{
    let Uses { gives, refers } = body;
    enter_all(alloc, &mut inside, gives.as_slice())?;
    push_outer(alloc, &inside, refers.as_slice(), &mut names)?;
    Ok(Uses {
        gives,
        refers: names,
    })
}

/// What a scatter gives and refers to: what its body gives, the names of its collection, and those
/// of the body but for the item and what the body gives.
pub fn scatter_uses(
    alloc: Global,
    body: Uses,
    item: &Name,
    over: Items<Name>,
) -> Result<Uses, NoMemory>
    ensures { IfOk result (λ u. as_needing u ≡ record { gives = body.gives; refers = over ++ without (item.now ∷ body.gives) body.refers }) }
{
    let mut inside = NameStack::empty(alloc);
    inside.enter(item.copy(alloc)?)?;
    block_uses(alloc, body, inside, over)
}

/// What a conditional gives and refers to: what its body gives, the names of its condition, and
/// those of the body but for what the body gives.
pub fn condition_uses(alloc: Global, body: Uses, condition: Items<Name>) -> Result<Uses, NoMemory>
    ensures { IfOk result (λ u. as_needing u ≡ record { gives = body.gives; refers = condition ++ without body.gives body.refers }) }
{
    block_uses(alloc, body, NameStack::empty(alloc), condition)
}
