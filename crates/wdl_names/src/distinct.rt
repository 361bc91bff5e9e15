//! Whether declared names differ.

ghost use Rattle.std.specs.Prelude.{◌≡◌, ◌++◌, ◌∷◌, [], true, not, map, IfOk};
ghost use Rattle.wdl_typed.specs.Lists as lists;
ghost use Rattle.wdl_names.specs.Fresh as spec;

use crate::name_stack::NameStack;
use crate::named::Named;
use std::alloc::Global;
use wdl_value::{Name, NoMemory};

/// Adds a name. The answer is whether it differs from those before.
pub fn add(alloc: Global, names: &mut NameStack, name: &Name) -> Result<bool, NoMemory>
    ensures fresh { IfOk result (λ b. b ≡ not (lists.has_name name.now names.old)) }
    ensures names { IfOk result (λ b. b ≡ true → names.new ≡ names.old ++ name.now ∷ []) }
{
    if names.has(name) {
        return Ok(false);
    }
    names.enter(name.copy(alloc)?)?;
    Ok(true)
}

/// Adds the names of a list. The answer is whether they differ from those before, and from each
/// other.
pub fn add_all<T: Named>(
    alloc: Global,
    names: &mut NameStack,
    items: &[T],
) -> Result<bool, NoMemory>
    ensures fresh { IfOk result (λ b. b ≡ spec.fresh names.old (map T.named items.now)) }
    ensures names { IfOk result (λ b. b ≡ true → names.new ≡ names.old ++ map T.named items.now) }
{
    for item in items {
        if !add(alloc, names, item.name())? {
            return Ok(false);
        }
    }
    Ok(true)
}

/// Whether the names of a list differ.
pub fn are_distinct<T: Named>(alloc: Global, items: &[T]) -> Result<bool, NoMemory>
    ensures { IfOk result (λ b. b ≡ lists.are_distinct (map T.named items.now)) }
{
    let mut names = NameStack::empty(alloc);
    add_all(alloc, &mut names, items)
}
