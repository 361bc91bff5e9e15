//! The names that an import gives.

ghost use Rattle.std.specs.Prelude.{
  ◌≡◌,
  ◌<◌,
  ◌++◌,
  ◌∷◌,
  [],
  true,
  map,
  length,
  slice_index_or,
  slice_set,
  IfOk,
  OnOk,
};
ghost use Rattle.wdl_typed.specs.Lists.{are_distinct};
ghost use Rattle.wdl_library.specs.Names.{aliases_for, or_itself};
ghost use Rattle.wdl_structs.specs.Tables as spec;

use crate::table::{Entry, place};
use sqlite_items::Items;
use std::alloc::Global;
use wdl_ast::Alias;
use wdl_names::Indexed;
use wdl_value::{Name, NoMemory};

/// One empty list for each name.
fn empty_groups(alloc: Global, entries: &[Entry]) -> Result<Vec<Items<Name>>, NoMemory>
    ensures { IfOk result (λ r. r.items ≡ map (aliases_for []) (spec.named entries.now)) }
{
    let mut groups = Vec::new(alloc);
    for _entry in entries {
        groups.push(Items::new(alloc))?;
    }
    Ok(groups)
}

/// Adds a name to the group at a place.
fn add_to(groups: &mut Vec<Items<Name>>, at: usize, name: Name) -> Result<(), NoMemory>
    requires { at < length groups.old.items }
    ensures { OnOk result (groups.new.items ≡ slice_set groups.old.items at (slice_index_or groups.old.items at [] ++ name ∷ [])) }
{
    groups[at].push(name)?;
    Ok(())
}

/// The aliases of each name, in their order.
fn aliased(
    alloc: Global,
    entries: &[Entry],
    aliases: &[Alias],
) -> Result<Vec<Items<Name>>, NoMemory>
    requires { are_distinct (spec.named entries.now) ≡ true }
    ensures { IfOk result (λ r. r.items ≡ map (aliases_for aliases.now) (spec.named entries.now)) }
{
    let index = Indexed::new(alloc, entries)?;
    let mut groups = empty_groups(alloc, entries)?;
    for alias in aliases {
        if let Some(at) = place(&index, &alias.from.name) {
            add_to(&mut groups, at, alias.to.name.copy(alloc)?)?;
        }
    }
    Ok(groups)
}

/// The aliases of a name, or itself where it has none.
fn or_itself(alloc: Global, group: &[Name], name: &Name) -> Result<Items<Name>, NoMemory>
    ensures { IfOk result (λ r. r ≡ or_itself name.now group.now) }
{
    let mut names = Items::new(alloc);
    for alias in group {
        names.push(alias.copy(alloc)?)?;
    }
    if group.is_empty() {
        names.push(name.copy(alloc)?)?;
    }
    Ok(names)
}

/// For each name of an imported document those that the import gives for it, in time linear but for
/// a logarithm.
pub fn given(
    alloc: Global,
    entries: &[Entry],
    aliases: &[Alias],
) -> Result<Items<Items<Name>>, NoMemory>
    requires { are_distinct (spec.named entries.now) ≡ true }
    ensures { IfOk result (λ r. r ≡ spec.groups aliases.now (spec.named entries.now)) }
{
    let groups = aliased(alloc, entries, aliases)?;
    let mut all = Items::new(alloc);
    for (at, entry) in entries.iter().enumerate() {
        all.push(or_itself(alloc, groups[at].as_slice(), &entry.name)?)?;
    }
    Ok(all)
}
