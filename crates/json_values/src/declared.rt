//! The members that a struct declares.

ghost use Rattle.std.specs.Prelude.{◌≡◌, ℕ, List, IfOk, map, string_bytes};
ghost use Rattle.std.specs.BTreeSet.{contains_by};
ghost use Rattle.std.specs.Cmp.Lexicographic.{slice_cmp};
ghost use Rattle.std.specs.Ordering.{nat_cmp};
ghost use Rattle.json_values.specs.Reading as spec;

use serde_json::{Map, Value as Json};
use std::alloc::Global;
use std::collections::BTreeSet;
use wdl_base::NoMemory;
use wdl_value::Member;

/// The names of the members.
fn names_of<'a>(alloc: Global, declared: &'a [Member]) -> Result<BTreeSet<&'a str>, NoMemory>
    ensures { IfOk result (λ s. (q : List ℕ) → contains_by (λ k. slice_cmp nat_cmp q k.now) s ≡ spec.is_declared q declared.now) }
{
    let mut names = BTreeSet::new(alloc);
    for member in declared {
        names.insert(member.name.as_str())?;
    }
    Ok(names)
}

/// Whether each member of the object is one that is declared.
pub fn are_declared(
    alloc: Global,
    members: &Map<String, Json>,
    declared: &[Member],
) -> Result<bool, NoMemory>
    ensures { IfOk result (λ b. b ≡ spec.all_declared (map (λ e. string_bytes e.0) members.now.entries) declared.now) }
{
    let names = names_of(alloc, declared)?;
    for (name, _) in members.iter() {
        if !names.contains(name.as_str()) {
            return Ok(false);
        }
    }
    Ok(true)
}
