ghost use Rattle.std.specs.Prelude.{
  ◌≡◌,
  ◌==◌,
  ◌||◌,
  ◌&&◌,
  ℕ,
  List,
  [],
  ◌∷◌,
  ◌++◌,
  if◌then◌else◌,
  length,
  map,
  IfOk,
  OnOk,
};
ghost use Rattle.std.specs.List.{flat_map};
ghost use Rattle.std.specs.Str.{bytes_eq};
ghost use Rattle.wdl_typed.specs.Lists.{has_name, has_number};
ghost use Rattle.wdl_order.specs.Names.{as_needing, gives_at, givers_of, needs_at};
ghost use Rattle.wdl_order.specs.Rows.{has};

use crate::uses::Uses;
use std::alloc::Global;
use std::collections::BTreeMap;
use wdl_value::{Items, Name, NoMemory};

/// For each name, the members that give it.
type Givers = BTreeMap<String, Vec<usize>>;

fn add(alloc: Global, givers: &mut Givers, name: &Name, member: usize) -> Result<(), NoMemory>
    ensures { OnOk result ((x : List ℕ) → givers_of givers.new x ≡ (if bytes_eq name.now x then givers_of givers.old x ++ member ∷ [] else givers_of givers.old x)) }
{
    let key = String::from_str(alloc, name.as_str())?;
    givers.entry(key)?.or_default().push(member)?;
    Ok(())
}

fn add_all(
    alloc: Global,
    givers: &mut Givers,
    names: &[Name],
    member: usize,
) -> Result<(), NoMemory>
    ensures { OnOk result ((x : List ℕ) → (q : ℕ) →
        has_number q (givers_of givers.new x)
        ≡ (has_number q (givers_of givers.old x) || (has_name x names.now && member == q))) }
{
    for name in names {
        add(alloc, givers, name, member)?;
    }
    Ok(())
}

fn givers_in(alloc: Global, all: &[Uses]) -> Result<Givers, NoMemory>
    ensures { IfOk result (λ g. (x : List ℕ) → (q : ℕ) → has_number q (givers_of g x) ≡ gives_at (map as_needing all.now) q x) }
{
    let mut givers = BTreeMap::new(alloc);
    for member in 0..all.len() {
        add_all(alloc, &mut givers, all[member].gives.as_slice(), member)?;
    }
    Ok(givers)
}

fn givers_of_each(alloc: Global, givers: &Givers, names: &[Name]) -> Result<Items<usize>, NoMemory>
    ensures { IfOk result (λ ns. ns ≡ flat_map (givers_of givers.now) names.now) }
{
    let mut members = Vec::new(alloc);
    for name in names {
        let Some(more) = givers.get(name.as_str()) else {
            continue;
        };
        members.extend_from_slice(more.as_slice())?;
    }
    Ok(Items::from_vec(members))
}

/// Which members each member needs: those that give a name that it refers to. The time grows with
/// the names and with the pairs of which one needs the other.
pub fn needs_of(alloc: Global, all: &[Uses]) -> Result<Vec<Items<usize>>, NoMemory>
    ensures count { IfOk result (λ rows. length rows.items ≡ length all.now) }
    ensures exact { IfOk result (λ rows. (p q : ℕ) → has rows.items p q ≡ needs_at (map as_needing all.now) p q) }
{
    let givers = givers_in(alloc, all)?;
    let mut rows = Vec::with_capacity(alloc, all.len())?;
    for uses in all {
        rows.push(givers_of_each(alloc, &givers, uses.refers.as_slice())?)?;
    }
    Ok(rows)
}
