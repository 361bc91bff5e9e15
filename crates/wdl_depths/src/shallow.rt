//! Through how many structs members lead: level by level, each in time linear in the structs but
//! for a logarithm.

ghost use Rattle.std.specs.Prelude.{◌≡◌, zero, suc, IfOk};
ghost use Rattle.std.specs.List.{list_all};
ghost use Rattle.wdl_typed.specs.KnownTypes as known;
ghost use Rattle.wdl_depths.specs.Depths as spec;

use crate::limits::MOST_STRUCTS;
use sqlite_items::Items;
use std::alloc::Global;
use struct_members::members_of;
use wdl_names::Indexed;
use wdl_value::{Member, Name, NoMemory, StructDef, Ty};

/// Whether the struct's members lead through at most `level` structs, given this of each struct of
/// the list.
pub fn name_is_shallow(
    name: &Name,
    level: u32,
    table: &[bool],
    structs: &Indexed<StructDef>,
) -> bool
    requires { table.now ≡ spec.shallow_level level structs.now }
    ensures { result ≡ known.is_shallow level structs.now name.now }
{
    match structs.place(name) {
        Some(place) => table[place],
        None => level > 0,
    }
}

/// Whether this holds of each struct that the type names.
fn type_is_shallow(t: &Ty, level: u32, table: &[bool], structs: &Indexed<StructDef>) -> bool
    requires { table.now ≡ spec.shallow_level level structs.now }
    ensures { result ≡ list_all (known.is_shallow level structs.now) (known.structs_of t.now) }
{
    match t {
        Ty::Array { item, .. } => type_is_shallow(item.get(), level, table, structs),
        Ty::Map {
            key: left,
            value: right,
        }
        | Ty::Pair { left, right } => {
            type_is_shallow(left.get(), level, table, structs)
                && type_is_shallow(right.get(), level, table, structs)
        }
        Ty::Struct(name) => name_is_shallow(name, level, table, structs),
        Ty::Opt(inner) => type_is_shallow(inner.get(), level, table, structs),
        _ => true,
    }
}

fn members_are_shallow(
    members: &[Member],
    level: u32,
    table: &[bool],
    structs: &Indexed<StructDef>,
) -> bool
    requires { table.now ≡ spec.shallow_level level structs.now }
    ensures { result ≡ list_all (known.is_shallow level structs.now) (known.members_structs members.now) }
{
    for member in members {
        if !type_is_shallow(&member.ty, level, table, structs) {
            return false;
        }
    }
    true
}

/// Whether the struct's members lead through at most one struct more.
fn is_shallow_next(name: &Name, level: u32, table: &[bool], structs: &Indexed<StructDef>) -> bool
    requires { table.now ≡ spec.shallow_level level structs.now }
    ensures { result ≡ known.is_shallow (suc level) structs.now name.now }
{
    match members_of(structs, name) {
        Some(members) => members_are_shallow(members, level, table, structs),
        None => true,
    }
}

/// The table of level 0, at which no struct is.
#[tactic(auto, unfolding(wdl_typed::specs::KnownTypes::is_shallow))]
fn first_level(alloc: Global, structs: &Indexed<StructDef>) -> Result<Items<bool>, NoMemory>
    ensures { IfOk result (λ t. t ≡ spec.shallow_level zero structs.now) }
{
    let mut table = Items::new(alloc);
    for _def in structs.as_slice() {
        table.push(false)?;
    }
    Ok(table)
}

/// The table of the next level.
fn next_level(
    alloc: Global,
    level: u32,
    table: &[bool],
    structs: &Indexed<StructDef>,
) -> Result<Items<bool>, NoMemory>
    requires { table.now ≡ spec.shallow_level level structs.now }
    ensures { IfOk result (λ t. t ≡ spec.shallow_level (suc level) structs.now) }
{
    let mut next = Items::new(alloc);
    for def in structs.as_slice() {
        next.push(is_shallow_next(&def.name, level, table, structs))?;
    }
    Ok(next)
}

/// For each struct whether its members lead through at most 32 structs, itself among them.
pub fn shallow_structs(alloc: Global, structs: &Indexed<StructDef>) -> Result<Items<bool>, NoMemory>
    ensures { IfOk result (λ t. t ≡ spec.shallow_level 32 structs.now) }
{
    let mut table = first_level(alloc, structs)?;
    for level in 0..MOST_STRUCTS {
        table = next_level(alloc, level, table.as_slice(), structs)?;
    }
    Ok(table)
}
