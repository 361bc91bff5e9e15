//! Members of pairs and structs, and items of arrays and maps.

ghost use Rattle.std.specs.Prelude.{◌≡◌, IfOk, option_and_then};
ghost use Rattle.wdl_typed.specs.Typing as spec;

use std::alloc::Global;
use struct_members::member_type;
use wdl_names::Indexed;
use wdl_value::{Name, NoMemory, StructDef, Ty, is_int};

/// The type of a member of an expression of that type.
pub fn member(
    alloc: Global,
    structs: &Indexed<StructDef>,
    name: &Name,
    ty: Option<Ty>,
) -> Result<Option<Ty>, NoMemory>
    ensures { IfOk result (λ t. t ≡ option_and_then (spec.member_type structs.now name.now) ty) }
{
    let Some(ty) = ty else {
        return Ok(None);
    };
    match member_type(structs, name, &ty) {
        Some(member) => Ok(Some(member.copy(alloc)?)),
        None => Ok(None),
    }
}

fn at_type(ty: Ty, index: &Ty) -> Option<Ty>
    ensures { result ≡ spec.at_type ty index.now }
{
    match ty {
        Ty::Array { item, .. } => {
            if is_int(index) {
                Some(item.into_inner())
            } else {
                None
            }
        }
        Ty::Map { key, value } => {
            if index.same(key.get()) {
                Some(value.into_inner())
            } else {
                None
            }
        }
        _ => None,
    }
}

/// The type of an item of an array, or of the value of a map.
pub fn at(ty: Option<Ty>, index: Option<Ty>) -> Option<Ty>
    ensures { result ≡ spec.both spec.at_type ty index }
{
    match (ty, index) {
        (Some(ty), Some(index)) => at_type(ty, &index),
        _ => None,
    }
}
