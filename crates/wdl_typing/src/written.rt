//! The types that a document writes.

ghost use Rattle.std.specs.Prelude.{◌≡◌};
ghost use Rattle.wdl_value.specs.Fits.{members_of as members_of_name};
ghost use Rattle.wdl_typed.specs.KnownTypes as spec;

use struct_members::members_of;
use wdl_names::Indexed;
use wdl_value::{Member, Name, StructDef, Ty, is_optional, is_scalar};

/// Whether there is a struct of that name.
fn is_known(structs: &Indexed<StructDef>, name: &Name) -> bool
    ensures { result ≡ spec.is_some (members_of_name structs.now name.now) }
{
    matches!(members_of(structs, name), Some(_))
}

/// Whether a document can write the type: its structs are known, the keys of its maps are Boolean,
/// Int, String or File, and no optional type is in an optional one. It takes no memory.
pub fn is_written(t: &Ty, structs: &Indexed<StructDef>) -> bool
    ensures { result ≡ spec.is_written structs.now t.now }
{
    match t {
        Ty::Bool | Ty::Int | Ty::Str | Ty::File => true,
        Ty::Array { item, .. } => is_written(item.get(), structs),
        Ty::Map { key, value } => {
            is_written(key.get(), structs)
                && is_scalar(key.get())
                && is_written(value.get(), structs)
        }
        Ty::Pair { left, right } => {
            is_written(left.get(), structs) && is_written(right.get(), structs)
        }
        Ty::Struct(name) => is_known(structs, name),
        Ty::Opt(inner) => is_written(inner.get(), structs) && !is_optional(inner.get()),
        Ty::Absent | Ty::Empty => false,
    }
}

/// Whether a document can write the type of each member.
pub fn are_written(members: &[Member], structs: &Indexed<StructDef>) -> bool
    ensures { result ≡ spec.are_written structs.now members.now }
{
    for member in members {
        if !is_written(&member.ty, structs) {
            return false;
        }
    }
    true
}
