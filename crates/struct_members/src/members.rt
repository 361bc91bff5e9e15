//! The members that a struct declares.

ghost use Rattle.std.specs.Prelude.{◌≡◌};
ghost use Rattle.std.specs.Option.{option_copied};
ghost use Rattle.wdl_typed.specs.Typing as typing;
ghost use Rattle.wdl_value.specs.Fits as fits;

use wdl_names::Indexed;
use wdl_value::{Member, Name, StructDef, Ty};

/// The members of the first struct of that name.
pub fn members_of<'a>(structs: &Indexed<'a, StructDef>, name: &Name) -> Option<&'a [Member]>
    ensures { option_copied result ≡ fits.members_of structs.now name.now }
{
    match structs.find(name) {
        Some(def) => Some(def.members.as_slice()),
        None => None,
    }
}

/// The type of the first of these members that has the name. It walks over them.
pub fn type_among<'a>(members: &'a [Member], name: &Name) -> Option<&'a Ty>
    ensures { option_copied result ≡ typing.type_among members.now name.now }
{
    for member in members {
        if member.name.same(name) {
            return Some(&member.ty);
        }
    }
    None
}

/// The type of a part of a pair (`left` and `right`), or of a member of a struct.
pub fn member_type<'a>(structs: &Indexed<'a, StructDef>, name: &Name, ty: &'a Ty) -> Option<&'a Ty>
    ensures { option_copied result ≡ typing.member_type structs.now name.now ty.now }
{
    match ty {
        Ty::Pair { left, right } => {
            if name.is("left") {
                Some(left.get())
            } else if name.is("right") {
                Some(right.get())
            } else {
                None
            }
        }
        Ty::Struct(owner) => type_among(members_of(structs, owner)?, name),
        _ => None,
    }
}
