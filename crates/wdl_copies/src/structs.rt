//! Copies of struct sections.

ghost use Rattle.std.specs.Prelude.{◌≡◌, ◌++◌, ◌∷◌, [], IfOk, OnOk};
ghost use Rattle.wdl_check_rules.specs.Locals as local;
ghost use Rattle.wdl_copies.specs.Renamed as spec;

use crate::keeping::put;
use crate::leaf::copy_ident;
use crate::sections::named_at;
use crate::types::copy_type;
use sqlite_items::Items;
use std::alloc::Global;
use wdl_ast::{StructMember, StructSection};
use wdl_check_rules::Local;
use wdl_names::Indexed;
use wdl_value::{Name, NoMemory};

fn push_member(
    alloc: Global,
    members: &mut Items<StructMember>,
    member: &StructMember,
    locals: &Indexed<Local>,
) -> Result<(), NoMemory>
    ensures { OnOk result (members.new ≡ members.old ++ spec.member_with (local.stands_for locals.now) member.now ∷ []) }
{
    let name = copy_ident(alloc, &member.name)?;
    let ty = copy_type(alloc, &member.ty, locals)?;
    put(members, StructMember { ty, name })
}

/// A copy of a struct section under a name, with the names of structs as the library has them.
pub fn copy_struct(
    alloc: Global,
    section: &StructSection,
    name: &Name,
    locals: &Indexed<Local>,
) -> Result<StructSection, NoMemory>
    ensures { IfOk result (λ s. s ≡ spec.struct_with (local.stands_for locals.now) name.now section.now) }
{
    let mut members = Items::new(alloc);
    for member in section.members.as_slice() {
        push_member(alloc, &mut members, member, locals)?;
    }
    Ok(StructSection {
        keyword: section.keyword,
        name: named_at(alloc, name, section.name.span)?,
        opening: section.opening,
        members,
        closing: section.closing,
    })
}
