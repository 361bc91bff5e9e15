//! The structs of a library.

ghost use Rattle.std.specs.Prelude.{◌≡◌, ◌&&◌, IfOk};
ghost use Rattle.wdl_typed.specs.KnownTypes as spec;
ghost use Rattle.wdl_typed.specs.Lists as lists;
ghost use Rattle.wdl_depths.specs.Depths.{shallow_level};

use crate::written::are_written;
use std::alloc::Global;
use wdl_depths::shallow_structs;
use wdl_names::{Indexed, are_distinct};
use wdl_value::{NoMemory, StructDef};

/// Whether a struct's members have different names, and types that can be written.
fn has_members(
    alloc: Global,
    def: &StructDef,
    structs: &Indexed<StructDef>,
) -> Result<bool, NoMemory>
    ensures { IfOk result (λ b. b ≡ (lists.are_distinct (spec.member_names def.now.members) && spec.are_written structs.now def.now.members)) }
{
    let members = def.members.as_slice();
    Ok(are_distinct(alloc, members)? && are_written(members, structs))
}

fn each_is_struct(
    alloc: Global,
    structs: &Indexed<StructDef>,
    shallow: &[bool],
) -> Result<bool, NoMemory>
    requires { shallow.now ≡ shallow_level 32 structs.now }
    ensures { IfOk result (λ b. b ≡ spec.all_structs structs.now structs.now) }
{
    for (i, def) in structs.as_slice().iter().enumerate() {
        if !(has_members(alloc, def, structs)? && shallow[i]) {
            return Ok(false);
        }
    }
    Ok(true)
}

/// Whether the structs have different names, and each has different members, whose types can be
/// written and lead through at most 32 structs (OpenWDL 1.1, "Struct Definition").
pub fn are_structs(alloc: Global, structs: &Indexed<StructDef>) -> Result<bool, NoMemory>
    ensures { IfOk result (λ b. b ≡ spec.are_structs structs.now) }
{
    if !are_distinct(alloc, structs.as_slice())? {
        return Ok(false);
    }
    let shallow = shallow_structs(alloc, structs)?;
    each_is_struct(alloc, structs, shallow.as_slice())
}
