//! The types of members and casts behind a value.

ghost use Rattle.std.specs.Prelude.{◌≡◌};
ghost use Rattle.std.specs.Option.{option_copied};
ghost use Rattle.wdl_value.specs.declared.ty.Ty.{out-Ty};
ghost use Rattle.wdl_typed.specs.KnownTypes.{is_some};
ghost use Rattle.cwl_records.specs.Types as spec;

use cwl_rules::widens;
use struct_members::{members_of, type_among};
use wdl_names::Indexed;
use wdl_swaps::Hop;
use wdl_value::{Name, StructDef, Ty};

fn member_type<'a>(structs: &Indexed<'a, StructDef>, name: &Name, ty: &Ty) -> Option<&'a Ty>
    ensures { option_copied result ≡ spec.member_at structs.now name.now (out-Ty ty.now) }
{
    match ty {
        Ty::Struct(owner) => type_among(members_of(structs, owner)?, name),
        _ => None,
    }
}

fn hop_type<'a>(structs: &Indexed<'a, StructDef>, hop: &'a Hop, ty: &Ty) -> Option<&'a Ty>
    ensures { option_copied result ≡ spec.hop_type structs.now hop.now ty.now }
{
    match hop {
        Hop::Member(name) => member_type(structs, name, ty),
        Hop::Cast(other) => { if widens(ty, other) { Some(other) } else { None } }
    }
}

/// Whether the members are those of structs and the casts widen, from a value of that type on.
pub fn hops_fit<'a>(structs: &Indexed<'a, StructDef>, hops: &'a [Hop], ty: &'a Ty) -> bool
    ensures { result ≡ is_some (spec.hops_type structs.now hops.now ty.now) }
{
    let mut seen = ty;
    for hop in hops {
        let Some(next) = hop_type(structs, hop, seen) else {
            return false;
        };
        seen = next;
    }
    true
}
