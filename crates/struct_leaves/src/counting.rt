//! How many structs a struct input leads to.

ghost use Rattle.std.specs.Prelude.{◌≡◌, ◌+◌, ◌<◌, MatchOption};
ghost use Rattle.std.specs.List.{list_all};
ghost use Rattle.leaf_image.specs.Leaves as spec;

use crate::places::{LEVELS, is_record};
use struct_members::members_of;
use wdl_names::Indexed;
use wdl_typed::TInput;
use wdl_value::{Member, StructDef, Ty};

/// The most structs to which an input may lead, itself and each member of a struct type counted
/// once for each path. An inputs file has at most 1,048,576 bytes, and no value of more structs.
const MOST: u32 = 262_144;

/// How many of so many structs are left beside those of a value of that type, if it has no more.
#[cycle(counting)]
#[tactic(auto, using(crate::proofs::CountLaws::structs_none, crate::proofs::CountLaws::structs_some))]
fn left_beside(structs: &Indexed<StructDef>, level: u32, ty: &Ty, left: u32) -> Option<u32>
    ensures { MatchOption result (left < spec.structs_at structs.now level ty.now) (λ rest. left ≡ rest + spec.structs_at structs.now level ty.now) }
{
    if level == 0 {
        return Some(left);
    }
    let Ty::Struct(name) = ty else {
        return Some(left);
    };
    if left == 0 {
        return None;
    }
    match members_of(structs, name) {
        Some(members) => left_beside_all(structs, level - 1, members, left - 1),
        None => Some(left - 1),
    }
}

#[cycle(counting)]
fn left_beside_all(
    structs: &Indexed<StructDef>,
    level: u32,
    members: &[Member],
    left: u32,
) -> Option<u32>
    ensures { MatchOption result (left < spec.all_structs (spec.structs_at structs.now level) members.now) (λ rest. left ≡ rest + spec.all_structs (spec.structs_at structs.now level) members.now) }
{
    let mut rest = left;
    for member in members {
        rest = left_beside(structs, level, &member.ty, rest)?;
    }
    Some(rest)
}

/// Whether the input leads to no more structs than an inputs file has room for.
#[tactic(auto, using(crate::proofs::CountLaws::past_most))]
fn is_small(structs: &Indexed<StructDef>, input: &TInput) -> bool
    ensures { result ≡ spec.is_small structs.now input.now }
{
    if !is_record(input) {
        return true;
    }
    match left_beside(structs, LEVELS, &input.ty, MOST) {
        Some(_) => true,
        None => false,
    }
}

/// Whether each of the inputs is such a one.
pub fn are_small(structs: &Indexed<StructDef>, inputs: &[TInput]) -> bool
    ensures { result ≡ list_all (spec.is_small structs.now) inputs.now }
{
    for input in inputs {
        if !is_small(structs, input) {
            return false;
        }
    }
    true
}
