//! The names of the leaves of struct inputs.

ghost use Rattle.std.specs.Prelude.{◌≡◌, ◌++◌, ◌∷◌, [], IfOk, OnOk};
ghost use Rattle.leaf_image.specs.Leaves as spec;

use crate::counting::are_small;
use crate::places::{copy_names, places_of};
use crate::taken::taken_by;
use leaf_image::{Leaf, Place};
use std::alloc::Global;
use wdl_base::{NameFault, Text};
use wdl_names::{Indexed, NameStack};
use wdl_typed::FlowDef;
use wdl_value::{Items, Name, NoMemory, StructDef};

/// More than the most `_` behind a name.
const TRIES: u32 = 129;

fn with_member(mut text: Text, member: &Name) -> Result<Text, NoMemory>
    ensures { IfOk result (λ t. t ≡ text ++ 95 ∷ member.now) }
{
    text.push_ascii(b'_')?;
    text.push_str(member.as_str())?;
    Ok(text)
}

fn with_mark(mut text: Text) -> Result<Text, NoMemory>
    ensures { IfOk result (λ t. t ≡ text ++ 95 ∷ []) }
{
    text.push_ascii(b'_')?;
    Ok(text)
}

/// The text with the members behind it, joined by `_`.
fn joined(text: Text, path: &[Name]) -> Result<Text, NoMemory>
    ensures { IfOk result (λ t. t ≡ spec.joined text path.now) }
{
    match path {
        [] => Ok(text),
        [first, rest @ ..] => joined(with_member(text, first)?, rest),
    }
}

/// The text as a name, if it is one that is not taken.
fn untaken(alloc: Global, text: &Text, taken: &NameStack) -> Result<Option<Name>, NoMemory>
    ensures { IfOk result (λ n. n ≡ spec.untaken taken.now text.now) }
{
    match Name::new(alloc, text.as_str()) {
        Ok(name) => {
            if taken.has(&name) {
                Ok(None)
            } else {
                Ok(Some(name))
            }
        }
        Err(NameFault::NotAName) => Ok(None),
        Err(NameFault::NoMemory) => Err(NoMemory),
    }
}

/// The text with as many `_` behind it as make it a name that is not taken, with fewer than so
/// many.
#[tactic(auto, using(crate::proofs::NamingLaws::free_none, crate::proofs::NamingLaws::free_some))]
fn free(alloc: Global, tries: u32, text: Text, taken: &NameStack) -> Result<Option<Name>, NoMemory>
    ensures { IfOk result (λ n. n ≡ spec.free tries taken.now text) }
{
    if tries == 0 {
        return Ok(None);
    }
    match untaken(alloc, &text, taken)? {
        Some(name) => Ok(Some(name)),
        None => free(alloc, tries - 1, with_mark(text)?, taken),
    }
}

/// The name of a leaf: that of the input and the members, joined by `_`.
fn leaf_name(alloc: Global, place: &Place, taken: &NameStack) -> Result<Option<Name>, NoMemory>
    ensures { IfOk result (λ n. n ≡ spec.leaf_name taken.now place.now) }
{
    let text = joined(place.input.to_text(alloc)?, place.path.as_slice())?;
    free(alloc, TRIES, text, taken)
}

fn push_leaf(
    alloc: Global,
    place: &Place,
    name: Name,
    leaves: &mut Items<Leaf>,
) -> Result<(), NoMemory>
    ensures { OnOk result (leaves.new ≡ leaves.old ++ spec.leaf place.now name ∷ []) }
{
    let input = place.input.copy(alloc)?;
    let path = copy_names(alloc, place.path.as_slice())?;
    let ty = place.ty.copy(alloc)?;
    leaves.push(Leaf {
        input,
        path,
        ty,
        name,
    })?;
    Ok(())
}

fn named(
    alloc: Global,
    places: &[Place],
    mut taken: NameStack,
) -> Result<Option<Items<Leaf>>, NoMemory>
    ensures { IfOk result (λ ls. ls ≡ spec.named taken places.now) }
{
    let mut leaves = Items::new(alloc);
    for place in places {
        let Some(name) = leaf_name(alloc, place, &taken)? else {
            return Ok(None);
        };
        taken.enter(name.copy(alloc)?)?;
        push_leaf(alloc, place, name, &mut leaves)?;
    }
    Ok(Some(leaves))
}

/// The leaves of a workflow's struct inputs, each with a name that no other of the workflow has.
/// There are none where such a name would pass 128 bytes, and where an input leads to more than
/// 262,144 structs.
pub fn leaves_of(
    alloc: Global,
    structs: &Indexed<StructDef>,
    flow: &FlowDef,
) -> Result<Option<Items<Leaf>>, NoMemory>
    ensures { IfOk result (λ ls. ls ≡ spec.leaves_of structs.now flow.now) }
{
    if !are_small(structs, flow.inputs.as_slice()) {
        return Ok(None);
    }
    let places = places_of(alloc, structs, flow.inputs.as_slice())?;
    let taken = taken_by(alloc, flow)?;
    named(alloc, places.as_slice(), taken)
}
