//! The members of struct inputs that are no structs themselves.

ghost use Rattle.std.specs.Prelude.{◌≡◌, ◌++◌, ◌∷◌, [], IfOk, OnOk};
ghost use Rattle.leaf_image.specs.Leaves as spec;

use leaf_image::Place;
use std::alloc::Global;
use struct_members::members_of;
use wdl_names::Indexed;
use wdl_typed::TInput;
use wdl_value::{Items, Member, Name, NoMemory, StructDef, Ty};

/// More than the most structs through which members lead.
pub const LEVELS: u32 = 33;

/// Whether the input is of a struct type and has no default.
pub fn is_record(input: &TInput) -> bool
    ensures { result ≡ spec.is_record input.now }
{
    match &input.value {
        Some(_) => false,
        None => matches!(input.ty, Ty::Struct(_)),
    }
}

/// A copy of names.
pub fn copy_names(alloc: Global, names: &[Name]) -> Result<Items<Name>, NoMemory>
    ensures { IfOk result (λ ns. ns ≡ names.now) }
{
    let mut copies = Items::new(alloc);
    for name in names {
        copies.push(name.copy(alloc)?)?;
    }
    Ok(copies)
}

fn push_place(
    alloc: Global,
    input: &Name,
    path: &[Name],
    ty: &Ty,
    places: &mut Items<Place>,
) -> Result<(), NoMemory>
    ensures { OnOk result (places.new ≡ places.old ++ spec.place input.now path.now ty.now ∷ []) }
{
    let input = input.copy(alloc)?;
    let path = copy_names(alloc, path)?;
    let ty = ty.copy(alloc)?;
    places.push(Place { input, path, ty })?;
    Ok(())
}

/// Adds the leaves behind a path of that type.
#[cycle(places)]
#[tactic(auto, using(crate::proofs::PlaceLaws::places_some))]
fn push_places(
    alloc: Global,
    structs: &Indexed<StructDef>,
    level: u32,
    input: &Name,
    path: &mut Items<Name>,
    ty: &Ty,
    places: &mut Items<Place>,
) -> Result<(), NoMemory>
    ensures places { OnOk result (places.new ≡ places.old ++ spec.places_at structs.now level input.now path.old ty.now) }
    ensures path { OnOk result (path.new ≡ path.old) }
{
    if level == 0 {
        return Ok(());
    }
    let Ty::Struct(name) = ty else {
        return push_place(alloc, input, path.as_slice(), ty, places);
    };
    let Some(members) = members_of(structs, name) else {
        return Ok(());
    };
    push_members(alloc, structs, level - 1, input, path, members, places)
}

#[cycle(places)]
fn push_members(
    alloc: Global,
    structs: &Indexed<StructDef>,
    level: u32,
    input: &Name,
    path: &mut Items<Name>,
    members: &[Member],
    places: &mut Items<Place>,
) -> Result<(), NoMemory>
    ensures places { OnOk result (places.new ≡ places.old ++ spec.all_places (spec.places_at structs.now level input.now) path.old members.now) }
    ensures path { OnOk result (path.new ≡ path.old) }
{
    for member in members {
        path.push(member.name.copy(alloc)?)?;
        push_places(alloc, structs, level, input, path, &member.ty, places)?;
        path.pop();
    }
    Ok(())
}

fn push_input(
    alloc: Global,
    structs: &Indexed<StructDef>,
    input: &TInput,
    places: &mut Items<Place>,
) -> Result<(), NoMemory>
    ensures { OnOk result (places.new ≡ places.old ++ spec.input_places structs.now input.now) }
{
    if !is_record(input) {
        return Ok(());
    }
    let mut path = Items::new(alloc);
    push_places(
        alloc,
        structs,
        LEVELS,
        &input.name,
        &mut path,
        &input.ty,
        places,
    )
}

/// The leaves of the struct inputs among these inputs, in their order.
pub fn places_of(
    alloc: Global,
    structs: &Indexed<StructDef>,
    inputs: &[TInput],
) -> Result<Items<Place>, NoMemory>
    ensures { IfOk result (λ ps. ps ≡ spec.places_of structs.now inputs.now) }
{
    let mut places = Items::new(alloc);
    for input in inputs {
        push_input(alloc, structs, input, &mut places)?;
    }
    Ok(places)
}
