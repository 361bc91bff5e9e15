//! The members of struct sections.

ghost use Rattle.std.specs.Prelude.{◌≡◌, true, false, map, IfOk};
ghost use Rattle.wdl_typed.specs.Lists.{are_distinct};
ghost use Rattle.wdl_value.specs.declared.ty.Ty.TheVariants as ty;
ghost use Rattle.wdl_library.specs.Names.{names_in};
ghost use Rattle.wdl_library.specs.Structs as spec;
ghost use Rattle.wdl_structs.specs.Members as types;
ghost use Rattle.wdl_structs.specs.Tables.{named};

use crate::table::{Entry, place};
use sqlite_items::{Boxed, Items};
use std::alloc::Global;
use wdl_ast::{BaseType, StructMember, TypeTree};
use wdl_library::StructName;
use wdl_names::Indexed;
use wdl_value::{Member, Name, NoMemory, Span, Ty};

/// The name that stands for a struct; an unknown one stands for itself.
fn standing(
    alloc: Global,
    index: &Indexed<Entry>,
    names: &[StructName],
    name: &Name,
) -> Result<Name, NoMemory>
    requires names { named index.now ≡ names_in names.now }
    requires distinct { are_distinct (names_in names.now) ≡ true }
    ensures { IfOk result (λ n. n ≡ spec.stand_in names.now name.now) }
{
    match place(index, name) {
        Some(at) => names[at].stands_for.copy(alloc),
        None => name.copy(alloc),
    }
}

/// The type with its `?`.
fn optional(alloc: Global, questions: &[Span], t: Ty) -> Result<Ty, NoMemory>
    ensures { IfOk result (λ u. u ≡ spec.optional questions.now t) }
{
    match questions {
        [] => Ok(t),
        [..] => Ok(Ty::Opt(Boxed::new(alloc, t)?)),
    }
}

fn struct_type(
    alloc: Global,
    index: &Indexed<Entry>,
    names: &[StructName],
    name: &Name,
) -> Result<Ty, NoMemory>
    requires names { named index.now ≡ names_in names.now }
    requires distinct { are_distinct (names_in names.now) ≡ true }
    ensures { IfOk result (λ t. t ≡ ty.Struct (spec.stand_in names.now name.now)) }
{
    Ok(Ty::Struct(standing(alloc, index, names, name)?))
}

#[cycle(written)]
fn after_key(
    alloc: Global,
    index: &Indexed<Entry>,
    names: &[StructName],
    value: &TypeTree,
    key: Ty,
) -> Result<Ty, NoMemory>
    requires names { named index.now ≡ names_in names.now }
    requires distinct { are_distinct (names_in names.now) ≡ true }
    ensures { IfOk result (λ t. t ≡ ty.Map key (spec.written_type (spec.stand_in names.now) value.now)) }
{
    let value = written(alloc, index, names, value)?;
    Ty::map_of(alloc, key, value)
}

#[cycle(written)]
fn after_left(
    alloc: Global,
    index: &Indexed<Entry>,
    names: &[StructName],
    right: &TypeTree,
    left: Ty,
) -> Result<Ty, NoMemory>
    requires names { named index.now ≡ names_in names.now }
    requires distinct { are_distinct (names_in names.now) ≡ true }
    ensures { IfOk result (λ t. t ≡ ty.Pair left (spec.written_type (spec.stand_in names.now) right.now)) }
{
    let right = written(alloc, index, names, right)?;
    Ty::pair_of(alloc, left, right)
}

#[cycle(written)]
fn base(
    alloc: Global,
    index: &Indexed<Entry>,
    names: &[StructName],
    base: &BaseType<TypeTree>,
) -> Result<Ty, NoMemory>
    requires names { named index.now ≡ names_in names.now }
    requires distinct { are_distinct (names_in names.now) ≡ true }
    ensures { IfOk result (λ t. t ≡ types.base_written (spec.stand_in names.now) base.now) }
{
    match base {
        BaseType::Boolean(_) => Ok(Ty::Bool),
        BaseType::Int(_) => Ok(Ty::Int),
        BaseType::Str(_) => Ok(Ty::Str),
        BaseType::File(_) => Ok(Ty::File),
        BaseType::Struct(ident) => struct_type(alloc, index, names, &ident.name),
        BaseType::Array { item, plus, .. } => {
            let item = written(alloc, index, names, item.get())?;
            Ty::array_of(alloc, item, plus.is_some())
        }
        BaseType::Map { key, value, .. } => {
            let key = written(alloc, index, names, key.get())?;
            after_key(alloc, index, names, value.get(), key)
        }
        BaseType::Pair { left, right, .. } => {
            let left = written(alloc, index, names, left.get())?;
            after_left(alloc, index, names, right.get(), left)
        }
    }
}

/// The type that is written, with the names that stand for its structs.
#[cycle(written)]
fn written(
    alloc: Global,
    index: &Indexed<Entry>,
    names: &[StructName],
    tree: &TypeTree,
) -> Result<Ty, NoMemory>
    requires names { named index.now ≡ names_in names.now }
    requires distinct { are_distinct (names_in names.now) ≡ true }
    ensures { IfOk result (λ t. t ≡ spec.written_type (spec.stand_in names.now) tree.now) }
{
    let t = base(alloc, index, names, &tree.base)?;
    optional(alloc, tree.questions.as_slice(), t)
}

fn member(
    alloc: Global,
    index: &Indexed<Entry>,
    names: &[StructName],
    member: &StructMember,
) -> Result<Member, NoMemory>
    requires names { named index.now ≡ names_in names.now }
    requires distinct { are_distinct (names_in names.now) ≡ true }
    ensures { IfOk result (λ m. m ≡ spec.member_of (spec.stand_in names.now) member.now) }
{
    let name = member.name.name.copy(alloc)?;
    let ty = written(alloc, index, names, &member.ty)?;
    Ok(Member { name, ty })
}

/// The members of a struct section, with the names that stand for their structs.
pub fn members(
    alloc: Global,
    index: &Indexed<Entry>,
    names: &[StructName],
    members: &[StructMember],
) -> Result<Items<Member>, NoMemory>
    requires names { named index.now ≡ names_in names.now }
    requires distinct { are_distinct (names_in names.now) ≡ true }
    ensures { IfOk result (λ ms. ms ≡ map (spec.member_of (spec.stand_in names.now)) members.now) }
{
    let mut all = Items::new(alloc);
    for written in members {
        all.push(member(alloc, index, names, written)?)?;
    }
    Ok(all)
}

/// Whether the lists of members are equal.
pub fn same_members(left: &[Member], right: &[Member]) -> bool
    ensures { result ≡ types.same_members left.now right.now }
{
    let mut others = right;
    for member in left {
        let [other, rest @ ..] = others else {
            return false;
        };
        if !(member.name.same(&other.name) && member.ty.same(&other.ty)) {
            return false;
        }
        others = rest;
    }
    others.is_empty()
}

/// A copy of members.
pub fn copy_members(alloc: Global, members: &[Member]) -> Result<Items<Member>, NoMemory>
    ensures { IfOk result (λ ms. ms ≡ members.now) }
{
    let mut all = Items::new(alloc);
    for member in members {
        all.push(copy_member(alloc, member)?)?;
    }
    Ok(all)
}

fn copy_member(alloc: Global, member: &Member) -> Result<Member, NoMemory>
    ensures { IfOk result (λ m. m ≡ member.now) }
{
    let name = member.name.copy(alloc)?;
    let ty = member.ty.copy(alloc)?;
    Ok(Member { name, ty })
}
