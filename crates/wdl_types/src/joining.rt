//! The type that two types have in common.

ghost use Rattle.std.specs.Prelude.{◌≡◌, IfOk, option_map};
ghost use Rattle.wdl_value.specs.Join as spec;
ghost use Rattle.wdl_value.specs.declared.ty.Ty.{out-Ty, map-Ty};
ghost use Rattle.wdl_value.specs.declared.ty.Ty.TheVariants as ty;

use sqlite_items::Boxed;
use std::alloc::Global;
use wdl_value::{NoMemory, Ty, bare_type, is_absent, is_empty, is_text};

/// The type to which values of two types are both cast, as the items of one list are (OpenWDL 1.1,
/// "Array[X]"). None where they have none.
#[cycle(join)]
#[tactic(auto, using(wdl_value::specs::Join::join_steps))]
pub fn join(alloc: Global, t: &Ty, u: &Ty) -> Result<Option<Ty>, NoMemory>
    ensures { IfOk result (λ j. j ≡ spec.join t.now u.now) }
{
    match t {
        Ty::Empty => Ok(Some(u.copy(alloc)?)),
        Ty::Absent => Ok(Some(join_absent(alloc, u)?)),
        Ty::Opt(s) => join_optional(alloc, s.get(), t, u),
        _ => marked(alloc, join_plain(alloc, t, bare_type(u))?, u),
    }
}

#[cycle(join)]
fn join_optional(alloc: Global, s: &Ty, t: &Ty, u: &Ty) -> Result<Option<Ty>, NoMemory>
    ensures { IfOk result (λ j. j ≡ spec.opt_join t.now (spec.join s.now) u.now (out-Ty u.now)) }
{
    match u {
        Ty::Opt(v) => optional(alloc, join(alloc, s, v.get())?),
        Ty::Empty | Ty::Absent => Ok(Some(t.copy(alloc)?)),
        _ => optional(alloc, join(alloc, s, u)?),
    }
}

/// Two types without question marks.
#[cycle(join)]
fn join_plain(alloc: Global, t: &Ty, u: &Ty) -> Result<Option<Ty>, NoMemory>
    ensures { IfOk result (λ j. j ≡ spec.plain_join t.now (map-Ty _ _ spec.join (out-Ty t.now)) u.now) }
{
    if is_empty(u) {
        return Ok(Some(t.copy(alloc)?));
    }
    if is_absent(u) {
        return optional(alloc, Some(t.copy(alloc)?));
    }
    match (t, u) {
        (
            Ty::Array { item, some },
            Ty::Array {
                item: v,
                some: also,
            },
        ) => array_of(alloc, join(alloc, item.get(), v.get())?, *some && *also),
        (Ty::Map { key, value }, Ty::Map { key: v, value: w }) => {
            let key = join(alloc, key.get(), v.get())?;
            let value = join(alloc, value.get(), w.get())?;
            map_of(alloc, key, value)
        }
        (Ty::Pair { left, right }, Ty::Pair { left: v, right: w }) => {
            let left = join(alloc, left.get(), v.get())?;
            let right = join(alloc, right.get(), w.get())?;
            pair_of(alloc, left, right)
        }
        _ => join_other(alloc, t, u),
    }
}

/// Equal types, and String with File.
fn join_other(alloc: Global, t: &Ty, u: &Ty) -> Result<Option<Ty>, NoMemory>
    ensures { IfOk result (λ j. j ≡ spec.other_join t.now u.now) }
{
    if t.same(u) {
        return Ok(Some(t.copy(alloc)?));
    }
    if is_text(t) && is_text(u) {
        return Ok(Some(Ty::Str));
    }
    Ok(None)
}

/// The type of `None` with a type: the type, optional.
fn join_absent(alloc: Global, u: &Ty) -> Result<Ty, NoMemory>
    ensures { IfOk result (λ j. j ≡ spec.absent_join u.now (out-Ty u.now)) }
{
    match u {
        Ty::Opt(_) | Ty::Absent => u.copy(alloc),
        Ty::Empty => Ok(Ty::Absent),
        _ => {
            let u = u.copy(alloc)?;
            Ok(Ty::Opt(Boxed::new(alloc, u)?))
        }
    }
}

fn optional(alloc: Global, joined: Option<Ty>) -> Result<Option<Ty>, NoMemory>
    ensures { IfOk result (λ j. j ≡ option_map ty.Opt joined) }
{
    match joined {
        Some(t) => Ok(Some(Ty::Opt(Boxed::new(alloc, t)?))),
        None => Ok(None),
    }
}

/// With the question marks of another type.
fn marked(alloc: Global, joined: Option<Ty>, u: &Ty) -> Result<Option<Ty>, NoMemory>
    ensures { IfOk result (λ j. j ≡ option_map (spec.marked u.now) joined) }
{
    match joined {
        Some(t) => Ok(Some(marked_type(alloc, u, t)?)),
        None => Ok(None),
    }
}

fn marked_type(alloc: Global, u: &Ty, t: Ty) -> Result<Ty, NoMemory>
    ensures { IfOk result (λ j. j ≡ spec.marked u.now t) }
{
    match u {
        Ty::Opt(v) => {
            let t = marked_type(alloc, v.get(), t)?;
            Ok(Ty::Opt(Boxed::new(alloc, t)?))
        }
        _ => Ok(t),
    }
}

fn array_of(alloc: Global, item: Option<Ty>, some: bool) -> Result<Option<Ty>, NoMemory>
    ensures { IfOk result (λ j. j ≡ spec.array_of item some) }
{
    match item {
        Some(t) => Ok(Some(Ty::array_of(alloc, t, some)?)),
        None => Ok(None),
    }
}

fn map_of(alloc: Global, key: Option<Ty>, value: Option<Ty>) -> Result<Option<Ty>, NoMemory>
    ensures { IfOk result (λ j. j ≡ spec.map_of key value) }
{
    match (key, value) {
        (Some(key), Some(value)) => Ok(Some(Ty::map_of(alloc, key, value)?)),
        _ => Ok(None),
    }
}

fn pair_of(alloc: Global, left: Option<Ty>, right: Option<Ty>) -> Result<Option<Ty>, NoMemory>
    ensures { IfOk result (λ j. j ≡ spec.pair_of left right) }
{
    match (left, right) {
        (Some(left), Some(right)) => Ok(Some(Ty::pair_of(alloc, left, right)?)),
        _ => Ok(None),
    }
}
