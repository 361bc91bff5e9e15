//! Members of pairs and structs, and items of arrays and maps.

ghost use Rattle.std.specs.Prelude.{◌≡◌, IfOk};
ghost use Rattle.wdl_typed.specs.Typing as table;
ghost use Rattle.wdl_check_rules.specs.Rules as spec;

use crate::typed::{Typed, coerced};
use sqlite_items::Boxed;
use std::alloc::Global;
use struct_members::member_type;
use wdl_names::Indexed;
use wdl_typed::TExpr;
use wdl_value::{Name, NoMemory, StructDef, Ty, is_int};

/// A copy of the type of a member.
fn copied_type(
    alloc: Global,
    structs: &Indexed<StructDef>,
    name: &Name,
    owner: &Ty,
) -> Result<Option<Ty>, NoMemory>
    ensures { IfOk result (λ t. t ≡ table.member_type structs.now name.now owner.now) }
{
    match member_type(structs, name, owner) {
        Some(ty) => Ok(Some(ty.copy(alloc)?)),
        None => Ok(None),
    }
}

fn member_expr(alloc: Global, owner: Typed, name: &Name) -> Result<TExpr, NoMemory>
    ensures { IfOk result (λ e. e ≡ TExpr.Member owner.expr name.now) }
{
    let owner = Boxed::new(alloc, owner.into_expr())?;
    Ok(TExpr::Member(owner, name.copy(alloc)?))
}

/// A member of a pair or of a struct. None where its type has none of that name.
pub fn member(
    alloc: Global,
    structs: &Indexed<StructDef>,
    name: &Name,
    x: Typed,
) -> Result<Option<Typed>, NoMemory>
    ensures { IfOk result (λ t. t ≡ spec.member_of structs.now name.now x) }
{
    let Some(ty) = copied_type(alloc, structs, name, &x.ty)? else {
        return Ok(None);
    };
    let expr = member_expr(alloc, x, name)?;
    Ok(Some(Typed { expr, ty }))
}

fn typed_item(alloc: Global, x: Boxed<TExpr>, index: TExpr, ty: &Ty) -> Result<Typed, NoMemory>
    ensures { IfOk result (λ t. t ≡ spec.typing (TExpr.At x index) ty.now) }
{
    let index = Boxed::new(alloc, index)?;
    let ty = ty.copy(alloc)?;
    Ok(Typed {
        expr: TExpr::At(x, index),
        ty,
    })
}

/// An item of an array by its number.
fn array_item(
    alloc: Global,
    x: Boxed<TExpr>,
    ty: &Ty,
    index: Typed,
) -> Result<Option<Typed>, NoMemory>
    ensures { IfOk result (λ t. t ≡ spec.array_item x ty.now index) }
{
    if !is_int(&index.ty) {
        return Ok(None);
    }
    Ok(Some(typed_item(alloc, x, index.into_expr(), ty)?))
}

/// A value of a map by its key.
fn map_item(
    alloc: Global,
    x: Boxed<TExpr>,
    key: &Ty,
    ty: &Ty,
    index: Typed,
) -> Result<Option<Typed>, NoMemory>
    ensures { IfOk result (λ t. t ≡ spec.map_item x key.now ty.now index) }
{
    match coerced(alloc, index, key)? {
        Some(key) => Ok(Some(typed_item(alloc, x, key, ty)?)),
        None => Ok(None),
    }
}

/// An item of an array by its number, or a value of a map by its key. None for other types.
pub fn item(alloc: Global, x: Typed, index: Typed) -> Result<Option<Typed>, NoMemory>
    ensures { IfOk result (λ t. t ≡ spec.item_of x index) }
{
    let (expr, ty) = x.into_parts(alloc)?;
    match &ty {
        Ty::Array { item, .. } => array_item(alloc, expr, item.get(), index),
        Ty::Map { key, value } => map_item(alloc, expr, key.get(), value.get(), index),
        _ => Ok(None),
    }
}
