//! A value as a value of another type.

ghost use Rattle.std.specs.Prelude.{◌≡◌};
ghost use Rattle.wdl_value.specs.Cast as spec;
ghost use Rattle.wdl_value.specs.Cast.{Gives};
ghost use Rattle.wdl_value.specs.declared.casting.CastFault.TheVariants.{NoMemory as OutOfMemory};

use crate::bare::bare_type;
use crate::ty::Ty;
use crate::value::{MapRow, Value};
use crate::value_text::{bool_text, int_text};
use sqlite_items::{Boxed, Items};
use std::alloc::{AllocError, Global};
use thiserror::Error;
use wdl_base::NoMemory;

/// Why a value has no cast.
#[derive(Clone, Copy, Debug, PartialEq, Eq, Error)]
pub enum CastFault {
    /// An empty list meets the type of arrays with an item or more.
    #[error("an empty array where an item or more is required")]
    EmptyArray,
    #[error("out of memory")]
    NoMemory,
}

impl From<NoMemory> for CastFault {
    ghost from_gives = { λ _ e. e ≡ OutOfMemory };

    fn from(_e: NoMemory) -> CastFault {
        CastFault::NoMemory
    }
}

impl From<AllocError> for CastFault {
    ghost from_gives = { λ _ e. e ≡ OutOfMemory };

    fn from(_e: AllocError) -> CastFault {
        CastFault::NoMemory
    }
}

/// The value as one of the type, where it fits a type that coerces to this one (OpenWDL 1.1, "Type
/// Coercion"). It is `EmptyArray` exactly where an empty list meets the type of a nonempty array in
/// it.
#[cycle(cast)]
#[tactic(auto, using(crate::specs::CastOut::cast_steps))]
pub fn cast(alloc: Global, v: &Value, t: &Ty) -> Result<Value, CastFault>
    ensures { Gives (spec.cast v.now t.now) result }
{
    match (v, bare_type(t)) {
        (Value::Bool(b), Ty::Str) => Ok(Value::Str(bool_text(alloc, *b)?)),
        (Value::Int(n), Ty::Str) => Ok(Value::Str(int_text(alloc, *n)?)),
        (Value::File(s), Ty::Str) => Ok(Value::Str(s.copy(alloc)?)),
        (Value::Str(s), Ty::File) => Ok(Value::File(s.copy(alloc)?)),
        (Value::List(items), Ty::Array { item, some }) => {
            cast_list(alloc, items.as_slice(), item.get(), *some)
        }
        (Value::Pair(left, right), Ty::Pair { left: t, right: u }) => {
            let left = cast(alloc, left.get(), t.get())?;
            let right = cast(alloc, right.get(), u.get())?;
            Ok(Value::Pair(Boxed::new(alloc, left)?, Boxed::new(alloc, right)?))
        }
        (Value::Map(rows), Ty::Map { key, value }) => {
            cast_map(alloc, rows.as_slice(), key.get(), value.get())
        }
        _ => Ok(v.copy(alloc)?),
    }
}

#[cycle(cast)]
fn cast_list(alloc: Global, items: &[Value], t: &Ty, some: bool) -> Result<Value, CastFault>
    ensures { Gives (spec.cast_list items.now t.now some) result }
{
    match items {
        [] if some => Err(CastFault::EmptyArray),
        _ => Ok(Value::List(cast_all(alloc, items, t)?)),
    }
}

#[cycle(cast)]
fn cast_map(alloc: Global, rows: &[MapRow<Value>], t: &Ty, u: &Ty) -> Result<Value, CastFault>
    ensures { Gives (spec.cast_map rows.now t.now u.now) result }
{
    Ok(Value::Map(cast_rows(alloc, rows, t, u)?))
}

#[cycle(cast)]
fn cast_all(alloc: Global, items: &[Value], t: &Ty) -> Result<Items<Value>, CastFault>
    ensures { Gives (spec.cast_all items.now t.now) result }
{
    let mut casts = Items::new(alloc);
    for item in items {
        casts.push(cast(alloc, item, t)?)?;
    }
    Ok(casts)
}

#[cycle(cast)]
fn cast_rows(
    alloc: Global,
    rows: &[MapRow<Value>],
    t: &Ty,
    u: &Ty,
) -> Result<Items<MapRow<Value>>, CastFault>
    ensures { Gives (spec.cast_rows rows.now t.now u.now) result }
{
    let mut casts = Items::new(alloc);
    for row in rows {
        let key = cast(alloc, &row.key, t)?;
        let value = cast(alloc, &row.value, u)?;
        casts.push(MapRow { key, value })?;
    }
    Ok(casts)
}
