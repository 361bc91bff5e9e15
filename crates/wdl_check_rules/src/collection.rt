//! List, map and pair literals, given their typed parts.

ghost use Rattle.std.specs.Prelude.{◌≡◌, IfOk};
ghost use Rattle.wdl_value.specs.Join.{join as join_of};
ghost use Rattle.wdl_check_rules.specs.Rules as spec;
ghost use Rattle.wdl_check_rules.specs.Checked as checked;

use crate::fault::CheckFault;
use crate::parts::Parts;
use crate::typed::{Typed, boxed_cast, cast_to, let_go};
use sqlite_items::{Boxed, Items};
use std::alloc::Global;
use wdl_typed::{TExpr, TPair};
use wdl_types::join;
use wdl_value::{NoMemory, Span, Ty, is_plain};

/// A list whose items stand at the join of their types. None where they have none.
pub fn list(alloc: Global, items: Parts<Typed>) -> Result<Option<Typed>, NoMemory>
    ensures { IfOk result (λ t. t ≡ spec.list_of items) }
{
    let Some(joined) = items_join(alloc, items.as_slice())? else {
        return Ok(None);
    };
    let some = has_items(items.as_slice());
    let exprs = cast_all(alloc, &joined, items)?;
    let item = Boxed::new(alloc, joined)?;
    Ok(Some(Typed {
        expr: TExpr::ListOf(exprs),
        ty: Ty::Array { item, some },
    }))
}

/// The join of two types, of which the first is let go.
fn join_next(alloc: Global, joined: Ty, t: &Ty) -> Result<Option<Ty>, NoMemory>
    ensures { IfOk result (λ u. u ≡ join_of joined t.now) }
{
    let next = join(alloc, &joined, t);
    let_go(joined);
    next
}

/// The join of the items' types, from left to right.
fn items_join(alloc: Global, items: &[Typed]) -> Result<Option<Ty>, NoMemory>
    ensures { IfOk result (λ t. t ≡ spec.join_all Ty.Empty (spec.types_of items.now)) }
{
    let mut joined = Ty::Empty;
    for item in items {
        match join_next(alloc, joined, &item.ty)? {
            Some(ty) => joined = ty,
            None => return Ok(None),
        }
    }
    Ok(Some(joined))
}

fn has_items(items: &[Typed]) -> bool
    ensures { result ≡ spec.has_items items.now }
{
    match items {
        [] => false,
        [..] => true,
    }
}

fn cast_all(alloc: Global, t: &Ty, items: Parts<Typed>) -> Result<Items<TExpr>, NoMemory>
    ensures { IfOk result (λ es. es ≡ spec.cast_all t.now items) }
{
    let mut rest = items.into_deque();
    let mut exprs = Items::new(alloc);
    while let Some(item) = rest.pop_front() {
        exprs.push(cast_to(alloc, item, t)?)?;
    }
    Ok(exprs)
}

/// A map literal, whose keys and values stand at the joins of their types. The code is 310 where
/// they have none, and 329 where no map has keys of that type.
pub fn map_at(alloc: Global, rows: Parts<TPair<Typed>>, span: Span) -> Result<Typed, CheckFault>
    ensures { checked.Gives (checked.rows_checked span rows) result }
{
    let Some(key) = keys_join(alloc, rows.as_slice())? else {
        return Err(CheckFault::Bad { code: 310, span });
    };
    if !is_plain(&key) {
        return Err(CheckFault::Bad { code: 329, span });
    }
    let key = Boxed::new(alloc, key)?;
    let Some(value) = values_join(alloc, rows.as_slice())? else {
        return Err(CheckFault::Bad { code: 310, span });
    };
    Ok(map_with(alloc, rows, key, value)?)
}

fn keys_join(alloc: Global, rows: &[TPair<Typed>]) -> Result<Option<Ty>, NoMemory>
    ensures { IfOk result (λ t. t ≡ spec.keys_join rows.now) }
{
    let mut joined = Ty::Empty;
    for row in rows {
        match join_next(alloc, joined, &row.key.ty)? {
            Some(ty) => joined = ty,
            None => return Ok(None),
        }
    }
    Ok(Some(joined))
}

fn values_join(alloc: Global, rows: &[TPair<Typed>]) -> Result<Option<Ty>, NoMemory>
    ensures { IfOk result (λ t. t ≡ spec.values_join rows.now) }
{
    let mut joined = Ty::Empty;
    for row in rows {
        match join_next(alloc, joined, &row.value.ty)? {
            Some(ty) => joined = ty,
            None => return Ok(None),
        }
    }
    Ok(Some(joined))
}

fn map_with(
    alloc: Global,
    rows: Parts<TPair<Typed>>,
    key: Boxed<Ty>,
    value: Ty,
) -> Result<Typed, NoMemory>
    ensures { IfOk result (λ t. t ≡ spec.map_with rows key value) }
{
    let value = Boxed::new(alloc, value)?;
    let rows = cast_rows(alloc, key.get(), value.get(), rows)?;
    Ok(Typed {
        expr: TExpr::MapOf(rows),
        ty: Ty::Map { key, value },
    })
}

fn cast_rows(
    alloc: Global,
    key: &Ty,
    value: &Ty,
    rows: Parts<TPair<Typed>>,
) -> Result<Items<TPair<TExpr>>, NoMemory>
    ensures { IfOk result (λ rs. rs ≡ spec.cast_rows key.now value.now rows) }
{
    let mut rest = rows.into_deque();
    let mut done = Items::new(alloc);
    while let Some(row) = rest.pop_front() {
        done.push(cast_row(alloc, key, value, row)?)?;
    }
    Ok(done)
}

fn cast_row(
    alloc: Global,
    key: &Ty,
    value: &Ty,
    row: TPair<Typed>,
) -> Result<TPair<TExpr>, NoMemory>
    ensures { IfOk result (λ r. r ≡ spec.cast_row key.now value.now row) }
{
    let key = boxed_cast(alloc, row.key, key)?;
    let value = cast_to(alloc, row.value, value)?;
    Ok(TPair {
        key: key.into_inner(),
        value,
    })
}

/// The expression and the type of a typed part, each in a box.
fn into_boxes(alloc: Global, x: Typed) -> Result<(Boxed<TExpr>, Boxed<Ty>), NoMemory>
    ensures { IfOk result (λ parts. parts ≡ (x.expr, x.ty)) }
{
    let (expr, ty) = x.into_parts(alloc)?;
    Ok((expr, Boxed::new(alloc, ty)?))
}

/// A pair.
pub fn pair(alloc: Global, x: Typed, y: Typed) -> Result<Typed, NoMemory>
    ensures { IfOk result (λ t. t ≡ spec.pair_of x y) }
{
    let (x, left) = into_boxes(alloc, x)?;
    let (y, right) = into_boxes(alloc, y)?;
    Ok(Typed {
        expr: TExpr::PairOf(x, y),
        ty: Ty::Pair { left, right },
    })
}
