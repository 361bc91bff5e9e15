//! `cross`, `zip`, `unzip`, `flatten` and `transpose`.

ghost use Rattle.std.specs.Prelude.{◌≡◌, ◌++◌, IfOk, IfErr, Ok, map, get_or};
ghost use Rattle.wdl_value.specs.Functions as spec;
ghost use Rattle.wdl_value.specs.declared.value.Value.TheVariants as v;
ghost use Rattle.wdl_value.specs.Parts as parts;
ghost use Rattle.wdl_stdlib.specs.Gives.{Gives, IsPast, Makes};

use crate::fault::EvalFault;
use crate::growing::Growing;
use crate::maps::pair;
use crate::parts::{items_in, left_in, right_in};
use std::alloc::Global;
use wdl_value::{Boxed, EvalCode, Items, NoMemory, Value};

fn zipped(alloc: Global, xs: &[Value], ys: &[Value]) -> Result<Items<Value>, EvalFault>
    ensures { Gives (spec.zipped xs.now ys.now) result }
{
    let mut pairs = Items::new(alloc);
    let mut left = ys;
    for x in xs {
        let [y, rest @ ..] = left else {
            return Err(EvalFault::Code(EvalCode::LengthsDiffer));
        };
        pairs.push(pair(alloc, x, y)?)?;
        left = rest;
    }
    if left.is_empty() {
        return Ok(pairs);
    }
    Err(EvalFault::Code(EvalCode::LengthsDiffer))
}

/// Pairs of the items at equal places; `LengthsDiffer` where the lengths differ.
pub fn zip(alloc: Global, x: &Value, y: &Value) -> Result<Value, EvalFault>
    ensures { Gives (spec.zip_of x.now y.now) result }
{
    Ok(Value::List(zipped(alloc, items_in(x), items_in(y))?))
}

fn lefts(alloc: Global, pairs: &[Value]) -> Result<Items<Value>, NoMemory>
    ensures { IfOk result (λ xs. xs ≡ map parts.left_in pairs.now) }
{
    let mut items = Items::new(alloc);
    for pair in pairs {
        items.push(left_in(pair).copy(alloc)?)?;
    }
    Ok(items)
}

fn rights(alloc: Global, pairs: &[Value]) -> Result<Items<Value>, NoMemory>
    ensures { IfOk result (λ xs. xs ≡ map parts.right_in pairs.now) }
{
    let mut items = Items::new(alloc);
    for pair in pairs {
        items.push(right_in(pair).copy(alloc)?)?;
    }
    Ok(items)
}

/// The list of the left parts and the list of the right parts.
pub fn unzip(alloc: Global, x: &Value) -> Result<Value, EvalFault>
    ensures { Gives (spec.unzip_of x.now) result }
{
    let pairs = items_in(x);
    let left = Value::List(lefts(alloc, pairs)?);
    let right = Value::List(rights(alloc, pairs)?);
    Ok(Value::Pair(Boxed::new(alloc, left)?, Boxed::new(alloc, right)?))
}

/// Appends copies.
fn appended(alloc: Global, mut all: Items<Value>, items: &[Value]) -> Result<Items<Value>, NoMemory>
    ensures { IfOk result (λ xs. xs ≡ all ++ items.now) }
{
    for item in items {
        all.push(item.copy(alloc)?)?;
    }
    Ok(all)
}

/// The items of all lists, in order; it stops at the limit of a value.
pub fn flatten(alloc: Global, x: &Value) -> Result<Value, EvalFault>
    ensures { Gives (spec.flatten_of x.now) result }
{
    let lists = items_in(x);
    let mut all = Items::new(alloc);
    for list in lists {
        all = appended(alloc, all, items_in(list))?;
    }
    Ok(Value::List(all))
}

/// Appends a pair of `x` with each of `ys`.
fn with_pairs(
    alloc: Global,
    mut pairs: Growing,
    x: &Value,
    ys: &[Value],
) -> Result<Growing, EvalFault>
    ensures pairs { IfOk result (λ g. g.items ≡ pairs.items ++ map (λ y. v.Pair x.now y) ys.now) }
    ensures past { IfErr result (IsPast (pairs.items ++ map (λ y. v.Pair x.now y) ys.now)) }
{
    for y in ys {
        pairs = pairs.with(pair(alloc, x, y)?)?;
    }
    Ok(pairs)
}

fn crossed(alloc: Global, xs: &[Value], ys: &[Value]) -> Result<Value, EvalFault>
    ensures { Makes (Ok (v.List (spec.crossed xs.now ys.now))) result }
{
    let mut pairs = Growing::new(alloc);
    for x in xs {
        pairs = with_pairs(alloc, pairs, x, ys)?;
    }
    Ok(pairs.into_value())
}

/// Each item of the first list with each of the second, row by row; it stops at the limit of a
/// value.
pub fn cross(alloc: Global, x: &Value, y: &Value) -> Result<Value, EvalFault>
    ensures { Makes (spec.cross_of x.now y.now) result }
{
    crossed(alloc, items_in(x), items_in(y))
}

/// How many items the first row has.
fn width(rows: &[Value]) -> usize
    ensures { result ≡ spec.width rows.now }
{
    match rows {
        [] => 0,
        [row, ..] => items_in(row).len(),
    }
}

fn have_length(n: usize, rows: &[Value]) -> bool
    ensures { result ≡ spec.have_length n rows.now }
{
    for row in rows {
        if items_in(row).len() != n {
            return false;
        }
    }
    true
}

fn item_at(alloc: Global, row: &[Value], k: usize) -> Result<Value, NoMemory>
    ensures { IfOk result (λ x. x ≡ get_or row.now k v.Absent) }
{
    match row.get(k) {
        Some(item) => item.copy(alloc),
        None => Ok(Value::Absent),
    }
}

fn column(alloc: Global, rows: &[Value], k: usize) -> Result<Value, NoMemory>
    ensures { IfOk result (λ x. x ≡ v.List (spec.column rows.now k)) }
{
    let mut items = Items::new(alloc);
    for row in rows {
        items.push(item_at(alloc, items_in(row), k)?)?;
    }
    Ok(Value::List(items))
}

fn columns(alloc: Global, rows: &[Value]) -> Result<Items<Value>, NoMemory>
    ensures { IfOk result (λ xs. xs ≡ spec.columns rows.now) }
{
    let mut columns = Items::new(alloc);
    let width = width(rows);
    for k in 0..width {
        columns.push(column(alloc, rows, k)?)?;
    }
    Ok(columns)
}

/// The columns of the rows; `LengthsDiffer` where the rows differ in length.
pub fn transpose(alloc: Global, x: &Value) -> Result<Value, EvalFault>
    ensures { Gives (spec.transpose_of x.now) result }
{
    let rows = items_in(x);
    if !have_length(width(rows), rows) {
        return Err(EvalFault::Code(EvalCode::LengthsDiffer));
    }
    Ok(Value::List(columns(alloc, rows)?))
}
