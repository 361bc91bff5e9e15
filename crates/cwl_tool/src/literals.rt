//! The values of literals: of numbers with a sign and of lists too, casts aside.

ghost use Rattle.std.specs.Prelude.{◌≡◌, IfOk, map};
ghost use Rattle.wdl_value.specs.Parts.{int_in, items_in};
ghost use Rattle.cwl_image.specs.Image as image;

use std::alloc::Global;
use wdl_typed::TExpr;
use wdl_value::{Items, NoMemory, Value};

/// The number, or 0.
fn number_in(value: &Value) -> i64
    ensures { result ≡ int_in value.now }
{
    match value {
        Value::Int(n) => *n,
        _ => 0,
    }
}

/// The negative of a number; the least Int, which has none, stays.
fn negated(number: i64) -> i64
    ensures { result ≡ image.negated number }
{
    if number == i64::MIN {
        return number;
    }
    -number
}

/// The number of a literal, or 0.
pub fn number_of(expr: &TExpr) -> i64
    ensures { result ≡ int_in (image.literal expr.now) }
{
    match expr {
        TExpr::Lit(value) => number_in(value),
        TExpr::Neg(inner) => negated(number_of(inner.get())),
        TExpr::Cast(inner, _) => number_of(inner.get()),
        _ => 0,
    }
}

/// The value of a literal.
#[cycle(literal)]
pub fn literal_of(alloc: Global, expr: &TExpr) -> Result<Value, NoMemory>
    ensures { IfOk result (λ v. v ≡ image.literal expr.now) }
{
    match expr {
        TExpr::Lit(value) => value.copy(alloc),
        TExpr::Neg(inner) => Ok(Value::Int(negated(number_of(inner.get())))),
        TExpr::ListOf(exprs) => Ok(Value::List(literals_of(alloc, exprs.as_slice())?)),
        TExpr::Cast(inner, _) => literal_of(alloc, inner.get()),
        _ => Ok(Value::Absent),
    }
}

#[cycle(literal)]
fn literals_of(alloc: Global, exprs: &[TExpr]) -> Result<Items<Value>, NoMemory>
    ensures { IfOk result (λ vs. vs ≡ map image.literal exprs.now) }
{
    let mut values = Items::new(alloc);
    for expr in exprs {
        values.push(literal_of(alloc, expr)?)?;
    }
    Ok(values)
}

fn numbers_in(alloc: Global, values: &[Value]) -> Result<Items<i64>, NoMemory>
    ensures { IfOk result (λ ns. ns ≡ map int_in values.now) }
{
    let mut numbers = Items::new(alloc);
    for value in values {
        numbers.push(number_in(value))?;
    }
    Ok(numbers)
}

fn each_number(alloc: Global, exprs: &[TExpr]) -> Result<Items<i64>, NoMemory>
    ensures { IfOk result (λ ns. ns ≡ map int_in (map image.literal exprs.now)) }
{
    let mut numbers = Items::new(alloc);
    for expr in exprs {
        numbers.push(number_of(expr))?;
    }
    Ok(numbers)
}

fn numbers_of_value(alloc: Global, value: &Value) -> Result<Items<i64>, NoMemory>
    ensures { IfOk result (λ ns. ns ≡ map int_in (items_in value.now)) }
{
    match value {
        Value::List(items) => numbers_in(alloc, items.as_slice()),
        _ => Ok(Items::new(alloc)),
    }
}

/// The numbers of a literal that is a list, in their order.
pub fn numbers_of(alloc: Global, expr: &TExpr) -> Result<Items<i64>, NoMemory>
    ensures { IfOk result (λ ns. ns ≡ map int_in (items_in (image.literal expr.now))) }
{
    match expr {
        TExpr::Lit(value) => numbers_of_value(alloc, value),
        TExpr::ListOf(exprs) => each_number(alloc, exprs.as_slice()),
        TExpr::Cast(inner, _) => numbers_of(alloc, inner.get()),
        _ => Ok(Items::new(alloc)),
    }
}
