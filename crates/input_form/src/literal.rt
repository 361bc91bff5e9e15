//! Literals, and their values.

ghost use Rattle.std.specs.Prelude.{◌≡◌, IfOk, map};
ghost use Rattle.wdl_value.specs.Parts.{int_in};
ghost use Rattle.wdl_value.specs.declared.value.Value.TheVariants as v;
ghost use Rattle.input_form.specs.Literals as spec;

use std::alloc::Global;
use wdl_typed::{TExpr, TField, TPair};
use wdl_value::{Boxed, Field, Items, MapRow, NoMemory, Value};

/// Returns whether an expression is a literal, casts aside: a literal of a primitive type, one with
/// `-` before it, or an array, a map, a pair or a struct of literals.
#[cycle(is_literal)]
pub fn is_literal(expr: &TExpr) -> bool
    ensures { result ≡ spec.is_literal expr.now }
{
    match expr {
        TExpr::Lit(_) => true,
        TExpr::Neg(inner) => is_literal(inner.get()),
        TExpr::ListOf(exprs) => are_literals(exprs.as_slice()),
        TExpr::MapOf(rows) => are_literal_rows(rows.as_slice()),
        TExpr::PairOf(left, right) => is_literal(left.get()) && is_literal(right.get()),
        TExpr::StructOf(_, fields) => are_literal_fields(fields.as_slice()),
        TExpr::Cast(inner, _) => is_literal(inner.get()),
        _ => false,
    }
}

#[cycle(is_literal)]
fn are_literals(exprs: &[TExpr]) -> bool
    ensures { result ≡ spec.all_true (map spec.is_literal exprs.now) }
{
    for expr in exprs {
        if !is_literal(expr) {
            return false;
        }
    }
    true
}

#[cycle(is_literal)]
fn are_literal_rows(rows: &[TPair<TExpr>]) -> bool
    ensures { result ≡ spec.rows_true (spec.rows_by spec.is_literal rows.now) }
{
    for row in rows {
        if !(is_literal(&row.key) && is_literal(&row.value)) {
            return false;
        }
    }
    true
}

#[cycle(is_literal)]
fn are_literal_fields(fields: &[TField<TExpr>]) -> bool
    ensures { result ≡ spec.fields_true (spec.fields_by spec.is_literal fields.now) }
{
    for field in fields {
        if !is_literal(&field.value) {
            return false;
        }
    }
    true
}

/// The number, or 0.
fn number_in(value: &Value) -> i64
    ensures { result ≡ int_in value.now }
{
    match value {
        Value::Int(n) => *n,
        _ => 0,
    }
}

/// The negative of a number; the least Int, which has none, stays.
fn negated(number: i64) -> i64
    ensures { result ≡ spec.negated number }
{
    if number == i64::MIN {
        return number;
    }
    -number
}

/// The number of a literal, or 0.
fn number_of(expr: &TExpr) -> i64
    ensures { result ≡ int_in (spec.literal expr.now) }
{
    match expr {
        TExpr::Lit(value) => number_in(value),
        TExpr::Neg(inner) => negated(number_of(inner.get())),
        TExpr::Cast(inner, _) => number_of(inner.get()),
        _ => 0,
    }
}

fn pair_of(alloc: Global, left: Value, right: Value) -> Result<Value, NoMemory>
    ensures { IfOk result (λ x. x ≡ v.Pair left right) }
{
    Ok(Value::Pair(Boxed::new(alloc, left)?, Boxed::new(alloc, right)?))
}

/// Returns the value that a literal writes, before any cast.
#[cycle(literal)]
pub fn literal_of(alloc: Global, expr: &TExpr) -> Result<Value, NoMemory>
    ensures { IfOk result (λ x. x ≡ spec.literal expr.now) }
{
    match expr {
        TExpr::Lit(value) => value.copy(alloc),
        TExpr::Neg(inner) => Ok(Value::Int(negated(number_of(inner.get())))),
        TExpr::ListOf(exprs) => Ok(Value::List(literals_of(alloc, exprs.as_slice())?)),
        TExpr::MapOf(rows) => Ok(Value::Map(rows_of(alloc, rows.as_slice())?)),
        TExpr::PairOf(left, right) => {
            let left = literal_of(alloc, left.get())?;
            let right = literal_of(alloc, right.get())?;
            pair_of(alloc, left, right)
        }
        TExpr::StructOf(name, fields) => {
            let fields = fields_of(alloc, fields.as_slice())?;
            Ok(Value::Struct {
                name: name.copy(alloc)?,
                fields,
            })
        }
        TExpr::Cast(inner, _) => literal_of(alloc, inner.get()),
        _ => Ok(Value::Absent),
    }
}

#[cycle(literal)]
fn literals_of(alloc: Global, exprs: &[TExpr]) -> Result<Items<Value>, NoMemory>
    ensures { IfOk result (λ xs. xs ≡ map spec.literal exprs.now) }
{
    let mut values = Items::new(alloc);
    for expr in exprs {
        values.push(literal_of(alloc, expr)?)?;
    }
    Ok(values)
}

#[cycle(literal)]
fn rows_of(alloc: Global, rows: &[TPair<TExpr>]) -> Result<Items<MapRow<Value>>, NoMemory>
    ensures { IfOk result (λ xs. xs ≡ map spec.row_of (spec.rows_by spec.literal rows.now)) }
{
    let mut values = Items::new(alloc);
    for row in rows {
        let key = literal_of(alloc, &row.key)?;
        let value = literal_of(alloc, &row.value)?;
        values.push(MapRow { key, value })?;
    }
    Ok(values)
}

#[cycle(literal)]
fn fields_of(alloc: Global, fields: &[TField<TExpr>]) -> Result<Items<Field<Value>>, NoMemory>
    ensures { IfOk result (λ xs. xs ≡ map spec.field_of (spec.fields_by spec.literal fields.now)) }
{
    let mut values = Items::new(alloc);
    for field in fields {
        let value = literal_of(alloc, &field.value)?;
        let name = field.name.copy(alloc)?;
        values.push(Field { name, value })?;
    }
    Ok(values)
}
