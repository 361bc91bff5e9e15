//! Which values are equal.

ghost use Rattle.std.specs.Prelude.{◌≡◌};
ghost use Rattle.wdl_value.specs.SameValue as spec;

use crate::value::{Field, MapRow, Value};

/// Whether two values are equal: maps row by row in their order, a Str and a File never. It takes
/// no memory.
#[cycle(same)]
pub fn same_value(x: &Value, y: &Value) -> bool
    ensures { result ≡ spec.same_value x.now y.now }
{
    match (x, y) {
        (Value::Bool(a), Value::Bool(b)) => *a == *b,
        (Value::Int(m), Value::Int(n)) => *m == *n,
        (Value::Str(s), Value::Str(t)) => s.same(t),
        (Value::File(s), Value::File(t)) => s.same(t),
        (Value::List(xs), Value::List(ys)) => same_all(xs.as_slice(), ys.as_slice()),
        (Value::Pair(a, b), Value::Pair(c, d)) => {
            same_value(a.get(), c.get()) && same_value(b.get(), d.get())
        }
        (Value::Map(xs), Value::Map(ys)) => same_rows(xs.as_slice(), ys.as_slice()),
        (
            Value::Struct { name, fields },
            Value::Struct {
                name: other,
                fields: others,
            },
        ) => { name.same(other) && same_fields(fields.as_slice(), others.as_slice()) }
        (Value::Absent, Value::Absent) => true,
        _ => false,
    }
}

#[cycle(same)]
fn same_all(xs: &[Value], ys: &[Value]) -> bool
    ensures { result ≡ spec.same_all xs.now ys.now }
{
    let mut left = ys;
    for x in xs {
        let [y, rest @ ..] = left else {
            return false;
        };
        if !same_value(x, y) {
            return false;
        }
        left = rest;
    }
    left.is_empty()
}

#[cycle(same)]
fn same_rows(xs: &[MapRow<Value>], ys: &[MapRow<Value>]) -> bool
    ensures { result ≡ spec.same_rows xs.now ys.now }
{
    let mut left = ys;
    for x in xs {
        let [y, rest @ ..] = left else {
            return false;
        };
        if !(same_value(&x.key, &y.key) && same_value(&x.value, &y.value)) {
            return false;
        }
        left = rest;
    }
    left.is_empty()
}

#[cycle(same)]
fn same_fields(xs: &[Field<Value>], ys: &[Field<Value>]) -> bool
    ensures { result ≡ spec.same_fields xs.now ys.now }
{
    let mut left = ys;
    for x in xs {
        let [y, rest @ ..] = left else {
            return false;
        };
        if !(x.name.same(&y.name) && same_value(&x.value, &y.value)) {
            return false;
        }
        left = rest;
    }
    left.is_empty()
}
