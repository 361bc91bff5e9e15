//! The values of operators (OpenWDL 1.1, "Expressions").

ghost use Rattle.std.specs.Prelude.{◌≡◌, ◌+ℤ◌, ◌-ℤ◌, ◌*ℤ◌, Some, None};
ghost use Rattle.wdl_value.specs.Operate as spec;
ghost use Rattle.wdl_stdlib.specs.Gives.{Gives};

use crate::fault::EvalFault;
use crate::parts::{bool_in, int_in, is_number, is_undefined, text_in};
use crate::within::limited;
use std::alloc::Global;
use wdl_value::{EvalCode, Op, Value, same_value};

#[tactic(auto, using(crate::proofs::Ints::ints))]
fn product(m: i64, n: i64) -> Result<Value, EvalFault>
    ensures { Gives (spec.int_of (m *ℤ n)) result }
{
    match m.checked_mul(n) {
        Some(n) => Ok(Value::Int(n)),
        None => Err(EvalFault::Code(EvalCode::Overflow)),
    }
}

/// Towards zero.
#[tactic(auto, using(crate::proofs::Ints::ints))]
fn quotient(m: i64, n: i64) -> Result<Value, EvalFault>
    ensures { Gives (spec.quotient m n) result }
{
    if n == 0 {
        return Err(EvalFault::Code(EvalCode::ZeroDivisor));
    }
    match m.checked_div(n) {
        Some(n) => Ok(Value::Int(n)),
        None => Err(EvalFault::Code(EvalCode::Overflow)),
    }
}

/// With the sign of the dividend.
#[tactic(auto, using(crate::proofs::Ints::ints))]
fn remainder(m: i64, n: i64) -> Result<Value, EvalFault>
    ensures { Gives (spec.remainder m n) result }
{
    if n == 0 {
        return Err(EvalFault::Code(EvalCode::ZeroDivisor));
    }
    Ok(Value::Int(m.wrapping_rem(n)))
}

#[tactic(auto, using(crate::proofs::Ints::ints))]
fn difference(m: i64, n: i64) -> Result<Value, EvalFault>
    ensures { Gives (spec.int_of (m -ℤ n)) result }
{
    match m.checked_sub(n) {
        Some(n) => Ok(Value::Int(n)),
        None => Err(EvalFault::Code(EvalCode::Overflow)),
    }
}

#[tactic(auto, using(crate::proofs::Ints::ints))]
fn total(m: i64, n: i64) -> Result<Value, EvalFault>
    ensures { Gives (spec.int_of (m +ℤ n)) result }
{
    match m.checked_add(n) {
        Some(n) => Ok(Value::Int(n)),
        None => Err(EvalFault::Code(EvalCode::Overflow)),
    }
}

/// The sum of two numbers, or else the texts joined.
fn sum(alloc: Global, x: &Value, y: &Value) -> Result<Value, EvalFault>
    ensures { Gives (spec.sum x.now y.now) result }
{
    if is_number(x) && is_number(y) {
        return total(int_in(x), int_in(y));
    }
    let mut joined = text_in(alloc, x)?;
    joined.push_str(text_in(alloc, y)?.as_str())?;
    Ok(Value::Str(joined))
}

/// Undefined where an operand is.
fn sum_maybe(alloc: Global, x: &Value, y: &Value) -> Result<Value, EvalFault>
    ensures { Gives (spec.sum_maybe x.now y.now) result }
{
    if is_undefined(x) || is_undefined(y) {
        return Ok(Value::Absent);
    }
    sum(alloc, x, y)
}

/// Numbers by their order, false before true, texts by their bytes.
fn is_less(x: &Value, y: &Value) -> bool
    ensures { result ≡ spec.is_less x.now y.now }
{
    match (x, y) {
        (Value::Int(m), Value::Int(n)) => *m < *n,
        (Value::Bool(a), Value::Bool(b)) => !*a && *b,
        (Value::Str(s), Value::Str(t)) => s.is_before(t),
        _ => false,
    }
}

fn operated(alloc: Global, op: Op, left: &Value, right: &Value) -> Result<Value, EvalFault>
    ensures { Gives (spec.operated op left.now right.now) result }
{
    match op {
        Op::Mul => product(int_in(left), int_in(right)),
        Op::Div => quotient(int_in(left), int_in(right)),
        Op::Rem => remainder(int_in(left), int_in(right)),
        Op::Add => sum(alloc, left, right),
        Op::Sub => difference(int_in(left), int_in(right)),
        Op::AddMaybe => sum_maybe(alloc, left, right),
        Op::Lt => Ok(Value::Bool(is_less(left, right))),
        Op::Le => Ok(Value::Bool(!is_less(right, left))),
        Op::Gt => Ok(Value::Bool(is_less(right, left))),
        Op::Ge => Ok(Value::Bool(!is_less(left, right))),
        Op::Eq => Ok(Value::Bool(same_value(left, right))),
        Op::Ne => Ok(Value::Bool(!same_value(left, right))),
        Op::And => Ok(Value::Bool(bool_in(left) && bool_in(right))),
        Op::Or => Ok(Value::Bool(bool_in(left) || bool_in(right))),
    }
}

/// The value of an operator: 501 where a number doesn't fit, 502 for a divisor 0, 510 where the
/// value passes a limit.
pub fn operate(alloc: Global, op: Op, left: &Value, right: &Value) -> Result<Value, EvalFault>
    ensures value { Gives (spec.operate op left.now right.now) result }
{
    limited(operated(alloc, op, left, right)?)
}

/// The number with the other sign: 501 where it doesn't fit.
#[tactic(auto, using(crate::proofs::Ints::ints))]
pub fn negate(v: &Value) -> Result<Value, EvalFault>
    ensures value { Gives (spec.negate v.now) result }
{
    match int_in(v).checked_neg() {
        Some(n) => Ok(Value::Int(n)),
        None => Err(EvalFault::Code(EvalCode::Overflow)),
    }
}
