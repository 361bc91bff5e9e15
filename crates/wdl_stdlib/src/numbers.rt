//! `min`, `max`, `length` and `range`.

ghost use Rattle.std.specs.Prelude.{Ok};
ghost use Rattle.wdl_value.specs.Functions as spec;
ghost use Rattle.wdl_value.specs.declared.value.Value.TheVariants as v;
ghost use Rattle.wdl_stdlib.specs.Gives.{Gives, Makes};

use crate::fault::EvalFault;
use crate::parts::{int_in, items_in};
use std::alloc::Global;
use wdl_value::{EvalCode, ITEM_LIMIT, Items, Value};

/// The smaller of two numbers.
pub fn least(x: &Value, y: &Value) -> Result<Value, EvalFault>
    ensures { Gives (spec.least x.now y.now) result }
{
    Ok(Value::Int(int_in(x).min(int_in(y))))
}

/// The greater of two numbers.
pub fn greatest(x: &Value, y: &Value) -> Result<Value, EvalFault>
    ensures { Gives (spec.greatest x.now y.now) result }
{
    Ok(Value::Int(int_in(x).max(int_in(y))))
}

/// How many items a list has.
#[tactic(auto, using(crate::proofs::Ints::ints))]
pub fn length(x: &Value) -> Result<Value, EvalFault>
    ensures { Gives (spec.length_of x.now) result }
{
    match i64::try_from(items_in(x).len()) {
        Ok(n) => Ok(Value::Int(n)),
        Err(_) => Err(EvalFault::Code(EvalCode::Overflow)),
    }
}

fn numbers_below(alloc: Global, n: usize) -> Result<Value, EvalFault>
    ensures { Makes (Ok (v.List (spec.numbers_below n))) result }
{
    if n > ITEM_LIMIT {
        return Err(EvalFault::Code(EvalCode::TooLarge));
    }
    let mut numbers = Items::new(alloc);
    for k in 0..n {
        numbers.push(Value::Int(k as i64))?;
    }
    Ok(Value::List(numbers))
}

/// The numbers from 0 to below this one; `NegativeRange` below 0, and `TooLarge` at once past
/// 100,000.
pub fn range(alloc: Global, x: &Value) -> Result<Value, EvalFault>
    ensures { Makes (spec.range_of x.now) result }
{
    let n = int_in(x);
    if n < 0 {
        return Err(EvalFault::Code(EvalCode::NegativeRange));
    }
    numbers_below(alloc, n as usize)
}
