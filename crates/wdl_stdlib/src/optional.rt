//! `defined`, `select_first` and `select_all`.

ghost use Rattle.std.specs.Prelude.{◌≡◌};
ghost use Rattle.wdl_value.specs.Functions as spec;
ghost use Rattle.wdl_stdlib.specs.Gives.{Gives};

use crate::fault::EvalFault;
use crate::parts::{is_undefined, items_in};
use std::alloc::Global;
use wdl_value::{EvalCode, Items, Value};

/// Whether the value is not undefined.
pub fn is_defined(x: &Value) -> bool
    ensures { result ≡ spec.is_defined x.now }
{
    !is_undefined(x)
}

fn first_defined(alloc: Global, items: &[Value]) -> Result<Value, EvalFault>
    ensures { Gives (spec.first_defined items.now) result }
{
    for item in items {
        if is_defined(item) {
            return Ok(item.copy(alloc)?);
        }
    }
    Err(EvalFault::Code(EvalCode::NothingDefined))
}

/// The first item that is defined; `NothingDefined` where none is.
pub fn select_first(alloc: Global, x: &Value) -> Result<Value, EvalFault>
    ensures { Gives (spec.select_first_of x.now) result }
{
    first_defined(alloc, items_in(x))
}

/// The items that are defined, in order.
pub fn select_all(alloc: Global, x: &Value) -> Result<Value, EvalFault>
    ensures { Gives (spec.select_all_of x.now) result }
{
    let items = items_in(x);
    let mut defined = Items::new(alloc);
    for item in items {
        if is_defined(item) {
            defined.push(item.copy(alloc)?)?;
        }
    }
    Ok(Value::List(defined))
}
