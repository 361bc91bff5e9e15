ghost use Rattle.wdl_value.specs.Limits as spec;
ghost use Rattle.wdl_stdlib.specs.Gives.{Gives};

use crate::fault::EvalFault;
use wdl_value::{EvalCode, Value, is_within_limits};

/// The value, where it keeps the limits of values.
pub fn limited(value: Value) -> Result<Value, EvalFault>
    ensures { Gives (spec.limited value) result }
{
    if is_within_limits(&value) {
        return Ok(value);
    }
    Err(EvalFault::Code(EvalCode::TooLarge))
}
