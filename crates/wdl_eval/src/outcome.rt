//! What is met, as the standard library and the limits of values give it.

ghost use Rattle.std.specs.Prelude.{Ok};
ghost use Rattle.wdl_value.specs.declared.value.Value.{Value as Val};
ghost use Rattle.wdl_value.specs.Outcome.{Outcome};
ghost use Rattle.wdl_stdlib.specs.Gives.{Gives};
ghost use Rattle.wdl_typed.specs.Evaluation.{met};
ghost use Rattle.wdl_eval.specs.Meets.{Lends, Meets};
ghost use Rattle.wdl_eval.specs.Nodes.{within};

use crate::fault::NodeFault;
use std::alloc::Global;
use wdl_stdlib::EvalFault;
use wdl_value::{EvalCode, Value, is_within_limits};

/// A code stays that code.
pub fn given(outcome: Result<Value, EvalFault>) -> Result<Value, NodeFault>
    ensures { (o : Outcome Val) → Gives o outcome → Meets (met o) result }
{
    match outcome {
        Ok(value) => Ok(value),
        Err(EvalFault::Code(code)) => Err(NodeFault::Code(code)),
        Err(EvalFault::NoMemory) => Err(NodeFault::NoMemory),
    }
}

/// The value, where it keeps the limits of values.
pub fn limited(value: Value) -> Result<Value, NodeFault>
    ensures { Meets (within (Ok value)) result }
{
    if is_within_limits(&value) {
        return Ok(value);
    }
    Err(NodeFault::Code(EvalCode::TooLarge))
}

/// The value, where it keeps the limits of values. Nothing is copied.
pub fn offered(value: &Value) -> Result<&Value, NodeFault>
    ensures { Lends (within (Ok value.now)) result }
{
    if is_within_limits(value) {
        return Ok(value);
    }
    Err(NodeFault::Code(EvalCode::TooLarge))
}

/// A copy of the value, where it keeps the limits of values.
pub fn copied(alloc: Global, value: &Value) -> Result<Value, NodeFault>
    ensures { Meets (within (Ok value.now)) result }
{
    if is_within_limits(value) {
        return Ok(value.copy(alloc)?);
    }
    Err(NodeFault::Code(EvalCode::TooLarge))
}
