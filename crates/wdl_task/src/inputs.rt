//! Inputs that a call leaves out.

ghost use Rattle.std.specs.Prelude.{◌≡◌, ◌≤◌, ◌+◌, ◌∷◌, []};
ghost use Rattle.wdl_stdlib.specs.Gives.{Gives};
ghost use Rattle.wdl_typed.specs.Requests as spec;
ghost use Rattle.wdl_task.specs.Counts.{default_count, default_counts};
ghost use Rattle.wdl_task.specs.Readiness.{IsDefaultReady, IsInputReady, AreInputsReady};
ghost use Rattle.wdl_task.specs.Tells.{Tells};

use crate::binding::with_bind;
use crate::fault::{CallFault, named};
use crate::valued::value_before;
use std::alloc::Global;
use std::sync::ledger::Ledger;
use wdl_eval::{EvalFault, lookup};
use wdl_typed::TInput;
use wdl_value::{Env, Key, Steps, Value};

/// The default of an input, or undefined.
fn default_value<L: Ledger>(
    alloc: Global,
    input: &TInput,
    env: &Env,
    steps: &mut Steps<L>,
) -> Result<Value, EvalFault>
    requires ready { IsDefaultReady input.now.value env.now }
    ensures value { Gives (spec.default_value env.now input.now.value) result }
    ensures steps { steps.new ≡ steps.old + default_count input.now.value }
{
    match &input.value {
        Some(e) => value_before(alloc, e, env, steps),
        None => Ok(Value::Absent),
    }
}

/// The names with one input more, where the call leaves it out.
fn with_input<L: Ledger>(
    alloc: Global,
    env: Env,
    input: &TInput,
    steps: &mut Steps<L>,
) -> Result<Env, CallFault>
    requires ready { IsInputReady input.now env }
    ensures value { Tells (spec.with_inputs (input.now ∷ []) env) result }
    ensures steps { steps.new ≤ steps.old + default_counts env (input.now ∷ []) }
{
    let key = Key::plain(alloc, &input.name)?;
    if lookup(env.as_slice(), &key).is_some() {
        return Ok(env);
    }
    let outcome = default_value(alloc, input, &env, steps);
    let value = named(alloc, input.name.as_str(), outcome)?;
    Ok(with_bind(alloc, env, &input.name, value)?)
}

/// The names with each input that the call leaves out: it has its default, or is undefined.
pub fn with_inputs<L: Ledger>(
    alloc: Global,
    inputs: &[TInput],
    mut env: Env,
    steps: &mut Steps<L>,
) -> Result<Env, CallFault>
    requires ready { AreInputsReady inputs.now env }
    ensures value { Tells (spec.with_inputs inputs.now env) result }
    ensures steps { steps.new ≤ steps.old + default_counts env inputs.now }
{
    for input in inputs {
        env = with_input(alloc, env, input, steps)?;
    }
    Ok(env)
}
