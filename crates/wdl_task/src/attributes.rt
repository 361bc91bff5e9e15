//! The runtime attributes `returnCodes` and `maxRetries` (OpenWDL 1.1, "Runtime Section").

ghost use Rattle.std.specs.Prelude.{◌≡◌, ◌+◌, ◌∷◌, [], map, IfOk};
ghost use Rattle.wdl_value.specs.Parts.{int_in as number_of};
ghost use Rattle.wdl_stdlib.specs.Gives.{Gives};
ghost use Rattle.wdl_typed.specs.Requests as spec;
ghost use Rattle.wdl_task.specs.Counts.{codes_count, default_count};
ghost use Rattle.wdl_task.specs.Readiness.{AreCodesReady, IsDefaultReady};
ghost use Rattle.wdl_typed.specs.Statuses.{successes_of};
ghost use Rattle.wdl_task.specs.Views.{GivesAs};

use crate::valued::value_before;
use std::alloc::Global;
use std::sync::ledger::Ledger;
use wdl_eval::EvalFault;
use wdl_stdlib::items_in;
use wdl_typed::{Success, TCodes, TExpr};
use wdl_value::{Env, EvalCode, Items, NoMemory, Steps, Value};

/// The most that `maxRetries` may be.
const RETRY_LIMIT: i64 = 100;

/// The number, or 0.
fn int_in(value: &Value) -> i64
    ensures { result ≡ number_of value.now }
{
    match value {
        Value::Int(n) => *n,
        _ => 0,
    }
}

fn numbers_in(alloc: Global, values: &[Value]) -> Result<Items<i64>, NoMemory>
    ensures { IfOk result (λ ns. ns ≡ map number_of values.now) }
{
    let mut numbers = Items::new(alloc);
    for value in values {
        numbers.push(int_in(value))?;
    }
    Ok(numbers)
}

fn only_one(alloc: Global, n: i64) -> Result<Success, NoMemory>
    ensures { IfOk result (λ s. successes_of s ≡ spec.only_these (n ∷ [])) }
{
    let mut numbers = Items::new(alloc);
    numbers.push(n)?;
    Ok(Success::Only(numbers))
}

/// The statuses of success, by the value of `returnCodes`.
pub fn codes_of<L: Ledger>(
    alloc: Global,
    codes: &TCodes,
    env: &Env,
    steps: &mut Steps<L>,
) -> Result<Success, EvalFault>
    requires ready { AreCodesReady codes.now env.now }
    ensures value { GivesAs successes_of (spec.codes_met env.now codes.now) result }
    ensures steps { steps.new ≡ steps.old + codes_count codes.now }
{
    match codes {
        TCodes::Zero => Ok(Success::Zero),
        TCodes::Any => Ok(Success::Any),
        TCodes::One(e) => {
            let value = value_before(alloc, e, env, steps)?;
            Ok(only_one(alloc, int_in(&value))?)
        }
        TCodes::Many(e) => {
            let value = value_before(alloc, e, env, steps)?;
            Ok(Success::Only(numbers_in(alloc, items_in(&value))?))
        }
    }
}

/// A number of retries, which is at most 100.
fn retries_in(n: i64) -> Result<u32, EvalFault>
    ensures { Gives (spec.retries_in n) result }
{
    if (0..=RETRY_LIMIT).contains(&n) {
        return Ok(n as u32);
    }
    Err(EvalFault::Code(EvalCode::TooLarge))
}

/// The value of `maxRetries`; 0 without it.
pub fn retries_of<L: Ledger>(
    alloc: Global,
    retries: &Option<TExpr>,
    env: &Env,
    steps: &mut Steps<L>,
) -> Result<u32, EvalFault>
    requires ready { IsDefaultReady retries.now env.now }
    ensures value { Gives (spec.retries_met env.now retries.now) result }
    ensures steps { steps.new ≡ steps.old + default_count retries.now }
{
    match retries {
        Some(e) => retries_in(int_in(&value_before(alloc, e, env, steps)?)),
        None => Ok(0),
    }
}
