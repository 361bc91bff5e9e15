//! The values of expressions before the command has run, when no file is there.

ghost use Rattle.std.specs.Prelude.{◌≡◌, ◌+◌};
ghost use Rattle.wdl_stdlib.specs.Gives.{Gives};
ghost use Rattle.wdl_typed.specs.Evaluation as spec;
ghost use Rattle.wdl_typed.specs.Requests.{before};
ghost use Rattle.wdl_eval.specs.Ready.{IsReady};

use std::alloc::Global;
use std::sync::ledger::Ledger;
use wdl_eval::{EvalFault, eval};
use wdl_typed::TExpr;
use wdl_value::{Env, Steps, Text, Value};

/// The value of an expression before the command has run.
pub fn value_before<L: Ledger>(
    alloc: Global,
    e: &TExpr,
    env: &Env,
    steps: &mut Steps<L>,
) -> Result<Value, EvalFault>
    requires ready { IsReady e.now env.now }
    ensures value { Gives (spec.value_of (before env.now) e.now) result }
    ensures steps { steps.new ≡ steps.old + 1 }
{
    eval(alloc, e, env, &Text::empty(alloc), None, steps)
}
