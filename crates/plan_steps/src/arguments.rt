//! The arguments of calls.

ghost use Rattle.std.specs.Prelude.{◌≤◌, ◌+◌, length};
ghost use Rattle.wdl_typed.specs.Evaluation.{value_of};
ghost use Rattle.wdl_typed.specs.Flow as flow;
ghost use Rattle.wdl_typed.specs.Requests.{before};
ghost use Rattle.wdl_eval.specs.Ready.{IsReady};
ghost use Rattle.wdl_task.specs.Tells.{Tells};
ghost use Rattle.flow_soundness.specs.Readiness.{AreArgsReady};

use std::alloc::Global;
use std::sync::ledger::Ledger;
use wdl_eval::{LentBind, eval_lent};
use wdl_names::Index;
use wdl_task::{CallFault, named};
use wdl_typed::{TExpr, TField};
use wdl_value::{Bind, Env, Items, Steps, Value};

/// The value of an argument.
fn argument<'a, L: Ledger>(
    alloc: Global,
    arg: &TField<TExpr>,
    env: &Index<LentBind<'a>>,
    steps: &mut Steps<L>,
) -> Result<Value, CallFault>
    requires ready { IsReady arg.now.value env.now }
    ensures value { Tells (flow.named_arg arg.now.name (value_of (before env.now) arg.now.value)) result }
    ensures steps { steps.new ≤ steps.old + 1 }
{
    let outcome = eval_lent(alloc, &arg.value, env, steps);
    named(alloc, arg.name.as_str(), outcome)
}

/// The arguments in their order; the first fault is the answer.
pub fn args_met<'a, L: Ledger>(
    alloc: Global,
    args: &[TField<TExpr>],
    env: &Index<LentBind<'a>>,
    steps: &mut Steps<L>,
) -> Result<Env, CallFault>
    requires ready { AreArgsReady env.now args.now }
    ensures value { Tells (flow.args_met env.now args.now) result }
    ensures steps { steps.new ≤ steps.old + length args.now }
{
    let mut met = Items::new(alloc);
    for arg in args {
        let value = argument(alloc, arg, env, steps)?;
        met.push(Bind::plain(alloc, &arg.name, value)?)?;
    }
    Ok(met)
}
