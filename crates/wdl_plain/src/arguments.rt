//! The arguments of calls.

ghost use Rattle.std.specs.Prelude.{◌≡◌, ◌&&◌, true, IfOk};
ghost use Rattle.std.specs.List.{list_all};
ghost use Rattle.wdl_typed.specs.Evaluation.{value_of};
ghost use Rattle.wdl_typed.specs.Requests.{before};
ghost use Rattle.wdl_eval.specs.Ready.{IsReady};
ghost use Rattle.wdl_task.specs.Tells.{Tells};
ghost use Rattle.flow_soundness.specs.Readiness.{AreArgsReady};
ghost use Rattle.wdl_typed.specs.Flow as flow;
ghost use Rattle.wdl_plain.specs.Views.{endeds_of, env_in, knowns_of};

use crate::known_names::KnownNames;
use crate::referring::may_evaluate;
use crate::sight::Sight;
use crate::valued::value_now;
use std::alloc::Global;
use std::sync::ledger::Ledger;
use wdl_task::{CallFault, named};
use wdl_typed::{TCall, TExpr, TField};
use wdl_value::{Bind, Env, Items, Name, NoMemory, Steps, Value};

fn args_known(alloc: Global, args: &[TField<TExpr>], names: &KnownNames) -> Result<bool, NoMemory>
    ensures { IfOk result (λ b. b ≡ flow.args_known (knowns_of names.now) args.now) }
{
    for arg in args {
        if !may_evaluate(alloc, &arg.value, names)? {
            return Ok(false);
        }
    }
    Ok(true)
}

fn have_ended(after: &[Name], sight: &Sight) -> bool
    ensures { result ≡ list_all (flow.has_ended (endeds_of sight.now.calls)) after.now }
{
    for call in after {
        if !sight.calls.has_ended(call) {
            return false;
        }
    }
    true
}

/// Whether the names of a call's arguments all have a value, and the calls that it comes after have
/// ended.
pub fn may_begin(alloc: Global, call: &TCall, sight: &Sight) -> Result<bool, NoMemory>
    ensures { IfOk result (λ b. b ≡ (flow.args_known (knowns_of sight.now.names) call.now.args && list_all (flow.has_ended (endeds_of sight.now.calls)) call.now.after)) }
{
    let known = args_known(alloc, call.args.as_slice(), &sight.names)?;
    Ok(known && have_ended(call.after.as_slice(), sight))
}

/// The value of an argument.
fn argument<L: Ledger>(
    alloc: Global,
    arg: &TField<TExpr>,
    names: &KnownNames,
    steps: &mut Steps<L>,
) -> Result<Value, CallFault>
    requires known { flow.all_known (knowns_of names.now) arg.now.value ≡ true }
    requires ready { IsReady arg.now.value (env_in names.now) }
    ensures { Tells (flow.named_arg arg.now.name (value_of (before (env_in names.now)) arg.now.value)) result }
{
    let outcome = value_now(alloc, &arg.value, names, steps);
    named(alloc, arg.name.as_str(), outcome)
}

/// The arguments in their order; the first fault is the answer.
pub fn args_met<L: Ledger>(
    alloc: Global,
    args: &[TField<TExpr>],
    names: &KnownNames,
    steps: &mut Steps<L>,
) -> Result<Env, CallFault>
    requires known { flow.args_known (knowns_of names.now) args.now ≡ true }
    requires ready { AreArgsReady (env_in names.now) args.now }
    ensures { Tells (flow.args_met (env_in names.now) args.now) result }
{
    let mut env = Items::new(alloc);
    for arg in args {
        let value = argument(alloc, arg, names, steps)?;
        env.push(Bind::plain(alloc, &arg.name, value)?)?;
    }
    Ok(env)
}
