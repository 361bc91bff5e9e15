ghost use Rattle.std.specs.Prelude.{◌≡◌, true};
ghost use Rattle.wdl_stdlib.specs.Gives.{Gives};
ghost use Rattle.wdl_typed.specs.Evaluation.{value_of};
ghost use Rattle.wdl_typed.specs.Flow as flow;
ghost use Rattle.wdl_typed.specs.Requests.{before};
ghost use Rattle.wdl_eval.specs.Ready.{IsReady};
ghost use Rattle.wdl_plain.specs.Views.{env_in, knowns_of};

use crate::known_names::KnownNames;
use crate::referring::names_with_values;
use std::alloc::Global;
use std::sync::ledger::Ledger;
use wdl_eval::{EvalFault, eval};
use wdl_typed::TExpr;
use wdl_value::{Steps, Text, Value};

/// The value of an expression whose names all have a value. It is evaluated over its own names
/// alone, so its time does not grow with the number of names that are seen.
pub fn value_now<L: Ledger>(
    alloc: Global,
    e: &TExpr,
    names: &KnownNames,
    steps: &mut Steps<L>,
) -> Result<Value, EvalFault>
    requires known { flow.all_known (knowns_of names.now) e.now ≡ true }
    requires ready { IsReady e.now (env_in names.now) }
    ensures { Gives (value_of (before (env_in names.now)) e.now) result }
{
    let env = names_with_values(alloc, e, names)?;
    eval(alloc, e, &env, &Text::empty(alloc), None, steps)
}
