//! What an answer tells.

ghost use Rattle.std.specs.Prelude.{◌≡◌, ◌≤◌, ◌+◌, length};
ghost use Rattle.wdl_stdlib.specs.Gives.{Gives};
ghost use Rattle.wdl_typed.specs.Requests as spec;
ghost use Rattle.wdl_eval.specs.Ready.{IsReady};
ghost use Rattle.wdl_task.specs.Readiness.{AreOutputsReady, IsTold};
ghost use Rattle.wdl_task.specs.Tells.{Tells};
ghost use Rattle.wdl_task.specs.Views.{asked_of};

use crate::binding::with_bind;
use crate::fault::{CallFault, bad, named};
use crate::landing::{Shore, landed};
use crate::request::Prepared;
use std::alloc::Global;
use std::sync::ledger::Ledger;
use wdl_eval::{EvalFault, eval};
use wdl_typed::{TDecl, TaskDef};
use wdl_value::{Answer, Env, Items, Steps, Structs, Value, Why, copy_env};

/// The value of an output, landed.
fn output<L: Ledger>(
    alloc: Global,
    decl: &TDecl,
    env: &Env,
    shore: &Shore<'_>,
    steps: &mut Steps<L>,
) -> Result<Value, EvalFault>
    requires ready { IsReady decl.now.value env.now }
    ensures value { Gives (spec.output_met shore.now.structs.now shore.now.dir.now shore.now.answer.now env.now decl.now) result }
    ensures steps { steps.new ≡ steps.old + 1 }
{
    let value = eval(
        alloc,
        &decl.value,
        env,
        shore.dir,
        Some(shore.answer),
        steps,
    )?;
    landed(alloc, &value, &decl.ty, shore)
}

/// The outputs in their order; each sees those before it, landed.
fn outputs<L: Ledger>(
    alloc: Global,
    decls: &[TDecl],
    mut env: Env,
    shore: &Shore<'_>,
    steps: &mut Steps<L>,
) -> Result<Env, CallFault>
    requires ready { AreOutputsReady shore.now.structs.now shore.now.dir.now shore.now.answer.now decls.now env }
    ensures value { Tells (spec.outputs_met shore.now.structs.now shore.now.dir.now shore.now.answer.now env decls.now) result }
    ensures steps { steps.new ≤ steps.old + length decls.now }
{
    let mut told = Items::new(alloc);
    for decl in decls {
        let outcome = output(alloc, decl, &env, shore, steps);
        let value = named(alloc, decl.name.as_str(), outcome)?;
        env = with_bind(alloc, env, &decl.name, value.copy(alloc)?)?;
        told = with_bind(alloc, told, &decl.name, value)?;
    }
    Ok(told)
}

/// The outputs of a task, or the status that is no success, or the first fault of the outputs in
/// their order.
pub fn conclude<L: Ledger>(
    alloc: Global,
    structs: &Structs,
    task: &TaskDef,
    prepared: &Prepared,
    answer: &Answer,
    steps: &mut Steps<L>,
) -> Result<Env, CallFault>
    requires told { IsTold structs.now task.now prepared.now }
    ensures value { Tells (spec.tells structs.now task.now (asked_of prepared.now) prepared.now.request.dir answer.now) result }
    ensures steps { steps.new ≤ steps.old + length task.now.outputs }
{
    if !prepared.codes.holds(answer.status) {
        return Err(bad(alloc, "status", Why::Status(answer.status)));
    }
    let env = copy_env(alloc, prepared.env.as_slice())?;
    let shore = Shore {
        structs: structs.as_slice(),
        dir: &prepared.request.dir,
        answer,
    };
    outputs(alloc, task.outputs.as_slice(), env, &shore, steps)
}
