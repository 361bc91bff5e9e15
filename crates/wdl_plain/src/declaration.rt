//! Declarations, inputs and outputs (OpenWDL 1.1, "Workflow Inputs", "Workflow Outputs").

ghost use Rattle.std.specs.Prelude.{◌≡◌, None, IfOk};
ghost use Rattle.wdl_typed.specs.Declarations.{plain_key};
ghost use Rattle.wdl_typed.specs.Flow as flow;
ghost use Rattle.wdl_typed.specs.Scope.{lookup};
ghost use Rattle.wdl_plain.specs.Flows.{Flows};
ghost use Rattle.flow_soundness.specs.Readiness.{
  AreDeclsReady,
  AreInputsReady,
  IsDeclReady,
  IsInputReady,
};
ghost use Rattle.wdl_plain.specs.Views.{env_in, flowing_of, sight_of};

use crate::fault::PlainFault;
use crate::flowing::{Flowing, fault_at, named, with_fault};
use crate::known_names::KnownNames;
use crate::referring::may_evaluate;
use crate::sight::Sight;
use crate::valued::value_now;
use std::alloc::Global;
use std::sync::ledger::Ledger;
use wdl_eval::EvalFault;
use wdl_typed::{TDecl, TExpr, TInput};
use wdl_value::{EvalCode, Key, Name, NoMemory, Place, Steps, Value};

/// A declaration that has a fault: its name is missing.
fn failed_declaration(
    alloc: Global,
    name: &Name,
    place: &Place,
    code: EvalCode,
) -> Result<Flowing, NoMemory>
    ensures { IfOk result (λ f. flowing_of f ≡ flow.with_fault (flow.fault_at place.now name.now code) (flow.named (flow.known name.now None))) }
{
    let fault = fault_at(alloc, place, name, code)?;
    with_fault(alloc, fault, named(alloc, name, None)?)
}

/// A declaration: a value, a fault, or missing where one of its names is.
pub fn declaration<L: Ledger>(
    alloc: Global,
    name: &Name,
    e: &TExpr,
    sight: &Sight,
    steps: &mut Steps<L>,
) -> Result<Flowing, NoMemory>
    requires ready { IsDeclReady e.now (sight_of sight.now) }
    ensures { IfOk result (λ f. flowing_of f ≡ flow.declaration (sight_of sight.now) name.now e.now) }
{
    let known = may_evaluate(alloc, e, &sight.names)?;
    if !known {
        return named(alloc, name, None);
    }
    match value_now(alloc, e, &sight.names, steps) {
        Ok(value) => named(alloc, name, Some(value)),
        Err(EvalFault::Code(code)) => failed_declaration(alloc, name, &sight.place, code),
        Err(EvalFault::NoMemory) => Err(NoMemory),
    }
}

/// The value of a plain name, or missing.
pub fn value_given(
    alloc: Global,
    name: &Name,
    given: &KnownNames,
) -> Result<Option<Value>, NoMemory>
    ensures { IfOk result (λ v. v ≡ lookup (env_in given.now) (plain_key name.now)) }
{
    let key = Key::plain(alloc, name)?;
    match given.lookup(&key) {
        Some(value) => Ok(Some(value.copy(alloc)?)),
        None => Ok(None),
    }
}

/// An input: the value that is given, or its default, or undefined.
fn input_of<L: Ledger>(
    alloc: Global,
    input: &TInput,
    given: &KnownNames,
    sight: &Sight,
    steps: &mut Steps<L>,
) -> Result<Flowing, NoMemory>
    requires ready { IsInputReady (env_in given.now) input.now (sight_of sight.now) }
    ensures { IfOk result (λ f. flowing_of f ≡ flow.input_of (sight_of sight.now) input.now (lookup (env_in given.now) (plain_key input.now.name))) }
{
    if let Some(value) = value_given(alloc, &input.name, given)? {
        return named(alloc, &input.name, Some(value));
    }
    match &input.value {
        Some(e) => declaration(alloc, &input.name, e, sight, steps),
        None => named(alloc, &input.name, Some(Value::Absent)),
    }
}

/// The inputs of a workflow in their order, each seeing those before it.
pub fn inputs<L: Ledger>(
    alloc: Global,
    inputs: &[TInput],
    given: &KnownNames,
    sight: &mut Sight,
    steps: &mut Steps<L>,
) -> Result<Flowing, PlainFault>
    requires ready { AreInputsReady (env_in given.now) inputs.now (sight_of sight.old) }
    ensures flow { Flows (flow.inputs (env_in given.now) inputs.now (sight_of sight.old)) result }
    ensures seen { IfOk result (λ f. sight_of sight.new ≡ flow.seeing (sight_of sight.old) (flowing_of f)) }
{
    let mut total = Flowing::counted(alloc, 0);
    for input in inputs {
        let more = input_of(alloc, input, given, sight, steps)?;
        sight.enter(alloc, &more)?;
        total = total.and(more)?;
    }
    Ok(total)
}

/// The outputs of a workflow in their order, each seeing those before it.
pub fn outputs<L: Ledger>(
    alloc: Global,
    outputs: &[TDecl],
    sight: &mut Sight,
    steps: &mut Steps<L>,
) -> Result<Flowing, PlainFault>
    requires ready { AreDeclsReady outputs.now (sight_of sight.old) }
    ensures flow { Flows (flow.outputs outputs.now (sight_of sight.old)) result }
    ensures seen { IfOk result (λ f. sight_of sight.new ≡ flow.seeing (sight_of sight.old) (flowing_of f)) }
{
    let mut total = Flowing::counted(alloc, 0);
    for output in outputs {
        let more = declaration(alloc, &output.name, &output.value, sight, steps)?;
        sight.enter(alloc, &more)?;
        total = total.and(more)?;
    }
    Ok(total)
}
