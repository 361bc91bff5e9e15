//! What a call of a workflow takes and gives (OpenWDL 1.1, "Call Statement").

ghost use Rattle.std.specs.Prelude.{◌≡◌, ◌∷◌, [], map, IfOk};
ghost use Rattle.wdl_typed.specs.Flow as flow;
ghost use Rattle.wdl_plain.specs.Views.{env_in, flowing_of, known_of, knowns_of};

use crate::declaration::value_given;
use crate::flowing::Flowing;
use crate::giving::ended_as;
use crate::known::{Ended, Known};
use crate::known_names::KnownNames;
use std::alloc::Global;
use wdl_flow::output_key;
use wdl_typed::TDecl;
use wdl_value::{Bind, Items, Name, NoMemory};

fn known_bind(alloc: Global, bind: &Bind) -> Result<Known, NoMemory>
    ensures { IfOk result (λ k. flow.env_of (known_of k ∷ []) ≡ bind.now ∷ []) }
{
    let key = bind.key.copy(alloc)?;
    let value = bind.value.copy(alloc)?;
    Ok(Known {
        key,
        value: Some(value),
    })
}

/// The names with their values in an index.
pub fn names_of(alloc: Global, env: &[Bind]) -> Result<KnownNames, NoMemory>
    ensures { IfOk result (λ n. env_in n ≡ env.now) }
{
    let mut names = KnownNames::empty(alloc);
    for bind in env {
        names.enter(known_bind(alloc, bind)?)?;
    }
    Ok(names)
}

fn output_of(
    alloc: Global,
    call: &Name,
    output: &TDecl,
    names: &KnownNames,
) -> Result<Known, NoMemory>
    ensures { IfOk result (λ k. known_of k ≡ flow.output_of (knowns_of names.now) call.now output.now) }
{
    let key = output_key(alloc, call, &output.name)?;
    let value = value_given(alloc, &output.name, names)?;
    Ok(Known { key, value })
}

fn outputs_of(
    alloc: Global,
    call: &Name,
    outputs: &[TDecl],
    names: &KnownNames,
) -> Result<Items<Known>, NoMemory>
    ensures { IfOk result (λ ks. knowns_of ks ≡ map (flow.output_of (knowns_of names.now) call.now) outputs.now) }
{
    let mut knowns = Items::new(alloc);
    for output in outputs {
        knowns.push(output_of(alloc, call, output, names)?)?;
    }
    Ok(knowns)
}

/// The outputs of a call among the names of the workflow.
fn outputs_among(
    alloc: Global,
    call: &Name,
    outputs: &[TDecl],
    names: Items<Known>,
) -> Result<Items<Known>, NoMemory>
    ensures { IfOk result (λ ks. knowns_of ks ≡ map (flow.output_of (knowns_of names) call.now) outputs.now) }
{
    let names = KnownNames::of(alloc, names)?;
    outputs_of(alloc, call, outputs, &names)
}

fn one_call(alloc: Global, call: &Name, ended: bool) -> Result<Items<Ended>, NoMemory>
    ensures { IfOk result (λ es. es ≡ record { call = call.now; ended = ended } ∷ []) }
{
    let mut calls = Items::new(alloc);
    calls.push(ended_as(alloc, call, ended)?)?;
    Ok(calls)
}

/// What a call of a workflow gives, of what the workflow does.
pub fn flow_ended(
    alloc: Global,
    call: &Name,
    outputs: &[TDecl],
    inner: Flowing,
) -> Result<Flowing, NoMemory>
    ensures { IfOk result (λ f. flowing_of f ≡ flow.flow_ended call.now outputs.now (flowing_of inner)) }
{
    let calls = one_call(alloc, call, inner.is_clean())?;
    let names = outputs_among(alloc, call, outputs, inner.names)?;
    Ok(Flowing {
        names,
        calls,
        jobs: inner.jobs,
        faults: inner.faults,
        waits: inner.waits,
        count: inner.count,
    })
}
