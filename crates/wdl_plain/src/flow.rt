ghost use Rattle.std.specs.Prelude.{◌≡◌, ◌++◌, true, ℕ, length, map, slice_get, IfOk, OnOk, IsSome};
ghost use Rattle.wdl_typed.specs.declared.flow.FlowDef.{FlowDef};
ghost use Rattle.wdl_typed.specs.Declarations.{plain_key};
ghost use Rattle.wdl_typed.specs.Flow as flow;
ghost use Rattle.wdl_typed.specs.Journal.{inputs_fit};
ghost use Rattle.wdl_typed.specs.Scope.{lookup};
ghost use Rattle.wdl_plain.specs.Shown as spec;
ghost use Rattle.wdl_plain.specs.Views.{env_in, flowing_of, knowns_of, requests_in};

use crate::answers::Answers;
use crate::callee::names_of;
use crate::fault::PlainFault;
use crate::flowing::Flowing;
use crate::ground::Ground;
use crate::job::AskedJob;
use crate::known::Known;
use crate::known_names::KnownNames;
use crate::walk::{Reach, flow_of};
use std::alloc::Global;
use std::sync::ledger::Ledger;
use wdl_flow::Terms;
use wdl_typed::{Checked, FlowDef, TDecl};
use wdl_value::{Bind, Entry, Env, Fault, Items, Key, NoMemory, Place, Request, Steps, Text};

/// What a workflow gives over a journal: the names with a value, the requests, for each of these
/// the terms of its job, the faults and the places that wait for an answer, each in the order of
/// the definition, and the outputs where there are no faults and no waits.
#[derive(Debug, Drop)]
pub struct Flow {
    pub known: Items<Bind>,
    pub jobs: Items<Request>,
    pub terms: Items<Terms>,
    pub faults: Items<Fault>,
    pub waits: Items<Place>,
    pub outputs: Option<Env>,
}

fn bind_of(alloc: Global, output: &TDecl, names: &KnownNames, env: &mut Env) -> Result<(), NoMemory>
    ensures { OnOk result (env.new ≡ env.old ++ flow.bound_by (plain_key output.now.name) (lookup (env_in names.now) (plain_key output.now.name))) }
{
    let key = Key::plain(alloc, &output.name)?;
    if let Some(value) = names.lookup(&key) {
        let value = value.copy(alloc)?;
        env.push(Bind { key, value })?;
    }
    Ok(())
}

fn outputs_in(alloc: Global, outputs: &[TDecl], names: &KnownNames) -> Result<Env, NoMemory>
    ensures { IfOk result (λ e. e ≡ flow.env_of (map (λ d. flow.known d.name (lookup (env_in names.now) (plain_key d.name))) outputs.now)) }
{
    let mut env = Items::new(alloc);
    for output in outputs {
        bind_of(alloc, output, names, &mut env)?;
    }
    Ok(env)
}

fn push_known(alloc: Global, known: &Known, env: &mut Env) -> Result<(), NoMemory>
    ensures { OnOk result (env.new ≡ env.old ++ flow.bound_by known.now.key known.now.value) }
{
    if let Some(value) = &known.value {
        let key = known.key.copy(alloc)?;
        let value = value.copy(alloc)?;
        env.push(Bind { key, value })?;
    }
    Ok(())
}

fn env_of(alloc: Global, knowns: &[Known]) -> Result<Env, NoMemory>
    ensures { IfOk result (λ e. e ≡ env_in knowns.now) }
{
    let mut env = Items::new(alloc);
    for known in knowns {
        push_known(alloc, known, &mut env)?;
    }
    Ok(env)
}

/// The outputs of the main workflow among its names, where there are no faults and no waits.
fn outputs_of(
    alloc: Global,
    main: &FlowDef,
    names: Items<Known>,
    clean: bool,
) -> Result<Option<Env>, NoMemory>
    ensures { IfOk result (λ o. o ≡ spec.outputs_where clean (knowns_of names) main.now) }
{
    if !clean {
        return Ok(None);
    }
    let names = KnownNames::of(alloc, names)?;
    let outputs = outputs_in(alloc, main.outputs.as_slice(), &names)?;
    Ok(Some(outputs))
}

/// The requests of jobs, and the terms of each.
fn split(
    alloc: Global,
    mut jobs: Items<AskedJob>,
) -> Result<(Items<Request>, Items<Terms>), NoMemory>
    ensures { IfOk result (λ s. s ≡ (requests_in jobs, map spec.statuses_of jobs)) }
{
    let mut requests = Vec::with_capacity(alloc, jobs.len())?;
    let mut terms = Vec::with_capacity(alloc, jobs.len())?;
    while let Some(job) = jobs.pop() {
        requests.push(job.request)?;
        terms.push(job.terms)?;
    }
    requests.reverse();
    terms.reverse();
    Ok((Items::from_vec(requests), Items::from_vec(terms)))
}

fn shown(alloc: Global, main: &FlowDef, flow: Flowing) -> Result<Flow, NoMemory>
    ensures shown { IfOk result (spec.IsShownAs (flowing_of flow) main.now) }
    ensures paired { IfOk result (λ s. length s.terms ≡ length s.jobs) }
{
    let clean = flow.is_clean();
    let known = env_of(alloc, flow.names.as_slice())?;
    let outputs = outputs_of(alloc, main, flow.names, clean)?;
    let (jobs, terms) = split(alloc, flow.jobs)?;
    Ok(Flow {
        known,
        jobs,
        terms,
        faults: flow.faults,
        waits: flow.waits,
        outputs,
    })
}

/// What the main workflow gives for its inputs over a journal, evaluated from scratch. `TooMany`
/// exactly where it has more than 20,000 jobs or more than 1,000,000 instances of statements. There
/// are as many terms as requests.
pub fn flow_now<L: Ledger>(
    alloc: Global,
    checked: &Checked,
    inputs: &Env,
    site: &Text,
    journal: &[Entry],
    steps: &mut Steps<L>,
) -> Result<Flow, PlainFault>
    requires main { IsSome checked.now.main }
    requires fit { (k : ℕ) (main : FlowDef) → checked.now.main ≡ Some k → slice_get checked.now.flows k ≡ Some main → inputs_fit checked.now.structs main.inputs inputs.now ≡ true }
    ensures shown { spec.IsShown checked.now inputs.now site.now journal.now result }
    ensures paired { IfOk result (λ f. length f.terms ≡ length f.jobs) }
{
    let Some(k) = checked.main else {
        unreachable!();
    };
    let Some(main) = checked.flows.get(k as usize) else {
        unreachable!();
    };
    let ground = Ground {
        checked,
        site,
        answers: Answers::new(alloc, journal)?,
    };
    let given = names_of(alloc, inputs.as_slice())?;
    let reach = Reach {
        levels: 24,
        calls: 25,
    };
    let flow = flow_of(alloc, k, &given, Items::new(alloc), reach, &ground, steps)?;
    Ok(shown(alloc, main, flow)?)
}
