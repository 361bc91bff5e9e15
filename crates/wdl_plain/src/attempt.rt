//! Calls of tasks, attempt by attempt (OpenWDL 1.1, "Task Definition", "maxRetries").

ghost use Rattle.std.specs.Prelude.{◌≡◌, ◌≤◌, true, Some, IfOk, map};
ghost use Rattle.wdl_value.specs.Tables.{answer_at, table};
ghost use Rattle.wdl_typed.specs.Flow as flow;
ghost use Rattle.wdl_typed.specs.Requests as requests;
ghost use Rattle.wdl_typed.specs.Declarations.{task_typed};
ghost use Rattle.wdl_task.specs.Readiness.{IsTold, are_given};
ghost use Rattle.wdl_task.specs.Views.{asked_of};
ghost use Rattle.wdl_plain.specs.Attempts as spec;
ghost use Rattle.wdl_plain.specs.Attempts.{IsPrepared};
ghost use Rattle.wdl_flow.specs.Views.{given_of};
ghost use Rattle.wdl_plain.specs.Views.{flowing_of, known_of, knowns_of, run_of};

use crate::flowing::{Flowing, waiting, with_fault, with_jobs};
use crate::giving::{ended_as, missing};
use crate::ground::Ground;
use crate::job::AskedJob;
use crate::known::Known;
use std::alloc::Global;
use std::sync::ledger::Ledger;
use wdl_flow::{Terms, Yielded, output_key};
use wdl_task::{CallFault, Prepared, conclude, prepare, retry};
use wdl_typed::TaskDef;
use wdl_value::{
    Answer, Bind, Env, Fault, Items, Name, NoMemory, Place, Steps, Text, Why, copy_place,
};

/// A call of a task at a place, with what it gives out.
#[derive(Drop)]
pub struct TaskCall<'a> {
    pub task: &'a TaskDef,
    pub name: &'a Name,
    pub place: &'a Place,
}

fn bound_output(alloc: Global, call: &Name, bind: &Bind) -> Result<Known, NoMemory>
    ensures { IfOk result (λ k. known_of k ≡ flow.bound_output call.now bind.now) }
{
    let key = output_key(alloc, call, &bind.key.first)?;
    let value = bind.value.copy(alloc)?;
    Ok(Known {
        key,
        value: Some(value),
    })
}

fn bound_outputs(alloc: Global, call: &Name, outs: &[Bind]) -> Result<Items<Known>, NoMemory>
    ensures { IfOk result (λ ks. knowns_of ks ≡ map (flow.bound_output call.now) outs.now) }
{
    let mut knowns = Items::new(alloc);
    for bind in outs {
        knowns.push(bound_output(alloc, call, bind)?)?;
    }
    Ok(knowns)
}

/// A call that ended with these outputs.
fn ended_call(alloc: Global, call: &Name, outs: &Env) -> Result<Flowing, NoMemory>
    ensures { IfOk result (λ f. flowing_of f ≡ flow.ended_call call.now outs.now) }
{
    let mut given = Flowing::counted(alloc, 0);
    given.names = bound_outputs(alloc, call, outs.as_slice())?;
    given.calls.push(ended_as(alloc, call, true)?)?;
    Ok(given)
}

/// A call that failed: its names are missing.
pub fn failed(
    alloc: Global,
    place: &Place,
    name: Text,
    why: Why,
    given: Yielded,
) -> Result<Flowing, NoMemory>
    ensures { IfOk result (λ f. flowing_of f ≡ flow.with_fault (record { place = place.now; name = name; why = why }) (flow.missing (given_of given))) }
{
    let place = copy_place(alloc, place)?;
    with_fault(alloc, Fault { place, name, why }, missing(alloc, given)?)
}

/// What an attempt gives: the call has ended, or is tried again.
#[derive(Drop)]
pub enum Attempt {
    Ends(Flowing),
    Goes(Yielded),
}

/// A call whose attempt had a status of success.
fn concluded<'a, L: Ledger>(
    alloc: Global,
    call: &TaskCall<'a>,
    given: Yielded,
    prepared: &Prepared,
    answer: &Answer,
    ground: &Ground<'a>,
    steps: &mut Steps<L>,
) -> Result<Flowing, NoMemory>
    requires told { IsTold (run_of ground.now).library.structs call.now.task.now prepared.now }
    ensures { IfOk result (λ f. flowing_of f ≡ flow.concluded (given_of given) call.now.place.now call.now.name.now (requests.tells (run_of ground.now).library.structs call.now.task.now (asked_of prepared.now) prepared.now.request.dir answer.now)) }
{
    let structs = &ground.checked.structs;
    match conclude(alloc, structs, call.task, prepared, answer, steps) {
        Ok(outs) => ended_call(alloc, call.name, &outs),
        Err(CallFault::Bad { name, why }) => failed(alloc, call.place, name, why, given),
        Err(CallFault::NoMemory) => Err(NoMemory),
    }
}

/// A call whose last attempt had no status of success.
fn refused<'a>(
    alloc: Global,
    call: &TaskCall<'a>,
    given: Yielded,
    status: u8,
) -> Result<Flowing, NoMemory>
    ensures { IfOk result (λ f. flowing_of f ≡ flow.with_fault (flow.failing_at call.now.place.now (requests.bad_status status)) (flow.missing (given_of given))) }
{
    let name = Text::from_plain(alloc, "status")?;
    failed(alloc, call.place, name, Why::Status(status), given)
}

/// What an attempt with an answer gives.
fn answered<'a, L: Ledger>(
    alloc: Global,
    call: &TaskCall<'a>,
    given: Yielded,
    prepared: &Prepared,
    answer: &Answer,
    ground: &Ground<'a>,
    steps: &mut Steps<L>,
) -> Result<Attempt, NoMemory>
    requires prepared { IsPrepared (run_of ground.now) call.now prepared.now }
    requires within { prepared.now.request.attempt ≤ prepared.now.retries }
    ensures { IfOk result (spec.Gives (spec.attempted (run_of ground.now) (given_of given) call.now prepared.now (Some answer.now)) (given_of given) prepared.now) }
{
    if prepared.codes.holds(answer.status) {
        let ended = concluded(alloc, call, given, prepared, answer, ground, steps)?;
        return Ok(Attempt::Ends(ended));
    }
    if prepared.request.attempt < prepared.retries {
        return Ok(Attempt::Goes(given));
    }
    Ok(Attempt::Ends(refused(alloc, call, given, answer.status)?))
}

/// A call that waits for an answer.
fn waits(alloc: Global, place: &Place, given: Yielded) -> Result<Flowing, NoMemory>
    ensures { IfOk result (λ f. flowing_of f ≡ flow.waiting place.now (flow.missing (given_of given))) }
{
    let place = copy_place(alloc, place)?;
    waiting(alloc, place, missing(alloc, given)?)
}

/// What an attempt gives, by its answer in the journal.
fn attempted<'a, L: Ledger>(
    alloc: Global,
    call: &TaskCall<'a>,
    given: Yielded,
    prepared: &Prepared,
    ground: &Ground<'a>,
    steps: &mut Steps<L>,
) -> Result<Attempt, NoMemory>
    requires prepared { IsPrepared (run_of ground.now) call.now prepared.now }
    requires within { prepared.now.request.attempt ≤ prepared.now.retries }
    ensures { IfOk result (spec.Gives (spec.attempted (run_of ground.now) (given_of given) call.now prepared.now (answer_at (table ground.now.answers) call.now.place.now prepared.now.request.attempt)) (given_of given) prepared.now) }
{
    match ground.answers.find(call.place, prepared.request.attempt) {
        Some(answer) => answered(alloc, call, given, prepared, answer, ground, steps),
        None => Ok(Attempt::Ends(waits(alloc, call.place, given)?)),
    }
}

/// What is asked for what was prepared.
fn job_of(alloc: Global, prepared: &Prepared) -> Result<AskedJob, NoMemory>
    ensures { IfOk result (λ j. j ≡ spec.job_of prepared.now) }
{
    let request = prepared.request.copy(alloc)?;
    let codes = prepared.codes.copy(alloc)?;
    let terms = Terms::new(codes, prepared.retries);
    Ok(AskedJob { request, terms })
}

/// The attempts of a call, from the first on.
fn attempts<'a, L: Ledger>(
    alloc: Global,
    call: &TaskCall<'a>,
    mut given: Yielded,
    mut prepared: Prepared,
    ground: &Ground<'a>,
    steps: &mut Steps<L>,
) -> Result<Flowing, NoMemory>
    requires prepared { IsPrepared (run_of ground.now) call.now prepared }
    requires first { prepared.request.attempt ≡ 0 }
    ensures { IfOk result (λ f. flowing_of f ≡ spec.attempts (run_of ground.now) (given_of given) call.now prepared) }
{
    let mut jobs = Items::new(alloc);
    'tries: loop {
        jobs.push(job_of(alloc, &prepared)?)?;
        match attempted(alloc, call, given, &prepared, ground, steps)? {
            Attempt::Ends(ends) => return with_jobs(jobs, ends),
            Attempt::Goes(back) => given = back,
        }
        prepared = retry(alloc, &prepared, ground.site)?;
    }
}

/// What a call of a task gives.
pub fn task_flow<'a, L: Ledger>(
    alloc: Global,
    call: &TaskCall<'a>,
    given: Yielded,
    args: &Env,
    ground: &Ground<'a>,
    steps: &mut Steps<L>,
) -> Result<Flowing, NoMemory>
    requires typed { task_typed ground.now.checked.now.structs call.now.task.now ≡ true }
    requires fit { are_given ground.now.checked.now.structs call.now.task.now.inputs args.now ≡ true }
    ensures { IfOk result (λ f. flowing_of f ≡ flow.asked (run_of ground.now) (given_of given) call.now.place.now call.now.task.now call.now.name.now (requests.asks call.now.task.now args.now)) }
{
    match prepare(alloc, call.task, args, ground.site, call.place, 0, steps) {
        Ok(prepared) => attempts(alloc, call, given, prepared, ground, steps),
        Err(CallFault::Bad { name, why }) => failed(alloc, call.place, name, why, given),
        Err(CallFault::NoMemory) => Err(NoMemory),
    }
}
