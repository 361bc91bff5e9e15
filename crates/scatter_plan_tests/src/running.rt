//! Runs of a document by a plan, with the flow from scratch after each answer.

ghost use Rattle.std.specs.Prelude.{◌≡◌, ◌<◌, true, IfOk, IfSome, IsSome, OnOk, length};
ghost use Rattle.scatter_plan.specs.Calls.{HasTold};
ghost use Rattle.scatter_plan.specs.Plans.{IsMade, ready_in};
ghost use Rattle.scatter_plan_tests.specs.Inputs.{AreInputsOf};

use crate::comparing::difference;
use crate::numbers::number_of;
use scatter_plan::Plan;
use std::alloc::Global;
use std::marker::Brand;
use std::sync::ledger::{Blank, Ledger};
use std::test::Fail;
use wdl_check_doc::check;
use wdl_imports::gather;
use wdl_json::{inputs_of, outputs_text};
use wdl_plain::{PlainFault, flow_now};
use wdl_port::{MemoryShelf, PathFile};
use wdl_typed::Checked;
use wdl_value::{
    Answer, Body, Entry, Env, Items, NoMemory, Request, Source, Steps, Text, place_text,
};

/// The tasks that each document has besides.
const BEFORE: &str = "version 1.1 import 'a.wdl' as lib \
task one { input { Int a = 4 } command <<< echo ~{a} >>> \
output { Int r = read_int(stdout()) } runtime { maxRetries: 2 } } \
task few { input { Int a = 4 Int b = a + 1 } command <<< echo ~{b} >>> \
output { Int r = read_int(stdout()) Int s = r / (b % 4) } \
runtime { maxRetries: a % 2 returnCodes: [0, 3] } } \
task bare { command <<< echo 1 >>> output { Int r = read_int(stdout()) } } ";

/// The document that each one imports.
const INNER: &str = "version 1.1 \
task one { input { Int a = 4 } command <<< echo ~{a} >>> \
output { Int r = read_int(stdout()) } runtime { maxRetries: 2 } } \
workflow inner { input { Int n = 2 } \
scatter (i in range(n)) { call one { input: a = i } } \
output { Int e = n + 1 Array[Int] f = one.r } } ";

/// What jobs write, as a number picks it: a digit, or now and then no number.
const WRITTEN: &str = "0,1,2,3,4,5,6,7,8,9,0,1,2,3,4,5,6,7,8,9,none";

/// The most answers of a run.
const MOST: usize = 400;

/// What the jobs of a document answer: what a number makes up; where it is 0, the number 3 with the
/// statuses of rows `PLACE ATTEMPT STATUS`.
#[derive(Drop)]
pub struct Told {
    pub rows: Text,
    pub number: u64,
}

impl Told {
    /// The answers of rows, or those of a number that stands in their place.
    pub fn new(alloc: Global, rows: &str) -> Result<Told, Fail> {
        let number = rows.parse::<u64>().unwrap_or(0);
        let rows = Text::new(alloc, rows)?;
        Ok(Told { rows, number })
    }
}

fn push_file(
    alloc: Global,
    files: &mut Items<PathFile>,
    path: &str,
    text: &str,
) -> Result<(), Fail> {
    let path = Text::new(alloc, path)?;
    let bytes = Items::from_slice(alloc, text.as_bytes())?;
    files.push(PathFile { path, bytes })?;
    Ok(())
}

/// The checked form of a document.
pub fn checked_of(alloc: Global, document: &str) -> Result<Option<Checked>, Fail> {
    let text = format!(in alloc; "{BEFORE}{document}")?;
    let mut files = Items::new(alloc);
    push_file(alloc, &mut files, "w.wdl", text.as_str())?;
    push_file(alloc, &mut files, "a.wdl", INNER)?;
    let mut shelf = MemoryShelf::new(files, Items::new(alloc));
    let Ok(library) = gather(alloc, &mut shelf, &Text::new(alloc, "w.wdl")?) else {
        return Ok(None);
    };
    match check(alloc, &library) {
        Ok(checked) => Ok(Some(checked)),
        Err(_) => Ok(None),
    }
}

/// The status that a row tells for an attempt at a place; 0 where none does.
fn status_in(rows: &str, wanted: &str) -> Result<u8, Fail> {
    for row in rows.split(", ") {
        let (told, status) = row.rsplit_once(' ').unwrap_or((row, "0"));
        if told == wanted {
            return Ok(status.parse::<u8>()?);
        }
    }
    Ok(0)
}

/// The status and the output that a number makes up.
fn made_up(number: u64) -> (u8, &'static str) {
    let status = if number % 8 == 0 { 3 } else { 0 };
    let picked = (number / 8 % 21) as usize;
    (status, WRITTEN.split(',').nth(picked).unwrap_or(""))
}

/// The status of the answer to a request, and what it writes.
fn told_of(alloc: Global, told: &Told, request: &Request) -> Result<(u8, &'static str), Fail> {
    let place = place_text(alloc, &request.place)?;
    let wanted = format!(in alloc; "{} {}", place.as_str(), request.attempt)?;
    if told.number != 0 {
        return Ok(made_up(number_of(wanted.as_str(), told.number)));
    }
    Ok((status_in(told.rows.as_str(), wanted.as_str())?, "3"))
}

fn answer_to(alloc: Global, told: &Told, request: &Request) -> Result<Answer, Fail> {
    let (status, text) = told_of(alloc, told, request)?;
    let out = Body::new(Items::from_slice(alloc, text.as_bytes())?);
    let err = Body::new(Items::new(alloc));
    Ok(Answer::new(status, out, err, Items::new(alloc))?)
}

fn entry_of(alloc: Global, told: &Told, request: &Request) -> Result<Entry, Fail>
    ensures { IfOk result (λ entry. entry.request ≡ request.now) }
{
    let answer = answer_to(alloc, told, request)?;
    let request = request.copy(alloc)?;
    Ok(Entry {
        request,
        answer,
        source: Source::Launched,
    })
}

/// The inputs of the main workflow, where none is given.
pub fn no_inputs(alloc: Global, checked: &Checked) -> Result<Env, NoMemory>
    requires main { IsSome checked.now.main }
    ensures fit { IfOk result (AreInputsOf checked.now) }
{
    match inputs_of(alloc, b"{}", checked) {
        Ok(env) => Ok(env),
        Err(_) => Err(NoMemory),
    }
}

/// What differs after the answers so far; nothing where all is the same.
fn mistake<L: Ledger>(
    alloc: Global,
    plan: &Plan,
    checked: &Checked,
    inputs: &Env,
    journal: &[Entry],
    steps: &mut Steps<L>,
) -> Result<&'static str, Fail>
    requires main { IsSome checked.now.main }
    requires fit { AreInputsOf checked.now inputs.now }
{
    let site = Text::new(alloc, "/site")?;
    let Ok(flow) = flow_now(alloc, checked, inputs, &site, journal, steps) else {
        return Ok("!flow");
    };
    Ok(difference(plan, &flow, journal))
}

/// What a run comes to whose plan is past its limits: `past` where the flow is too.
fn past<L: Ledger>(
    alloc: Global,
    checked: &Checked,
    inputs: &Env,
    journal: &[Entry],
    steps: &mut Steps<L>,
) -> Result<Text, Fail>
    requires main { IsSome checked.now.main }
    requires fit { AreInputsOf checked.now inputs.now }
{
    let site = Text::new(alloc, "/site")?;
    let Err(PlainFault::TooMany) = flow_now(alloc, checked, inputs, &site, journal, steps) else {
        return Ok(Text::new(alloc, "!limits")?);
    };
    Ok(Text::new(alloc, "past")?)
}

/// The answer arrives of the attempt that stands there among those that wait, and stands in the
/// journal. Answers whether the plan is within its limits.
fn tell<L: Ledger>(
    alloc: Global,
    told: &Told,
    at: usize,
    journal: &mut Items<Entry>,
    plan: &mut Plan,
    steps: &mut Steps<L>,
) -> Result<bool, Fail>
    requires at { at < length (ready_in plan.old) }
    requires made { IsMade plan.old }
    requires told { HasTold plan.old }
    ensures made { OnOk result (IsMade plan.new) }
    ensures told { IfOk result (λ within. within ≡ true → HasTold plan.new) }
{
    let entry = entry_of(alloc, told, &plan.ready()[at].request)?;
    let (place, attempt) = (&entry.request.place, entry.request.attempt);
    let arrived = plan.arrive(alloc, place, attempt, &entry.answer, steps);
    journal.push(entry)?;
    Ok(arrived.is_ok())
}

/// The outputs of a plan as a JSON text, if it has them.
fn shown(alloc: Global, checked: &Checked, plan: &Plan) -> Result<Text, Fail> {
    match (checked.flows.as_slice().first(), plan.outputs()) {
        (Some(flow), Some(outputs)) => Ok(outputs_text(alloc, &flow.name, outputs.as_slice())?),
        _ => Ok(Text::new(alloc, "no outputs")?),
    }
}

/// Lets the answers arrive, each time the one that the lowest digit of the order tells, to the base
/// of how many may. Answers what the run comes to, as `ended` says.
fn follow<L: Ledger>(
    alloc: Global,
    checked: &Checked,
    inputs: &Env,
    told: &Told,
    order: u64,
    plan: &mut Plan,
    steps: &mut Steps<L>,
) -> Result<Text, Fail>
    requires main { IsSome checked.now.main }
    requires fit { AreInputsOf checked.now inputs.now }
    requires made { IsMade plan.old }
    requires told { HasTold plan.old }
{
    let mut journal = Items::new(alloc);
    let mut order = order;
    for _ in 0..MOST {
        let found = mistake(alloc, plan, checked, inputs, journal.as_slice(), steps)?;
        if found != "" {
            return Ok(Text::new(alloc, found)?);
        }
        let waiting = plan.ready().len();
        if waiting == 0 {
            return shown(alloc, checked, plan);
        }
        let at = order as usize % waiting;
        order /= waiting as u64;
        if !tell(alloc, told, at, &mut journal, plan, steps)? {
            return past(alloc, checked, inputs, journal.as_slice(), steps);
        }
    }
    Ok(Text::new(alloc, "!no end")?)
}

/// The plan of a document with no inputs given; nothing where it has none.
fn plan_of<L: Ledger>(
    alloc: Global,
    document: &str,
    steps: &mut Steps<L>,
) -> Result<Option<Plan>, Fail>
    ensures made { IfOk result (λ plan. IfSome plan IsMade) }
    ensures told { IfOk result (λ plan. IfSome plan HasTold) }
{
    let Some(checked) = checked_of(alloc, document)? else {
        return Ok(None);
    };
    let Some(_) = checked.main else {
        return Ok(None);
    };
    let inputs = no_inputs(alloc, &checked)?;
    let site = Text::new(alloc, "/site")?;
    match Plan::new(alloc, checked, inputs, site, steps) {
        Ok(plan) => Ok(Some(plan)),
        Err(_) => Ok(None),
    }
}

/// What a run of a document comes to, by an order of its answers: as `ended` says.
fn found_in<L: Ledger>(
    alloc: Global,
    document: &str,
    told: &Told,
    order: u64,
    steps: &mut Steps<L>,
) -> Result<Text, Fail> {
    let Some(checked) = checked_of(alloc, document)? else {
        return Ok(Text::new(alloc, "!no checked form")?);
    };
    let Some(_) = checked.main else {
        return Ok(Text::new(alloc, "!no workflow")?);
    };
    let inputs = no_inputs(alloc, &checked)?;
    match plan_of(alloc, document, steps)? {
        Some(mut plan) => follow(alloc, &checked, &inputs, told, order, &mut plan, steps),
        None => past(alloc, &checked, &inputs, &[], steps),
    }
}

/// The same, by a counter that is opened for it.
fn run<L: Ledger>(
    alloc: Global,
    document: &Text,
    told: &Told,
    order: u64,
    blank: Blank,
) -> Result<Text, Fail>
    requires name { blank.name ≡ L.name }
    requires parts { blank.parts ≡ L.parts }
    requires some { 0 < blank.parts }
{
    let mut steps: Steps<L> = Steps::start(blank);
    found_in(alloc, document.as_str(), told, order, &mut steps)
}

/// What a run of a document comes to, by an order of its answers: the outputs as a JSON text,
/// `no outputs`, or `past` where plan and flow are past their limits. Where plan and flow differ,
/// it begins with `!`.
pub fn ended(alloc: Global, document: &Text, told: &Told, order: u64) -> Result<Text, Fail> {
    run::<Brand>(alloc, document, told, order, Blank::new(1))
}
