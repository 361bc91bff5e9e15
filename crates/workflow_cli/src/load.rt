//! The workflow that `load` makes and runs: over a shelf of its own that has its document, and with
//! a launcher of its own that has its answers.

ghost use Rattle.std.specs.Prelude.{◌≡◌, ◌≤◌, [], None, IfErr, IfOk};
ghost use Rattle.report_text.specs.Lines.{HasPath};
ghost use Rattle.wdl_load.specs.Loads.{AreLoadRows};
ghost use Rattle.wdl_typed.specs.declared.flow.FlowDef.{FlowDef as Flow};
ghost use Rattle.work_desk.specs.Keeping.{KeeperView};
ghost use Rattle.workflow_stages.specs.Paths.{HasPaths};
ghost use Rattle.workflow_cli.specs.Loading as spec;
ghost use Rattle.workflow_cli.specs.Running.{Lapses, work_trace};
ghost use Rattle.workflow_cli.specs.Stages.{IsFitting, main_with};

use crate::asking::{Report, RunOptions};
use crate::ended::Worked;
use crate::run::{idle, run_plain};
use report_text::Status;
use run_watch::Silent;
use std::alloc::Global;
use std::sync::Wait;
use std::sync::ledger::Ledger;
use std::thread::Threads;
use std::time::Clock;
use wdl_load::{load_table, load_text};
use wdl_port::{MemoryShelf, TableLauncher};
use wdl_value::{NoMemory, Steps, Text};
use workflow_stages::{CommandStop, Prepared, Work, shelf_of, start_of, stop_of};

/// The path of the document on its shelf.
const FILE: &str = "load.wdl";

/// The directory below which the jobs would run.
const SITE: &str = "/tmp/wdl-run";

/// The workers of a load.
const WORKERS: u32 = 4;

/// The document of a load on a shelf of its own, and its path.
#[derive(Drop)]
struct Source {
    file: Text,
    shelf: MemoryShelf,
}

/// The document of a load, on a shelf that has nothing else.
fn source_of(alloc: Global, number: u32) -> Result<Source, NoMemory>
    requires number { (1 ≤ number) × (number ≤ 10000) }
    ensures file { IfOk result (λ s. s.file ≡ spec.load_file) }
    ensures files { IfOk result (λ s. s.shelf.files ≡ spec.load_files number) }
    ensures fails { IfOk result (λ s. s.shelf.fails ≡ []) }
{
    let file = Text::from_plain(alloc, FILE)?;
    let text = load_text(alloc, number)?;
    let shelf = shelf_of(alloc, &file, &text)?;
    Ok(Source { file, shelf })
}

/// The checked form of the document of a load.
fn load_start(alloc: Global, number: u32) -> Result<Prepared, CommandStop>
    requires number { (1 ≤ number) × (number ≤ 10000) }
    ensures outcome { spec.Starts number result }
    ensures fitting { IfOk result (λ p. (f : Flow) × IsFitting p.checked p.given f) }
    ensures paths { IfErr result (λ s. HasPath s.status s.paths) }
{
    let Ok(Source { file, mut shelf }) = source_of(alloc, number) else {
        return Err(stop_of(alloc, Status::NoMemory));
    };
    start_of(alloc, &file, &None, &mut shelf)
}

/// What a load runs with: its options and its answers.
#[derive(Drop)]
struct Means {
    options: RunOptions,
    table: TableLauncher,
}

/// What a load of so many calls runs with.
fn means_of(alloc: Global, number: u32) -> Result<Means, NoMemory>
    requires number { (1 ≤ number) × (number ≤ 10000) }
    ensures options { IfOk result (λ m. m.options ≡ spec.load_options number) }
    ensures workers { IfOk result (λ m. (1 ≤ m.options.workers) × (m.options.workers ≤ 64)) }
    ensures none { IfOk result (λ m. m.options.journal ≡ None) }
    ensures rows { IfOk result (λ m. AreLoadRows number m.table.rows) }
    ensures refused { IfOk result (λ m. m.table.refused ≡ []) }
{
    let root = Text::from_plain(alloc, SITE)?;
    let table = load_table(alloc, number)?;
    let options = RunOptions {
        workers: WORKERS,
        root,
        journal: None,
        report: Report::Load(number),
    };
    Ok(Means { options, table })
}

/// Runs the workflow of a load over its answers.
fn run_load<R: Threads + Wait + Clock + Sync, S: Ledger>(
    rt: &R,
    alloc: Global,
    prepared: Prepared,
    number: u32,
    steps: &mut Steps<S>,
) -> Worked
    requires number { (1 ≤ number) × (number ≤ 10000) }
    requires fitting { (f : Flow) × IsFitting prepared.checked prepared.given f }
    ensures value { (f : Flow) → IsFitting prepared.checked prepared.given f → (lapses : Lapses) (k : KeeperView)
        → spec.RunsLoad number (work_trace result steps.old steps.new lapses k k)
        (main_with prepared.checked prepared.given (spec.load_options number) f) result.work }
    ensures paths { HasPaths result.work }
{
    let Ok(Means { options, table }) = means_of(alloc, number) else {
        return idle(alloc, Work::Stop(stop_of(alloc, Status::NoMemory)));
    };
    run_plain(rt, alloc, prepared, &options, &table, &mut Silent, steps)
}

/// Makes a workflow of so many calls and runs it by 4 workers. No command is started: the answers
/// of its jobs come from a table.
pub fn load<R: Threads + Wait + Clock + Sync, S: Ledger>(
    rt: &R,
    alloc: Global,
    number: u32,
    steps: &mut Steps<S>,
) -> Worked
    requires number { (1 ≤ number) × (number ≤ 10000) }
    ensures value { (lapses : Lapses) (k : KeeperView) → spec.LoadsAs number (work_trace result steps.old steps.new lapses k k) result.work }
    ensures paths { HasPaths result.work }
{
    match load_start(alloc, number) {
        Ok(prepared) => run_load(rt, alloc, prepared, number, steps),
        Err(stop) => idle(alloc, Work::Stop(stop)),
    }
}
