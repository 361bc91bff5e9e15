//! The run of the main workflow.

ghost use Rattle.std.specs.Prelude.{
  ◌≡◌,
  ◌≤◌,
  ◌⊎◌,
  ◌++◌,
  true,
  ℕ,
  List,
  [],
  codes,
  None,
  Some,
  IfOk,
};
ghost use Rattle.report_text.specs.Lines.{HasPath};
ghost use Rattle.ready_core.specs.Cores.{IsPaidFor, flow_of, has_fault};
ghost use Rattle.ready_core.specs.Flows.{outputs_in};
ghost use Rattle.wdl_json.specs.Outputs.{outputs_text as spec_text};
ghost use Rattle.wdl_port.specs.Causes.{Rose};
ghost use Rattle.wdl_port.specs.Rows.{are_kept, rises};
ghost use Rattle.wdl_typed.specs.declared.flow.FlowDef.{FlowDef as Flow};
ghost use Rattle.work_desk.specs.Keeping.{IsReady, KeeperView, keeper_view};
ghost use Rattle.work_desk.specs.Ran.{IsDone};
ghost use Rattle.work_desk.specs.Views.{AllEqual};
ghost use Rattle.work_desk.specs.declared.stop.Stop.TheVariants as end;
ghost use Rattle.workflow_stages.specs.Counting.{WorkCounts};
ghost use Rattle.workflow_stages.specs.Paths.{HasPaths};
ghost use Rattle.workflow_cli.specs.Reporting.{report_line};
ghost use Rattle.workflow_cli.specs.Running.{Lapses, NamesJournal, work_trace};
ghost use Rattle.workflow_cli.specs.Stages.{
  IsBegun,
  IsFailedAs,
  IsFitting,
  IsOpened,
  RunsFile,
  RunsMain,
  StopsAs,
  Turns,
  main_with,
};

use crate::asking::{Report, RunOptions};
use crate::ended::Worked;
use crate::journal::rows_of;
use crate::load_line::load_line;
use ready_core::{Core, History};
use report_text::Status;
use run_watch::Watch;
use std::alloc::Global;
use std::sync::Wait;
use std::sync::ledger::Ledger;
use std::thread::Threads;
use std::time::Clock;
use wdl_json::outputs_text;
use wdl_port::{Keeper, Launcher, NoKeeper, Shelf, Sink};
use wdl_value::{Bind, Counts, Entry, Env, Items, Name, NoMemory, Steps, Text};
use work_desk::{Ran, Stop, run_all};
use workflow_stages::{Explain, Prepared, Work, main_flow, start_of, stop_of, tell};

/// The outputs as one JSON object, and a newline.
fn text_of(alloc: Global, name: &Name, outputs: &[Bind]) -> Result<Text, NoMemory>
    ensures value { IfOk result (λ t. t ≡ spec_text name.now outputs.now ++ codes "\n") }
{
    let mut text = outputs_text(alloc, name, outputs)?;
    text.push_ascii(b'\n')?;
    Ok(text)
}

/// What is reported of a run with these outputs.
fn report_of(
    alloc: Global,
    report: Report,
    name: &Name,
    core: &Core,
    outputs: &[Bind],
) -> Result<Text, NoMemory>
    requires outputs { outputs.now ≡ outputs_in core.now.origin.checked (flow_of core.now) }
    ensures value { IfOk result (λ t. t ≡ report_line report name.now core.now) }
{
    match report {
        Report::Outputs => text_of(alloc, name, outputs),
        Report::Load(number) => load_line(alloc, number, core.journal().len(), outputs),
    }
}

/// The work of a run without a stop.
#[tactic(auto, using(crate::proofs::Left::outcome_is))]
fn outputs_work(alloc: Global, report: Report, name: &Name, core: &Core) -> Work
    requires done { IsDone core.now }
    ensures turns { Turns report name.now core.now None result }
    ensures paths { HasPaths result }
{
    let Some(outputs) = core.outcome() else {
        unreachable!();
    };
    match report_of(alloc, report, name, core, outputs.as_slice()) {
        Ok(text) => Work::Text(text),
        Err(_) => Work::Stop(stop_of(alloc, Status::NoMemory)),
    }
}

/// The status of a run that met a fault: a fault of its flow, or that the flow is past its limits.
#[tactic(auto, using(crate::proofs::Left::past_limits))]
fn failed_status(alloc: Global, core: &Core) -> Status
    requires failed { has_fault (flow_of core.now) ≡ true }
    ensures value { IsFailedAs core.now result }
    ensures paths { HasPath result [] }
{
    match core.fault() {
        Some(fault) => match fault.copy(alloc) {
            Ok(fault) => Status::Failed(fault),
            Err(_) => Status::NoMemory,
        },
        None => Status::TooMany,
    }
}

/// The status of a run that stopped.
fn status_of(alloc: Global, core: &Core, why: Stop) -> Status
    requires failed { why ≡ end.Failed → has_fault (flow_of core.now) ≡ true }
    ensures value { StopsAs core.now why result }
    ensures paths { HasPath result [] }
{
    match why {
        Stop::Failed => failed_status(alloc, core),
        Stop::NoMemory => Status::NoMemory,
        Stop::Launch(place) => Status::Launch(place),
        Stop::Keep => Status::Keep,
        Stop::TooMany => Status::TooMany,
    }
}

/// What the end of a run comes to.
#[tactic(auto, using(crate::proofs::Starting::stop_turns))]
fn work_of(alloc: Global, report: Report, name: &Name, core: &Core, why: Option<Stop>) -> Work
    requires done { why ≡ None → IsDone core.now }
    requires failed { why ≡ Some end.Failed → has_fault (flow_of core.now) ≡ true }
    ensures turns { Turns report name.now core.now why result }
    ensures paths { HasPaths result }
{
    match why {
        None => outputs_work(alloc, report, name, core),
        Some(why) => Work::Stop(stop_of(alloc, status_of(alloc, core, why))),
    }
}

/// The work of a command that ran nothing.
pub fn idle(alloc: Global, work: Work) -> Worked
    ensures work { result.work ≡ work }
    ensures journal { result.journal ≡ [] }
    ensures steps { result.steps ≡ [] }
    ensures counts { AllEqual result.counts 0 }
{
    Worked {
        work,
        journal: Items::new(alloc),
        steps: Items::new(alloc),
        counts: Counts {
            put: 0,
            picked: 0,
            finished: 0,
            collected: 0,
        },
    }
}

/// The work of a run that ended.
fn worked(alloc: Global, report: Report, name: &Name, ran: Ran) -> Worked
    requires done { ran.stop ≡ None → IsDone ran.core }
    requires failed { ran.stop ≡ Some end.Failed → has_fault (flow_of ran.core) ≡ true }
    ensures turns { Turns report name.now ran.core ran.stop result.work }
    ensures paths { HasPaths result.work }
    ensures journal { result.journal ≡ ran.core.journal }
    ensures steps { result.steps ≡ ran.core.steps }
    ensures counts { result.counts ≡ ran.counts }
{
    let Ran { core, stop, counts } = ran;
    let work = work_of(alloc, report, name, &core, stop);
    let History { journal, steps } = core.into_history();
    Worked {
        work,
        journal,
        steps,
        counts,
    }
}

/// The core of the main workflow before anything is taken, and the name of the workflow.
#[derive(Drop)]
pub struct Begun {
    pub core: Core,
    pub name: Name,
}

/// Begins a run of the main workflow.
#[tactic(auto, using(crate::proofs::Starting::has_main, crate::proofs::Starting::fits_main, crate::proofs::Starting::begun_is))]
fn begin<S: Ledger>(
    alloc: Global,
    prepared: Prepared,
    root: &Text,
    steps: &mut Steps<S>,
) -> Result<Begun, NoMemory>
    requires fitting { (f : Flow) × IsFitting prepared.checked prepared.given f }
    ensures value { IfOk result (λ b. (f : Flow) → IsFitting prepared.checked prepared.given f
        → IsBegun prepared.checked prepared.given root.now f b) }
    ensures paid { IfOk result (λ b. IsPaidFor steps.old steps.new b.core) }
{
    let Some(flow) = main_flow(&prepared.checked) else {
        unreachable!();
    };
    let name = flow.name.copy(alloc)?;
    let site = root.copy(alloc)?;
    let Prepared {
        checked,
        paths: _,
        given,
    } = prepared;
    let core = Core::new(alloc, checked, given, site, steps)?;
    Ok(Begun { core, name })
}

/// Runs the main workflow without a journal.
pub fn run_plain<L: Launcher + Sync, P: Watch, R: Threads + Wait + Clock + Sync, S: Ledger>(
    rt: &R,
    alloc: Global,
    prepared: Prepared,
    options: &RunOptions,
    launcher: &L,
    progress: &mut P,
    steps: &mut Steps<S>,
) -> Worked
    requires fitting { (f : Flow) × IsFitting prepared.checked prepared.given f }
    requires workers { (1 ≤ options.now.workers) × (options.now.workers ≤ 64) }
    requires none { options.now.journal ≡ None }
    ensures value { (f : Flow) → IsFitting prepared.checked prepared.given f → (lapses : Lapses) (k : KeeperView)
        → RunsMain (L.gives launcher.now) (L.refuses launcher.now)
        (work_trace result steps.old steps.new lapses k k)
        (main_with prepared.checked prepared.given options.now f) result.work }
    ensures paths { HasPaths result.work }
{
    let Ok(Begun { core, name }) = begin(alloc, prepared, &options.root, steps) else {
        return idle(alloc, Work::Stop(stop_of(alloc, Status::NoMemory)));
    };
    progress.start();
    let ran = run_all(
        rt,
        alloc,
        core,
        launcher,
        None::<&mut NoKeeper>,
        Items::new(alloc),
        options.workers,
        progress,
        steps,
    );
    progress.end(alloc, &ran.core, &options.root);
    worked(alloc, options.report, &name, ran)
}

/// Runs the main workflow over the rows of its journal, and keeps its answers there.
fn run_over<L: Launcher + Sync, K: Keeper, P: Watch, R: Threads + Wait + Clock + Sync, S: Ledger>(
    rt: &R,
    alloc: Global,
    prepared: Prepared,
    options: &RunOptions,
    rows: Items<Entry>,
    launcher: &L,
    keeper: &mut K,
    progress: &mut P,
    steps: &mut Steps<S>,
) -> Worked
    requires fitting { (f : Flow) × IsFitting prepared.checked prepared.given f }
    requires workers { (1 ≤ options.now.workers) × (options.now.workers ≤ 64) }
    requires ready { IsReady rows (keeper_view (K.kept keeper.old) (K.path keeper.old) (K.faults keeper.old)) }
    requires rise { rises rows ≡ true }
    requires kept { are_kept rows ≡ true }
    ensures value { (f : Flow) → IsFitting prepared.checked prepared.given f → (path : List ℕ) (k : KeeperView)
        → options.now.journal ≡ Some path → IsOpened path k
        (keeper_view (K.kept keeper.old) (K.path keeper.old) (K.faults keeper.old)) rows
        → RunsMain (L.gives launcher.now) (L.refuses launcher.now)
        (work_trace result steps.old steps.new (K.lapses keeper.old) k
        (keeper_view (K.kept keeper.new) (K.path keeper.new) (K.faults keeper.new)))
        (main_with prepared.checked prepared.given options.now f) result.work }
    ensures paths { HasPaths result.work }
    ensures path { K.path keeper.new ≡ K.path keeper.old }
{
    let Ok(Begun { core, name }) = begin(alloc, prepared, &options.root, steps) else {
        return idle(alloc, Work::Stop(stop_of(alloc, Status::NoMemory)));
    };
    progress.start();
    let ran = run_all(
        rt,
        alloc,
        core,
        launcher,
        Some(keeper),
        rows,
        options.workers,
        progress,
        steps,
    );
    progress.end(alloc, &ran.core, &options.root);
    worked(alloc, options.report, &name, ran)
}

/// Runs the main workflow with its inputs: over the rows of its journal where one is named.
fn run_main<L: Launcher + Sync, K: Keeper, P: Watch, R: Threads + Wait + Clock + Sync, S: Ledger>(
    rt: &R,
    alloc: Global,
    prepared: Prepared,
    options: &RunOptions,
    launcher: &L,
    keeper: &mut K,
    progress: &mut P,
    steps: &mut Steps<S>,
) -> Worked
    requires fitting { (f : Flow) × IsFitting prepared.checked prepared.given f }
    requires workers { (1 ≤ options.now.workers) × (options.now.workers ≤ 64) }
    requires fresh { K.path keeper.old ≡ None }
    ensures value { (f : Flow) → IsFitting prepared.checked prepared.given f
        → RunsMain (L.gives launcher.now) (L.refuses launcher.now)
        (work_trace result steps.old steps.new (K.lapses keeper.old)
        (keeper_view (K.kept keeper.old) (K.path keeper.old) (K.faults keeper.old))
        (keeper_view (K.kept keeper.new) (K.path keeper.new) (K.faults keeper.new)))
        (main_with prepared.checked prepared.given options.now f) result.work }
    ensures paths { HasPaths result.work }
    ensures keeper { (keeper.new ≡ keeper.old) ⊎ NamesJournal options.now.journal (K.path keeper.new) }
{
    let Some(path) = &options.journal else {
        return run_plain(rt, alloc, prepared, options, launcher, progress, steps);
    };
    match rows_of(alloc, path, keeper) {
        Ok(rows) => run_over(
            rt, alloc, prepared, options, rows, launcher, keeper, progress, steps,
        ),
        Err(status) => idle(alloc, Work::Stop(stop_of(alloc, status))),
    }
}

/// Warns a person of what looks like a slip in inputs that are used.
fn warn<F: Explain, N: Sink>(
    alloc: Global,
    inputs: &Option<Text>,
    given: &Env,
    shelf: &F,
    notes: &mut N,
) {
    if let Some(path) = inputs {
        tell(&shelf.warnings(alloc, path, given), notes);
    }
}

/// Runs the main workflow of the document at a path, with the inputs of a file.
pub fn run<
    F: Shelf + Explain,
    L: Launcher + Sync,
    K: Keeper,
    N: Sink,
    P: Watch,
    R: Threads + Wait + Clock + Sync,
    S: Ledger,
>(
    rt: &R,
    alloc: Global,
    file: &Text,
    inputs: &Option<Text>,
    options: &RunOptions,
    shelf: &mut F,
    launcher: &L,
    keeper: &mut K,
    notes: &mut N,
    progress: &mut P,
    steps: &mut Steps<S>,
) -> Worked
    requires workers { (1 ≤ options.now.workers) × (options.now.workers ≤ 64) }
    requires fresh { K.path keeper.old ≡ None }
    ensures value { RunsFile (F.tells shelf.old) (F.refuses shelf.old) (Rose (F.faults shelf.old) (F.faults shelf.new))
        (L.gives launcher.now) (L.refuses launcher.now) file.now inputs.now options.now
        (work_trace result steps.old steps.new (K.lapses keeper.old)
        (keeper_view (K.kept keeper.old) (K.path keeper.old) (K.faults keeper.old))
        (keeper_view (K.kept keeper.new) (K.path keeper.new) (K.faults keeper.new))) result.work }
    ensures counted { WorkCounts result.work (F.faults shelf.old) (F.faults shelf.new) }
    ensures paths { HasPaths result.work }
    ensures keeper { (keeper.new ≡ keeper.old) ⊎ NamesJournal options.now.journal (K.path keeper.new) }
{
    match start_of(alloc, file, inputs, shelf) {
        Ok(prepared) => {
            warn(alloc, inputs, &prepared.given, &*shelf, notes);
            run_main(
                rt, alloc, prepared, options, launcher, keeper, progress, steps,
            )
        }
        Err(stop) => idle(alloc, Work::Stop(stop)),
    }
}
