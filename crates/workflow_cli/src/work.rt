ghost use Rattle.std.specs.Prelude.{◌≡◌, ◌⊎◌, ℕ, None};
ghost use Rattle.wdl_port.specs.Causes.{Rose};
ghost use Rattle.work_desk.specs.Keeping.{keeper_view};
ghost use Rattle.workflow_stages.specs.Counting.{WorkCounts};
ghost use Rattle.workflow_stages.specs.Paths.{HasPaths};
ghost use Rattle.workflow_cli.specs.Asking.{IsLoad, IsLoadOf};
ghost use Rattle.workflow_cli.specs.Causes.{IsWork, UsesJournal};
ghost use Rattle.workflow_cli.specs.Loading.{LoadsAs};
ghost use Rattle.workflow_cli.specs.Running.{work_trace};
ghost use Rattle.workflow_cli.specs.Stages.{Accepts};

use crate::asking::{Command, read_command};
use crate::ended::Worked;
use crate::load::load;
use crate::printing::printed;
use crate::run::{idle, run};
use report_text::Status;
use run_watch::Watch;
use std::alloc::Global;
use std::sync::Wait;
use std::sync::ledger::Ledger;
use std::thread::Threads;
use std::time::Clock;
use wdl_port::{Keeper, Launcher, Shelf, Sink};
use wdl_value::{Steps, Text};
use workflow_stages::{Explain, Work, linted_of, stop_of};
use workflow_texts::{bundled, cwl, form};

/// Checks the document at a path. `notes` gets what looks like a slip in it.
fn accepted<F: Shelf + Explain, N: Sink>(
    alloc: Global,
    file: &Text,
    shelf: &mut F,
    notes: &mut N,
) -> Work
    ensures value { Accepts (F.tells shelf.old) (F.refuses shelf.old) (Rose (F.faults shelf.old) (F.faults shelf.new)) file.now result }
    ensures counted { WorkCounts result (F.faults shelf.old) (F.faults shelf.new) }
    ensures paths { HasPaths result }
{
    match linted_of(alloc, file, shelf, notes) {
        Ok(_) => match Text::from_plain(alloc, "ok\n") {
            Ok(text) => Work::Text(text),
            Err(_) => Work::Stop(stop_of(alloc, Status::NoMemory)),
        },
        Err(stop) => Work::Stop(stop),
    }
}

/// Does what the words ask for, up to the writing.
pub fn work<
    F: Shelf + Explain,
    L: Launcher + Sync,
    K: Keeper,
    N: Sink,
    P: Watch,
    R: Threads + Wait + Clock + Sync,
    S: Ledger,
>(
    rt: &R,
    alloc: Global,
    words: &[String],
    shelf: &mut F,
    launcher: &L,
    keeper: &mut K,
    notes: &mut N,
    progress: &mut P,
    steps: &mut Steps<S>,
) -> Worked
    requires fresh { K.path keeper.old ≡ None }
    ensures cause { ¬ (IsLoad words.now) → IsWork (F.tells shelf.old) (F.refuses shelf.old) (Rose (F.faults shelf.old) (F.faults shelf.new))
        (L.gives launcher.now) (L.refuses launcher.now) words.now
        (work_trace result steps.old steps.new (K.lapses keeper.old)
        (keeper_view (K.kept keeper.old) (K.path keeper.old) (K.faults keeper.old))
        (keeper_view (K.kept keeper.new) (K.path keeper.new) (K.faults keeper.new))) result.work }
    ensures load { (n : ℕ) → IsLoadOf words.now n
        → LoadsAs n (work_trace result steps.old steps.new (K.lapses keeper.old)
        (keeper_view (K.kept keeper.old) (K.path keeper.old) (K.faults keeper.old))
        (keeper_view (K.kept keeper.new) (K.path keeper.new) (K.faults keeper.new))) result.work }
    ensures counted { WorkCounts result.work (F.faults shelf.old) (F.faults shelf.new) }
    ensures paths { HasPaths result.work }
    ensures keeper { (keeper.new ≡ keeper.old) ⊎ UsesJournal words.now (K.path keeper.new) }
{
    match read_command(alloc, words) {
        Ok(
            Command::Run {
                file,
                inputs,
                options,
            },
        ) => run(
            rt, alloc, &file, &inputs, &options, shelf, launcher, keeper, notes, progress, steps,
        ),
        Ok(Command::Check { file }) => idle(alloc, accepted(alloc, &file, shelf, notes)),
        Ok(Command::Cwl { file, inputs }) => idle(alloc, cwl(alloc, &file, &inputs, shelf)),
        Ok(Command::Inputs { file }) => idle(alloc, form(alloc, &file, shelf)),
        Ok(Command::Bundle { file }) => idle(alloc, bundled(alloc, &file, shelf)),
        Ok(Command::Load { number }) => load(rt, alloc, number, steps),
        Ok(Command::Print { page }) => idle(alloc, printed(alloc, page, &*shelf)),
        Err(status) => idle(alloc, Work::Stop(stop_of(alloc, status))),
    }
}
