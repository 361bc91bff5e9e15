ghost use Rattle.std.specs.Prelude.{◌≡◌, ◌⊎◌, None, List, Option, ℕ};
ghost use Rattle.wdl_port.specs.Causes.{Rose};
ghost use Rattle.wdl_base.specs.declared.fault.Fault.{Fault as FaultOf};
ghost use Rattle.wdl_base.specs.declared.place.Segment.{Segment as SegmentOf};
ghost use Rattle.wdl_base.specs.declared.span.Span.{Span as SpanOf};
ghost use Rattle.report_text.specs.declared.status.Status.TheVariants as status;
ghost use Rattle.workflow_stages.specs.Counting.{StatusCounts};
ghost use Rattle.workflow_cli.specs.Asking.{IsLoad, IsLoadOf, asked};
ghost use Rattle.workflow_cli.specs.Causes.{IsStartedOn, IsUnread, UsesJournal};
ghost use Rattle.workflow_cli.specs.Loading.{IsLoadWritten, LoadEnds};
ghost use Rattle.workflow_cli.specs.Running.{
  IsBadInputs,
  IsFailed,
  IsIdle,
  IsTooMany,
  IsUnkept,
  IsUnlaunched,
  SomeRun,
  trace_by,
};
ghost use Rattle.workflow_cli.specs.Writing.{IsCut, IsExcluded, IsReported, IsWritten, Lines};
ghost use Rattle.workflow_cli.specs.Complete.{
  BundleIsComplete,
  CheckIsComplete,
  CwlIsComplete,
  DocumentIsComplete,
  FormIsComplete,
  InputsIsComplete,
  MainIsComplete,
  PrintIsComplete,
  RunIsComplete,
  UsageIsComplete,
};

use crate::ended::{Ended, Worked};
use crate::finish::finish;
use crate::work::work;
use run_watch::Watch;
use std::alloc::Global;
use std::sync::Wait;
use std::sync::ledger::Ledger;
use std::thread::Threads;
use std::time::Clock;
use wdl_port::{Keeper, Launcher, Shelf, Sink};
use wdl_value::Steps;
use workflow_stages::{Explain, write_note};

/// All that the program does.
/// `run [--inputs FILE] [--workers N] [--root DIR] [--journal FILE] FILE` reads the document of
/// that file and its imports from the shelf, checks them, reads the inputs, runs the main workflow
/// by N workers, which launch its jobs through the launcher, and writes the outputs as JSON and a
/// newline to `out`. With a journal the keeper is started on its path, a job that has a row with
/// the same request and a successful status is not launched, and each answer is kept. `check FILE`
/// writes `ok` and a newline, where the document has a checked form. `cwl FILE` writes the CWL
/// document of the main workflow and a newline, and `cwl --inputs INPUTS FILE` the CWL input object
/// of these inputs and a newline, where no rule of the subset is broken. `load N` makes a workflow
/// of N calls, runs it by 4 workers with answers of its own, and writes `calls N jobs J last V` and
/// a newline, where J is the length of the journal and V the output; it calls neither the shelf nor
/// the launcher nor the keeper. `inputs FILE` writes the inputs of the main workflow as a JSON
/// object to fill in and a newline. `bundle FILE` writes one document that has the main workflow,
/// the tasks that it calls and the structs, and no import, where that workflow calls no workflow
/// and the text has at most 1,048,576 bytes; the text was read and checked alone, and its main
/// workflow is the same but for the names of its tasks. `help` and `version`, which have other
/// spellings, write a text of the program and a newline. With another status its line is written to
/// `err`.
///
/// What a person is told comes from the caller: `shelf` explains what was read, which goes to
/// `notes`, and `progress` sees a run as it goes on. Nothing is promised of it here, and nothing
/// depends on whether a write to `notes` fails.
pub fn workflow<
    F: Shelf + Explain,
    O: Sink,
    E: Sink,
    N: Sink,
    P: Watch,
    L: Launcher + Sync,
    K: Keeper,
    R: Threads + Wait + Clock + Sync,
    S: Ledger,
>(
    rt: &R,
    alloc: Global,
    words: &[String],
    shelf: &mut F,
    out: &mut O,
    err: &mut E,
    notes: &mut N,
    progress: &mut P,
    launcher: &L,
    keeper: &mut K,
    steps: &mut Steps<S>,
) -> Ended
    requires no_file { K.path keeper.old ≡ None }
    // Of each command but `load`: nothing ran; or the journal is fed for the main workflow, and the
    // launcher gave each of its answers.
    ensures run { ¬ (IsLoad words.now) → IsIdle (trace_by K.kept K.lapses K.path K.faults result steps.old steps.new keeper.old keeper.new)
        ⊎ SomeRun (F.tells shelf.old) words.now (L.gives launcher.now) (L.refuses launcher.now)
        (trace_by K.kept K.lapses K.path K.faults result steps.old steps.new keeper.old keeper.new) }
    // What each status says, of each command but `load`.
    ensures ok { ¬ (IsLoad words.now) → result.status ≡ status.Ok
        → IsWritten (F.tells shelf.old) words.now (L.gives launcher.now) (L.refuses launcher.now)
        (trace_by K.kept K.lapses K.path K.faults result steps.old steps.new keeper.old keeper.new)
        (O.told out.old) (O.told out.new) (E.told err.old) (E.told err.new) }
    ensures failed { ¬ (IsLoad words.now) → (f : FaultOf) → result.status ≡ status.Failed f
        → IsFailed (F.tells shelf.old) words.now (L.gives launcher.now) (L.refuses launcher.now)
        (trace_by K.kept K.lapses K.path K.faults result steps.old steps.new keeper.old keeper.new) f }
    ensures usage { ¬ (IsLoad words.now) → result.status ≡ status.Usage
        → IsIdle (trace_by K.kept K.lapses K.path K.faults result steps.old steps.new keeper.old keeper.new)
        × (asked words.now ≡ None) }
    ensures document { ¬ (IsLoad words.now) → (code : ℕ) (span : SpanOf) → result.status ≡ status.Document code span
        → IsReported (F.tells shelf.old) words.now (L.gives launcher.now) (L.refuses launcher.now)
        (trace_by K.kept K.lapses K.path K.faults result steps.old steps.new keeper.old keeper.new)
        (O.told out.old) (O.told out.new) (E.told err.old) (E.told err.new) code span }
    ensures inputs { ¬ (IsLoad words.now) → (code : ℕ) (name : Option (List ℕ)) → result.status ≡ status.Inputs code name
        → IsIdle (trace_by K.kept K.lapses K.path K.faults result steps.old steps.new keeper.old keeper.new)
        × IsBadInputs (F.tells shelf.old) words.now code name }
    ensures read { ¬ (IsLoad words.now) → (p : List ℕ) → result.status ≡ status.Read p
        → IsIdle (trace_by K.kept K.lapses K.path K.faults result steps.old steps.new keeper.old keeper.new)
        × IsUnread (F.tells shelf.old) words.now (F.refuses shelf.old)
        (Rose (F.faults shelf.old) (F.faults shelf.new)) p }
    ensures write { ¬ (IsLoad words.now) → result.status ≡ status.Write
        → IsCut (F.tells shelf.old) (F.refuses shelf.old)
        (Rose (F.faults shelf.old) (F.faults shelf.new))
        (L.gives launcher.now) (L.refuses launcher.now) words.now
        (trace_by K.kept K.lapses K.path K.faults result steps.old steps.new keeper.old keeper.new)
        (O.told out.old) (O.told out.new) (E.told err.old) (E.told err.new)
        (Rose (O.faults out.old) (O.faults out.new)) (Rose (E.faults err.old) (E.faults err.new)) }
    ensures not_in_subset { ¬ (IsLoad words.now) → (rule : ℕ) (span : SpanOf) → result.status ≡ status.NotInSubset rule span
        → IsExcluded (F.tells shelf.old) words.now (L.gives launcher.now) (L.refuses launcher.now)
        (trace_by K.kept K.lapses K.path K.faults result steps.old steps.new keeper.old keeper.new)
        (O.told out.old) (O.told out.new) (E.told err.old) (E.told err.new) rule span }
    ensures launch { ¬ (IsLoad words.now) → (p : List SegmentOf) → result.status ≡ status.Launch p
        → IsUnlaunched (F.tells shelf.old) words.now (L.gives launcher.now) (L.refuses launcher.now)
        (trace_by K.kept K.lapses K.path K.faults result steps.old steps.new keeper.old keeper.new) p }
    ensures keep { ¬ (IsLoad words.now) → result.status ≡ status.Keep
        → IsUnkept (F.tells shelf.old) words.now (L.gives launcher.now) (L.refuses launcher.now)
        (trace_by K.kept K.lapses K.path K.faults result steps.old steps.new keeper.old keeper.new) }
    ensures too_many { ¬ (IsLoad words.now) → result.status ≡ status.TooMany
        → IsTooMany (F.tells shelf.old) words.now (L.gives launcher.now) (L.refuses launcher.now)
        (trace_by K.kept K.lapses K.path K.faults result steps.old steps.new keeper.old keeper.new) }
    // `load N` with Ok writes its line and nothing else: the journal is fed for the checked form of
    // its document, each answer is one of its table, and the flow over it is clean.
    ensures load_ok { (n : ℕ) → IsLoadOf words.now n → result.status ≡ status.Ok
        → IsLoadWritten n (trace_by K.kept K.lapses K.path K.faults result steps.old steps.new keeper.old
        keeper.new)
        (O.told out.old) (O.told out.new) (E.told err.old) (E.told err.new) }
    // With each status it is as a run of that document, over its own shelf and with its own
    // launcher.
    ensures load { (n : ℕ) → IsLoadOf words.now n
        → LoadEnds n (trace_by K.kept K.lapses K.path K.faults result steps.old steps.new keeper.old
        keeper.new)
        (O.told out.old) (O.told out.new) (E.told err.old) (E.told err.new)
        (Rose (O.faults out.old) (O.faults out.new)) (Rose (E.faults err.old) (E.faults err.new))
        result.status }
    // With a status other than Read, Write and NoMemory every read succeeded.
    ensures counted { StatusCounts result.status (F.faults shelf.old) (F.faults shelf.new) }
    // With a status other than Ok, Write, Document and NotInSubset, its line and nothing else was
    // written.
    ensures lines { Lines result.status (O.told out.old) (O.told out.new) (E.told err.old) (E.told err.new) }
    // Without a journal the keeper is as it was; with one it is started on no other path.
    ensures keeper { (keeper.new ≡ keeper.old) ⊎ UsesJournal words.now (K.path keeper.new) }
    ensures started { IsStartedOn words.now result.status result.journal (K.path keeper.new) }
    // The other way round: which status comes, unless memory ends.
    ensures usage_complete { UsageIsComplete words.now (Rose (E.faults err.old) (E.faults err.new)) result.status }
    ensures document_complete { DocumentIsComplete (F.tells shelf.old) words.now (Rose (F.faults shelf.old) (F.faults shelf.new))
        (Rose (O.faults out.old) (O.faults out.new) ⊎ Rose (E.faults err.old) (E.faults err.new))
        result.status }
    ensures main_complete { MainIsComplete (F.tells shelf.old) words.now (Rose (F.faults shelf.old) (F.faults shelf.new))
        (Rose (O.faults out.old) (O.faults out.new) ⊎ Rose (E.faults err.old) (E.faults err.new))
        result.status }
    ensures inputs_complete { InputsIsComplete (F.tells shelf.old) words.now (Rose (F.faults shelf.old) (F.faults shelf.new))
        (Rose (O.faults out.old) (O.faults out.new) ⊎ Rose (E.faults err.old) (E.faults err.new))
        result.status }
    ensures check_complete { CheckIsComplete (F.tells shelf.old) words.now (Rose (F.faults shelf.old) (F.faults shelf.new))
        (Rose (O.faults out.old) (O.faults out.new) ⊎ Rose (E.faults err.old) (E.faults err.new))
        result.status }
    ensures cwl_complete { CwlIsComplete (F.tells shelf.old) words.now (Rose (F.faults shelf.old) (F.faults shelf.new))
        (Rose (O.faults out.old) (O.faults out.new) ⊎ Rose (E.faults err.old) (E.faults err.new))
        result.status }
    ensures bundle_complete { BundleIsComplete (F.tells shelf.old) words.now (Rose (F.faults shelf.old) (F.faults shelf.new))
        (Rose (O.faults out.old) (O.faults out.new) ⊎ Rose (E.faults err.old) (E.faults err.new))
        result.status }
    ensures form_complete { FormIsComplete (F.tells shelf.old) words.now (Rose (F.faults shelf.old) (F.faults shelf.new))
        (Rose (O.faults out.old) (O.faults out.new) ⊎ Rose (E.faults err.old) (E.faults err.new))
        result.status }
    ensures print_complete { PrintIsComplete words.now
        (Rose (O.faults out.old) (O.faults out.new) ⊎ Rose (E.faults err.old) (E.faults err.new))
        result.status }
    ensures run_complete { RunIsComplete (F.tells shelf.old) words.now (L.refuses launcher.now)
        (Rose (F.faults shelf.old) (F.faults shelf.new))
        (Rose (O.faults out.old) (O.faults out.new) ⊎ Rose (E.faults err.old) (E.faults err.new))
        (trace_by K.kept K.lapses K.path K.faults result steps.old steps.new keeper.old keeper.new)
        result.status }
{
    let Worked {
        work,
        journal,
        steps: taken,
        counts,
    } = work(
        rt, alloc, words, shelf, launcher, keeper, notes, progress, steps,
    );
    write_note(&work, notes);
    let status = finish(alloc, work, out, err);
    Ended {
        status,
        journal,
        steps: taken,
        counts,
    }
}
