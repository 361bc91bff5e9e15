ghost use Rattle.std.specs.Prelude.{◌≡◌, ◌≢◌, ◌<◌, ◌≤◌, true, Some, None, MatchOption, ⊤};
ghost use Rattle.std.proofs.Common.{inl, inr};
ghost use Rattle.wdl_port.specs.Rows.{rises, are_kept};
ghost use Rattle.ready_core.specs.Cores.{started, stopped};
ghost use Rattle.work_desk.specs.Held.{held};
ghost use Rattle.work_desk.specs.Keeping.{ArePlaced, IsReady, Went, keeper_view, lapses_in};
ghost use Rattle.work_desk.specs.Paying.{EndsPaid};
ghost use Rattle.work_desk.specs.Ran.{HasRun};
ghost use Rattle.work_desk.specs.Run.{Tells};
ghost use Rattle.work_desk.specs.Views.{AllEqual};
ghost use Rattle.work_desk.specs.declared.stop.Stop.TheVariants as stop;

use crate::caller::Caller;
use crate::desk::{Desk, Opened};
use crate::lent::{Conducts, Lending, Lent};
use crate::pact::{Pact, Shares};
use crate::progress::Progress;
use crate::rows::Rows;
use crate::stop::{Stop, judge};
use crate::unkept::Unkept;
use crate::worker::work;
use ready_core::Core;
use std::alloc::Global;
use std::marker::Brand;
use std::sync::Wait;
use std::sync::ledger::{Blank, Ledger};
use std::thread;
use std::thread::Threads;
use wdl_port::{Keeper, Launcher};
use wdl_value::{Counts, Entry, Items, Steps};

/// What a run leaves: the core, why it stopped, if it did, and how many jobs were put on the desk,
/// picked, finished and collected.
#[derive(Drop)]
pub struct Ran {
    pub core: Core,
    pub stop: Option<Stop>,
    pub counts: Counts,
}

/// A run for which there was no memory.
fn unstarted(mut core: Core) -> Ran
    ensures core { result.core ≡ stopped core }
    ensures stop { result.stop ≡ Some stop.NoMemory }
    ensures counts { AllEqual result.counts 0 }
{
    core.stop();
    Ran {
        core,
        stop: Some(Stop::NoMemory),
        counts: Counts {
            put: 0,
            picked: 0,
            finished: 0,
            collected: 0,
        },
    }
}

/// The caller's part of a run, from its beginning to its end.
pub(crate) fn conduct<P: Pact, L: Launcher, K: Keeper, O: Progress + Drop, S: Ledger, R: Wait>(
    rt: &R,
    alloc: Global,
    desk: &Desk<P>,
    launcher: &L,
    rows: &Rows,
    workers: u32,
    alone: bool,
    keeper: &mut K,
    core: Core,
    shares: Shares<P>,
    progress: O,
    steps: &mut Steps<S>,
) -> Ran
    requires core { core ≡ started core.origin core.plan }
    requires shares { shares ≡ held 0 0 }
    requires workers { (workers ≡ P.workers) × (0 < workers) }
    requires there { Tells (L.gives launcher.now) (L.refuses launcher.now) P.gives P.refuses }
    requires back { Tells P.gives P.refuses (L.gives launcher.now) (L.refuses launcher.now) }
    requires lapses { K.lapses keeper.old ≡ P.lapses }
    requires ready { IsReady rows.now (keeper_view (K.kept keeper.old) (K.path keeper.old) (K.faults keeper.old)) }
    requires placed { ArePlaced rows.now }
    ensures run { HasRun workers (L.gives launcher.now) (L.refuses launcher.now) (K.lapses keeper.old) rows.now result.core result.stop result.counts }
    ensures origin { result.core.origin ≡ core.origin }
    ensures paid { EndsPaid core steps.old result.core result.stop steps.new }
    ensures keeper { Went (L.gives launcher.now) result.core result.stop (keeper_view (K.kept keeper.old) (K.path keeper.old) (K.faults keeper.old)) (keeper_view (K.kept keeper.new) (K.path keeper.new) (K.faults keeper.new)) }
{
    let mut progress = progress;
    let mut caller = Caller {
        core,
        shares,
        stop: None,
    };
    judge(&mut caller.core, &mut caller.stop);
    caller.drive(
        rt,
        alloc,
        desk,
        launcher,
        rows,
        workers,
        alone,
        keeper,
        &mut progress,
        steps,
    );
    desk.close(rt);
    let counts = desk.counts(rt, &mut caller.shares);
    Ran {
        core: caller.core,
        stop: caller.stop,
        counts,
    }
}

/// Starts the workers, and conducts the run.
fn in_threads<
    'k,
    P: Pact + Send + Sync,
    L: Launcher + Sync,
    C: Conducts,
    O: Progress + Drop,
    R: Threads + Wait + Sync,
>(
    rt: &R,
    alloc: Global,
    desk: &Desk<P>,
    launcher: &L,
    lent: &'k mut C,
    rows: &Rows,
    workers: u32,
    core: Core,
    shares: Shares<P>,
    progress: O,
) -> Ran
    requires core { core ≡ started core.origin core.plan }
    requires shares { shares ≡ held 0 0 }
    requires workers { (workers ≡ P.workers) × (0 < workers) }
    requires there { Tells (L.gives launcher.now) (L.refuses launcher.now) P.gives P.refuses }
    requires back { Tells P.gives P.refuses (L.gives launcher.now) (L.refuses launcher.now) }
    requires lapses { C.lapses lent.old ≡ P.lapses }
    requires ready { IsReady rows.now (keeper_view (C.kept lent.old) (C.path lent.old) (C.faults lent.old)) }
    requires placed { ArePlaced rows.now }
    ensures run { HasRun workers (L.gives launcher.now) (L.refuses launcher.now) (C.lapses lent.old) rows.now result.core result.stop result.counts }
    ensures origin { result.core.origin ≡ core.origin }
    ensures paid { EndsPaid core (C.count lent.old) result.core result.stop (C.count lent.new) }
    ensures same { (C.keeper_name lent.new ≡ C.keeper_name lent.old) × (C.steps_name lent.new ≡ C.steps_name lent.old) }
    ensures keeper { Went (L.gives launcher.now) result.core result.stop (keeper_view (C.kept lent.old) (C.path lent.old) (C.faults lent.old)) (keeper_view (C.kept lent.new) (C.path lent.new) (C.faults lent.new)) }
{
    let (ran, _lent) = thread::scope(
        thread::scope_env(),
        rt,
        move |scope| -> (Ran, &mut C)
            requires { (core ≡ started core.origin core.plan) × (shares ≡ held 0 0) × (workers ≡ P.workers) × (0 < workers)
                × Tells (L.gives launcher.now) (L.refuses launcher.now) P.gives P.refuses
                × Tells P.gives P.refuses (L.gives launcher.now) (L.refuses launcher.now)
                × (C.lapses lent.now ≡ P.lapses)
                × IsReady rows.now (keeper_view (C.kept lent.now) (C.path lent.now) (C.faults lent.now))
                × ArePlaced rows.now }
            ensures { HasRun workers (L.gives launcher.entry.now) (L.refuses launcher.entry.now) (C.lapses lent.entry.now) rows.entry.now result.0.core result.0.stop result.0.counts × (result.0.core.origin ≡ core.origin)
                × EndsPaid core (C.count lent.entry.now) result.0.core result.0.stop
                (C.count result.1.now)
                × (C.keeper_name result.1.now ≡ C.keeper_name lent.entry.now)
                × (C.steps_name result.1.now ≡ C.steps_name lent.entry.now)
                × Went (L.gives launcher.entry.now) result.0.core result.0.stop
                (keeper_view (C.kept lent.entry.now) (C.path lent.entry.now) (C.faults lent.entry.now))
                (keeper_view (C.kept result.1.now) (C.path result.1.now) (C.faults result.1.now))
                × (result.1.ghost_name ≡ lent.entry.ghost_name) }
        {
            let mut alone = true;
            for _ in 0..workers {
                let worker = move ||
                    requires { Tells (L.gives launcher.now) (L.refuses launcher.now) P.gives P.refuses }
                { work(rt, alloc, desk, launcher) };
                if scope.spawn(worker).is_ok() {
                    alone = false;
                }
            }
            let ran = lent.conduct(
                rt, alloc, desk, launcher, rows, workers, alone, core, shares, progress,
            );
            (ran, lent)
        },
    );
    ran
}

/// The run of the pact P.
fn run_with<
    'a,
    P: Pact + Send + Sync,
    L: Launcher + Sync,
    K: Keeper,
    T: Progress,
    S: Ledger,
    R: Threads + Wait + Sync,
>(
    rt: &'a R,
    alloc: Global,
    core: Core,
    launcher: &'a L,
    keeper: &mut K,
    rows: &'a Rows,
    workers: u32,
    put: Blank,
    collected: Blank,
    progress: &mut T,
    steps: &mut Steps<S>,
) -> Ran
    requires core { core ≡ started core.origin core.plan }
    requires workers { (workers ≡ P.workers) × (0 < workers) × (workers ≤ 64) }
    requires put { (put.name ≡ P.put_name) × (put.parts ≡ P.put_parts) × (0 < put.parts) }
    requires collected { (collected.name ≡ P.collected_name) × (collected.parts ≡ P.collected_parts) × (0 < collected.parts) }
    requires there { Tells (L.gives launcher.now) (L.refuses launcher.now) P.gives P.refuses }
    requires back { Tells P.gives P.refuses (L.gives launcher.now) (L.refuses launcher.now) }
    requires lapses { K.lapses keeper.old ≡ P.lapses }
    requires ready { IsReady rows.now (keeper_view (K.kept keeper.old) (K.path keeper.old) (K.faults keeper.old)) }
    requires placed { ArePlaced rows.now }
    ensures run { HasRun workers (L.gives launcher.now) (L.refuses launcher.now) (K.lapses keeper.old) rows.now result.core result.stop result.counts }
    ensures origin { result.core.origin ≡ core.origin }
    ensures paid { EndsPaid core steps.old result.core result.stop steps.new }
    ensures keeper { Went (L.gives launcher.now) result.core result.stop (keeper_view (K.kept keeper.old) (K.path keeper.old) (K.faults keeper.old)) (keeper_view (K.kept keeper.new) (K.path keeper.new) (K.faults keeper.new)) }
{
    let Ok(Opened { desk, shares }) = Desk::<P>::new(alloc, workers, put, collected) else {
        return unstarted(core);
    };
    let progress = Lent {
        progress: &mut *progress,
    };
    let mut lending = Lending {
        keeper: &mut *keeper,
        steps: &mut *steps,
    };
    in_threads::<P, L, Lending<K, S>, Lent<T>, R>(
        rt,
        alloc,
        &desk,
        launcher,
        &mut lending,
        rows,
        workers,
        core,
        shares,
        progress,
    )
}

/// Runs a core that has just been made by so many workers, 1 to 64, with the rows of an earlier run
/// in rising order, which are those of the keeper where it tells them, and where the answers of
/// launches are kept.
///
/// A job that has a usable row, whose files are still those of which the row speaks, is settled by
/// it. Every other one is put on the desk and launched, in the order in which they were taken. It
/// returns once nothing is out and nothing more is to be taken, or, after a stop, once all that was
/// out has come back: behind a stop nothing is taken, and each answer is still kept and settled.
pub fn run_kept<
    'a,
    L: Launcher + Sync,
    K: Keeper,
    T: Progress,
    S: Ledger,
    R: Threads + Wait + Sync,
>(
    rt: &'a R,
    alloc: Global,
    core: Core,
    launcher: &'a L,
    keeper: &mut K,
    rows: Items<Entry>,
    workers: u32,
    progress: &mut T,
    steps: &mut Steps<S>,
) -> Ran
    requires core { core ≡ started core.origin core.plan }
    requires workers { (0 < workers) × (workers ≤ 64) }
    requires ready { IsReady rows (keeper_view (K.kept keeper.old) (K.path keeper.old) (K.faults keeper.old)) }
    requires rise { rises rows ≡ true }
    requires kept { are_kept rows ≡ true }
    ensures run { HasRun workers (L.gives launcher.now) (L.refuses launcher.now) (K.lapses keeper.old) rows result.core result.stop result.counts }
    ensures origin { result.core.origin ≡ core.origin }
    ensures paid { EndsPaid core steps.old result.core result.stop steps.new }
    ensures keeper { Went (L.gives launcher.now) result.core result.stop (keeper_view (K.kept keeper.old) (K.path keeper.old) (K.faults keeper.old)) (keeper_view (K.kept keeper.new) (K.path keeper.new) (K.faults keeper.new)) }
{
    let Ok(rows) = Rows::new(alloc, rows) else {
        return unstarted(core);
    };
    run_with::<Brand, L, K, T, S, R>(
        rt,
        alloc,
        core,
        launcher,
        keeper,
        &rows,
        workers,
        Blank::new(1),
        Blank::new(1),
        progress,
        steps,
    )
}

/// As `run_kept`, with a keeper or without one. Without one the rows serve all the same.
pub fn run_all<'a, L: Launcher + Sync, K: Keeper, T: Progress, S: Ledger, R: Threads + Wait + Sync>(
    rt: &'a R,
    alloc: Global,
    core: Core,
    launcher: &'a L,
    keeper: Option<&mut K>,
    rows: Items<Entry>,
    workers: u32,
    progress: &mut T,
    steps: &mut Steps<S>,
) -> Ran
    requires core { core ≡ started core.origin core.plan }
    requires workers { (0 < workers) × (workers ≤ 64) }
    requires ready { MatchOption keeper ⊤ (λ k. IsReady rows (keeper_view (K.kept k.now) (K.path k.now) (K.faults k.now))) }
    requires rise { rises rows ≡ true }
    requires kept { are_kept rows ≡ true }
    ensures run { HasRun workers (L.gives launcher.now) (L.refuses launcher.now) (lapses_in (λ k. K.lapses k.now) keeper.entry) rows result.core result.stop result.counts }
    ensures origin { result.core.origin ≡ core.origin }
    ensures paid { EndsPaid core steps.old result.core result.stop steps.new }
    ensures unkept { keeper.entry ≡ None → result.stop ≢ Some stop.Keep }
    ensures keeper { MatchOption keeper.entry ⊤ (λ k. elim keeper.exit as (λ _. Type 0) [ inl n ↦ ⊤ | inr x ↦ elim x as (λ _. Type 0) [ inl f ↦ Went (L.gives launcher.now) result.core result.stop (keeper_view (K.kept k.now) (K.path k.now) (K.faults k.now)) (keeper_view (K.kept f.0.now) (K.path f.0.now) (K.faults f.0.now)) | inr n ↦ ⊤ ] ]) }
{
    match keeper {
        Some(keeper) => run_kept(
            rt, alloc, core, launcher, keeper, rows, workers, progress, steps,
        ),
        None => {
            let mut unkept = Unkept::started(alloc);
            run_kept(
                rt,
                alloc,
                core,
                launcher,
                &mut unkept,
                rows,
                workers,
                progress,
                steps,
            )
        }
    }
}
