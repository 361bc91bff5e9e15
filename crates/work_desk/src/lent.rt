ghost use Rattle.std.specs.Prelude.{◌≡◌, ◌<◌, ℕ, Bool, List, Option};
ghost use Rattle.wdl_base.specs.declared.entry.Entry.{Entry as Row};
ghost use Rattle.ready_core.specs.Cores.{started};
ghost use Rattle.work_desk.specs.Held.{held};
ghost use Rattle.work_desk.specs.Keeping.{ArePlaced, IsReady, Went, keeper_view};
ghost use Rattle.work_desk.specs.Paying.{EndsPaid};
ghost use Rattle.work_desk.specs.Ran.{HasRun};
ghost use Rattle.work_desk.specs.Run.{Tells};

use crate::desk::Desk;
use crate::pact::{Pact, Shares};
use crate::progress::Progress;
use crate::rows::Rows;
use crate::run::{Ran, conduct};
use ready_core::{Core, Job};
use std::alloc::Global;
use std::sync::Wait;
use std::sync::ledger::Ledger;
use wdl_port::{Keeper, Launcher};
use wdl_value::{Entry, Request, Steps};

/// What a run is lent by its caller: a keeper and a counter, of which contracts see the members
/// alone, so that a closure may take both behind one reference and give that back.
pub(crate) trait Conducts {
    /// The rows of the keeper, where it tells them.
    ghost kept: { Self → Option (List Row) };

    /// The path on which the keeper was started, if any.
    ghost path: { Self → Option (List ℕ) };

    /// How often the keeper has failed.
    ghost faults: { Self → ℕ };

    /// What lapses in the keeper.
    ghost lapses: { Self → Row → Bool };

    /// Where the counter stands.
    ghost count: { Self → ℕ };

    /// The name of the reference to the keeper.
    ghost keeper_name: { Self → ℕ };

    /// The name of the reference to the counter.
    ghost steps_name: { Self → ℕ };

    /// The caller's part of a run, from its beginning to its end.
    fn conduct<P: Pact, L: Launcher, O: Progress + Drop, R: Wait>(
        &mut self,
        rt: &R,
        alloc: Global,
        desk: &Desk<P>,
        launcher: &L,
        rows: &Rows,
        workers: u32,
        alone: bool,
        core: Core,
        shares: Shares<P>,
        progress: O,
    ) -> Ran
        requires core { core ≡ started core.origin core.plan }
        requires shares { shares ≡ held 0 0 }
        requires workers { (workers ≡ P.workers) × (0 < workers) }
        requires there { Tells (L.gives launcher.now) (L.refuses launcher.now) P.gives P.refuses }
        requires back { Tells P.gives P.refuses (L.gives launcher.now) (L.refuses launcher.now) }
        requires lapses { lapses self.old ≡ P.lapses }
        requires ready { IsReady rows.now (keeper_view (kept self.old) (path self.old) (faults self.old)) }
        requires placed { ArePlaced rows.now }
        ensures run { HasRun workers (L.gives launcher.now) (L.refuses launcher.now) (lapses self.old) rows.now result.core result.stop result.counts }
        ensures origin { result.core.origin ≡ core.origin }
        ensures paid { EndsPaid core (count self.old) result.core result.stop (count self.new) }
        ensures same { (keeper_name self.new ≡ keeper_name self.old) × (steps_name self.new ≡ steps_name self.old) }
        ensures keeper { Went (L.gives launcher.now) result.core result.stop (keeper_view (kept self.old) (path self.old) (faults self.old)) (keeper_view (kept self.new) (path self.new) (faults self.new)) };
}

/// A keeper and a counter that are lent for a run.
#[derive(Drop)]
pub(crate) struct Lending<'s, K: Keeper, S: Ledger> {
    pub keeper: &'s mut K,
    pub steps: &'s mut Steps<S>,
}

impl<'s, K: Keeper, S: Ledger> Conducts for Lending<'s, K, S> {
    ghost kept = { λ s. K.kept s.keeper.now };

    ghost path = { λ s. K.path s.keeper.now };

    ghost faults = { λ s. K.faults s.keeper.now };

    ghost lapses = { λ s. K.lapses s.keeper.now };

    ghost count = { λ s. s.steps.now };

    ghost keeper_name = { λ s. s.keeper.ghost_name };

    ghost steps_name = { λ s. s.steps.ghost_name };

    fn conduct<P: Pact, L: Launcher, O: Progress + Drop, R: Wait>(
        &mut self,
        rt: &R,
        alloc: Global,
        desk: &Desk<P>,
        launcher: &L,
        rows: &Rows,
        workers: u32,
        alone: bool,
        core: Core,
        shares: Shares<P>,
        progress: O,
    ) -> Ran
        requires core { core ≡ started core.origin core.plan }
        requires shares { shares ≡ held 0 0 }
        requires workers { (workers ≡ P.workers) × (0 < workers) }
        requires there { Tells (L.gives launcher.now) (L.refuses launcher.now) P.gives P.refuses }
        requires back { Tells P.gives P.refuses (L.gives launcher.now) (L.refuses launcher.now) }
        requires lapses { K.lapses self.old.keeper.now ≡ P.lapses }
        requires ready { IsReady rows.now (keeper_view (K.kept self.old.keeper.now) (K.path self.old.keeper.now) (K.faults self.old.keeper.now)) }
        requires placed { ArePlaced rows.now }
        ensures run { HasRun workers (L.gives launcher.now) (L.refuses launcher.now) (K.lapses self.old.keeper.now) rows.now result.core result.stop result.counts }
        ensures origin { result.core.origin ≡ core.origin }
        ensures paid { EndsPaid core self.old.steps.now result.core result.stop self.new.steps.now }
        ensures same { (self.new.keeper.ghost_name ≡ self.old.keeper.ghost_name) × (self.new.steps.ghost_name ≡ self.old.steps.ghost_name) }
        ensures keeper { Went (L.gives launcher.now) result.core result.stop (keeper_view (K.kept self.old.keeper.now) (K.path self.old.keeper.now) (K.faults self.old.keeper.now)) (keeper_view (K.kept self.new.keeper.now) (K.path self.new.keeper.now) (K.faults self.new.keeper.now)) }
    {
        let keeper = &mut *self.keeper;
        let steps = &mut *self.steps;
        conduct(
            rt, alloc, desk, launcher, rows, workers, alone, keeper, core, shares, progress, steps,
        )
    }
}

/// A progress that is lent for a run. A closure that takes it holds no reference that contracts
/// follow.
#[derive(Drop)]
pub(crate) struct Lent<'s, T: Progress> {
    pub progress: &'s mut T,
}

impl<'s, T: Progress> Progress for Lent<'s, T> {
    fn began(&mut self, job: &Job) {
        self.progress.began(job);
    }

    fn ended(&mut self, entry: &Entry) {
        self.progress.ended(entry);
    }

    fn unlaunched(&mut self, request: &Request) {
        self.progress.unlaunched(request);
    }

    fn kept(&mut self, entry: &Entry) {
        self.progress.kept(entry);
    }

    fn lapsed(&mut self, request: &Request) {
        self.progress.lapsed(request);
    }
}
