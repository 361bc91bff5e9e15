ghost use Rattle.std.specs.Prelude.{◌≡◌, ◌<◌, ◌≤◌, ◌+◌, IfOk};
ghost use Rattle.work_desk.specs.Held.{held};
ghost use Rattle.work_desk.specs.Views.{Good, AllEqual};

use crate::pact::{CollectedOf, Pact, PutOf, Shares};
use crate::state::{DeskState, Finished};
use ready_core::Job;
use std::alloc::Global;
use std::collections::VecDeque;
use std::sync::ledger::Blank;
use std::sync::{Condvar, Mutex, Wait};
use wdl_value::{Counts, NoMemory};

/// The desk of a run.
#[derive(Drop)]
pub struct Desk<P: Pact> {
    state: Mutex<DeskState<P>>,
    jobs: Condvar,
    answers: Condvar,
}

/// A new desk, and the whole shares of its two ledgers, which are the caller's alone.
#[derive(Drop)]
pub struct Opened<P: Pact> {
    pub desk: Desk<P>,
    pub shares: Shares<P>,
}

impl<P: Pact> Desk<P> {
    /// Returns an empty desk, with room for the jobs and the answers of all workers. Each blank
    /// becomes a ledger of the desk.
    pub fn new(
        alloc: Global,
        workers: u32,
        put: Blank,
        collected: Blank,
    ) -> Result<Opened<P>, NoMemory>
        requires workers { (workers ≡ P.workers) × (workers ≤ 64) }
        requires put { (put.name ≡ P.put_name) × (put.parts ≡ P.put_parts) × (0 < put.parts) }
        requires collected { (collected.name ≡ P.collected_name) × (collected.parts ≡ P.collected_parts) × (0 < collected.parts) }
        ensures { IfOk result (λ o. o.shares ≡ held 0 0) }
    {
        let waiting = VecDeque::with_capacity(alloc, workers as usize)?;
        let mut answers = Vec::new(alloc);
        answers.reserve(workers as usize)?;
        let (put_book, put) = put.open::<PutOf<P>>();
        let (collected_book, collected) = collected.open::<CollectedOf<P>>();
        let state = DeskState {
            waiting,
            running: 0,
            answers,
            closed: false,
            put: 0,
            picked: 0,
            finished: 0,
            collected: 0,
            put_book,
            collected_book,
        };
        Ok(Opened {
            desk: Desk {
                state: Mutex::new(state),
                jobs: Condvar::new(),
                answers: Condvar::new(),
            },
            shares: Shares { put, collected },
        })
    }

    // Puts a job on the desk, behind those that wait.
    pub(crate) fn put<R: Wait>(&self, rt: &R, job: Job, shares: &mut Shares<P>)
        requires out { shares.old.put < shares.old.collected + P.workers }
        requires few { shares.old.put < 20000 }
        ensures { shares.new ≡ held (shares.old.put + 1) shares.old.collected }
    {
        {
            let mut state = self.state.lock(rt);
            state.know(shares);
            state.put(job, shares);
        }
        // The lock is free again, so the worker that wakes need not wait for it.
        self.jobs.notify_one();
    }

    // How many were put and not collected.
    pub(crate) fn out<R: Wait>(&self, rt: &R, shares: &mut Shares<P>) -> u32
        ensures same { shares.new ≡ shares.old }
        ensures out { result + shares.old.collected ≡ shares.old.put }
    {
        let mut state = self.state.lock(rt);
        state.know(shares);
        state.out()
    }

    // The counts, and that they are equal where all that was put was collected.
    pub(crate) fn counts<R: Wait>(&self, rt: &R, shares: &mut Shares<P>) -> Counts
        requires { shares.old.put ≡ shares.old.collected }
        ensures { AllEqual result shares.old.put }
    {
        let mut state = self.state.lock(rt);
        state.know(shares);
        state.counts()
    }

    // The job that waits for longest, once there is one. `None` where the desk is closed and no job waits.
    pub(crate) fn next_job<R: Wait>(&self, rt: &R) -> Option<Job> {
        let mut state = self
            .jobs
            .wait_while(rt, self.state.lock(rt), |state| state.keeps_waiting());
        state.pick()
    }

    // The job that waits for longest, if there is one.
    pub(crate) fn job_now<R: Wait>(&self, rt: &R) -> Option<Job> {
        self.state.lock(rt).pick()
    }

    // Lays down an answer. One that is handed back is dropped.
    pub(crate) fn finish<R: Wait>(&self, rt: &R, f: Finished)
        requires { Good P.gives P.refuses f }
    {
        let _handed_back = self.state.lock(rt).finish(f);
        self.answers.notify_one();
    }

    // Waits for an answer.
    pub(crate) fn take_answer<R: Wait>(&self, rt: &R, shares: &mut Shares<P>) -> Finished
        ensures good { Good P.gives P.refuses result }
        ensures shares { shares.new ≡ held shares.old.put (shares.old.collected + 1) }
    {
        for _ in rt.forever() {
            let mut state = self
                .answers
                .wait_while(rt, self.state.lock(rt), |state| state.has_no_answer());
            if let Some(f) = state.collect(shares) {
                return f;
            }
        }
        unreachable!()
    }

    pub(crate) fn close<R: Wait>(&self, rt: &R) {
        self.state.lock(rt).close();
        self.jobs.notify_all();
    }
}
