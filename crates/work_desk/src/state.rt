ghost use Rattle.std.specs.Prelude.{◌≡◌, ◌<◌, ◌+◌, ◌++◌, ◌∷◌, [], true, MatchOption, MatchResult};
ghost use Rattle.work_desk.specs.Held.{held};
ghost use Rattle.work_desk.specs.Views.{DeskView, IsDesk, out_of, Good, counts};

use crate::pact::{CollectedOf, Pact, PutOf, Shares};
use ready_core::{Answered, Job, Unlaunched};
use std::collections::VecDeque;
use std::marker::Model;
use std::sync::ledger::Book;
use wdl_value::Counts;

/// The end of a launch.
#[derive(Debug, Drop)]
pub enum Finished {
    /// The command ended, and this is its answer.
    Done(Answered),
    /// The launcher gave no answer.
    Undone(Unlaunched),
}

/// The state under the lock.
#[derive(Drop)]
pub struct DeskState<P: Pact> {
    pub(crate) waiting: VecDeque<Job>,
    pub(crate) running: u32,
    pub(crate) answers: Vec<Finished>,
    pub(crate) closed: bool,
    pub(crate) put: u64,
    pub(crate) picked: u64,
    pub(crate) finished: u64,
    pub(crate) collected: u64,
    pub(crate) put_book: Book<PutOf<P>>,
    pub(crate) collected_book: Book<CollectedOf<P>>,
}

impl<P: Pact> Model for DeskState<P> {
    ghost use Rattle.work_desk.specs.Views.{DeskView, desk_view, IsDesk, HasRoom};
    ghost use Rattle.std.specs.Prelude.{◌≡◌, vec_capacity};
    ghost use Rattle.std.specs.VecDeque.{deque_capacity};

    ghost Value = { DeskView };

    ghost view = { λ s. desk_view s.waiting.items s.running s.answers.items s.closed s.put s.picked s.finished s.collected };

    ghost invariant = { λ s.
        IsDesk P.workers P.gives P.refuses (desk_view s.waiting.items s.running s.answers.items s.closed s.put s.picked s.finished s.collected)
        × HasRoom P.workers (deque_capacity s.waiting) (vec_capacity s.answers)
        × (s.put_book.total ≡ s.put) × (s.collected_book.total ≡ s.collected) };
}

impl<P: Pact> DeskState<P> {
    /// Changes nothing, and tells how the counts stand to the shares.
    pub fn know(&mut self, shares: &mut Shares<P>)
        ensures same { (self.new ≡ self.old) × (shares.new ≡ shares.old) }
        ensures put { self.old.put ≡ shares.old.put }
        ensures collected { self.old.collected ≡ shares.old.collected }
        ensures desk { IsDesk P.workers P.gives P.refuses self.old }
    {
        self.put_book.audit(&mut shares.put);
        self.collected_book.audit(&mut shares.collected);
    }

    /// Puts a job on the desk, behind those that wait. Its room was made by `Desk::new`, so it takes no memory.
    pub fn put(&mut self, job: Job, shares: &mut Shares<P>)
        requires out { out_of self.old < P.workers }
        requires few { self.old.put < 20000 }
        ensures state { self.new ≡ record self.old { waiting = self.old.waiting ++ job ∷ []; put = self.old.put + 1 } }
        ensures shares { shares.new ≡ held (shares.old.put + 1) shares.old.collected }
    {
        self.put_book.add(&mut shares.put, 1);
        self.waiting.push_back_reserved(job);
        self.put += 1;
    }

    /// Takes the job that waits for longest, to run it. `None` where no job waits. It takes no
    /// memory.
    pub fn pick(&mut self) -> Option<Job>
        ensures { MatchOption result ((self.old.waiting ≡ []) × (self.new ≡ self.old))
            (λ j. (self.old.waiting ≡ j ∷ self.new.waiting)
            × (self.new ≡ record self.old {
              waiting = self.new.waiting;
              running = self.old.running + 1;
              picked = self.old.picked + 1;
            })) }
    {
        let job = self.waiting.pop_front()?;
        self.running += 1;
        self.picked += 1;
        Some(job)
    }

    /// Lays down the end of a launch. It is handed back where no job is being run. It takes no
    /// memory.
    pub fn finish(&mut self, f: Finished) -> Result<(), Finished>
        requires { Good P.gives P.refuses f }
        ensures { MatchResult result
            (λ _. (self.new.running + 1 ≡ self.old.running)
            × (self.new ≡ record self.old {
              answers = self.old.answers ++ f ∷ [];
              running = self.new.running;
              finished = self.old.finished + 1;
            }))
            (λ g. (g ≡ f) × (self.old.running ≡ 0) × (self.new ≡ self.old)) }
    {
        if self.running == 0 {
            return Err(f);
        }
        self.running -= 1;
        self.finished += 1;
        self.answers.push_reserved(f);
        Ok(())
    }

    /// Takes the end of a launch from the desk. `None` where none waits. It takes no memory.
    pub fn collect(&mut self, shares: &mut Shares<P>) -> Option<Finished>
        ensures { MatchOption result ((self.old.answers ≡ []) × (self.new ≡ self.old) × (shares.new ≡ shares.old))
            (λ f. Good P.gives P.refuses f × (self.old.answers ≡ self.new.answers ++ f ∷ [])
            × (self.new ≡ record self.old {
              answers = self.new.answers;
              collected = self.old.collected + 1;
            }) × (shares.new ≡ held shares.old.put (shares.old.collected + 1))) }
    {
        let f = self.answers.pop()?;
        self.collected_book.add(&mut shares.collected, 1);
        self.collected += 1;
        Some(f)
    }

    /// Closes the desk: no job is put on it from now on.
    pub fn close(&mut self)
        ensures { self.new ≡ record self.old { closed = true } }
    {
        self.closed = true;
    }

    /// Whether the desk was closed.
    pub fn closed(&self) -> bool
        ensures { result ≡ self.now.closed }
    {
        self.closed
    }

    // Whether a worker has nothing to do yet.
    pub(crate) fn keeps_waiting(&self) -> bool {
        self.waiting.is_empty() && !self.closed
    }

    pub(crate) fn has_no_answer(&self) -> bool {
        self.answers.is_empty()
    }

    /// How many jobs wait or are being run, and how many ends of launches wait, together: at most
    /// the workers.
    pub fn out(&self) -> u32
        ensures { result ≡ out_of self.now }
    {
        self.waiting.len() as u32 + self.running + self.answers.len() as u32
    }

    /// How many jobs were put on the desk, picked, finished and collected.
    pub fn counts(&self) -> Counts
        ensures { result ≡ counts self.now }
    {
        Counts {
            put: self.put,
            picked: self.picked,
            finished: self.finished,
            collected: self.collected,
        }
    }
}
