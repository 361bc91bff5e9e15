ghost use Rattle.std.specs.Prelude.{◌≡◌};
ghost use Rattle.run_notes.specs.Tallies as spec;

/// How many jobs of a run there are of each kind so far. A count stops at the last value of `u64`.
#[derive(Clone, Copy, Debug, Default, PartialEq, Eq)]
pub(crate) struct Tally {
    /// Jobs that were put on the desk and not collected.
    pub running: u64,
    /// Jobs that succeeded, or took the answer of a row.
    pub done: u64,
    /// Jobs that failed and were not tried again.
    pub failed: u64,
    /// Answers of launched jobs.
    pub ran: u64,
    /// Jobs that took the answer of a row.
    pub kept: u64,
    /// Attempts of jobs that had failed before.
    pub again: u64,
}

impl Tally {
    /// Counts an attempt, by its number from 0: after the first one its job is no longer one that
    /// failed.
    fn attempt(&mut self, attempt: u32)
        ensures tally { self.new ≡ spec.attempted attempt self.old }
    {
        if attempt > 0 {
            self.again = self.again.saturating_add(1);
            self.failed = self.failed.saturating_sub(1);
        }
    }

    /// Counts a job that was put on the desk.
    pub(crate) fn begin(&mut self, attempt: u32)
        ensures tally { self.new ≡ spec.begun attempt self.old }
    {
        self.attempt(attempt);
        self.running = self.running.saturating_add(1);
    }

    /// Counts the answer of a job that was launched.
    pub(crate) fn end(&mut self, succeeded: bool)
        ensures tally { self.new ≡ spec.ended succeeded self.old }
    {
        self.running = self.running.saturating_sub(1);
        self.ran = self.ran.saturating_add(1);
        if succeeded {
            self.done = self.done.saturating_add(1);
        } else {
            self.failed = self.failed.saturating_add(1);
        }
    }

    /// Counts a job that came back from the desk without an answer.
    pub(crate) fn give_up(&mut self)
        ensures tally { self.new ≡ spec.given_up self.old }
    {
        self.running = self.running.saturating_sub(1);
    }

    /// Counts a job that took the answer of a row.
    pub(crate) fn keep(&mut self, attempt: u32)
        ensures tally { self.new ≡ spec.kept attempt self.old }
    {
        self.attempt(attempt);
        self.kept = self.kept.saturating_add(1);
        self.done = self.done.saturating_add(1);
    }
}
