ghost use Rattle.work_desk.specs.Run.{Tells};

use crate::desk::Desk;
use crate::pact::Pact;
use crate::state::Finished;
use ready_core::Job;
use std::alloc::Global;
use std::sync::{Condvar, Mutex, Wait};
use wdl_port::Launcher;

/// Never returns. It stands for what no run meets, and no lock rules out.
pub(crate) fn wait_for_good<R: Wait>(rt: &R)
    ensures never { ⊥ }
{
    let never = Mutex::new(());
    let nothing = Condvar::new();
    let mut guard = never.lock(rt);
    for _ in rt.forever() {
        guard = nothing.wait(rt, guard);
    }
    unreachable!()
}

/// Launches a job, and lays down its answer.
pub(crate) fn launch<P: Pact, L: Launcher, R: Wait>(
    rt: &R,
    alloc: Global,
    desk: &Desk<P>,
    launcher: &L,
    job: Job,
)
    requires tells { Tells (L.gives launcher.now) (L.refuses launcher.now) P.gives P.refuses }
{
    let finished = match job.launch(alloc, launcher) {
        Ok(answered) => Finished::Done(answered),
        Err(unlaunched) => Finished::Undone(unlaunched),
    };
    desk.finish(rt, finished);
}

/// What a worker does, until the desk is closed.
pub(crate) fn work<P: Pact, L: Launcher, R: Wait>(
    rt: &R,
    alloc: Global,
    desk: &Desk<P>,
    launcher: &L,
)
    requires tells { Tells (L.gives launcher.now) (L.refuses launcher.now) P.gives P.refuses }
{
    for _ in rt.forever() {
        let Some(job) = desk.next_job(rt) else {
            return;
        };
        launch(rt, alloc, desk, launcher, job);
    }
}
