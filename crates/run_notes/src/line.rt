use crate::attempt::Attempt;
use crate::duration::push_time;
use crate::note::Note;
use crate::tally::Tally;
use std::time::Duration;
use wdl_value::NoMemory;

/// The directory of the jobs of a run without `--root`.
const DEFAULT_ROOT: &str = "/tmp/wdl-run";

/// What happened to a job.
#[derive(Clone, Copy)]
pub(crate) enum Event {
    /// It was put on the desk.
    Started {
        attempt: Attempt,
    },
    /// Its command ended after this time, where the clock could be read. There is an attempt where
    /// the status is no success.
    Ended {
        status: u8,
        took: Option<Duration>,
        failed: Option<Attempt>,
    },
    /// Its command was not launched.
    Unlaunched,
    /// It took the answer of a row.
    Kept,
    /// Its row no longer stands for its files.
    Lapsed,
}

/// Appends how a command ended.
fn push_end(
    note: &mut Note,
    status: u8,
    took: Option<Duration>,
    failed: Option<Attempt>,
) -> Result<(), NoMemory> {
    note.push("status ")?;
    note.push_number(u64::from(status))?;
    if let Some(took) = took {
        note.push(" after ")?;
        push_time(note, took)?;
    }
    match failed {
        Some(attempt) => attempt.push_to(note),
        None => Ok(()),
    }
}

/// Appends an event of the job of a place, without a newline.
pub(crate) fn push_event(note: &mut Note, place: &str, event: Event) -> Result<(), NoMemory> {
    note.push(place)?;
    note.push(": ")?;
    match event {
        Event::Started { attempt } => {
            note.push("started")?;
            if attempt.is_again() {
                attempt.push_to(note)?;
            }
            Ok(())
        }
        Event::Ended {
            status,
            took,
            failed,
        } => push_end(note, status, took, failed),
        Event::Unlaunched => note.push("not launched"),
        Event::Kept => note.push("kept from the journal"),
        Event::Lapsed => note.push("runs again, since a file of it has changed"),
    }
}

/// Appends the counts of a run as `[12 done, 1 failed, 4 running]`. Failed jobs are named where
/// there are any.
pub(crate) fn push_counts(note: &mut Note, tally: &Tally) -> Result<(), NoMemory> {
    note.push("[")?;
    note.push_number(tally.done)?;
    note.push(" done, ")?;
    if tally.failed > 0 {
        note.push_number(tally.failed)?;
        note.push(" failed, ")?;
    }
    note.push_number(tally.running)?;
    note.push(" running]")
}

/// Appends how many jobs ran, were kept and were tried again.
fn push_kinds(note: &mut Note, tally: &Tally) -> Result<(), NoMemory> {
    note.push(" (")?;
    note.push_number(tally.ran)?;
    note.push(" ran, ")?;
    note.push_number(tally.kept)?;
    note.push(" kept from the journal, ")?;
    note.push_number(tally.again)?;
    note.push(" tried again)\n")
}

/// Appends what a run came to, in two lines. `root` is the directory of its jobs. The one that is
/// taken without `--root` gets a warning, since the next run takes it too.
pub(crate) fn push_summary(
    note: &mut Note,
    tally: &Tally,
    took: Option<Duration>,
    root: &str,
) -> Result<(), NoMemory> {
    note.push_number(tally.done)?;
    note.push(if tally.done == 1 {
        " job done, "
    } else {
        " jobs done, "
    })?;
    note.push_number(tally.failed)?;
    note.push(" failed, in ")?;
    match took {
        Some(took) => push_time(note, took)?,
        None => note.push("an unknown time")?,
    }
    push_kinds(note, tally)?;
    note.push("the files of each job are below ")?;
    note.push(root)?;
    if root == DEFAULT_ROOT {
        note.push("; the next run without --root empties these directories")?;
    }
    note.push("\n")
}
