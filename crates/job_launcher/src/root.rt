use crate::note::Notes;
use crate::refusal::Refusal;
use crate::trash::{Trash, folder_of, gather};
use crate::trouble::Trouble;
use run_guard::{Guard, RootLock, Taken, fresh_mark, jobs_in, start, take};
use std::alloc::{AllocError, Global};
use std::fs::{File, Files};
use std::io::{ErrorKind, Write};
use std::process::{OpenProcess, Processes};
use std::random::RandomSource;
use std::sync::Wait;
use std::time::{Clock, Duration, Instant, SystemTime, UNIX_EPOCH};
use std::{io, thread};

/// How long a root that is not free is waited for.
const SECONDS: u64 = 10;

/// How long is waited before it is tried again, and so how often at most.
const PAUSE_MILLIS: u64 = 100;

const TRIES: u32 = 100;

/// The most jobs of a run that waits until its trash is removed. The removal of a thousand
/// directories may take as long as their jobs.
const FEW: u64 = 64;

/// What a run has of its root, from its first launch to its end.
#[derive(Drop)]
pub(crate) struct Root<P: OpenProcess + Drop> {
    _lock: RootLock,
    guard: Guard<P>,
    /// The folder of the run's trash.
    trash: String,
    /// How many jobs were launched.
    launched: u64,
}

/// What a launcher has of its root.
#[derive(Drop)]
pub(crate) enum Hold<P: OpenProcess + Drop> {
    /// Nothing: no job was launched yet.
    Nothing,
    Root(Root<P>),
    /// It was refused, for a reason that was told.
    Refused,
}

/// What a job needs of its run.
#[derive(Drop)]
pub(crate) struct Ticket {
    pub(crate) mark: String,
    pub(crate) trash: Trash,
}

/// What came of one try.
#[derive(Drop)]
enum Tried {
    Free(RootLock),
    /// A sentence on who works there.
    Busy(String),
}

/// The process that launches.
#[derive(Drop)]
pub struct Launching {
    /// Its number.
    pub process: u32,
    /// The mark of the run to which it belongs itself, where it is a job of one.
    pub mark: Option<String>,
}

/// Returns the root of a run, by the directory of a job whose place has so many parts.
pub(crate) fn root_of(dir: &str, levels: usize) -> &str {
    if levels == 0 {
        return dir;
    }
    match dir.rsplit_once('/') {
        Some((above, _)) => root_of(above, levels - 1),
        None => ".",
    }
}

/// Returns what stands in the file of the lock: the number of the process, and the seconds since
/// 1970 at which it took the lock.
fn holder<R: Clock>(rt: &R, alloc: Global, own: &Launching) -> io::Result<String> {
    let now = SystemTime::now(rt)?;
    let seconds = now.duration_since(UNIX_EPOCH).map_or(0, |d| d.as_secs());
    let process = own.process;
    Ok(format!(in alloc; "{process} {seconds}\n")?)
}

/// Returns the sentence on a root that another run has.
fn in_use(alloc: Global, root: &str, holder: &str) -> Result<String, AllocError> {
    let (process, _) = holder.split_once(' ').unwrap_or(("?", ""));
    format!(in alloc;
        "another run (process {process}) works in {root}; wait for its end, or name another root by \
         --root"
    )
}

/// Returns the sentence on a root in which jobs of a run that has ended still work.
fn still_works(alloc: Global, root: &str, jobs: &[u32]) -> Result<String, AllocError> {
    let mut sentence = String::from_str(alloc, "jobs of a run that has ended still work in ")?;
    sentence.push_str(root)?;
    sentence.push_str(" (processes")?;
    for job in jobs {
        let number = format!(in alloc; " {job}")?;
        sentence.push_str(number.as_str())?;
    }
    sentence.push_str("); end them, or name another root by --root")?;
    Ok(sentence)
}

fn try_root<R: Files<File = File> + AllocGlobal + Clone + Drop>(
    rt: &R,
    alloc: Global,
    root: &str,
    holder: &str,
    own: &Launching,
) -> io::Result<Tried> {
    let lock = match take(rt, alloc, root, holder)? {
        Taken::Held(lock) => lock,
        Taken::Busy(other) => return Ok(Tried::Busy(in_use(alloc, root, other.as_str())?)),
    };
    let mark = own.mark.as_ref().map(|mark| mark.as_str());
    let jobs = jobs_in(rt, alloc, root, mark)?;
    if jobs.is_empty() {
        return Ok(Tried::Free(lock));
    }
    Ok(Tried::Busy(still_works(alloc, root, jobs.as_slice())?))
}

/// Tries again while the root is not free.
fn wait_for<R: Files<File = File> + Clock + AllocGlobal + Clone + Drop>(
    rt: &R,
    alloc: Global,
    root: &str,
    holder: &str,
    own: &Launching,
) -> io::Result<Tried> {
    let began = Instant::now(rt)?;
    for _ in 1..TRIES {
        thread::sleep(rt, Duration::from_millis(PAUSE_MILLIS));
        if began.elapsed(rt)? >= Duration::from_secs(SECONDS) {
            break;
        }
        if let Tried::Free(lock) = try_root(rt, alloc, root, holder, own)? {
            return Ok(Tried::Free(lock));
        }
    }
    try_root(rt, alloc, root, holder, own)
}

/// Takes the root for this run, if it is free within ten seconds.
fn lock_of<R, W>(
    rt: &R,
    alloc: Global,
    root: &str,
    own: &Launching,
    notes: &Notes<W>,
) -> Result<Option<RootLock>, Trouble>
where
    R: Files<File = File> + Clock + Wait + AllocGlobal + Clone + Drop,
    W: Write,
{
    let holder = holder(rt, alloc, own)?;
    match try_root(rt, alloc, root, holder.as_str(), own)? {
        Tried::Free(lock) => return Ok(Some(lock)),
        Tried::Busy(why) => {
            let why = why.as_str();
            let line = format!(in alloc; "waiting up to 10 seconds: {why}")?;
            notes.tell(rt, alloc, line.as_str())?;
        }
    }
    match wait_for(rt, alloc, root, holder.as_str(), own)? {
        Tried::Free(lock) => Ok(Some(lock)),
        Tried::Busy(why) => {
            notes.tell(rt, alloc, why.as_str())?;
            Ok(None)
        }
    }
}

/// Returns whether a text may be the mark of a run. The guard looks for it, so no other is passed on.
fn is_mark(text: &str) -> bool {
    text.bytes().all(|b| b.is_ascii_hexdigit() || b == b' ')
}

/// Returns the mark of a run's jobs: the fresh one, behind that of the run in which this one is a job,
/// whose guard ends these jobs too.
fn mark_below(alloc: Global, own: &Launching, fresh: String) -> Result<String, AllocError> {
    match &own.mark {
        Some(outer) if is_mark(outer.as_str()) => {
            let (outer, fresh) = (outer.as_str(), fresh.as_str());
            format!(in alloc; "{outer} {fresh}")
        }
        _ => Ok(fresh),
    }
}

/// Takes the root for this run and starts its guard. What earlier runs put aside there goes with
/// what this one will.
pub(crate) fn take_root<R, W>(
    rt: &R,
    alloc: Global,
    root: &str,
    own: &Launching,
    notes: &Notes<W>,
) -> Result<Hold<R::Started>, Trouble>
where
    R: Files<File = File> + Processes + RandomSource + Clock + Wait + AllocGlobal + Clone + Drop,
    W: Write,
{
    let Some(lock) = lock_of(rt, alloc, root, own, notes)? else {
        return Ok(Hold::Refused);
    };
    let fresh = fresh_mark(rt, alloc)?;
    let trash = folder_of(alloc, root, fresh.as_str())?;
    gather(rt, alloc, root, trash.as_str())?;
    let mark = mark_below(alloc, own, fresh)?;
    let guard = match start(rt, alloc, mark, trash.as_str()) {
        Err(e) if e.kind() == ErrorKind::NotFound => return Err(Trouble::Refused(Refusal::NoGuard)),
        other => other?,
    };
    Ok(Hold::Root(Root {
        _lock: lock,
        guard,
        trash,
        launched: 0,
    }))
}

impl<P: OpenProcess + Drop> Hold<P> {
    pub(crate) fn is_nothing(&self) -> bool {
        matches!(self, Hold::Nothing)
    }

    /// Returns what the next job needs of its run.
    pub(crate) fn next(&mut self, alloc: Global) -> Result<Ticket, Trouble> {
        let Hold::Root(root) = self else {
            return Err(Trouble::Refused(Refusal::Told));
        };
        root.launched = root.launched.saturating_add(1);
        Ok(Ticket {
            mark: String::from_str(alloc, root.guard.mark.as_str())?,
            trash: Trash::new(alloc, root.trash.as_str(), root.launched)?,
        })
    }

    /// Has the trash of the run removed, and frees its root.
    pub(crate) fn release(self) -> io::Result<()> {
        match self {
            Hold::Root(root) => root.release(),
            _ => Ok(()),
        }
    }
}

impl<P: OpenProcess + Drop> Root<P> {
    fn release(self) -> io::Result<()> {
        let Root {
            _lock: lock,
            guard,
            trash,
            launched,
        } = self;
        drop(trash);
        let released = guard.release(launched <= FEW);
        drop(lock);
        released
    }
}
