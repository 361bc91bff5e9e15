ghost use Rattle.std.specs.Prelude.{⊤};

use crate::child::{Job, status_of};
use crate::collect::{body_of, files_of};
use crate::directory::{ERR, OUT, lay_down, lay_inputs, make, path_in};
use crate::listing::{Listing, list};
use crate::note::Notes;
use crate::owner::hold;
use crate::refusal::{Refusal, Step};
use crate::root::{Hold, Launching, Ticket, root_of, take_root};
use crate::trouble::{Trouble, at};
use std::alloc::Global;
use std::fs::{File, Files};
use std::io::Write;
use std::process::Processes;
use std::random::RandomSource;
use std::sync::{Mutex, Wait};
use std::time::Clock;
use wdl_port::{LaunchFault, Launcher};
use wdl_value::{Answer, Body, ERR_LIMIT, NoMemory, OUT_LIMIT, Request, place_text};

/// Runs each command as `SHELL -c COMMAND`, as a child of its own in the request's directory, which
/// is made anew and in which the request's files are laid down. The answer has the child's status,
/// 255 where it ended without one, the two streams, and the other regular files that stand below
/// the directory, to 64 levels. Where the request reads nothing, neither standard output nor the
/// body of a file is read.
///
/// An answer is never lost to what the command left: where not all files can be told by their names,
/// the answer has those that are first in byte order and the mark, and the notes have the reason.
///
/// From its first launch to its end no other launcher has the root of its run. Where the program
/// ends before `release`, the commands that it started are ended, with what they started.
///
/// It tells nothing: it may give every answer and refuse every request. It refuses where another
/// run, or jobs of one that has ended, work in the root; where the directory cannot be made, is
/// there and holds what no job left, or would stand in a folder of another user; and where the
/// shell cannot be started, also for a command and an environment of more than the system takes. The
/// notes have the reason.
#[derive(Drop)]
pub struct ShellLauncher<R: Processes, W> {
    rt: R,
    shell: Option<String>,
    own: Launching,
    notes: Notes<W>,
    hold: Mutex<Hold<R::Started>>,
}

impl<R: Processes, W> ShellLauncher<R, W> {
    /// A launcher that starts its children by this runtime, and runs each command by the program
    /// `shell`: a path where it holds a `/`, and else a name that is looked for on the `PATH`.
    /// Without such a program it refuses every request. `own` is this process. It takes no memory.
    pub fn new(
        rt: R,
        shell: Option<String>,
        own: Launching,
        notes: Notes<W>,
    ) -> ShellLauncher<R, W> {
        ShellLauncher {
            rt,
            shell,
            own,
            notes,
            hold: Mutex::new(Hold::Nothing),
        }
    }
}

impl<R: Processes + Drop, W: Drop> ShellLauncher<R, W> {
    /// Ends the use of the root: what earlier jobs left in the places of this run's jobs is removed,
    /// after a run of more than 64 jobs by another process that goes on, and another run may begin.
    /// What the commands left running goes on.
    pub fn release(self) {
        let ShellLauncher {
            rt,
            shell,
            own,
            notes,
            hold,
        } = self;
        let _ = hold.into_inner().release();
        drop(rt);
        drop(shell);
        drop(own);
        drop(notes);
    }
}

/// Writes what a job finds in its directory: the files of its request, and the list of its inputs.
fn lay_all<R: Files>(rt: &R, alloc: Global, request: &Request) -> Result<(), Trouble> {
    let dir = request.dir.as_str();
    lay_down(rt, alloc, dir, request.files.as_slice())?;
    lay_inputs(rt, alloc, dir, request.inputs.as_slice())
}

/// What is kept of a stream, or `Long` where the command removed or replaced its file.
fn stream_of<R: Files>(
    rt: &R,
    alloc: Global,
    dir: &str,
    name: &str,
    limit: u64,
) -> Result<Body, NoMemory> {
    let path = path_in(alloc, dir, name)?;
    match body_of(rt, alloc, path.as_str(), limit)? {
        Some(body) => Ok(body),
        None => Ok(Body::Long),
    }
}

/// What is kept of the standard output: nothing where the request reads nothing.
fn out_of<R: Files>(rt: &R, alloc: Global, dir: &str, reads: bool) -> Result<Body, NoMemory> {
    if reads {
        stream_of(rt, alloc, dir, OUT, OUT_LIMIT as u64)
    } else {
        Ok(Body::Long)
    }
}

/// The answer of the command of a request that ended with this status and left these files.
fn answer_of<R: Files + AllocGlobal + Clone + Drop>(
    rt: &R,
    alloc: Global,
    request: &Request,
    listing: &Listing,
    status: u8,
) -> Result<Answer, Trouble> {
    let dir = request.dir.as_str();
    let out = out_of(rt, alloc, dir, request.reads)?;
    let err = stream_of(rt, alloc, dir, ERR, ERR_LIMIT as u64)?;
    let files = files_of(rt, alloc, dir, listing, request.reads)?;
    match Answer::new(status, out, err, files) {
        Ok(answer) => Ok(answer),
        Err(_) => Err(Trouble::Refused(Refusal::NoAnswer)),
    }
}

impl<R, W> ShellLauncher<R, W>
where
    R: Files<File = File> + Processes + RandomSource + Clock + Wait + AllocGlobal + Clone + Drop,
    W: Write + Drop,
{
    /// Returns what a job of this root needs of its run. At the first launch the root is taken.
    fn ticket(&self, alloc: Global, root: &str) -> Result<Ticket, Trouble> {
        let mut hold = self.hold.lock(&self.rt);
        if hold.is_nothing() {
            *hold = take_root(&self.rt, alloc, root, &self.own, &self.notes)?;
        }
        hold.next(alloc)
    }

    fn run(&self, alloc: Global, request: &Request) -> Result<Answer, Trouble> {
        let Some(shell) = &self.shell else {
            return Err(Trouble::Refused(Refusal::NoShell));
        };
        let rt = &self.rt;
        let dir = request.dir.as_str();
        let levels = request.place.len().max(1);
        at(Step::Directory, hold(rt, dir, levels))?;
        let root = root_of(dir, levels);
        let ticket = at(Step::Root, self.ticket(alloc, root))?;
        at(Step::Directory, make(rt, alloc, dir, &ticket.trash))?;
        at(Step::Files, lay_all(rt, alloc, request))?;
        let job = Job {
            shell: shell.as_str(),
            root,
            mark: ticket.mark.as_str(),
            request,
        };
        let status = at(Step::Start, status_of(rt, alloc, job))?;
        self.gather(alloc, request, status)
    }

    /// Returns the answer of a command that ended with this status. Where not all names of the files
    /// that it left are kept, the notes say why.
    fn gather(&self, alloc: Global, request: &Request, status: u8) -> Result<Answer, Trouble> {
        let has_inputs = !request.inputs.is_empty();
        let listing = list(&self.rt, alloc, request.dir.as_str(), has_inputs)?;
        if let Some(cut) = &listing.cut {
            let place = place_text(alloc, &request.place)?;
            let kept = listing.files.len().saturating_sub(1);
            let line = cut.sentence(alloc, place.as_str(), listing.count, kept)?;
            self.notes.tell(&self.rt, alloc, line.as_str())?;
        }
        answer_of(&self.rt, alloc, request, &listing, status)
    }

    /// Tells why a request is refused.
    fn tell(&self, alloc: Global, request: &Request, refusal: Refusal) -> Result<(), Trouble> {
        if refusal == Refusal::Told {
            return Ok(());
        }
        let place = place_text(alloc, &request.place)?;
        let place = place.as_str();
        let dir = request.dir.as_str();
        let mut sentence = format!(in alloc; "{place}: not launched in {dir}: {refusal}")?;
        if let (Refusal::System(Step::Start, _), Some(shell)) = (refusal, &self.shell) {
            let shell = shell.as_str();
            let named = format!(in alloc; ": {shell} (WDL_SHELL names the shell, else it is sh)")?;
            sentence.push_str(named.as_str())?;
        }
        self.notes.tell(&self.rt, alloc, sentence.as_str())?;
        Ok(())
    }
}

impl<R, W> Launcher for ShellLauncher<R, W>
where
    R: Files<File = File> + Processes + RandomSource + Clock + Wait + AllocGlobal + Clone + Drop,
    W: Write + Drop,
{
    ghost gives = { λ s r a. ⊤ };

    ghost refuses = { λ s r. ⊤ };

    fn launch(&self, alloc: Global, request: &Request) -> Result<Answer, LaunchFault> {
        let given = self.run(alloc, request);
        if let Err(Trouble::Refused(refusal)) = given {
            self.tell(alloc, request, refusal)?;
        }
        Ok(given?)
    }
}
