use crate::directory::{ERR, OUT, path_in};
use crate::trouble::Trouble;
use crate::variables::add_variables;
use run_guard::{SESSION, add_mark};
use std::alloc::Global;
use std::fs::{File, Files, OpenOptions};
use std::io;
use std::io::ErrorKind;
use std::process::{Command, ExitStatus, Processes, Stdio};
use wdl_value::Request;

/// The status of a child that ended without one, as by a signal.
const KILLED: u8 = 255;

/// The statuses of `setsid` where it could not start the shell. A command may end with them too.
const UNSTARTED: [u8; 2] = [126, 127];

/// A job that is to run, and what it has of its run.
#[derive(Clone, Copy)]
pub(crate) struct Job<'a> {
    pub(crate) shell: &'a str,
    pub(crate) root: &'a str,
    pub(crate) mark: &'a str,
    pub(crate) request: &'a Request,
}

/// Opens the file of a stream, which is made where it is missing and emptied.
fn stream<R: Files<File = File>>(
    rt: &R,
    alloc: Global,
    dir: &str,
    name: &str,
) -> Result<Stdio, Trouble> {
    let path = path_in(alloc, dir, name)?;
    let mut options = OpenOptions::new();
    options.write(true).create(true).truncate(true);
    Ok(Stdio::from(options.open(rt, path.as_str())?))
}

/// The child by which a job runs: the program `first` with these arguments, in the job's directory.
/// It has the mark of the run, its streams are files of the directory, and its input is empty.
fn child_of<R: Files<File = File>>(
    rt: &R,
    alloc: Global,
    job: Job<'_>,
    first: &str,
    arguments: &[&str],
) -> Result<Command, Trouble> {
    let dir = job.request.dir.as_str();
    let mut child = Command::new(alloc, first)?;
    child.args(arguments)?.current_dir(dir)?;
    add_mark(&mut child, job.mark)?;
    add_variables(alloc, &mut child, job.request, job.root)?;
    let out = stream(rt, alloc, dir, OUT)?;
    let err = stream(rt, alloc, dir, ERR)?;
    child.stdin(Stdio::null()).stdout(out).stderr(err);
    Ok(child)
}

fn number_of(ended: &ExitStatus) -> u8 {
    match ended.code() {
        Some(code) => u8::try_from(code).unwrap_or(KILLED),
        None => KILLED,
    }
}

/// Starts the shell for a moment, and fails where that cannot be done.
fn require_shell<R: Processes>(rt: &R, alloc: Global, shell: &str) -> io::Result<()> {
    let mut child = Command::new(alloc, shell)?;
    child.args(["-c", ":"])?;
    child.stdin(Stdio::null()).stdout(Stdio::null());
    child.stderr(Stdio::null());
    let mut started = match child.spawn(rt) {
        // The user has too many processes, for now.
        Err(e) if e.kind() == ErrorKind::WouldBlock => return Ok(()),
        other => other?,
    };
    started.kill()?;
    started.wait()?;
    Ok(())
}

/// Runs the command of a job as `SHELL -c COMMAND`, and waits for its end. It has a session of its
/// own where the system has `setsid`, so that it can end its process group without ending the run.
/// A shell that cannot be started is no status.
pub(crate) fn status_of<R: Files<File = File> + Processes>(
    rt: &R,
    alloc: Global,
    job: Job<'_>,
) -> Result<u8, Trouble> {
    let arguments = [job.shell, "-c", job.request.command.as_str()];
    let mut child = child_of(rt, alloc, job, SESSION, &arguments)?;
    let ended = match child.status(rt) {
        Err(e) if e.kind() == ErrorKind::NotFound => {
            let mut child = child_of(rt, alloc, job, job.shell, &arguments[1..])?;
            return Ok(number_of(&child.status(rt)?));
        }
        other => other?,
    };
    let number = number_of(&ended);
    if UNSTARTED.contains(&number) {
        require_shell(rt, alloc, job.shell)?;
    }
    Ok(number)
}
