use crate::guard::MARK;
use std::alloc::Global;
use std::fs::Files;
use std::io::ErrorKind;
use std::path::Path;
use std::{fs, io};

/// Where the system shows its processes, each as a folder that its number names.
const PROCESSES: &str = "/proc";

/// Returns what a call gave, or `None` where it failed for another reason than memory: the process
/// ended meanwhile, or is another user's.
fn if_shown<T>(given: io::Result<T>) -> io::Result<Option<T>> {
    match given {
        Ok(it) => Ok(Some(it)),
        Err(e) if e.kind() == ErrorKind::OutOfMemory => Err(e),
        Err(_) => Ok(None),
    }
}

/// Returns whether the working directory of a process is the folder or below it.
fn works_in<R: Files + AllocGlobal>(
    rt: &R,
    alloc: Global,
    process: u32,
    folder: Path<'_>,
) -> io::Result<bool> {
    let link = format!(in alloc; "{PROCESSES}/{process}/cwd")?;
    let dir = if_shown(fs::read_link(rt, link.as_str()))?;
    Ok(dir.is_some_and(|dir| dir.as_path().starts_with(folder)))
}

/// Returns whether a variable of an environment, as the system shows it, is the mark of a run other
/// than `own`.
fn has_other_mark(environment: &[u8], own: Option<&str>) -> bool {
    for variable in environment.split(|byte| *byte == 0) {
        if let Some(mark) = mark_of(variable) {
            return Some(mark) != own.map(|own| own.as_bytes());
        }
    }
    false
}

/// Returns the value of a variable that holds the mark of a run.
fn mark_of(variable: &[u8]) -> Option<&[u8]> {
    variable.strip_prefix(MARK.as_bytes())?.strip_prefix(b"=")
}

/// Returns whether a process is a job, or what a job started, of another run than `own`.
fn is_job<R: Files + AllocGlobal>(
    rt: &R,
    alloc: Global,
    process: u32,
    own: Option<&str>,
) -> io::Result<bool> {
    let path = format!(in alloc; "{PROCESSES}/{process}/environ")?;
    let environment = if_shown(fs::read(rt, path.as_str()))?;
    Ok(environment.is_some_and(|bytes| has_other_mark(bytes.as_slice(), own)))
}

/// Returns the numbers of the processes that are jobs of other runs, or were started by such, and
/// whose working directory is the folder or below it. `own` is the mark of the run to which this
/// process itself belongs as a job, if it does. There are none where the folder is missing, or where
/// the system shows no processes.
pub fn jobs_in<R: Files + AllocGlobal + Clone + Drop>(
    rt: &R,
    alloc: Global,
    folder: &str,
    own: Option<&str>,
) -> io::Result<Vec<u32>> {
    let mut found = Vec::new(alloc);
    let Some(folder) = if_shown(fs::canonicalize(rt, folder))? else {
        return Ok(found);
    };
    let Some(entries) = if_shown(fs::read_dir(rt, PROCESSES))? else {
        return Ok(found);
    };
    for entry in entries {
        let Ok(process) = entry?.file_name().parse::<u32>() else {
            continue;
        };
        if works_in(rt, alloc, process, folder.as_path())? && is_job(rt, alloc, process, own)? {
            found.push(process)?;
        }
    }
    Ok(found)
}
