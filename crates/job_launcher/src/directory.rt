ghost use Rattle.std.specs.Prelude.{◌≡◌, true, false};
ghost use Rattle.job_launcher.specs.declared.directory.Removal.TheVariants as removal;

use crate::owner::{PRIVATE, make_private};
use crate::refusal::Refusal;
use crate::trash::Trash;
use crate::trouble::{Trouble, if_there};
use std::alloc::{AllocError, Global};
use std::fs;
use std::fs::{Files, Metadata, Permissions};
use std::io::ErrorKind;
use std::os::unix::fs::PermissionsExt;
use std::process::Processes;
use wdl_value::{Laid, Text};

/// The file by which a directory is known as a job's. It is the first that is made there.
pub(crate) const JOB: &str = ".wdl-job";

/// The file of a job's directory that takes its standard output.
pub(crate) const OUT: &str = "_stdout";

/// The file of a job's directory that takes its standard error.
pub(crate) const ERR: &str = "_stderr";

/// The file of a job's directory that has the paths of its inputs, each ended by a NUL. It is there
/// only where the job has inputs.
pub(crate) const INPUTS: &str = "_inputs";

/// The path of a name below a directory.
pub(crate) fn path_in(alloc: Global, dir: &str, name: &str) -> Result<String, AllocError> {
    let mut path = String::from_str(alloc, dir)?;
    path.push_str("/")?;
    path.push_str(name)?;
    Ok(path)
}

/// How what stands in the place of a job's directory is removed.
#[derive(Clone, Copy, Debug, PartialEq, Eq)]
enum Removal {
    /// It is left alone, and the job is not launched.
    Refused,
    /// It is removed if it is empty.
    IfEmpty,
    /// It is put aside with what it holds, and removed later.
    Aside,
}

/// Returns how it is removed. Only a directory is, and with what it holds only one that a job left.
fn removal_of(is_directory: bool, is_of_job: bool) -> Removal
    ensures aside { result ≡ removal.Aside → (is_directory ≡ true) × (is_of_job ≡ true) }
    ensures other { is_directory ≡ false → result ≡ removal.Refused }
{
    if !is_directory {
        return Removal::Refused;
    }
    if is_of_job {
        Removal::Aside
    } else {
        Removal::IfEmpty
    }
}

/// Returns whether something of this name stands in a directory.
fn has<R: Files>(rt: &R, alloc: Global, dir: &str, name: &str) -> Result<bool, Trouble> {
    let path = path_in(alloc, dir, name)?;
    Ok(if_there(fs::symlink_metadata(rt, path.as_str()))?.is_some())
}

/// Returns whether a job left a directory.
fn is_of_job<R: Files>(rt: &R, alloc: Global, dir: &str) -> Result<bool, Trouble> {
    Ok(has(rt, alloc, dir, JOB)? || has(rt, alloc, dir, OUT)?)
}

/// Returns whether a job left a directory that the user cannot enter as it is. Its mode stays.
fn is_closed_of_job<R: Files>(
    rt: &R,
    alloc: Global,
    dir: &str,
    mode: Permissions,
) -> Result<bool, Trouble> {
    fs::set_permissions(rt, dir, Permissions::from_mode(PRIVATE))?;
    let found = is_of_job(rt, alloc, dir);
    fs::set_permissions(rt, dir, mode)?;
    found
}

/// Returns how a directory that stands in the place of a job's is removed.
fn removal_at<R: Files>(
    rt: &R,
    alloc: Global,
    dir: &str,
    found: &Metadata,
) -> Result<Removal, Trouble> {
    if !found.is_dir() {
        return Ok(removal_of(false, false));
    }
    let is_of_job = match is_of_job(rt, alloc, dir) {
        Err(Trouble::Refused(Refusal::System(_, ErrorKind::PermissionDenied))) => {
            is_closed_of_job(rt, alloc, dir, found.permissions())?
        }
        other => other?,
    };
    Ok(removal_of(true, is_of_job))
}

/// Puts what stands in the place of a job's directory out of the way, or refuses.
fn clear<R>(rt: &R, alloc: Global, dir: &str, trash: &Trash) -> Result<(), Trouble>
where
    R: Files + Processes + AllocGlobal + Clone + Drop,
{
    let Some(old) = if_there(fs::symlink_metadata(rt, dir))? else {
        return Ok(());
    };
    match removal_at(rt, alloc, dir, &old)? {
        Removal::Refused => Err(Trouble::Refused(Refusal::NotOfJob)),
        Removal::IfEmpty => remove_empty(rt, dir),
        Removal::Aside => trash.put(rt, alloc, dir),
    }
}

/// Removes a directory that is empty, or refuses.
fn remove_empty<R: Files>(rt: &R, dir: &str) -> Result<(), Trouble> {
    match fs::remove_dir(rt, dir) {
        Err(e) if e.kind() == ErrorKind::DirectoryNotEmpty => {
            Err(Trouble::Refused(Refusal::NotOfJob))
        }
        other => Ok(other?),
    }
}

/// Makes the directory of a job anew, in a folder that is there. What an earlier job left there goes
/// into the trash, so that it is there as a whole or not at all, whenever the program is ended.
pub(crate) fn make<R>(rt: &R, alloc: Global, dir: &str, trash: &Trash) -> Result<(), Trouble>
where
    R: Files + Processes + AllocGlobal + Clone + Drop,
{
    clear(rt, alloc, dir, trash)?;
    make_private(rt, dir)?;
    let job = path_in(alloc, dir, JOB)?;
    fs::write(rt, job.as_str(), "")?;
    Ok(())
}

/// Writes the files of a request into its directory.
pub(crate) fn lay_down<R: Files>(
    rt: &R,
    alloc: Global,
    dir: &str,
    files: &[Laid],
) -> Result<(), Trouble> {
    for file in files {
        let path = path_in(alloc, dir, file.name.as_str())?;
        fs::write(rt, path.as_str(), file.body.as_str())?;
    }
    Ok(())
}

/// Writes the paths of a request's inputs into its directory, where there are any.
pub(crate) fn lay_inputs<R: Files>(
    rt: &R,
    alloc: Global,
    dir: &str,
    inputs: &[Text],
) -> Result<(), Trouble> {
    if inputs.is_empty() {
        return Ok(());
    }
    let mut paths = Vec::new(alloc);
    for input in inputs {
        paths.extend_from_slice(input.as_str().as_bytes())?;
        paths.push(0)?;
    }
    let path = path_in(alloc, dir, INPUTS)?;
    fs::write(rt, path.as_str(), paths.as_slice())?;
    Ok(())
}
