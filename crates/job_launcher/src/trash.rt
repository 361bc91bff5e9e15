use crate::directory::path_in;
use crate::owner::{PRIVATE, private_folders};
use crate::refusal::Refusal;
use crate::trouble::Trouble;
use run_guard::remove;
use std::alloc::{AllocError, Global};
use std::fs::{DirEntry, Files, Permissions};
use std::io::ErrorKind;
use std::os::unix::fs::PermissionsExt;
use std::process::Processes;
use std::{fs, io};

/// How the names of the folders begin in which runs put old directories aside.
const BEGINNING: &str = ".wdl-old-";

/// Where a run puts what stands in the places of its jobs' directories, to be removed once it is done:
/// a folder of its root, `.wdl-old-MARK`, which is made when it is first needed.
#[derive(Drop)]
pub(crate) struct Trash {
    folder: String,
    /// How the names begin that one job gives what it puts there.
    job: String,
}

/// Returns the folder of a run's trash.
pub(crate) fn folder_of(alloc: Global, root: &str, mark: &str) -> Result<String, AllocError> {
    format!(in alloc; "{root}/{BEGINNING}{mark}")
}

/// Makes the folder, if it is not there.
fn make_folder<R: Files>(rt: &R, folder: &str) -> io::Result<()> {
    match private_folders().create(rt, folder) {
        Err(e) if e.kind() == ErrorKind::AlreadyExists => Ok(()),
        other => other,
    }
}

/// Moves a directory. One that nobody may write is made writable first, since it holds the name of
/// the folder above it.
fn move_to<R: Files>(rt: &R, from: &str, to: &str) -> io::Result<()> {
    match fs::rename(rt, from, to) {
        Err(e) if e.kind() == ErrorKind::PermissionDenied => {
            fs::set_permissions(rt, from, Permissions::from_mode(PRIVATE))?;
            fs::rename(rt, from, to)
        }
        other => other,
    }
}

/// Moves a directory into a folder, which is made where it is missing.
fn move_into<R: Files>(rt: &R, from: &str, folder: &str, to: &str) -> io::Result<()> {
    match move_to(rt, from, to) {
        Err(e) if e.kind() == ErrorKind::NotFound => {
            make_folder(rt, folder)?;
            move_to(rt, from, to)
        }
        other => other,
    }
}

impl Trash {
    /// The trash of a run, for the job of this number.
    pub(crate) fn new(alloc: Global, folder: &str, job: u64) -> Result<Trash, AllocError> {
        Ok(Trash {
            folder: String::from_str(alloc, folder)?,
            job: format!(in alloc; "{job}")?,
        })
    }

    /// Puts a directory into the trash. Where that is on another file system, the directory is put
    /// aside where it stands, and removed.
    pub(crate) fn put<R>(&self, rt: &R, alloc: Global, dir: &str) -> Result<(), Trouble>
    where
        R: Files + Processes + AllocGlobal + Clone + Drop,
    {
        let folder = self.folder.as_str();
        let to = path_in(alloc, folder, self.job.as_str())?;
        match move_into(rt, dir, folder, to.as_str()) {
            Err(e) if e.kind() == ErrorKind::CrossesDevices => self.remove_there(rt, alloc, dir),
            other => Ok(other?),
        }
    }

    /// Puts a directory aside within its own folder, and removes all that runs put aside there.
    fn remove_there<R>(&self, rt: &R, alloc: Global, dir: &str) -> Result<(), Trouble>
    where
        R: Files + Processes + AllocGlobal + Clone + Drop,
    {
        let Some((above, _)) = dir.rsplit_once('/') else {
            return Err(Trouble::Refused(Refusal::NotOfJob));
        };
        let (mark, job) = (name_in(self.folder.as_str()), self.job.as_str());
        let aside = format!(in alloc; "{above}/{mark}-{job}")?;
        move_to(rt, dir, aside.as_str())?;
        for entry in fs::read_dir(rt, above)? {
            if let Some(entry) = trash_at(entry)? {
                remove(rt, alloc, entry.path().as_str())?;
            }
        }
        Ok(())
    }
}

/// Returns the last part of a path.
fn name_in(path: &str) -> &str {
    match path.rsplit_once('/') {
        Some((_, name)) => name,
        None => path,
    }
}

/// Returns what a call gave, or `None` where it failed for another reason than memory: it was about
/// what another process removed or owns, or a name that is not UTF-8.
fn if_given<T>(given: io::Result<T>) -> Result<Option<T>, Trouble> {
    match given {
        Ok(it) => Ok(Some(it)),
        Err(e) if e.kind() == ErrorKind::OutOfMemory => Err(Trouble::NoMemory),
        Err(_) => Ok(None),
    }
}

/// Returns an entry of a folder if it is one in which a run put old directories aside.
fn trash_at<R: Files + Drop>(
    entry: io::Result<DirEntry<R>>,
) -> Result<Option<DirEntry<R>>, Trouble> {
    let Some(entry) = if_given(entry)? else {
        return Ok(None);
    };
    if !entry.file_name().starts_with(BEGINNING) {
        return Ok(None);
    }
    match if_given(entry.metadata())? {
        Some(found) if found.is_dir() => Ok(Some(entry)),
        _ => Ok(None),
    }
}

/// Puts the trash that earlier runs left in a root into this run's. What cannot be moved, as another
/// user's, stays.
pub(crate) fn gather<R: Files + AllocGlobal + Clone + Drop>(
    rt: &R,
    alloc: Global,
    root: &str,
    folder: &str,
) -> Result<(), Trouble> {
    for entry in fs::read_dir(rt, root)? {
        if let Some(entry) = trash_at(entry)? {
            make_folder(rt, folder)?;
            let to = path_in(alloc, folder, entry.file_name())?;
            if_given(move_to(rt, entry.path().as_str(), to.as_str()))?;
        }
    }
    Ok(())
}
