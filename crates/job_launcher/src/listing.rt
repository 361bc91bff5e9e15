use crate::cut::{Cut, Lack};
use crate::directory::{ERR, INPUTS, JOB, OUT, path_in};
use crate::kind::{Kind, kind_of};
use std::alloc::Global;
use std::fs;
use std::fs::{DirEntry, Files};
use std::io::ErrorKind;
use wdl_value::{CUT_NAME, FILE_COUNT, FILE_NAME_BYTES, FILE_NAMES_BYTES, NoMemory};

/// The most levels of folders that are listed; the files of the job's directory itself are at the
/// first.
const LEVELS: usize = 64;

/// The regular files below the directory of a job: their names, relative to it, and the lengths
/// that they had.
#[derive(Drop)]
pub(crate) struct Listing {
    /// The files that are kept, once all are listed, in byte order of their names; among them the
    /// mark, where not all are.
    pub(crate) files: Vec<(String, u64)>,
    /// How many files were seen.
    pub(crate) count: u64,
    /// Why not all names are kept, where they are not.
    pub(crate) cut: Option<Cut>,
    /// Whether the run laid down the list of the job's inputs.
    has_inputs: bool,
    /// The folders that are still to be listed, as what stands before the names of their files:
    /// `d/e/`, and nothing for the directory itself.
    folders: Vec<String>,
}

impl Listing {
    fn start(alloc: Global, has_inputs: bool) -> Result<Listing, NoMemory> {
        let mut folders = Vec::new(alloc);
        folders.push(String::new(alloc))?;
        Ok(Listing {
            files: Vec::new(alloc),
            count: 0,
            cut: None,
            has_inputs,
            folders,
        })
    }

    /// Keeps the first reason why not all names are kept.
    fn lacks(&mut self, alloc: Global, lack: Lack, folder: &str) -> Result<(), NoMemory> {
        if self.cut.is_none() {
            let folder = format!(in alloc; "./{folder}")?;
            self.cut = Some(Cut { lack, folder });
        }
        Ok(())
    }

    /// Passes over a folder, or what stands in it, unless it is gone.
    fn miss(&mut self, alloc: Global, reason: ErrorKind, folder: &str) -> Result<(), NoMemory> {
        match reason {
            ErrorKind::OutOfMemory => Err(NoMemory),
            ErrorKind::NotFound => Ok(()),
            _ => self.lacks(alloc, Lack::Unread(reason), folder),
        }
    }

    /// Passes over an entry that was not given. Where its name is not UTF-8, it counts as a file.
    fn miss_entry(
        &mut self,
        alloc: Global,
        reason: ErrorKind,
        folder: &str,
    ) -> Result<(), NoMemory> {
        if reason != ErrorKind::InvalidFilename {
            return self.miss(alloc, reason, folder);
        }
        self.count = self.count.saturating_add(1);
        self.lacks(alloc, Lack::NotText, folder)
    }

    /// Whether a file is one that the run made itself: the two streams, the file by which the
    /// directory is known, and the list of inputs.
    fn is_own(&self, name: &str) -> bool {
        [OUT, ERR, JOB].contains(&name) || (self.has_inputs && name == INPUTS)
    }

    /// Adds a file of a folder.
    fn add_file(
        &mut self,
        alloc: Global,
        name: String,
        length: u64,
        folder: &str,
    ) -> Result<(), NoMemory> {
        if self.is_own(name.as_str()) {
            return Ok(());
        }
        self.count = self.count.saturating_add(1);
        if name.len() > FILE_NAME_BYTES {
            return self.lacks(alloc, Lack::LongName, folder);
        }
        self.files.push((name, length))?;
        self.shed()
    }

    /// Forgets the names that are last in byte order, once there are twice as many as are kept.
    fn shed(&mut self) -> Result<(), NoMemory> {
        if self.files.len() >= 2 * FILE_COUNT {
            self.files.sort()?;
            self.files.truncate(FILE_COUNT);
        }
        Ok(())
    }

    /// Adds a folder that stands at this level, unless it is the last.
    fn add_folder(
        &mut self,
        alloc: Global,
        mut name: String,
        level: usize,
    ) -> Result<(), NoMemory> {
        name.push('/')?;
        if level >= LEVELS {
            return self.lacks(alloc, Lack::Deep, name.as_str());
        }
        self.folders.push(name)?;
        Ok(())
    }

    /// Adds an entry of the folder whose prefix this is.
    fn add<R: Files>(
        &mut self,
        rt: &R,
        alloc: Global,
        prefix: &str,
        entry: &DirEntry<R>,
    ) -> Result<(), NoMemory> {
        let mut name = String::from_str(alloc, prefix)?;
        name.push_str(entry.file_name())?;
        match kind_of(rt, entry) {
            Ok(Kind::Folder) => self.add_folder(alloc, name, prefix.matches('/').count() + 1),
            Ok(Kind::File(length)) => self.add_file(alloc, name, length, prefix),
            Ok(Kind::Other) => Ok(()),
            Err(reason) => self.miss(alloc, reason, prefix),
        }
    }

    /// Adds what a folder holds, as far as it can be read.
    fn add_all<R: Files + AllocGlobal + Clone + Drop>(
        &mut self,
        rt: &R,
        alloc: Global,
        path: &str,
        prefix: &str,
    ) -> Result<(), NoMemory> {
        let entries = match fs::read_dir(rt, path) {
            Ok(entries) => entries,
            Err(e) => return self.miss(alloc, e.kind(), prefix),
        };
        for entry in entries {
            match entry {
                Ok(entry) => self.add(rt, alloc, prefix, &entry)?,
                Err(e) => self.miss_entry(alloc, e.kind(), prefix)?,
            }
        }
        Ok(())
    }

    /// Adds what the waiting folders hold.
    fn fill<R: Files + AllocGlobal + Clone + Drop>(
        &mut self,
        rt: &R,
        alloc: Global,
        dir: &str,
    ) -> Result<(), NoMemory> {
        for _ in 0..u64::MAX {
            let Some(prefix) = self.folders.pop() else {
                break;
            };
            let path = path_in(alloc, dir, prefix.as_str())?;
            self.add_all(rt, alloc, path.as_str(), prefix.as_str())?;
        }
        Ok(())
    }

    /// How many of the first names are at most `count`, with at most `bytes` together.
    fn room(&self, count: usize, bytes: usize) -> usize {
        let mut left = bytes;
        let mut kept: usize = 0;
        for (name, _) in &self.files {
            if kept >= count || name.len() > left {
                break;
            }
            left -= name.len();
            kept = kept.saturating_add(1);
        }
        kept
    }

    /// Keeps the limits of an answer as a reason, where the files pass one of them.
    fn meet_limits(&mut self, alloc: Global) -> Result<(), NoMemory> {
        if self.count > FILE_COUNT as u64 {
            return self.lacks(alloc, Lack::Files, "");
        }
        if self.room(FILE_COUNT, FILE_NAMES_BYTES) < self.files.len() {
            return self.lacks(alloc, Lack::Bytes, "");
        }
        Ok(())
    }

    /// Puts the files into byte order of their names. Where not all names can be kept, the first
    /// ones are, and the mark says so.
    fn settle(&mut self, alloc: Global) -> Result<(), NoMemory> {
        self.files.sort()?;
        self.meet_limits(alloc)?;
        if self.cut.is_none() {
            return Ok(());
        }
        let kept = self.room(FILE_COUNT - 1, FILE_NAMES_BYTES - CUT_NAME.len());
        self.files.truncate(kept);
        self.files
            .push((String::from_str(alloc, CUT_NAME)?, u64::MAX))?;
        self.files.sort()?;
        Ok(())
    }
}

/// Lists the regular files below a directory, to 64 levels, but for those that the run made itself.
/// `has_inputs` tells whether it laid down the list of the job's inputs.
pub(crate) fn list<R: Files + AllocGlobal + Clone + Drop>(
    rt: &R,
    alloc: Global,
    dir: &str,
    has_inputs: bool,
) -> Result<Listing, NoMemory> {
    let mut listing = Listing::start(alloc, has_inputs)?;
    listing.fill(rt, alloc, dir)?;
    listing.settle(alloc)?;
    Ok(listing)
}
