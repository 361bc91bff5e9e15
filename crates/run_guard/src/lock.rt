use std::alloc::Global;
use std::fs::{DirBuilder, File, Files, OpenOptions, TryLockError};
use std::io::ErrorKind;
use std::os::unix::fs::{DirBuilderExt, FileExt, MetadataExt, OpenOptionsExt};
use std::path::Path;
use std::{fs, io, str};

/// The name of the lock's file in the root of a run.
const NAME: &str = ".wdl-lock";

/// The most bytes of the text in that file.
const TEXT_BYTES: usize = 64;

/// The lock on a root. It ends where this is dropped, and where the process ends, however it ends.
/// No child program has it.
#[derive(Drop)]
pub struct RootLock {
    _file: File,
}

/// What came of a try to take the lock.
#[derive(Drop)]
pub enum Taken {
    Held(RootLock),
    /// Another process has the lock. It wrote this into the file, its number first; nothing for a
    /// moment after it took the lock.
    Busy(String),
}

/// Makes the folder and those above it, where they are missing, for its owner alone.
fn make_root<R: Files>(rt: &R, root: &str) -> io::Result<()> {
    let mut builder = DirBuilder::new();
    builder.mode(0o700).recursive(true);
    builder.create(rt, root)
}

/// Opens the lock's file, or makes it. It is opened for writing too, which some file systems ask of
/// an exclusive lock.
fn open<R: Files>(rt: &R, path: &str) -> io::Result<R::File> {
    let mut options = OpenOptions::new();
    options.read(true).write(true).create(true).mode(0o600);
    options.open(rt, path)
}

/// Returns whether the open file is what stands at the path, and no link there leads to it.
fn is_at<R: Files>(rt: &R, path: &str, file: &File) -> io::Result<bool> {
    let open = file.metadata()?;
    match fs::symlink_metadata(rt, path) {
        Ok(found) => Ok(found.dev() == open.dev() && found.ino() == open.ino()),
        Err(e) if e.kind() == ErrorKind::NotFound => Ok(false),
        Err(e) => Err(e),
    }
}

/// Returns the text of the file, as far as it is text.
fn text_in(alloc: Global, file: &File) -> io::Result<String> {
    let mut bytes = [0; TEXT_BYTES];
    let length = file.read_at(&mut bytes, 0)?;
    let text = str::from_utf8(&bytes[..length]).unwrap_or("");
    Ok(String::from_str(alloc, text)?)
}

/// Takes the lock on the root of a run for this process, if no other process has it, and writes
/// `holder` into its file, `ROOT/.wdl-lock`. The root is made with mode 700 where it is missing, and
/// the file with mode 600.
pub fn take<R: Files<File = File>>(
    rt: &R,
    alloc: Global,
    root: &str,
    holder: &str,
) -> io::Result<Taken> {
    make_root(rt, root)?;
    let path = Path::new(root).join(alloc, NAME)?;
    let file = open(rt, path.as_str())?;
    match file.try_lock() {
        Ok(()) => {}
        Err(TryLockError::WouldBlock) => return Ok(Taken::Busy(text_in(alloc, &file)?)),
        Err(TryLockError::Error(e)) => return Err(e),
    }
    if !is_at(rt, path.as_str(), &file)? {
        // Another process put the folder away, or its own in this place; or a link stands there,
        // and what it leads to is left as it is.
        return Ok(Taken::Busy(String::new(alloc)));
    }
    file.set_len(0)?;
    file.write_all_at(holder.as_bytes(), 0)?;
    Ok(Taken::Held(RootLock { _file: file }))
}
