use std::fs;
use std::fs::{DirEntry, Files, Metadata};
use std::io::ErrorKind;

/// What an entry of a directory is to a listing.
#[derive(Clone, Copy)]
pub(crate) enum Kind {
    Folder,
    /// A regular file of so many bytes, or a symbolic link to one.
    File(u64),
    /// A named pipe, a socket, a device, a link to none of these, or what went meanwhile.
    Other,
}

fn file_or_other(found: &Metadata) -> Kind {
    if found.is_file() {
        Kind::File(found.len())
    } else {
        Kind::Other
    }
}

/// Whether a path that cannot be followed for this reason leads to no file.
fn leads_nowhere(reason: ErrorKind) -> bool {
    matches!(
        reason,
        ErrorKind::NotFound
            | ErrorKind::NotADirectory
            | ErrorKind::FilesystemLoop
            | ErrorKind::PermissionDenied
            | ErrorKind::InvalidFilename
    )
}

/// A symbolic link counts as the file that it leads to. One to a folder is not followed.
fn behind<R: Files>(rt: &R, link: &str) -> Result<Kind, ErrorKind> {
    match fs::metadata(rt, link) {
        Ok(found) => Ok(file_or_other(&found)),
        Err(e) if leads_nowhere(e.kind()) => Ok(Kind::Other),
        Err(e) => Err(e.kind()),
    }
}

/// Returns what an entry is, or why the system does not tell.
pub(crate) fn kind_of<R: Files>(rt: &R, entry: &DirEntry<R>) -> Result<Kind, ErrorKind> {
    match entry.metadata() {
        Ok(found) if found.is_dir() => Ok(Kind::Folder),
        Ok(found) if found.is_symlink() => behind(rt, entry.path().as_str()),
        Ok(found) => Ok(file_or_other(&found)),
        Err(e) => Err(e.kind()),
    }
}
