//! Why a file cannot be opened, as far as its path shows.

use std::fmt::Formatter;
use std::fs::Metadata;
use std::io::ErrorKind;
use std::os::unix::fs::MetadataExt;
use std::rt::HostRuntime;
use std::{fmt, fs};

/// What stands in the way of a journal.
#[derive(Clone, Copy, Debug, PartialEq, Eq)]
pub(crate) enum Obstacle {
    /// The path is one that sqlite3 takes for a URI.
    Uri,
    /// A folder is at the path.
    Folder,
    /// The file has another name, so that its log would not be found from there.
    Links,
    /// Nothing is at the path, and no file can be made there.
    NoFolder,
    /// The system does not tell what is at the path.
    System(ErrorKind),
    /// The path does not show it.
    Unknown,
}

fn obstacle_in(found: &Metadata) -> Obstacle {
    if found.is_dir() {
        Obstacle::Folder
    } else if found.nlink() > 1 {
        Obstacle::Links
    } else {
        Obstacle::Unknown
    }
}

/// Returns what stands in the way of a journal at a path that cannot be opened.
pub(crate) fn obstacle_at(rt: &HostRuntime, path: &str) -> Obstacle {
    if path.starts_with("file:") {
        return Obstacle::Uri;
    }
    match fs::metadata(rt, path) {
        Ok(found) => obstacle_in(&found),
        Err(e) if e.kind() == ErrorKind::NotFound => Obstacle::NoFolder,
        Err(e) => Obstacle::System(e.kind()),
    }
}

impl fmt::Display for Obstacle {
    fn fmt<W: fmt::Write>(&self, f: &mut Formatter<W>) -> fmt::Result {
        match *self {
            Obstacle::Uri => f.write_str("its path begins with `file:`"),
            Obstacle::Folder => f.write_str("it is a folder"),
            Obstacle::Links => f.write_str("it has a second hard link"),
            Obstacle::NoFolder => {
                f.write_str("its folder is not there, or no file can be made in it")
            }
            Obstacle::System(kind) => write!(f, "{kind}"),
            Obstacle::Unknown => f.write_str(
                "it, or the log beside it, cannot be written, or the file system has no locks",
            ),
        }
    }
}
