ghost use Rattle.std.specs.Fs.{file_type, metadata_len};
ghost use Rattle.file_stamp.specs.Stamps.{IsOf};

use crate::stamp::Stamp;
use std::fs;
use std::fs::{Files, Metadata};
use std::os::unix::fs::MetadataExt;

fn stamp_in(found: &Metadata) -> Stamp
    ensures { IsOf (file_type found.now) (metadata_len found.now) result }
{
    if !found.is_file() {
        return Stamp::Other;
    }
    Stamp::File {
        bytes: found.len(),
        seconds: found.mtime(),
        nanoseconds: found.mtime_nsec(),
    }
}

/// The stamp of what stands at a path, or of what a link at the path leads to. Nothing is opened. A
/// path that the system does not let through counts as one where nothing is.
pub fn stamp_of<R: Files>(rt: &R, path: &str) -> Stamp {
    match fs::metadata(rt, path) {
        Ok(found) => stamp_in(&found),
        Err(_) => Stamp::Missing,
    }
}
