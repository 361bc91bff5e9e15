use crate::directory::path_in;
use crate::listing::Listing;
use crate::reach::{Reach, reach_of};
use sqlite_items::Items;
use std::alloc::Global;
use std::fs;
use std::fs::{File, Files};
use std::io::{ErrorKind, Read};
use wdl_value::{Body, NoMemory, Seen, Text, TextFault};

/// A file that cannot be read counts as one that is too long: the command has ended, and only an
/// output that needs the file fails.
fn unread(reason: ErrorKind) -> Result<Body, NoMemory> {
    match reason {
        ErrorKind::OutOfMemory => Err(NoMemory),
        _ => Ok(Body::Long),
    }
}

/// The bytes of an open file, or `Long` where it has more than the limit.
fn read_up_to<F: Read + Drop>(alloc: Global, file: F, limit: u64) -> Result<Body, NoMemory> {
    let mut bytes = Vec::new(alloc);
    if let Err(e) = file.take(limit.saturating_add(1)).read_to_end(&mut bytes) {
        return unread(e.kind());
    }
    if bytes.len() as u64 <= limit {
        Ok(Body::Bytes(Items::from_vec(bytes)))
    } else {
        Ok(Body::Long)
    }
}

/// The bytes of the regular file at a path, or `Long` where it has more than the limit or cannot be
/// read; `None` where there is no such file.
pub(crate) fn body_of<R: Files>(
    rt: &R,
    alloc: Global,
    path: &str,
    limit: u64,
) -> Result<Option<Body>, NoMemory> {
    // Nothing else is opened: a named pipe would wait for its writer.
    match fs::metadata(rt, path) {
        Ok(found) if found.is_file() => {}
        Ok(_) => return Ok(None),
        Err(e) if e.kind() == ErrorKind::NotFound => return Ok(None),
        Err(e) => return Ok(Some(unread(e.kind())?)),
    }
    match File::open(rt, path) {
        Ok(file) => Ok(Some(read_up_to(alloc, file, limit)?)),
        Err(e) if e.kind() == ErrorKind::NotFound => Ok(None),
        Err(e) => Ok(Some(unread(e.kind())?)),
    }
}

/// The body of the file of this name, which is kept up to a limit, if at all; `None` where the file
/// is gone.
fn kept_body<R: Files>(
    rt: &R,
    alloc: Global,
    dir: &str,
    name: &str,
    kept: Option<u64>,
) -> Result<Option<Body>, NoMemory> {
    let Some(limit) = kept else {
        return Ok(Some(Body::Long));
    };
    let path = path_in(alloc, dir, name)?;
    body_of(rt, alloc, path.as_str(), limit)
}

/// Adds a file, if its name is a text, as each is that a system gives, and another one than the last.
/// A folder that changes while it is listed may give a name twice.
fn push(alloc: Global, files: &mut Items<Seen>, name: &str, body: Body) -> Result<(), NoMemory> {
    if let Some(last) = files.as_slice().last()
        && last.name.is(name)
    {
        return Ok(());
    }
    match Text::new(alloc, name) {
        Ok(name) => Ok(files.push(Seen { name, body })?),
        Err(TextFault::Nul) => Ok(()),
        Err(TextFault::NoMemory) => Err(NoMemory),
    }
}

fn read_all<R: Files>(
    rt: &R,
    alloc: Global,
    dir: &str,
    listed: &[(String, u64)],
    mut reach: Reach,
) -> Result<Items<Seen>, NoMemory> {
    let mut files = Items::new(alloc);
    for (name, length) in listed {
        let kept = reach.takes(*length).then_some(*length);
        if let Some(body) = kept_body(rt, alloc, dir, name.as_str(), kept)? {
            push(alloc, &mut files, name.as_str(), body)?;
        }
    }
    Ok(files)
}

/// The listed files below a directory. A file whose body is not kept is not read, and so none is
/// unless `reads`.
pub(crate) fn files_of<R: Files + AllocGlobal + Clone + Drop>(
    rt: &R,
    alloc: Global,
    dir: &str,
    listing: &Listing,
    reads: bool,
) -> Result<Items<Seen>, NoMemory> {
    let reach = if reads {
        reach_of(alloc, listing)?
    } else {
        Reach::NOWHERE
    };
    read_all(rt, alloc, dir, listing.files.as_slice(), reach)
}
