use crate::refusal::Refusal;
use crate::trouble::{Trouble, if_there};
use std::fs;
use std::fs::{DirBuilder, Files, Metadata};
use std::os::unix::fs::{DirBuilderExt, MetadataExt};

/// The mode of each folder that is made: nobody but its owner reads or changes what it holds.
pub(crate) const PRIVATE: u32 = 0o700;

/// What makes folders for their owner alone.
pub(crate) fn private_folders() -> DirBuilder {
    let mut builder = DirBuilder::new();
    builder.mode(PRIVATE);
    builder
}

/// Makes a folder, which must not be there.
pub(crate) fn make_private<R: Files>(rt: &R, path: &str) -> Result<(), Trouble> {
    Ok(private_folders().create(rt, path)?)
}

/// Makes a folder and those above it, where they are missing.
fn make_all_private<R: Files>(rt: &R, path: &str) -> Result<(), Trouble> {
    Ok(private_folders().recursive(true).create(rt, path)?)
}

/// What stands at the path of a folder, which is made with those above it where nothing does.
fn made<R: Files>(rt: &R, path: &str) -> Result<Metadata, Trouble> {
    if let Some(found) = if_there(fs::symlink_metadata(rt, path))? {
        return Ok(found);
    }
    make_all_private(rt, path)?;
    Ok(fs::symlink_metadata(rt, path)?)
}

/// Whether what stands at a path belongs to the user who runs the program. Where it is a symbolic
/// link, what it leads to must be the user's own too.
fn is_own<R: Files>(rt: &R, path: &str, found: &Metadata) -> Result<bool, Trouble> {
    let user = libc::geteuid();
    if found.uid() != user {
        return Ok(false);
    }
    if !found.is_symlink() {
        return Ok(true);
    }
    Ok(fs::metadata(rt, path)?.uid() == user)
}

/// Makes the folders that are to hold a directory, where they are missing. The lowest `levels` of
/// them must belong to the user who runs the program: in another's folder, what is made could be
/// replaced.
pub(crate) fn hold<R: Files>(rt: &R, dir: &str, levels: usize) -> Result<(), Trouble> {
    if levels == 0 {
        return Ok(());
    }
    let Some((above, _)) = dir.rsplit_once('/') else {
        return Ok(());
    };
    hold(rt, above, levels - 1)?;
    let found = made(rt, above)?;
    if is_own(rt, above, &found)? {
        Ok(())
    } else {
        Err(Trouble::Refused(Refusal::OthersFolder))
    }
}
