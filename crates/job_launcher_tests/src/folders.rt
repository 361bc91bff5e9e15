//! Which directories are made, replaced and left alone.
use crate::answers::{end, launcher_of, told};
use std::alloc::Global;
use std::fs;
use std::fs::Files;
use std::os::unix::fs::{MetadataExt, chown, symlink};
use std::test::Fail;
use wdl_port::{LaunchFault, Launcher};

fn is_refused<L: Launcher + Sync>(
    launcher: &L,
    alloc: Global,
    dir: &str,
) -> Result<bool, LaunchFault> {
    let line = told(launcher, alloc, dir, "true")?;
    Ok(line.as_slice() == b"refused".as_slice())
}

#[test]
fn leaves_alone_what_no_job_left(rt: HostRuntime) -> Result<(), Fail> {
    let alloc = rt.alloc();
    let launcher = launcher_of(&rt, alloc, Some("sh"))?;
    fs::create_dir_all(&rt, "kept/notes")?;
    fs::create_dir(&rt, "kept/empty")?;
    fs::write(&rt, "kept/notes/file", "mine")?;
    symlink(&rt, "notes", "kept/link")?;
    symlink(&rt, "gone", "kept/dangling")?;
    for dir in [
        "kept/notes",
        "kept/notes/file",
        "kept/notes/file/below",
        "kept/link",
        "kept/dangling",
        "",
    ] {
        assert!(rt; is_refused(&launcher, alloc, dir)?, "{dir}");
    }
    assert!(rt; fs::read_to_string(&rt, "kept/notes/file")?.as_str() == "mine");
    assert!(rt; fs::symlink_metadata(&rt, "kept/link")?.is_symlink());
    assert!(rt; !is_refused(&launcher, alloc, "kept/empty")?);
    assert!(rt; !is_refused(&launcher, alloc, "kept/empty")?);
    end(&rt, launcher)?;
    rt.remove_dir_all(alloc, "kept")?;
    Ok(())
}

#[test]
fn makes_private_folders(rt: HostRuntime) -> Result<(), Fail> {
    let alloc = rt.alloc();
    let launcher = launcher_of(&rt, alloc, Some("sh"))?;
    assert!(rt; !is_refused(&launcher, alloc, "private/a/job")?);
    for folder in ["private", "private/a", "private/a/job"] {
        let mode = fs::metadata(&rt, folder)?.mode();
        assert!(rt; mode & 0o777 == 0o700, "{folder}: {mode:o}");
    }
    // Who may give a folder to another user can see that it is refused then.
    if chown(&rt, "private", Some(12_345), None).is_ok() {
        for dir in ["private/job", "private/a/job", "private/b/job"] {
            assert!(rt; is_refused(&launcher, alloc, dir)?, "{dir}");
        }
        assert!(rt; !fs::exists(&rt, "private/b")?);
    }
    end(&rt, launcher)?;
    rt.remove_dir_all(alloc, "private")?;
    Ok(())
}
