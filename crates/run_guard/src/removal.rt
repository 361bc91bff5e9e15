use std::alloc::Global;
use std::io;
use std::process::{Command, Processes, Stdio};

/// Removes the folder `$1` with all that is in it, also what is in folders that nobody may write.
const SCRIPT: &str = "rm -rf -- \"$1\" || { chmod -R u+rwx -- \"$1\"; rm -rf -- \"$1\"; }";

/// Removes a folder with all that is in it, as far as the system lets it.
pub fn remove<R: Processes>(rt: &R, alloc: Global, folder: &str) -> io::Result<()> {
    let mut command = Command::new(alloc, "sh")?;
    command.args(["-c", SCRIPT, "sh", folder])?;
    command.stdin(Stdio::null());
    command.stdout(Stdio::null()).stderr(Stdio::null());
    command.status(rt)?;
    Ok(())
}
