ghost use Rattle.std.specs.Prelude.{◌≡◌, Some, OnOk, codes};
ghost use Rattle.std.specs.Process.{command_var, SameOtherVars, SameProgramAndArgs, SameDir};

use std::alloc::{AllocError, Global};
use std::fmt::Write as _;
use std::io;
use std::io::{ErrorKind, Write};
use std::process::{Child, Command, OpenProcess, Processes, Stdio};
use std::random::RandomSource;

/// The variable that holds the mark of a run in the environment of its jobs.
pub const MARK: &str = "WDL_RUN";

/// The program that starts another one in a session of its own: `setsid PROGRAM ARGUMENT..`.
pub const SESSION: &str = "setsid";

/// What the guard of the mark `$1` does. Its input ends when the run has ended. Then it ends the
/// processes that have the mark: by TERM, and after five seconds by KILL, so that the next run,
/// which waits for ten, finds none of them. One that was started while the others were looked for
/// gets it a second later: a process that was begun as the run ended shows the mark only once it is
/// the job's, so the guard ends where it has found none twice. A line on the input releases it; it
/// then removes the folder `$2`, where there is one, and gives way to other processes where the line
/// says `later`.
const SCRIPT: &str = "mark=$1 old=$2 told= none=
trap '' HUP INT QUIT TERM
left() { grep -lsF \"$mark\" /proc/[0-9]*/environ; }
end() {
  for file in $(left); do
    case $told in *\"$1$file\"*) continue ;; esac
    told=\"$told $1$file\"
    process=${file#/proc/}
    kill -s \"$1\" \"${process%/environ}\"
  done
}
if read -r how; then
  [ -d \"$old\" ] || exit 0
  case $old in /*) cd / ;; esac
  case $how in later) renice -n 19 $$ ;; esac
  rm -rf -- \"$old\" || { chmod -R u+rwx -- \"$old\"; rm -rf -- \"$old\"; }
  exit
fi
for signal in TERM TERM TERM TERM TERM KILL KILL KILL KILL KILL; do
  end \"$signal\"
  if [ \"$(left)\" ]; then none=; elif [ \"$none\" ]; then exit; else none=1; fi
  sleep 1
done
";

/// The guard of a run that goes on: a process that waits for the end of this one. Where the guard is
/// dropped, and where this process ends, however it ends, the processes that have its mark are
/// ended, those in sessions of their own too.
#[derive(Drop)]
pub struct Guard<P: OpenProcess> {
    child: Child<P>,
    pub mark: String,
}

/// Returns a new mark of a run: sixteen random bytes in hexadecimal.
pub fn fresh_mark<R: RandomSource>(rt: &R, alloc: Global) -> io::Result<String> {
    let mut bytes = [0u8; 16];
    rt.fill_bytes(&mut bytes)?;
    let mut mark = String::new(alloc);
    for byte in bytes {
        write!(mark, "{byte:02x}")?;
    }
    Ok(mark)
}

/// Starts the process of a guard by the program `first`.
fn start_by<R: Processes>(
    rt: &R,
    alloc: Global,
    first: &str,
    arguments: &[&str],
) -> io::Result<Child<R::Started>> {
    let mut command = Command::new(alloc, first)?;
    command.args(arguments)?;
    command.stdin(Stdio::piped());
    command.stdout(Stdio::null()).stderr(Stdio::null());
    command.spawn(rt)
}

/// Starts the process of a guard: in a session of its own, so that no signal to the group of this
/// process reaches it, where the system has `setsid`.
fn start_script<R: Processes>(
    rt: &R,
    alloc: Global,
    mark: &str,
    old: &str,
) -> io::Result<Child<R::Started>> {
    let arguments = ["sh", "-c", SCRIPT, "sh", mark, old];
    match start_by(rt, alloc, SESSION, &arguments) {
        Err(e) if e.kind() == ErrorKind::NotFound => start_by(rt, alloc, "sh", &arguments[1..]),
        other => other,
    }
}

/// Starts the guard of the run of this mark. `old` is the path of the folder that it removes when it
/// is released.
pub fn start<R: Processes>(
    rt: &R,
    alloc: Global,
    mark: String,
    old: &str,
) -> io::Result<Guard<R::Started>> {
    let child = start_script(rt, alloc, mark.as_str(), old)?;
    Ok(Guard { child, mark })
}

/// Gives a job the mark of its run. Its program, arguments, directory and other variables stay.
pub fn add_mark(job: &mut Command, mark: &str) -> Result<(), AllocError>
    ensures set { OnOk result
        (command_var job.new (codes "WDL_RUN") ≡ Some (Some mark.now)) }
    ensures others { OnOk result (SameOtherVars job.old job.new (codes "WDL_RUN")) }
    ensures call { OnOk result (SameProgramAndArgs job.old job.new) }
    ensures dir { OnOk result (SameDir job.old job.new) }
{
    job.env(MARK, mark)?;
    Ok(())
}

impl<P: OpenProcess + Drop> Guard<P> {
    /// Releases the guard. What the jobs left running goes on. `waits` tells whether to wait until it
    /// has removed its folder and ended; else it does so after this process, and gives way to others.
    pub fn release(self, waits: bool) -> io::Result<()> {
        let Guard { mut child, mark } = self;
        drop(mark);
        if let Some(input) = &mut child.stdin {
            let line: &[u8] = if waits { b"now\n" } else { b"later\n" };
            input.write_all(line)?;
        }
        if waits {
            child.wait()?;
        }
        Ok(())
    }
}
