ghost use Rattle.std.specs.Prelude.{◌≡◌, false};
ghost use Rattle.wdl_base.specs.Plain.{has_nul};

use crate::obstacle::obstacle_at;
use crate::reason::Reason;
use crate::trouble::Trouble;
use shown_text::shown_of;
use std::alloc::Global;
use std::fmt;
use std::fmt::Formatter;
use std::io::Write;
use std::rt::HostRuntime;
use wdl_value::NoMemory;

/// What a keeper was doing when it failed.
#[derive(Clone, Copy, Debug, PartialEq, Eq)]
pub(crate) enum Step {
    Open,
    Read,
    Write,
}

impl fmt::Display for Step {
    fn fmt<W: fmt::Write>(&self, f: &mut Formatter<W>) -> fmt::Result {
        f.write_str(match *self {
            Step::Open => "cannot open",
            Step::Read => "cannot read",
            Step::Write => "cannot write to",
        })
    }
}

/// Where a keeper tells a person why it fails.
#[derive(Drop)]
pub struct KeeperNotes<W> {
    stream: W,
    /// What clears the line that a terminal shows last.
    clear: &'static str,
}

/// Returns what was tried, on which path, and why it failed.
fn sentence(
    rt: &HostRuntime,
    alloc: Global,
    step: Step,
    path: &str,
    reason: Reason,
) -> Result<String, NoMemory>
    requires { has_nul path.now ≡ false }
{
    let shown = shown_of(alloc, path)?;
    let shown = shown.as_str();
    if reason == Reason::NotOpened {
        let obstacle = obstacle_at(rt, path);
        return Ok(format!(in alloc; "{step} the journal {shown}: {obstacle}")?);
    }
    Ok(format!(in alloc; "{step} the journal {shown}: {reason}")?)
}

impl<W> KeeperNotes<W> {
    /// Notes that are written to a stream, each on a line of its own behind `clear`.
    pub fn new(stream: W, clear: &'static str) -> KeeperNotes<W> {
        KeeperNotes { stream, clear }
    }
}

impl<W: Write> KeeperNotes<W> {
    fn write(&mut self, alloc: Global, sentence: &str) -> Result<(), NoMemory> {
        let clear = self.clear;
        let line = format!(in alloc; "{clear}{sentence}\n")?;
        let _ = self.stream.write_all(line.as_bytes());
        Ok(())
    }

    /// Tells why a step on the journal of a path failed, if it did. Where the stream cannot be
    /// written, or there is no memory for the line, nobody is told.
    pub(crate) fn tell<T>(
        &mut self,
        rt: &HostRuntime,
        alloc: Global,
        step: Step,
        path: &str,
        taken: &Result<T, Trouble>,
    )
        requires { has_nul path.now ≡ false }
    {
        if let Err(Trouble::Failed(reason)) = taken {
            if let Ok(line) = sentence(rt, alloc, step, path, *reason) {
                let _ = self.write(alloc, line.as_str());
            }
        }
    }
}
