use std::fmt;
use std::fmt::Formatter;
use std::io::ErrorKind;

/// What a launch was doing when the system refused something.
#[derive(Clone, Copy, Debug, PartialEq, Eq)]
pub(crate) enum Step {
    /// Taking the root for this run.
    Root,
    /// Making the directory of the job.
    Directory,
    /// Writing the files of the request into it.
    Files,
    /// Starting the shell there.
    Start,
}

/// Why a launch is refused.
#[derive(Clone, Copy, Debug, PartialEq, Eq)]
pub(crate) enum Refusal {
    /// The shell is not named in UTF-8.
    NoShell,
    /// There is no `sh` for the guard of the run.
    NoGuard,
    /// What stands in the place of the directory was left by no job.
    NotOfJob,
    /// A folder between the root and the directory belongs to another user.
    OthersFolder,
    /// The command and its environment are longer than what the system starts a program with.
    TooLong,
    /// What the command left is told by no answer.
    NoAnswer,
    /// The system refused something.
    System(Step, ErrorKind),
    /// The reason has been told: the root is not free.
    Told,
}

impl fmt::Display for Step {
    fn fmt<W: fmt::Write>(&self, f: &mut Formatter<W>) -> fmt::Result {
        f.write_str(match *self {
            Step::Root => "cannot take the root for this run",
            Step::Directory => "cannot make the directory of the job",
            Step::Files => "cannot write the files of the job",
            Step::Start => "cannot start the shell",
        })
    }
}

impl fmt::Display for Refusal {
    fn fmt<W: fmt::Write>(&self, f: &mut Formatter<W>) -> fmt::Result {
        match *self {
            Refusal::NoShell => f.write_str("the name in WDL_SHELL is not UTF-8"),
            Refusal::NoGuard => f.write_str(
                "`sh`, which ends the commands of a run that is ended, is not on the PATH",
            ),
            Refusal::NotOfJob => f.write_str(
                "the directory is there and no job left it; remove it, or name another root \
                 by --root",
            ),
            Refusal::OthersFolder => f.write_str(
                "a folder above it belongs to another user; name a root of your own by --root",
            ),
            Refusal::TooLong => f.write_str(
                "the command, its runtime attributes (WDL_RUNTIME_..) and the environment of wdl \
                 are together longer than the system starts a program with",
            ),
            Refusal::NoAnswer => f.write_str("what the command left is told by no answer"),
            Refusal::System(step, kind) => write!(f, "{step}: {kind}"),
            Refusal::Told => Ok(()),
        }
    }
}
