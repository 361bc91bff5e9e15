//! The words of the command line.

ghost use Rattle.std.specs.Prelude.{◌≡◌, [], IfOk, IfErr};
ghost use Rattle.report_text.specs.Lines.{HasPath};
ghost use Rattle.wdl_words.specs.Words.{IsWithinLimits};
ghost use Rattle.workflow_cli.specs.Asking as spec;
ghost use Rattle.workflow_cli.specs.Asking.{Asks};

use report_text::Status;
use std::alloc::Global;
use wdl_value::Text;
use wdl_words::{Command as Topic, Wants, WordFault, read_words};

/// What is written of a run that ended well.
#[derive(Clone, Copy, Debug)]
pub enum Report {
    /// Its outputs, as one JSON object.
    Outputs,
    /// The line of a load of so many calls.
    Load(u32),
}

/// How a workflow is run, and what is written of it.
#[derive(Debug, Drop)]
pub struct RunOptions {
    /// How many jobs may run at once, 1 to 64.
    pub workers: u32,
    /// The directory below which each job gets its own, of at most 512 bytes.
    pub root: Text,
    /// The path of the journal.
    pub journal: Option<Text>,
    pub report: Report,
}

/// A text that the program has of itself.
#[derive(Clone, Copy, Debug)]
pub enum Page {
    /// The help of a command, or of the whole program.
    Help(Option<Topic>),
    Version,
    /// What a status, a code or a rule means, by its number.
    Code(u32),
}

/// What the program does.
#[derive(Debug, Drop)]
pub enum Command {
    /// Runs the main workflow of a document.
    Run {
        /// The document's path.
        file: Text,
        /// The path of the inputs.
        inputs: Option<Text>,
        options: RunOptions,
    },
    /// Checks a document.
    Check {
        file: Text,
    },
    /// Translates the main workflow of a document to CWL, or the inputs of a run of it where they
    /// are named.
    Cwl {
        /// The document's path.
        file: Text,
        /// The path of the inputs.
        inputs: Option<Text>,
    },
    /// Writes the inputs of the main workflow of a document, to be filled in.
    Inputs {
        /// The document's path.
        file: Text,
    },
    /// Writes the main workflow of a document and its imports as one document.
    Bundle {
        /// The document's path.
        file: Text,
    },
    /// Makes a workflow of so many calls, 1 to 10,000, and runs it.
    Load {
        number: u32,
    },
    /// Prints a page of the program's own.
    Print {
        page: Page,
    },
}

/// What is done where the words ask for this.
fn command_of(wants: Wants) -> Command
    requires limits { IsWithinLimits wants }
    ensures value { result ≡ spec.command_of wants }
    ensures limits { spec.IsWithin result }
{
    match wants {
        Wants::Run {
            file,
            inputs,
            workers,
            root,
            journal,
        } => Command::Run {
            file,
            inputs,
            options: RunOptions {
                workers,
                root,
                journal,
                report: Report::Outputs,
            },
        },
        Wants::Check { file } => Command::Check { file },
        Wants::Cwl { file, inputs } => Command::Cwl { file, inputs },
        Wants::Inputs { file } => Command::Inputs { file },
        Wants::Bundle { file } => Command::Bundle { file },
        Wants::Help { about } => Command::Print {
            page: Page::Help(about),
        },
        Wants::Version => Command::Print {
            page: Page::Version,
        },
        Wants::Explain { code } => Command::Print {
            page: Page::Code(code),
        },
        Wants::Load { number } => Command::Load { number },
    }
}

/// The words' reading.
#[tactic(auto, unfolding(crate::specs::Asking::asked))]
fn wants_of(alloc: Global, words: &[String]) -> Result<Wants, Status>
    ensures value { spec.HasReading words.now result }
    ensures limits { IfOk result IsWithinLimits }
{
    match read_words(alloc, words) {
        Ok(wants) => Ok(wants),
        Err(WordFault::Usage) => Err(Status::Usage),
        Err(WordFault::NoMemory) => Err(Status::NoMemory),
    }
}

/// What the words ask for: `Usage` where they have no reading.
pub fn read_command(alloc: Global, words: &[String]) -> Result<Command, Status>
    ensures value { Asks words.now result }
    ensures limits { IfOk result spec.IsWithin }
    ensures paths { IfErr result (λ s. HasPath s []) }
{
    match wants_of(alloc, words) {
        Ok(wants) => Ok(command_of(wants)),
        Err(status) => Err(status),
    }
}
