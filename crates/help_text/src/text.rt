//! Which text is asked for.

ghost use Rattle.std.specs.Prelude.{◌≡◌};
ghost use Rattle.help_text.specs.Help as spec;

use crate::page::{BUNDLE, CHECK, CWL, EXPLAIN, HELP, INPUTS, LOAD, PROGRAM, RUN, VERSION};
use wdl_words::Command;

/// Returns the help of a command, or that of the whole program where none is named, with a newline
/// at its end. It takes no memory.
pub fn help_of(about: Option<Command>) -> &'static str
    ensures value { result.now ≡ spec.help_of about }
{
    match about {
        None => PROGRAM,
        Some(Command::Run) => RUN,
        Some(Command::Check) => CHECK,
        Some(Command::Inputs) => INPUTS,
        Some(Command::Cwl) => CWL,
        Some(Command::Load) => LOAD,
        Some(Command::Bundle) => BUNDLE,
        Some(Command::Explain) => EXPLAIN,
        Some(Command::Help) => HELP,
    }
}

/// Returns the name of the program and its version, with a newline at its end. It takes no memory.
pub fn version_text() -> &'static str
    ensures value { result.now ≡ spec.version_text }
{
    VERSION
}
