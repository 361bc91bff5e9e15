ghost use Rattle.std.specs.Prelude.{◌≡◌};
ghost use Rattle.report_text.specs.Numbers as spec;

use wdl_value::{Fault, Place, Span, Text};

/// How a command ended.
#[derive(Debug, Drop)]
pub enum Status {
    /// The work is done and all was written.
    Ok,
    /// A declaration or a call of the workflow failed.
    Failed(Fault),
    /// The words of the command line have no reading.
    Usage,
    /// The bytes are no document, no library or no checked workflow: the code of
    /// the rule that is broken, and where.
    Document(u16, Span),
    /// The inputs break the rule of that code, at the input of that name.
    Inputs(u16, Option<Text>),
    /// The file of that path could not be read.
    Read(Text),
    /// The output or the error stream could not be written.
    Write,
    /// An allocation failed.
    NoMemory,
    /// The workflow has no CWL document, or no bundle: the number of the rule that
    /// is broken, and where.
    NotInSubset(u16, Span),
    /// The command of the call at that place could not be started.
    Launch(Place),
    /// The journal could not be opened, read or written.
    Keep,
    /// The run has more jobs or statement instances than are allowed.
    TooMany,
}

/// The number that the program ends with. It takes no memory.
pub fn number_of(status: &Status) -> u8
    ensures value { result ≡ spec.number_of status.now }
{
    match status {
        Status::Ok => 0,
        Status::Failed(_) => 1,
        Status::Usage => 2,
        Status::Document(_, _) => 3,
        Status::Inputs(_, _) => 4,
        Status::Read(_) => 5,
        Status::Write => 6,
        Status::NoMemory => 7,
        Status::NotInSubset(_, _) => 8,
        Status::Launch(_) => 9,
        Status::Keep => 10,
        Status::TooMany => 11,
    }
}
