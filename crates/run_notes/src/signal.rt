use crate::note::Note;
use wdl_value::NoMemory;

/// The name of a signal, with a comma before it. Empty for those that are rare.
fn name_of(signal: u8) -> &'static str {
    match signal {
        1 => ", SIGHUP",
        2 => ", SIGINT",
        3 => ", SIGQUIT",
        4 => ", SIGILL",
        6 => ", SIGABRT",
        7 => ", SIGBUS",
        8 => ", SIGFPE",
        9 => ", SIGKILL",
        11 => ", SIGSEGV",
        13 => ", SIGPIPE",
        15 => ", SIGTERM",
        _ => "",
    }
}

/// Appends the signal that ended a program in a command.
fn push_signal(note: &mut Note, signal: u8) -> Result<(), NoMemory> {
    note.push(" (a program in it was ended by signal ")?;
    note.push_number(u64::from(signal))?;
    note.push(name_of(signal))?;
    note.push(")")
}

/// Appends the status of a command. A shell answers 128 and the number of the signal that ended its
/// last program; a command whose own shell was ended by a signal has the status 255.
pub(crate) fn push_ended(note: &mut Note, status: u8) -> Result<(), NoMemory> {
    note.push("the command ended with status ")?;
    note.push_number(u64::from(status))?;
    match status {
        129..=159 => push_signal(note, status - 128),
        255 => note.push(", or was killed by a signal"),
        _ => Ok(()),
    }
}
