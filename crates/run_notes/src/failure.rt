use crate::expression::push_expr;
use crate::lookup::{output_of, push_file};
use crate::note::{Note, last_lines};
use crate::reading::{is_of_reading, push_readings};
use crate::signal::push_ended;
use crate::why::why_text;
use std::alloc::Global;
use wdl_typed::{TExpr, TaskDef};
use wdl_value::{
    Body, Entry, EvalCode, Fault, NoMemory, Place, Seen, Text, Why, place_text, same_place,
};

/// The most lines of a command that are shown.
const COMMAND_LINES: usize = 12;

/// The most lines of standard error that are shown.
const ERROR_LINES: usize = 10;

/// The most names of files that are shown.
const FILE_NAMES: usize = 12;

/// The last entry of a place.
fn last_at<'a>(journal: &'a [Entry], place: &Place) -> Option<&'a Entry> {
    let mut last = None;
    for entry in journal {
        if same_place(entry.request.place.as_slice(), place.as_slice()) {
            last = Some(entry);
        }
    }
    last
}

/// Appends the place of the entry and its attempt, unless it is the first one.
fn push_head(alloc: Global, note: &mut Note, entry: &Entry) -> Result<(), NoMemory> {
    let place = place_text(alloc, &entry.request.place)?;
    note.push(place.as_str())?;
    if entry.request.attempt > 0 {
        note.push(", attempt ")?;
        note.push_number(u64::from(entry.request.attempt) + 1)?;
    }
    note.push(": ")
}

/// Appends the last lines of what is kept of standard error.
fn push_error(note: &mut Note, body: &Body) -> Result<(), NoMemory> {
    match body {
        Body::Long => note.push("  standard error is long\n"),
        Body::Bytes(bytes) if bytes.is_empty() => note.push("  standard error is empty\n"),
        Body::Bytes(bytes) => {
            note.push("  standard error ends with:\n")?;
            note.push_lines(last_lines(bytes.as_slice(), ERROR_LINES), ERROR_LINES)
        }
    }
}

/// Appends the path of a file of the directory behind a label.
fn push_path(note: &mut Note, label: &str, dir: &Text, name: &str) -> Result<(), NoMemory> {
    note.push(label)?;
    note.push(dir.as_str())?;
    note.push("/")?;
    note.push(name)?;
    note.push("\n")
}

/// Appends what is known of a command that ended with a status that is no success.
fn push_status(alloc: Global, note: &mut Note, entry: &Entry, status: u8) -> Result<(), NoMemory> {
    push_head(alloc, note, entry)?;
    push_ended(note, status)?;
    note.push("\n  command:\n")?;
    note.push_lines(entry.request.command.as_str().as_bytes(), COMMAND_LINES)?;
    push_error(note, &entry.answer.err)?;
    push_path(note, "  standard output: ", &entry.request.dir, "_stdout")?;
    push_path(note, "  standard error: ", &entry.request.dir, "_stderr")
}

/// Appends the names of the files, one a line.
fn push_files(note: &mut Note, files: &[Seen]) -> Result<(), NoMemory> {
    for file in files.iter().take(FILE_NAMES) {
        note.push_lines(file.name.as_str().as_bytes(), 1)?;
    }
    if files.len() > FILE_NAMES {
        note.push("    and ")?;
        note.push_number((files.len() - FILE_NAMES) as u64)?;
        note.push(" more\n")?;
    }
    Ok(())
}

/// Appends why an output has no value: the file that is not there, what was read, or
/// what its expression met.
fn push_cause(
    note: &mut Note,
    entry: &Entry,
    task: &TaskDef,
    output: &Text,
    code: EvalCode,
) -> Result<(), NoMemory> {
    if code == EvalCode::FileMissing {
        return push_file(note, task, output);
    }
    let Some(declared) = output_of(task, output) else {
        return Ok(());
    };
    if is_of_reading(code) {
        return push_readings(note, entry, &declared.value, code);
    }
    note.push("  ")?;
    push_expr(note, &declared.value)?;
    note.push(": ")?;
    note.push(why_text(code))?;
    note.push("\n")
}

/// Appends what is known of an output without a value.
fn push_output(
    alloc: Global,
    note: &mut Note,
    entry: &Entry,
    output: &Text,
    code: EvalCode,
    task: Option<&TaskDef>,
) -> Result<(), NoMemory> {
    push_head(alloc, note, entry)?;
    note.push("its output `")?;
    note.push(output.as_str())?;
    note.push("` has no value\n")?;
    if let Some(task) = task {
        push_cause(note, entry, task, output, code)?;
    }
    note.push("  directory: ")?;
    note.push(entry.request.dir.as_str())?;
    if entry.answer.files.is_empty() {
        return note.push("\n  no files are there but _stdout and _stderr\n");
    }
    note.push("\n  files there, beside _stdout and _stderr:\n")?;
    push_files(note, entry.answer.files.as_slice())
}

/// Appends what is known of a declaration without a value.
fn push_declared(
    alloc: Global,
    note: &mut Note,
    fault: &Fault,
    code: EvalCode,
    value: &TExpr,
) -> Result<(), NoMemory> {
    if !fault.place.is_empty() {
        let place = place_text(alloc, &fault.place)?;
        note.push(place.as_str())?;
        note.push(": ")?;
    }
    note.push("`")?;
    note.push(fault.name.as_str())?;
    note.push("` has no value: ")?;
    note.push(why_text(code))?;
    note.push("\n  ")?;
    push_expr(note, value)?;
    note.push("\n")
}

/// Returns what is known of a job that failed, in some 30 lines at most: of a status that is no
/// success the command, the end of what it wrote to standard error, and the paths of its streams;
/// of an output without a value the file that its expression names and the files that are there.
/// `task` is the task of the job. Of a declaration without a value it is `value`, its expression,
/// and what that met.
pub(crate) fn failed_note(
    alloc: Global,
    fault: &Fault,
    journal: &[Entry],
    task: Option<&TaskDef>,
    value: Option<&TExpr>,
) -> Result<Note, NoMemory> {
    let mut note = Note::new(alloc);
    match (last_at(journal, &fault.place), fault.why) {
        (Some(entry), Why::Status(status)) => push_status(alloc, &mut note, entry, status)?,
        (Some(entry), Why::Code(code)) => {
            push_output(alloc, &mut note, entry, &fault.name, code, task)?;
        }
        (None, Why::Code(code)) => {
            if let Some(value) = value {
                push_declared(alloc, &mut note, fault, code, value)?;
            }
        }
        (None, Why::Status(_)) => {}
    }
    Ok(note)
}
