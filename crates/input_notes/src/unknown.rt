//! What is said of a member of an inputs file that is no input.

use note_text::{Nearest, Note};
use std::alloc::Global;
use wdl_base::NoMemory;
use wdl_typed::{FlowDef, TInput};

/// The input of a workflow that a member of an inputs file names.
pub(crate) fn input_named<'a>(flow: &'a FlowDef, member: &str) -> Option<&'a TInput> {
    let name = member.strip_prefix(flow.name.as_str())?.strip_prefix('.')?;
    for input in flow.inputs.as_slice() {
        if input.name.is(name) {
            return Some(input);
        }
    }
    None
}

/// Appends an input as a member of an inputs file, in backquotes.
fn push_input(note: &mut Note, flow: &FlowDef, input: &str) -> Result<(), NoMemory> {
    note.push("`")?;
    note.push(flow.name.as_str())?;
    note.push(".")?;
    note.push(input)?;
    note.push("`")
}

/// Appends the members that an inputs file may have.
fn push_inputs(note: &mut Note, flow: &FlowDef) -> Result<(), NoMemory> {
    for (number, input) in flow.inputs.as_slice().iter().enumerate() {
        if number > 0 {
            note.push(", ")?;
        }
        push_input(note, flow, input.name.as_str())?;
    }
    Ok(())
}

/// The input that is meant by an unknown member.
fn meant<'a>(
    alloc: Global,
    flow: &'a FlowDef,
    member: &'a str,
) -> Result<Option<&'a str>, NoMemory> {
    let name = match member.split_once('.') {
        Some((_, name)) => name,
        None => member,
    };
    let mut near = Nearest::new(name);
    for input in flow.inputs.as_slice() {
        near.compare(alloc, input.name.as_str())?;
    }
    Ok(near.name())
}

/// Appends what is wrong with a member that is no input of the workflow: 403.
pub(crate) fn push_unknown(
    alloc: Global,
    note: &mut Note,
    flow: &FlowDef,
    member: &str,
) -> Result<(), NoMemory> {
    note.push("input ")?;
    note.push_name(member)?;
    if flow.inputs.as_slice().is_empty() {
        note.push(": the workflow ")?;
        note.push_name(flow.name.as_str())?;
        return note.push(" has no inputs");
    }
    note.push(": unknown")?;
    if let Some(name) = meant(alloc, flow, member)? {
        note.push("; did you mean ")?;
        push_input(note, flow, name)?;
        return note.push("?");
    }
    note.push(", expected one of ")?;
    push_inputs(note, flow)
}
