//! The note of a fault in an inputs file.

use crate::given::{given, shown};
use crate::misfit::push_input;
use crate::repeated::push_lines;
use crate::syntax::push_syntax;
use crate::unknown::{input_named, push_unknown};
use note_text::Note;
use serde_json::Value as Json;
use std::alloc::Global;
use wdl_base::{NoMemory, Text};
use wdl_typed::{Checked, FlowDef};
use wdl_value::StructDef;

/// The main workflow.
fn main_of(checked: &Checked) -> Option<&FlowDef> {
    checked.flows.get(checked.main? as usize)
}

/// Appends what is wrong with a file that is JSON and no object.
fn push_no_object(alloc: Global, note: &mut Note, text: &[u8]) -> Result<(), NoMemory> {
    let Some(json) = given(alloc, text)? else {
        return note.push("the inputs file is no JSON object");
    };
    let found = shown(alloc, &json)?;
    note.push("the inputs file: expected a JSON object, found ")?;
    note.push(found.as_str())
}

/// Appends a fault that no member has.
fn push_file(alloc: Global, note: &mut Note, code: u16, text: &[u8]) -> Result<(), NoMemory> {
    match code {
        401 => push_syntax(alloc, note, text),
        402 => push_no_object(alloc, note, text),
        407 => note.push("the inputs file is too long: expected at most 1,048,576 bytes"),
        _ => note.push("the inputs file does not give the workflow its inputs"),
    }
}

/// Appends what is wrong with a member.
fn push_member(
    alloc: Global,
    note: &mut Note,
    member: &str,
    json: &Json,
    flow: &FlowDef,
    structs: &[StructDef],
) -> Result<(), NoMemory> {
    match input_named(flow, member) {
        Some(input) => push_input(alloc, note, member, json.get(member), input, structs),
        None => push_unknown(alloc, note, flow, member),
    }
}

/// Appends what is wrong with a member, and which members are given twice.
fn push_named(
    alloc: Global,
    note: &mut Note,
    member: &str,
    text: &[u8],
    checked: &Checked,
) -> Result<(), NoMemory> {
    let (Some(flow), Some(json)) = (main_of(checked), given(alloc, text)?) else {
        return note.push("the inputs file does not give the workflow its inputs\n");
    };
    push_member(alloc, note, member, &json, flow, checked.structs.as_slice())?;
    note.push("\n")?;
    push_lines(alloc, note, text)
}

/// Returns the note, for a person, on a fault of a code from 401 to 407 in a text of inputs for the
/// main workflow of a checked form: the member at fault by its path, the type that is declared for
/// it, and what the text gives, cut to 200 bytes; or where and why the text is no JSON. It ends
/// with a newline. Nothing is promised of what it says.
pub fn inputs_note(
    alloc: Global,
    code: u16,
    name: Option<&Text>,
    text: &[u8],
    checked: &Checked,
) -> Result<String, NoMemory> {
    let mut note = Note::new(alloc);
    match name {
        Some(name) => push_named(alloc, &mut note, name.as_str(), text, checked)?,
        None => {
            push_file(alloc, &mut note, code, text)?;
            note.push("\n")?;
        }
    }
    Ok(note.into_string())
}
