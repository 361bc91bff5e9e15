//! What is said of an input whose value does not fit: 404 to 406.

use crate::culprit::{Misfit, culprit};
use crate::given::shown;
use crate::path::Path;
use input_form::type_text;
use note_text::{Nearest, Note};
use serde_json::Value as Json;
use std::alloc::Global;
use wdl_base::NoMemory;
use wdl_names::Indexed;
use wdl_typed::TInput;
use wdl_value::{Member, StructDef, Ty, bare_type};

/// Appends `: expected TYPE, found `.
fn push_expected(alloc: Global, note: &mut Note, expected: &Ty) -> Result<(), NoMemory> {
    let expected = type_text(alloc, expected)?;
    note.push(": expected ")?;
    note.push(expected.as_str())?;
    note.push(", found ")
}

/// How a value of the type is written, where that is not plain.
fn advice(found: &Json, expected: &Ty) -> &'static str {
    match bare_type(expected) {
        Ty::Pair { .. } => ": a pair is written {\"left\": .., \"right\": ..}",
        Ty::Array { .. } => match found {
            Json::Array(_) => ": it needs at least one item",
            _ => "",
        },
        _ => "",
    }
}

/// Appends what is wrong with a member that a struct does not have.
fn push_unknown(
    alloc: Global,
    note: &mut Note,
    name: &str,
    owner: &str,
    declared: &[Member],
) -> Result<(), NoMemory> {
    note.push(": unknown member of ")?;
    note.push(owner)?;
    let mut near = Nearest::new(name);
    for member in declared {
        near.compare(alloc, member.name.as_str())?;
    }
    match near.name() {
        Some(near) => {
            note.push("; did you mean ")?;
            note.push_name(near)?;
            note.push("?")
        }
        None => push_members(note, declared),
    }
}

/// Appends the names of members.
fn push_members(note: &mut Note, declared: &[Member]) -> Result<(), NoMemory> {
    let mut before = ", expected ";
    for member in declared {
        note.push(before)?;
        note.push_name(member.name.as_str())?;
        before = ", ";
    }
    Ok(())
}

fn push_misfit(alloc: Global, note: &mut Note, misfit: Misfit<'_>) -> Result<(), NoMemory> {
    match misfit {
        Misfit::Value { found, expected } => {
            push_expected(alloc, note, expected)?;
            let text = shown(alloc, found)?;
            note.push(text.as_str())?;
            note.push(advice(found, expected))
        }
        Misfit::Missing { expected } => {
            push_expected(alloc, note, expected)?;
            note.push("nothing")
        }
        Misfit::Key { found, expected } => {
            let expected = type_text(alloc, expected)?;
            note.push(": expected keys of type ")?;
            note.push(expected.as_str())?;
            note.push(", found ")?;
            note.push_quoted(found)
        }
        Misfit::Unknown {
            name,
            owner,
            declared,
        } => push_unknown(alloc, note, name, owner.as_str(), declared),
    }
}

/// Appends what is wrong with an input, by the path of the member that does not fit.
pub(crate) fn push_input(
    alloc: Global,
    note: &mut Note,
    member: &str,
    found: Option<&Json>,
    input: &TInput,
    structs: &[StructDef],
) -> Result<(), NoMemory> {
    let structs = Indexed::new(alloc, structs)?;
    let mut path = Path::new(alloc, member)?;
    let misfit = match found {
        Some(json) => culprit(alloc, json, &input.ty, &structs, &mut path)?,
        None => Misfit::Missing {
            expected: &input.ty,
        },
    };
    note.push("input `")?;
    note.push(path.as_str())?;
    note.push("`")?;
    push_misfit(alloc, note, misfit)
}
