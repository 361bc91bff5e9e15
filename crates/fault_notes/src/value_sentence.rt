//! Sentences on values and their types.

use crate::function::usage_of;
use crate::listed::list;
use crate::operand_sentence::operands_differ;
use crate::value_type::push_type_of;
use fault_places::{Declared, Entry, Note, Scene, text_behind, type_text};
use std::alloc::Global;
use wdl_ast::{Argument, Call, Declaration, Ident, InputDeclaration, TypeTree};
use wdl_value::{NoMemory, Span, StructDef, is_identifier};

/// What stands at a fault: its text, and its type where a declaration says it.
fn found(note: &mut Note, scene: &Scene) -> Result<(), NoMemory> {
    note.push("found ")?;
    scene.quote(note)?;
    match scene.declared(scene.words) {
        Some(declared) => {
            note.push(" of type `")?;
            scene.push_type(note, declared)?;
            note.push("`")
        }
        None => Ok(()),
    }
}

/// What was wanted at a fault, and what was found there.
pub fn expected(note: &mut Note, scene: &Scene, wanted: &str) -> Result<(), NoMemory> {
    note.push_all(&["expected ", wanted, ", "])?;
    found(note, scene)
}

/// What a value is for: a name, and its type.
#[derive(Clone, Copy)]
struct Wanted<'a> {
    name: &'a Ident,
    ty: &'a TypeTree,
}

/// Whether a fault stands directly behind this `=`.
fn is_behind(scene: &Scene, assign: Span) -> bool {
    assign.end as usize == scene.before.len()
}

/// Whether the value of an argument is the one at a fault: a short argument is its own value.
fn argument_at(scene: &Scene, argument: &Argument) -> bool {
    match &argument.value {
        Some(assigned) => is_behind(scene, assigned.assign),
        None => argument.name.span.start == scene.span.start,
    }
}

/// The input of a called task or workflow for which the value at a fault is given.
fn wanted_by_call<'a>(scene: &Scene<'a>, call: &'a Call) -> Option<Wanted<'a>> {
    let inputs = call.body.as_ref()?.inputs.as_ref()?;
    for argument in inputs.arguments.as_slice() {
        if argument_at(scene, &argument.item) {
            let input = scene.callee(call)?.input(argument.item.name.name.as_str())?;
            return Some(Wanted {
                name: &input.name,
                ty: &input.ty,
            });
        }
    }
    None
}

/// What the value at a fault is for, if it is for this entry.
fn wanted_by<'a>(scene: &Scene<'a>, entry: Entry<'a>) -> Option<Wanted<'a>> {
    match entry {
        Entry::Input(
            InputDeclaration {
                ty,
                name,
                preset: Some(assigned),
            },
        ) if is_behind(scene, assigned.assign) => Some(Wanted { name, ty }),
        Entry::Declaration(
            Declaration {
                ty,
                name,
                assign,
                ..
            },
        )
        | Entry::Output(
            Declaration {
                ty,
                name,
                assign,
                ..
            },
        ) if is_behind(scene, *assign) => Some(Wanted { name, ty }),
        Entry::Call(call) => wanted_by_call(scene, call),
        _ => None,
    }
}

/// What the value at a fault is for.
fn wanted_at<'a>(scene: &Scene<'a>) -> Option<Wanted<'a>> {
    for entry in &scene.entries {
        if let Some(wanted) = wanted_by(scene, *entry) {
            return Some(wanted);
        }
    }
    None
}

/// Appends the name and the type that a value is for.
fn push_wanted(note: &mut Note, wanted: Wanted) -> Result<(), NoMemory> {
    note.push_all(&["`", wanted.name.name.as_str(), "`: expected `"])?;
    type_text(note, wanted.ty)?;
    note.push("`, ")
}

/// What stands at a fault, with its type where that is known.
fn found_of_type(note: &mut Note, scene: &Scene, ty: &str) -> Result<(), NoMemory> {
    note.push("found ")?;
    scene.quote(note)?;
    if ty.is_empty() {
        return Ok(());
    }
    note.push_all(&[" of type `", ty, "`"])
}

/// Whether a type is made of Strings alone, so that no part of it becomes an Int.
fn is_of_strings(ty: &str) -> bool {
    matches!(
        ty,
        "String" | "Array[String]" | "Array[Array[String]]" | "Map[String, String]"
    )
}

/// Appends what helps where Strings that are read stand for numbers.
fn no_numbers(
    alloc: Global,
    note: &mut Note,
    wanted: Option<Wanted>,
    found: &str,
) -> Result<(), NoMemory> {
    let Some(wanted) = wanted else {
        return Ok(());
    };
    let mut ty = Note::new(alloc);
    type_text(&mut ty, wanted.ty)?;
    if is_of_strings(found) && ty.as_str().contains("Int") {
        note.push("; no String is converted to Int: a command can write each number to a file ")?;
        note.push("of its own, for `read_int`")?;
    }
    Ok(())
}

/// 303.
pub fn no_coercion(alloc: Global, note: &mut Note, scene: &Scene) -> Result<(), NoMemory> {
    let wanted = wanted_at(scene);
    match wanted {
        Some(wanted) => push_wanted(note, wanted)?,
        None => note.push("this value has not the type that is wanted here: ")?,
    }
    let mut ty = Note::new(alloc);
    push_type_of(&mut ty, scene, scene.text())?;
    found_of_type(note, scene, ty.as_str())?;
    if scene.words.starts_with("read_") {
        return no_numbers(alloc, note, wanted, ty.as_str());
    }
    Ok(())
}

/// 304.
pub fn bad_operands(alloc: Global, note: &mut Note, scene: &Scene) -> Result<(), NoMemory> {
    if scene.before.ends_with("if") {
        return expected(note, scene, "a Boolean behind `if`");
    }
    operands_differ(alloc, note, scene)
}

/// 305.
pub fn bad_arguments(note: &mut Note, scene: &Scene) -> Result<(), NoMemory> {
    scene.quote(note)?;
    let (name, _) = scene.words.split_once('(').unwrap_or((scene.words, ""));
    let usage = usage_of(name.trim());
    if usage.is_empty() {
        return note.push(": the function does not take these arguments");
    }
    note.push(": expected ")?;
    note.push_quoted(usage)
}

/// Whether a character belongs to a name or to `call.output`.
fn is_of_name(c: char) -> bool {
    c.is_ascii_alphanumeric() || c == '_' || c == '.'
}

/// The name or `call.output` before the dot that stands before a fault; empty where there is
/// another expression.
fn owner_of<'a>(scene: &Scene<'a>) -> &'a str {
    let Some(owner) = scene.before.strip_suffix('.') else {
        return "";
    };
    let others = owner.trim_end_matches(is_of_name);
    owner.strip_prefix(others).unwrap_or("")
}

/// Appends the members of a struct.
fn members(alloc: Global, note: &mut Note, def: &StructDef) -> Result<(), NoMemory> {
    let mut names = Vec::new(alloc);
    for member in def.members.as_slice() {
        names.push(member.name.as_str())?;
    }
    list(note, names.as_slice())
}

/// A member that a value of that type does not have.
fn no_member_of(alloc: Global, note: &mut Note, scene: &Scene, ty: &str) -> Result<(), NoMemory> {
    let words = scene.words;
    if let Some(def) = scene.struct_named(ty) {
        note.push_all(&["`", words, "` is no member of struct `", ty, "`; it has "])?;
        return members(alloc, note, def);
    }
    if ty.starts_with("Pair[") {
        return note.push_all(&[
            "`",
            words,
            "` is no member of a pair; it has `left` and `right`",
        ]);
    }
    note.push_all(&["`", words, "`: a value of type `", ty, "` has no members"])
}

/// A member that a value of a declared type does not have.
fn no_member_of_declared(
    alloc: Global,
    note: &mut Note,
    scene: &Scene,
    declared: Declared,
) -> Result<(), NoMemory> {
    let mut ty = Note::new(alloc);
    scene.push_type(&mut ty, declared)?;
    no_member_of(alloc, note, scene, ty.as_str())
}

/// 306.
pub fn no_member(alloc: Global, note: &mut Note, scene: &Scene) -> Result<(), NoMemory> {
    if let Some(declared) = scene.declared(owner_of(scene)) {
        return no_member_of_declared(alloc, note, scene, declared);
    }
    note.push_all(&[
        "`",
        scene.words,
        "` is no member of this value: a pair has `left` and `right`, and a struct its own",
    ])
}

/// A struct literal with a member too few, a foreign one or one twice.
fn bad_literal(alloc: Global, note: &mut Note, scene: &Scene) -> Result<(), NoMemory> {
    let words = scene.words;
    if let Some(def) = scene.struct_named(words) {
        if text_behind(scene.bytes, scene.span).starts_with('{') {
            note.push_all(&[
                "this `",
                words,
                "` lacks a member that it requires; it has ",
            ])?;
            return members(alloc, note, def);
        }
    }
    note.push_all(&[
        "`",
        words,
        "` is no member of the struct, or is given twice",
    ])
}

/// What has no common type in a literal or a choice; none where a struct literal is at fault.
fn without_type(words: &str) -> Option<&'static str> {
    if words.starts_with('[') {
        Some("the items of this list")
    } else if words.starts_with('{') {
        Some("the keys or the values of this map")
    } else if words.starts_with("if") && !is_identifier(words.as_bytes()) {
        Some("the branches of this `if`")
    } else {
        None
    }
}

/// 310.
pub fn members_differ(alloc: Global, note: &mut Note, scene: &Scene) -> Result<(), NoMemory> {
    let Some(what) = without_type(scene.words) else {
        return bad_literal(alloc, note, scene);
    };
    note.push(what)?;
    note.push(" have no common type: ")?;
    scene.quote(note)
}
