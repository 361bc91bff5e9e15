use crate::note::Note;
use crate::spelled::{function, operator};
use wdl_typed::TExpr;
use wdl_value::{Key, NoMemory, Value};

/// Appends a value that an expression spells out, where it is short.
fn push_value(note: &mut Note, value: &Value) -> Result<(), NoMemory> {
    match value {
        Value::Bool(true) => note.push("true"),
        Value::Bool(false) => note.push("false"),
        Value::Int(number) => note.push_signed(*number),
        Value::Str(text) | Value::File(text) => note.push_text(text.as_str().as_bytes()),
        _ => note.push(".."),
    }
}

fn push_key(note: &mut Note, key: &Key) -> Result<(), NoMemory> {
    note.push(key.first.as_str())?;
    if let Some(second) = &key.second {
        note.push(".")?;
        note.push(second.as_str())?;
    }
    Ok(())
}

/// Appends expressions with commas between them.
#[cycle(expression)]
fn push_list(note: &mut Note, items: &[TExpr]) -> Result<(), NoMemory> {
    let mut is_first = true;
    for item in items {
        if !is_first {
            note.push(", ")?;
        }
        is_first = false;
        push_expr(note, item)?;
    }
    Ok(())
}

/// Appends an expression as a document may spell it, with `..` for what is long: strings with
/// placeholders, maps, structs and choices.
#[cycle(expression)]
pub(crate) fn push_expr(note: &mut Note, expr: &TExpr) -> Result<(), NoMemory> {
    match expr {
        TExpr::Lit(value) => push_value(note, value),
        TExpr::Get(key) => push_key(note, key),
        TExpr::Cast(inner, _) => push_expr(note, inner.get()),
        TExpr::Member(inner, name) => {
            push_expr(note, inner.get())?;
            note.push(".")?;
            note.push(name.as_str())
        }
        TExpr::At(list, index) => {
            push_expr(note, list.get())?;
            note.push("[")?;
            push_expr(note, index.get())?;
            note.push("]")
        }
        TExpr::Not(inner) => {
            note.push("!")?;
            push_expr(note, inner.get())
        }
        TExpr::Neg(inner) => {
            note.push("-")?;
            push_expr(note, inner.get())
        }
        TExpr::Binary(op, left, right) => {
            push_expr(note, left.get())?;
            note.push(operator(*op))?;
            push_expr(note, right.get())
        }
        TExpr::ListOf(items) => {
            note.push("[")?;
            push_list(note, items.as_slice())?;
            note.push("]")
        }
        TExpr::PairOf(left, right) => {
            note.push("(")?;
            push_expr(note, left.get())?;
            note.push(", ")?;
            push_expr(note, right.get())?;
            note.push(")")
        }
        TExpr::Apply(called, args) => {
            note.push(function(*called))?;
            note.push("(")?;
            push_list(note, args.as_slice())?;
            note.push(")")
        }
        _ => note.push(".."),
    }
}
