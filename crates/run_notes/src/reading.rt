use crate::expression::push_expr;
use crate::note::Note;
use crate::why::why_text;
use wdl_typed::TExpr;
use wdl_value::{Body, Entry, EvalCode, Func, NoMemory, Text, Value};

/// Whether a code is one of what functions read.
pub(crate) fn is_of_reading(code: EvalCode) -> bool {
    matches!(
        code,
        EvalCode::NotText
            | EvalCode::NotAnInteger
            | EvalCode::NotABoolean
            | EvalCode::NotTwoColumns
            | EvalCode::RepeatedKey
            | EvalCode::BodyLong
    )
}

/// Whether a function may fail with a code for what it reads.
fn may_fail(function: Func, code: EvalCode) -> bool {
    match code {
        EvalCode::NotAnInteger => function == Func::ReadInt,
        EvalCode::NotABoolean => function == Func::ReadBoolean,
        EvalCode::NotTwoColumns | EvalCode::RepeatedKey => function == Func::ReadMap,
        EvalCode::NotText | EvalCode::BodyLong => matches!(
            function,
            Func::ReadString
                | Func::ReadLines
                | Func::ReadInt
                | Func::ReadBoolean
                | Func::ReadTsv
                | Func::ReadMap
        ),
        _ => false,
    }
}

/// The body of the file of that name.
fn body_named<'a>(entry: &'a Entry, name: &Text) -> Option<&'a Body> {
    for file in entry.answer.files.as_slice() {
        if file.name.is(name.as_str()) {
            return Some(&file.body);
        }
    }
    None
}

/// What was in the file that an argument names, where that is plain.
fn body_of<'a>(entry: &'a Entry, argument: &TExpr) -> Option<&'a Body> {
    match argument {
        TExpr::Apply(Func::Stdout, _) => Some(&entry.answer.out),
        TExpr::Apply(Func::Stderr, _) => Some(&entry.answer.err),
        TExpr::Lit(Value::Str(name) | Value::File(name)) => body_named(entry, name),
        TExpr::Cast(inner, _) => match inner.get() {
            TExpr::Lit(Value::Str(name) | Value::File(name)) => body_named(entry, name),
            _ => None,
        },
        _ => None,
    }
}

/// The most that is kept of what an argument names.
fn limit_of(argument: &TExpr) -> &'static str {
    match argument {
        TExpr::Apply(Func::Stdout, _) => "at most 65,536 bytes of standard output are kept",
        TExpr::Apply(Func::Stderr, _) => "at most 4,096 bytes of standard error are kept",
        _ => "at most 1,048,576 bytes of a file are kept",
    }
}

/// Appends what a function read, and what it expected.
fn push_reading(
    note: &mut Note,
    entry: &Entry,
    expr: &TExpr,
    argument: &TExpr,
    code: EvalCode,
) -> Result<(), NoMemory> {
    note.push("  ")?;
    push_expr(note, expr)?;
    note.push(": ")?;
    if code == EvalCode::BodyLong {
        note.push(limit_of(argument))?;
        return note.push(", and there were more\n");
    }
    note.push(why_text(code))?;
    match body_of(entry, argument) {
        Some(Body::Bytes(bytes)) => {
            note.push(", found ")?;
            note.push_text(bytes.as_slice())?;
        }
        _ => {}
    }
    note.push("\n")
}

/// Appends a line for each function of some expressions that may have failed with a code for what
/// it read.
#[cycle(readings)]
fn push_all(
    note: &mut Note,
    entry: &Entry,
    exprs: &[TExpr],
    code: EvalCode,
) -> Result<(), NoMemory> {
    for expr in exprs {
        push_readings(note, entry, expr, code)?;
    }
    Ok(())
}

/// Appends a line for each function of an expression that may have failed with a code for what it
/// read.
#[cycle(readings)]
pub(crate) fn push_readings(
    note: &mut Note,
    entry: &Entry,
    expr: &TExpr,
    code: EvalCode,
) -> Result<(), NoMemory> {
    match expr {
        TExpr::Apply(function, args) => {
            if may_fail(*function, code) {
                if let [argument, ..] = args.as_slice() {
                    return push_reading(note, entry, expr, argument, code);
                }
            }
            push_all(note, entry, args.as_slice(), code)
        }
        TExpr::ListOf(items) => push_all(note, entry, items.as_slice(), code),
        TExpr::Cast(inner, _) | TExpr::Member(inner, _) => {
            push_readings(note, entry, inner.get(), code)
        }
        TExpr::Not(inner) | TExpr::Neg(inner) => push_readings(note, entry, inner.get(), code),
        TExpr::At(left, right) | TExpr::Binary(_, left, right) | TExpr::PairOf(left, right) => {
            push_readings(note, entry, left.get(), code)?;
            push_readings(note, entry, right.get(), code)
        }
        _ => Ok(()),
    }
}
