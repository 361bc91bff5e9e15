use crate::note::Note;
use wdl_typed::{Checked, FlowDef, Statement, TDecl, TExpr, TPart, Target, TaskDef};
use wdl_value::{Key, Name, NoMemory, Op, Place, Segment, Text, Value};

/// The body of the scatter of that number.
fn scatter_body(body: &[Statement], number: u32) -> Option<&[Statement]> {
    for statement in body {
        if let Statement::Scatter(scatter) = statement {
            if scatter.number == number {
                return Some(scatter.body.as_slice());
            }
        }
    }
    None
}

/// The body of the condition of that number.
fn if_body(body: &[Statement], number: u32) -> Option<&[Statement]> {
    for statement in body {
        if let Statement::If(condition) = statement {
            if condition.number == number {
                return Some(condition.body.as_slice());
            }
        }
    }
    None
}

/// What the call of that name runs.
fn target_of(body: &[Statement], name: &Name) -> Option<Target> {
    for statement in body {
        if let Statement::Call(call) = statement {
            if call.name.same(name) {
                return Some(call.target);
            }
        }
    }
    None
}

/// Returns the task that the call at a place runs, where there is a call.
pub(crate) fn task_at<'a>(checked: &'a Checked, place: &Place) -> Option<&'a TaskDef> {
    let flows = checked.flows.as_slice();
    let mut body = flows.get(checked.main? as usize)?.body.as_slice();
    for segment in place.as_slice() {
        match segment {
            Segment::Index(_) => {}
            Segment::Scatter(number) => body = scatter_body(body, *number)?,
            Segment::If(number) => body = if_body(body, *number)?,
            Segment::Call(name) => match target_of(body, name)? {
                Target::Task(at) => return checked.tasks.as_slice().get(at as usize),
                Target::Flow(at) => body = flows.get(at as usize)?.body.as_slice(),
            },
        }
    }
    None
}

/// The workflow and the body in it at a place, where there are some.
fn body_at<'a>(checked: &'a Checked, place: &Place) -> Option<(&'a FlowDef, &'a [Statement])> {
    let flows = checked.flows.as_slice();
    let mut flow = flows.get(checked.main? as usize)?;
    let mut body = flow.body.as_slice();
    for segment in place.as_slice() {
        match segment {
            Segment::Index(_) => {}
            Segment::Scatter(number) => body = scatter_body(body, *number)?,
            Segment::If(number) => body = if_body(body, *number)?,
            Segment::Call(name) => match target_of(body, name)? {
                Target::Task(_) => return None,
                Target::Flow(at) => {
                    flow = flows.get(at as usize)?;
                    body = flow.body.as_slice();
                }
            },
        }
    }
    Some((flow, body))
}

/// The expression of the declaration of that name.
fn value_in<'a>(body: &'a [Statement], name: &Text) -> Option<&'a TExpr> {
    for statement in body {
        if let Statement::Decl(declared) = statement {
            if name.is(declared.name.as_str()) {
                return Some(&declared.value);
            }
        }
    }
    None
}

/// The expression of the output of that name.
fn output_value<'a>(outputs: &'a [TDecl], name: &Text) -> Option<&'a TExpr> {
    for output in outputs {
        if name.is(output.name.as_str()) {
            return Some(&output.value);
        }
    }
    None
}

/// Returns the expression of the declaration or output of that name in the body at a place, where
/// there is one.
pub(crate) fn value_at<'a>(checked: &'a Checked, place: &Place, name: &Text) -> Option<&'a TExpr> {
    let (flow, body) = body_at(checked, place)?;
    match value_in(body, name) {
        Some(value) => Some(value),
        None => output_value(flow.outputs.as_slice(), name),
    }
}

/// The output of that name.
pub(crate) fn output_of<'a>(task: &'a TaskDef, name: &Text) -> Option<&'a TDecl> {
    for output in task.outputs.as_slice() {
        if name.is(output.name.as_str()) {
            return Some(output);
        }
    }
    None
}

/// The part of an output's expression that names a file: a text, or the argument of a function that
/// reads one.
fn file_part(expr: &TExpr) -> Option<&TExpr> {
    match expr {
        TExpr::Lit(Value::Str(_) | Value::File(_)) | TExpr::Strung(_) | TExpr::Binary(..) => {
            Some(expr)
        }
        TExpr::Cast(inner, _) => file_part(inner.get()),
        TExpr::Apply(_, args) => match args.as_slice() {
            [first, ..] => file_part(first),
            [] => None,
        },
        _ => None,
    }
}

fn push_key(note: &mut Note, key: &Key) -> Result<(), NoMemory> {
    note.push("~{")?;
    note.push(key.first.as_str())?;
    if let Some(second) = &key.second {
        note.push(".")?;
        note.push(second.as_str())?;
    }
    note.push("}")
}

/// Appends an expression as the pattern of a text: names as placeholders, and `~{..}` for what is
/// longer.
#[cycle(pattern)]
fn push_pattern(note: &mut Note, expr: &TExpr) -> Result<(), NoMemory> {
    match expr {
        TExpr::Lit(Value::Str(text) | Value::File(text)) => note.push(text.as_str()),
        TExpr::Get(key) => push_key(note, key),
        TExpr::Cast(inner, _) => push_pattern(note, inner.get()),
        TExpr::Binary(Op::Add | Op::AddMaybe, left, right) => {
            push_pattern(note, left.get())?;
            push_pattern(note, right.get())
        }
        TExpr::Strung(parts) => push_parts(note, parts.as_slice()),
        _ => note.push("~{..}"),
    }
}

#[cycle(pattern)]
fn push_parts(note: &mut Note, parts: &[TPart<TExpr>]) -> Result<(), NoMemory> {
    for part in parts {
        match part {
            TPart::Chars(text) => note.push(text.as_str())?,
            TPart::Hole(hole) => push_pattern(note, &hole.expr)?,
        }
    }
    Ok(())
}

/// Appends the name of the file that an output is about, as its expression spells it, in a line of
/// its own.
pub(crate) fn push_file(note: &mut Note, task: &TaskDef, output: &Text) -> Result<(), NoMemory> {
    let Some(output) = output_of(task, output) else {
        return Ok(());
    };
    let Some(part) = file_part(&output.value) else {
        return Ok(());
    };
    note.push("  looked for: ")?;
    push_pattern(note, part)?;
    note.push("\n")
}
