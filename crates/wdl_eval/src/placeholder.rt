//! The texts that placeholders print (OpenWDL 1.1, "Expression Placeholder Options").

ghost use Rattle.std.specs.Prelude.{◌++◌, Ok};
ghost use Rattle.std.specs.List.{join_by};
ghost use Rattle.wdl_value.specs.declared.value.Value.{out-Value};
ghost use Rattle.wdl_typed.specs.Evaluation as spec;
ghost use Rattle.wdl_eval.specs.Meets.{Meets};

use crate::fault::NodeFault;
use std::alloc::Global;
use wdl_typed::Choice;
use wdl_value::{Text, Value, text_of};

/// The text of a value that has one.
fn text_in(alloc: Global, value: &Value) -> Result<Text, NodeFault>
    ensures { Meets (spec.text_met (out-Value value.now)) result }
{
    match value {
        Value::Bool(_) | Value::Int(_) | Value::Str(_) | Value::File(_) => Ok(text_of(
            alloc, value,
        )?),
        _ => Err(NodeFault::Wrong),
    }
}

fn joined(alloc: Global, sep: &Text, items: &[Value]) -> Result<Text, NodeFault>
    ensures { Meets (spec.then_ (spec.texts_met items.now) (λ ss. Ok (join_by (λ s. s) sep.now ss))) result }
{
    match items {
        [] => Ok(Text::empty(alloc)),
        [first, rest @ ..] => {
            let mut text = text_in(alloc, first)?;
            for item in rest {
                text.push_str(sep.as_str())?;
                text.push_str(text_in(alloc, item)?.as_str())?;
            }
            Ok(text)
        }
    }
}

fn separated(alloc: Global, sep: &Text, value: &Value) -> Result<Text, NodeFault>
    ensures { Meets (spec.separated sep.now (out-Value value.now)) result }
{
    match value {
        Value::List(items) => joined(alloc, sep, items.as_slice()),
        _ => Err(NodeFault::Wrong),
    }
}

fn one_of_two(alloc: Global, yes: &Text, no: &Text, value: &Value) -> Result<Text, NodeFault>
    ensures { Meets (spec.one_of_two yes.now no.now (out-Value value.now)) result }
{
    match value {
        Value::Bool(true) => Ok(yes.copy(alloc)?),
        Value::Bool(false) => Ok(no.copy(alloc)?),
        Value::Absent => Ok(Text::empty(alloc)),
        _ => Err(NodeFault::Wrong),
    }
}

fn or_default(alloc: Global, text: &Text, value: &Value) -> Result<Text, NodeFault>
    ensures { Meets (spec.or_default text.now (out-Value value.now)) result }
{
    match value {
        Value::Absent => Ok(text.copy(alloc)?),
        _ => text_in(alloc, value),
    }
}

/// The text that a placeholder prints for a value: by its option, and nothing for an undefined
/// value where no option says otherwise. `Wrong` comes exactly where the option takes no such
/// value.
pub fn hole_text(alloc: Global, choice: &Choice, value: &Value) -> Result<Text, NodeFault>
    ensures { Meets (spec.hole_text choice.now (out-Value value.now)) result }
{
    match choice {
        Choice::Plain => or_default(alloc, &Text::empty(alloc), value),
        Choice::Sep(sep) => separated(alloc, sep, value),
        Choice::Both { yes, no } => one_of_two(alloc, yes, no, value),
        Choice::Default(text) => or_default(alloc, text, value),
    }
}

/// The text with what a placeholder prints behind it.
pub fn with_hole(
    alloc: Global,
    mut text: Text,
    choice: &Choice,
    value: &Value,
) -> Result<Text, NodeFault>
    ensures { Meets (spec.then_ (spec.hole_text choice.now (out-Value value.now)) (λ s. Ok (text ++ s))) result }
{
    text.push_str(hole_text(alloc, choice, value)?.as_str())?;
    Ok(text)
}

/// The text with these characters behind it.
pub fn with_chars(mut text: Text, chars: &Text) -> Result<Text, NodeFault>
    ensures { Meets (Ok (text ++ chars.now)) result }
{
    text.push_str(chars.as_str())?;
    Ok(text)
}
