//! The line of a load.

ghost use Rattle.std.specs.Prelude.{◌≡◌, ◌++◌, IfOk, OnOk};
ghost use Rattle.workflow_cli.specs.Reporting as spec;

use std::alloc::Global;
use wdl_value::{Bind, NoMemory, Text, Value, text_of};

/// Appends an output that is an Int.
fn push_value(alloc: Global, text: &mut Text, value: &Value) -> Result<(), NoMemory>
    ensures { OnOk result (text.new ≡ text.old ++ spec.value_words value.now) }
{
    match value {
        Value::Int(_) => {
            text.push_str(" last ")?;
            let digits = text_of(alloc, value)?;
            text.push_str(digits.as_str())
        }
        Value::Bool(_)
        | Value::Str(_)
        | Value::File(_)
        | Value::List(_)
        | Value::Pair(_, _)
        | Value::Map(_)
        | Value::Struct { .. }
        | Value::Absent => Ok(()),
    }
}

/// Appends the one output.
fn push_last(alloc: Global, text: &mut Text, outputs: &[Bind]) -> Result<(), NoMemory>
    ensures { OnOk result (text.new ≡ text.old ++ spec.last_words outputs.now) }
{
    match outputs {
        [] => Ok(()),
        [last] => push_value(alloc, text, &last.value),
        [_, _, ..] => Ok(()),
    }
}

/// How many calls and jobs a load had, and its output, with a newline.
#[tactic(auto, using(crate::proofs::Plain::plain))]
pub fn load_line(
    alloc: Global,
    number: u32,
    jobs: usize,
    outputs: &[Bind],
) -> Result<Text, NoMemory>
    ensures value { IfOk result (λ t. t ≡ spec.load_line number jobs outputs.now) }
{
    let mut text = Text::from_string(format!(in alloc; "calls {number} jobs {jobs}")?);
    push_last(alloc, &mut text, outputs)?;
    text.push_ascii(b'\n')?;
    Ok(text)
}
