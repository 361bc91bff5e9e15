//! The form of a workflow.

ghost use Rattle.std.specs.Prelude.{◌≡◌, IfOk, map};
ghost use Rattle.input_form.specs.Form as spec;

use crate::line::{Line, line_of};
use std::alloc::Global;
use wdl_typed::{FlowDef, TInput};
use wdl_value::{Name, NoMemory, Text};

/// The lines of inputs, in their order.
fn lines_of(alloc: Global, flow: &Name, inputs: &[TInput]) -> Result<Vec<Line>, NoMemory>
    ensures { IfOk result (λ ls. ls.items ≡ map (spec.line_of flow.now) inputs.now) }
{
    let mut lines = Vec::new(alloc);
    for input in inputs {
        lines.push(line_of(alloc, flow, input)?)?;
    }
    Ok(lines)
}

/// The lines of inputs, in the order of the document.
fn ordered_lines(alloc: Global, flow: &FlowDef) -> Result<Vec<Line>, NoMemory>
    ensures { IfOk result (λ ls. spec.IsInTextOrder (map (spec.line_of flow.now.name) flow.now.inputs) ls.items) }
{
    let mut lines = lines_of(alloc, &flow.name, flow.inputs.as_slice())?;
    lines.sort_by_key(|line| line.start)?;
    Ok(lines)
}

/// The object with these lines.
fn object_of(alloc: Global, lines: &[Line]) -> Result<Text, NoMemory>
    ensures { IfOk result (λ t. t ≡ spec.object_text lines.now) }
{
    let Some((first, more)) = lines.split_first() else {
        return Text::from_plain(alloc, "{}");
    };
    let mut text = Text::from_plain(alloc, "{\n")?;
    text.push_str(first.text.as_str())?;
    for line in more {
        text.push_str(",\n")?;
        text.push_str(line.text.as_str())?;
    }
    text.push_str("\n}")?;
    Ok(text)
}

/// Returns the form of a workflow's inputs: a JSON object with a member `workflow.input` for each
/// input, in the order of the document, each on a line of its own behind two blanks; `{}` where
/// there is no input.
///
/// The value of a member is a text: the type of the input as a document writes it, and behind it
/// ` (optional)` where the input is optional or has a default, or ` (optional, default JSON)` where
/// its default is a literal, with that literal as JSON. An imported struct has the name that the
/// checked form gives it. The form has no newline at its end.
pub fn inputs_form(alloc: Global, flow: &FlowDef) -> Result<Text, NoMemory>
    ensures value { IfOk result (spec.IsForm flow.now) }
{
    let lines = ordered_lines(alloc, flow)?;
    object_of(alloc, lines.as_slice())
}
