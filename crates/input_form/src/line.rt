//! The line of an input.

ghost use Rattle.std.specs.Prelude.{◌≡◌, IfOk};
ghost use Rattle.json.specs.Print.{quoted as quoted_text};
ghost use Rattle.serde_json.specs.Written.{compact_text};
ghost use Rattle.json_values.specs.Writing.{json_of as json_data};
ghost use Rattle.wdl_json.specs.Inputs.{member_name as name_of_member};
ghost use Rattle.input_form.specs.Form as spec;

use crate::literal::{is_literal, literal_of};
use crate::typed::type_text;
use json_values::json_of;
use serde_json::Value as Json;
use std::alloc::Global;
use wdl_typed::{TExpr, TInput};
use wdl_value::{Name, NoMemory, Text, Value, is_optional};

/// The member of a form for one input, with the byte of the document at which the input begins.
#[derive(Debug, Drop)]
pub struct Line {
    pub start: u32,
    pub text: Text,
}

/// The text as JSON.
fn quoted(alloc: Global, text: &Text) -> Result<Text, NoMemory>
    ensures { IfOk result (λ t. t ≡ quoted_text text.now) }
{
    let json = Json::try_from_str(alloc, text.as_str())?;
    Ok(Text::from_string(json.to_string(alloc)?))
}

/// The value as JSON.
fn value_text(alloc: Global, value: &Value) -> Result<Text, NoMemory>
    ensures { IfOk result (λ t. t ≡ compact_text (json_data value.now)) }
{
    let json = json_of(alloc, value)?;
    Ok(Text::from_string(json.to_string(alloc)?))
}

/// A literal as JSON.
#[tactic(auto, unfolding(crate::specs::Form::literal_text))]
fn literal_text(alloc: Global, literal: &TExpr) -> Result<Text, NoMemory>
    ensures { IfOk result (λ t. t ≡ spec.literal_text literal.now) }
{
    let value = literal_of(alloc, literal)?;
    value_text(alloc, &value)
}

fn with_literal(alloc: Global, ty: &Text, literal: &Text) -> Result<Text, NoMemory>
    ensures { IfOk result (λ t. t ≡ spec.with_literal ty.now literal.now) }
{
    let mut text = ty.copy(alloc)?;
    text.push_str(" (optional, default ")?;
    text.push_str(literal.as_str())?;
    text.push_ascii(b')')?;
    Ok(text)
}

#[tactic(auto, using(crate::proofs::Plain::plain))]
fn marked_optional(alloc: Global, ty: &Text) -> Result<Text, NoMemory>
    ensures { IfOk result (λ t. t ≡ spec.marked_optional ty.now) }
{
    let ty = ty.as_str();
    Ok(Text::from_string(format!(in alloc; "{ty} (optional)")?))
}

fn with_default(alloc: Global, ty: &Text, default: &TExpr) -> Result<Text, NoMemory>
    ensures { IfOk result (λ t. t ≡ spec.with_default ty.now default.now) }
{
    if is_literal(default) {
        let literal = literal_text(alloc, default)?;
        return with_literal(alloc, ty, &literal);
    }
    marked_optional(alloc, ty)
}

/// What a form says of an input.
fn input_text(alloc: Global, input: &TInput) -> Result<Text, NoMemory>
    ensures { IfOk result (λ t. t ≡ spec.input_text input.now) }
{
    let text = type_text(alloc, &input.ty)?;
    match &input.value {
        Some(default) => with_default(alloc, &text, default),
        None if is_optional(&input.ty) => marked_optional(alloc, &text),
        None => Ok(text),
    }
}

/// `workflow.input`
fn member_name(alloc: Global, flow: &Name, input: &Name) -> Result<Text, NoMemory>
    ensures { IfOk result (λ t. t ≡ name_of_member flow.now input.now) }
{
    let mut name = flow.to_text(alloc)?;
    name.push_ascii(b'.')?;
    name.push_str(input.as_str())?;
    Ok(name)
}

#[tactic(auto, using(crate::proofs::Plain::plain))]
fn member_text(alloc: Global, flow: &Name, input: &TInput) -> Result<Text, NoMemory>
    ensures { IfOk result (λ t. t ≡ spec.member_text flow.now input.now) }
{
    let name = member_name(alloc, flow, &input.name)?;
    let name = quoted(alloc, &name)?;
    let value = input_text(alloc, input)?;
    let value = quoted(alloc, &value)?;
    let name = name.as_str();
    let value = value.as_str();
    Ok(Text::from_string(format!(in alloc; "  {name}: {value}")?))
}

/// Returns the line of an input of that workflow.
pub fn line_of(alloc: Global, flow: &Name, input: &TInput) -> Result<Line, NoMemory>
    ensures { IfOk result (λ l. l ≡ spec.line_of flow.now input.now) }
{
    let text = member_text(alloc, flow, input)?;
    Ok(Line {
        start: input.span.start,
        text,
    })
}
