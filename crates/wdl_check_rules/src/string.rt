//! Strings, given their typed placeholders.

ghost use Rattle.std.specs.Prelude.{◌≡◌, IfOk};
ghost use Rattle.wdl_check_rules.specs.Rules as spec;

use crate::typed::{Typed, literal};
use sqlite_items::Items;
use std::alloc::Global;
use wdl_ast::{Chars, Expr, PlaceholderOption, PlaceholderOptions, StringPart};
use wdl_typed::{Choice, TExpr, THole, TPart};
use wdl_value::{NoMemory, Text, Ty, Value};

fn text_of(alloc: Global, chars: &Option<Chars>) -> Result<Text, NoMemory>
    ensures { IfOk result (λ t. t ≡ spec.text_of chars.now) }
{
    match chars {
        Some(chars) => chars.text.copy(alloc),
        None => Ok(Text::empty(alloc)),
    }
}

fn option_text(alloc: Global, option: &PlaceholderOption) -> Result<Text, NoMemory>
    ensures { IfOk result (λ t. t ≡ spec.option_text option.now) }
{
    text_of(alloc, &option.value.chars)
}

fn either(
    alloc: Global,
    yes: &PlaceholderOption,
    no: &PlaceholderOption,
) -> Result<Choice, NoMemory>
    ensures { IfOk result (λ c. c ≡ Choice.Both (spec.option_text yes.now) (spec.option_text no.now)) }
{
    let yes = option_text(alloc, yes)?;
    let no = option_text(alloc, no)?;
    Ok(Choice::Both { yes, no })
}

/// How a placeholder with these options prints its value.
pub fn choice_of(alloc: Global, options: &PlaceholderOptions) -> Result<Choice, NoMemory>
    ensures { IfOk result (λ c. c ≡ spec.choice_of options.now) }
{
    match options {
        PlaceholderOptions::Plain => Ok(Choice::Plain),
        PlaceholderOptions::Sep(option) => Ok(Choice::Sep(option_text(alloc, option)?)),
        PlaceholderOptions::Default(option) => Ok(Choice::Default(option_text(alloc, option)?)),
        PlaceholderOptions::TrueFalse(yes, no) => either(alloc, yes, no),
        PlaceholderOptions::FalseTrue(no, yes) => either(alloc, yes, no),
    }
}

/// A placeholder. None where it does not take the type.
pub fn hole(choice: Choice, x: Typed) -> Option<TPart<TExpr>>
    ensures { result ≡ spec.hole_of choice x }
{
    if !choice.takes(&x.ty) {
        return None;
    }
    Some(TPart::Hole(THole {
        expr: x.into_expr(),
        choice,
    }))
}

/// The text of a string without a placeholder.
pub fn plain_text(alloc: Global, parts: &[StringPart<Expr>]) -> Result<Option<Text>, NoMemory>
    ensures { IfOk result (λ t. t ≡ spec.plain_text parts.now) }
{
    let mut text = Text::empty(alloc);
    for part in parts {
        match part {
            StringPart::Chars(chars) => text.push_str(chars.text.as_str())?,
            StringPart::Placeholder(_) => return Ok(None),
        }
    }
    Ok(Some(text))
}

/// A string without a placeholder.
pub fn string_literal(text: Text) -> Typed
    ensures { result ≡ spec.string_literal text }
{
    literal(Value::Str(text), Ty::Str)
}

/// A string with placeholders.
pub fn string_of_parts(parts: Items<TPart<TExpr>>) -> Typed
    ensures { result ≡ spec.strung parts }
{
    Typed {
        expr: TExpr::Strung(parts),
        ty: Ty::Str,
    }
}
