//! `prefix`, `suffix`, `quote`, `squote` and `sep`.

ghost use Rattle.std.specs.Prelude.{◌≡◌, ◌++◌, [], ◌<◌, IfOk, IfErr, Ok};
ghost use Rattle.std.specs.List.{join_by};
ghost use Rattle.wdl_value.specs.Functions as spec;
ghost use Rattle.wdl_value.specs.ValueText.{text_of};
ghost use Rattle.wdl_value.specs.declared.value.Value.TheVariants as v;
ghost use Rattle.wdl_stdlib.specs.Gives.{Gives, IsPastText, Makes};

use crate::fault::EvalFault;
use crate::growing::Growing;
use crate::parts::{items_in, text_in};
use std::alloc::Global;
use wdl_value::{EvalCode, Items, NoMemory, SIZE_LIMIT, Text, Value};

/// The text of a value between two marks.
fn quoted(alloc: Global, mark: u8, item: &Value) -> Result<Value, NoMemory>
    requires ascii { mark < 128 }
    requires plain { 0 < mark }
    ensures { IfOk result (λ x. x ≡ spec.quoted mark item.now) }
{
    let mut text = Text::empty(alloc);
    text.push_ascii(mark)?;
    text.push_str(text_in(alloc, item)?.as_str())?;
    text.push_ascii(mark)?;
    Ok(Value::Str(text))
}

/// The text of each item between two marks.
pub fn quote(alloc: Global, mark: u8, x: &Value) -> Result<Value, EvalFault>
    requires ascii { mark < 128 }
    requires plain { 0 < mark }
    ensures { Gives (spec.quote_of mark x.now) result }
{
    let items = items_in(x);
    let mut texts = Items::new(alloc);
    for item in items {
        texts.push(quoted(alloc, mark, item)?)?;
    }
    Ok(Value::List(texts))
}

/// The texts of two values, joined.
fn joined(alloc: Global, first: &Value, second: &Value) -> Result<Value, NoMemory>
    ensures { IfOk result (λ x. x ≡ v.Str (text_of first.now ++ text_of second.now)) }
{
    let mut text = text_in(alloc, first)?;
    text.push_str(text_in(alloc, second)?.as_str())?;
    Ok(Value::Str(text))
}

/// The text of each item behind this one; it stops at the limit of a value.
pub fn prefix(alloc: Global, before: &Value, x: &Value) -> Result<Value, EvalFault>
    ensures { Makes (spec.prefix_of before.now x.now) result }
{
    let items = items_in(x);
    let mut texts = Growing::new(alloc);
    for item in items {
        texts = texts.with(joined(alloc, before, item)?)?;
    }
    Ok(texts.into_value())
}

/// The text of each item before this one; it stops at the limit of a value.
pub fn suffix(alloc: Global, after: &Value, x: &Value) -> Result<Value, EvalFault>
    ensures { Makes (spec.suffix_of after.now x.now) result }
{
    let items = items_in(x);
    let mut texts = Growing::new(alloc);
    for item in items {
        texts = texts.with(joined(alloc, item, after)?)?;
    }
    Ok(texts.into_value())
}

/// Appends the text between two items, and the next item's. It is refused where no text that begins
/// so keeps the limits.
fn with_item(alloc: Global, mut text: Text, between: &Text, item: &Value) -> Result<Text, EvalFault>
    ensures text { IfOk result (λ t. t ≡ text ++ (between.now ++ text_of item.now)) }
    ensures past { IfErr result (IsPastText (text ++ (between.now ++ text_of item.now))) }
{
    text.push_str(between.as_str())?;
    text.push_str(text_in(alloc, item)?.as_str())?;
    if text.as_str().len() as u64 >= SIZE_LIMIT {
        return Err(EvalFault::Code(EvalCode::TooLarge));
    }
    Ok(text)
}

fn separated(alloc: Global, between: &Text, items: &[Value]) -> Result<Value, EvalFault>
    ensures { Makes (Ok (v.Str (join_by text_of between.now items.now))) result }
{
    match items {
        [] => Ok(Value::Str(Text::empty(alloc))),
        [first, rest @ ..] => {
            let mut text = text_in(alloc, first)?;
            for item in rest {
                text = with_item(alloc, text, between, item)?;
            }
            Ok(Value::Str(text))
        }
    }
}

/// The texts of the items with this one between them; it stops at the limit of a value.
pub fn sep(alloc: Global, between: &Value, x: &Value) -> Result<Value, EvalFault>
    ensures { Makes (spec.sep_of between.now x.now) result }
{
    separated(alloc, &text_in(alloc, between)?, items_in(x))
}
