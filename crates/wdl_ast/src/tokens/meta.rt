ghost use Rattle.std.specs.Prelude.{◌≡◌, ◌++◌, OnOk};
ghost use Rattle.wdl_ast.specs.Words as spec;

use crate::leaf::{Attribute, ListItem};
use crate::meta::{MetaValue, Number};
use crate::token::{Kind, Mark};
use crate::tokens::list::TokenList;
use wdl_value::NoMemory;

fn push_number(out: &mut TokenList, number: &Number) -> Result<(), NoMemory>
    ensures { OnOk result (out.new ≡ out.old ++ spec.number_words number.now) }
{
    match number {
        Number::Int { value, span } => out.push(Kind::Int(*value), *span),
        Number::Frac { text, span } => out.fraction(text, *span),
    }
}

#[cycle(words)]
#[tactic(auto, using(crate::proofs::WordLaws::meta_equations))]
fn push_meta(out: &mut TokenList, value: &MetaValue) -> Result<(), NoMemory>
    ensures { OnOk result (out.new ≡ out.old ++ spec.meta_words value.now) }
{
    match value {
        MetaValue::Null(span) => out.keyword("null", *span),
        MetaValue::True(span) => out.keyword("true", *span),
        MetaValue::False(span) => out.keyword("false", *span),
        MetaValue::Number { minus, number } => {
            out.optional_mark(Mark::Minus, *minus)?;
            push_number(out, number)?;
            Ok(())
        }
        MetaValue::Str(string) => out.plain_string(string),
        MetaValue::Object {
            opening,
            attributes,
            closing,
        } => {
            out.mark(Mark::OpenBrace, *opening)?;
            push_metadata(out, attributes.as_slice())?;
            out.mark(Mark::CloseBrace, *closing)?;
            Ok(())
        }
        MetaValue::List {
            opening,
            items,
            closing,
        } => {
            out.mark(Mark::OpenBracket, *opening)?;
            push_meta_items(out, items.as_slice())?;
            out.mark(Mark::CloseBracket, *closing)?;
            Ok(())
        }
    }
}

#[cycle(words)]
#[tactic(auto, using(crate::proofs::WordLaws::meta_equations))]
fn push_meta_items(out: &mut TokenList, items: &[ListItem<MetaValue>]) -> Result<(), NoMemory>
    ensures { OnOk result (out.new ≡ out.old ++ spec.items_words spec.meta_words items.now) }
{
    for item in items {
        push_meta(out, &item.item)?;
        out.optional_mark(Mark::Comma, item.comma)?;
    }
    Ok(())
}

/// Adds the tokens of the members of an object of metadata.
#[cycle(words)]
#[tactic(auto, using(crate::proofs::WordLaws::meta_equations))]
pub fn push_metadata(
    out: &mut TokenList,
    attributes: &[Attribute<MetaValue>],
) -> Result<(), NoMemory>
    ensures { OnOk result (out.new ≡ out.old ++ spec.attributes_words spec.meta_words attributes.now) }
{
    for attribute in attributes {
        out.word(&attribute.key)?;
        out.mark(Mark::Colon, attribute.colon)?;
        push_meta(out, &attribute.value)?;
        out.optional_mark(Mark::Comma, attribute.comma)?;
    }
    Ok(())
}
