//! Calls.

ghost use Rattle.token_reading.specs.Outcome.{Reads};
ghost use Rattle.wdl_parse_doc.specs.Reading.Calls as spec;
ghost use Rattle.wdl_parse_parts.specs.Reading.Parts as parts;

use crate::part_list::{Part, many};
use std::alloc::Global;
use token_reading::{Cursor, RuleStop, missing};
use wdl_ast::{
    After, Argument, Call, CallBody, CallInputs, CallTarget, ListItem, Mark, Renaming, TargetMember,
};
use wdl_parse_parts::{assigned, comma_or, commas_fit, take, take_name};
use wdl_value::Span;

#[tactic(auto, using(std::proofs::lemmas::Grind::common_steps), unfolding(token_reading::specs::Outcome::then_, token_reading::specs::Outcome::found, crate::specs::Reading::Calls::target_member))]
fn target_member(alloc: Global, tokens: &mut Cursor<'_>) -> Result<Option<TargetMember>, RuleStop>
    ensures { Reads (spec.target_member tokens.old) result tokens.new }
{
    let Some(dot) = tokens.eat(Mark::Dot) else {
        return Ok(None);
    };
    let name = take_name(alloc, tokens)?;
    Ok(Some(TargetMember { dot, name }))
}

#[tactic(auto, using(std::proofs::lemmas::Grind::common_steps), unfolding(token_reading::specs::Outcome::then_, token_reading::specs::Outcome::found, crate::specs::Reading::Calls::target))]
fn target(alloc: Global, tokens: &mut Cursor<'_>) -> Result<CallTarget, RuleStop>
    ensures { Reads (spec.target tokens.old) result tokens.new }
{
    let first = take_name(alloc, tokens)?;
    let second = target_member(alloc, tokens)?;
    Ok(CallTarget { first, second })
}

/// Reads `as name`, if it stands there.
#[tactic(auto, using(std::proofs::lemmas::Grind::common_steps), unfolding(token_reading::specs::Outcome::then_, token_reading::specs::Outcome::found, crate::specs::Reading::Calls::renaming))]
pub fn renaming(alloc: Global, tokens: &mut Cursor<'_>) -> Result<Option<Renaming>, RuleStop>
    ensures { Reads (spec.renaming tokens.old) result tokens.new }
{
    let Some(as_word) = tokens.eat_word("as") else {
        return Ok(None);
    };
    let name = take_name(alloc, tokens)?;
    Ok(Some(Renaming { as_word, name }))
}

impl Part for After {
    ghost use Rattle.wdl_parse_doc.specs.Reading.Calls as spec;

    ghost reading = { spec.after_at };

    /// `after` may be the name of a struct too: `after y = 1` is a declaration.
    #[tactic(auto, using(std::proofs::lemmas::Grind::common_steps), unfolding(token_reading::specs::Outcome::then_, token_reading::specs::Outcome::found, crate::specs::Reading::Calls::after_at))]
    fn read(alloc: Global, tokens: &mut Cursor<'_>) -> Result<Option<After>, RuleStop> {
        let before = tokens.rest();
        let Some(keyword) = tokens.eat_word("after") else {
            return Ok(None);
        };
        let Some(name) = tokens.ident(alloc)? else {
            tokens.go(before);
            return Ok(None);
        };
        if tokens.sees(Mark::Assign) {
            tokens.go(before);
            return Ok(None);
        }
        Ok(Some(After { keyword, name }))
    }
}

#[tactic(auto, using(std::proofs::lemmas::Grind::common_steps), unfolding(token_reading::specs::Outcome::then_, token_reading::specs::Outcome::found, crate::specs::Reading::Calls::argument))]
fn argument(alloc: Global, tokens: &mut Cursor<'_>) -> Result<Argument, RuleStop>
    ensures { Reads (spec.argument tokens.old) result tokens.new }
{
    let name = take_name(alloc, tokens)?;
    let value = assigned(alloc, tokens)?;
    Ok(Argument { name, value })
}

#[tactic(auto, using(std::proofs::lemmas::Grind::common_steps), unfolding(token_reading::specs::Outcome::then_, token_reading::specs::Outcome::found, wdl_parse_parts::specs::Reading::Parts::item))]
fn argument_item(alloc: Global, tokens: &mut Cursor<'_>) -> Result<ListItem<Argument>, RuleStop>
    ensures { Reads (parts.item spec.argument tokens.old) result tokens.new }
{
    let item = argument(alloc, tokens)?;
    let comma = comma_or(tokens, Mark::CloseBrace);
    Ok(ListItem { item, comma })
}

impl Part for ListItem<Argument> {
    ghost use Rattle.wdl_parse_parts.specs.Reading.Parts as parts;
    ghost use Rattle.wdl_parse_doc.specs.Reading.Calls as spec;
    ghost use Rattle.wdl_ast.specs.declared.token.Mark.TheVariants as mark;

    ghost reading = { parts.until mark.CloseBrace (parts.item spec.argument) };

    #[tactic(auto, using(std::proofs::lemmas::Grind::common_steps), unfolding(token_reading::specs::Outcome::then_, token_reading::specs::Outcome::found, wdl_parse_parts::specs::Reading::Parts::until))]
    fn read(
        alloc: Global,
        tokens: &mut Cursor<'_>,
    ) -> Result<Option<ListItem<Argument>>, RuleStop> {
        if tokens.sees(Mark::CloseBrace) {
            return Ok(None);
        }
        Ok(Some(argument_item(alloc, tokens)?))
    }
}

#[tactic(auto, using(std::proofs::lemmas::Grind::common_steps), unfolding(token_reading::specs::Outcome::then_, token_reading::specs::Outcome::found, crate::specs::Reading::Calls::call_inputs))]
fn call_inputs(alloc: Global, tokens: &mut Cursor<'_>) -> Result<Option<CallInputs>, RuleStop>
    ensures { Reads (spec.call_inputs tokens.old) result tokens.new }
{
    let Some(keyword) = tokens.eat_word("input") else {
        return Ok(None);
    };
    let colon = take(tokens, Mark::Colon)?;
    let arguments = many::<ListItem<Argument>>(alloc, tokens)?;
    if commas_fit(arguments.as_slice()) {
        return Ok(Some(CallInputs {
            keyword,
            colon,
            arguments,
        }));
    }
    missing()
}

#[tactic(auto, using(std::proofs::lemmas::Grind::common_steps), unfolding(token_reading::specs::Outcome::then_, token_reading::specs::Outcome::found, crate::specs::Reading::Calls::call_body))]
fn call_body(alloc: Global, tokens: &mut Cursor<'_>) -> Result<Option<CallBody>, RuleStop>
    ensures { Reads (spec.call_body tokens.old) result tokens.new }
{
    let Some(opening) = tokens.eat(Mark::OpenBrace) else {
        return Ok(None);
    };
    let inputs = call_inputs(alloc, tokens)?;
    let closing = take(tokens, Mark::CloseBrace)?;
    Ok(Some(CallBody {
        opening,
        inputs,
        closing,
    }))
}

/// Reads a call, behind its word.
#[tactic(auto, using(std::proofs::lemmas::Grind::common_steps), unfolding(token_reading::specs::Outcome::then_, token_reading::specs::Outcome::found, crate::specs::Reading::Calls::call))]
pub fn call(alloc: Global, tokens: &mut Cursor<'_>, keyword: Span) -> Result<Call, RuleStop>
    ensures { Reads (spec.call keyword tokens.old) result tokens.new }
{
    let target = target(alloc, tokens)?;
    let alias = renaming(alloc, tokens)?;
    let after = many::<After>(alloc, tokens)?;
    let body = call_body(alloc, tokens)?;
    Ok(Call {
        keyword,
        target,
        alias,
        after,
        body,
    })
}
