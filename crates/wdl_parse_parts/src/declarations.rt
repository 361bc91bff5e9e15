//! Declarations and commands.

ghost use Rattle.token_reading.specs.Outcome.{Reads};
ghost use Rattle.wdl_parse_expr.specs.Contract as expr;
ghost use Rattle.wdl_parse_parts.specs.Reading.Parts as parts;
ghost use Rattle.wdl_parse_parts.specs.Reading.Declarations as spec;

use crate::token::{comma, take, take_key, take_name};
use std::alloc::Global;
use token_reading::{Cursor, RuleStop, missing};
use wdl_ast::{
    Assigned, Attribute, CommandSection, Declaration, Expr, Fence, InputDeclaration, Kind, Mark,
};
use wdl_parse_expr::{read_expr, read_parts, read_type};
use wdl_value::Span;

/// Reads `Type name = expr`.
#[tactic(auto, using(std::proofs::lemmas::Grind::common_steps), unfolding(token_reading::specs::Outcome::then_, token_reading::specs::Outcome::found, crate::specs::Reading::Declarations::declaration))]
pub fn declaration(alloc: Global, tokens: &mut Cursor<'_>) -> Result<Declaration, RuleStop>
    ensures { Reads (spec.declaration tokens.old) result tokens.new }
{
    let ty = read_type(alloc, tokens)?;
    let name = take_name(alloc, tokens)?;
    let assign = take(tokens, Mark::Assign)?;
    let value = read_expr(alloc, tokens)?;
    Ok(Declaration {
        ty,
        name,
        assign,
        value,
    })
}

/// Reads `= expr`, if it stands there.
#[tactic(auto, using(std::proofs::lemmas::Grind::common_steps), unfolding(token_reading::specs::Outcome::then_, token_reading::specs::Outcome::found, crate::specs::Reading::Declarations::assigned))]
pub fn assigned(alloc: Global, tokens: &mut Cursor<'_>) -> Result<Option<Assigned>, RuleStop>
    ensures { Reads (spec.assigned tokens.old) result tokens.new }
{
    let Some(assign) = tokens.eat(Mark::Assign) else {
        return Ok(None);
    };
    let value = read_expr(alloc, tokens)?;
    Ok(Some(Assigned { assign, value }))
}

/// Reads `Type name`, with `= expr` where that stands there.
#[tactic(auto, using(std::proofs::lemmas::Grind::common_steps), unfolding(token_reading::specs::Outcome::then_, token_reading::specs::Outcome::found, crate::specs::Reading::Declarations::input))]
pub fn input(alloc: Global, tokens: &mut Cursor<'_>) -> Result<InputDeclaration, RuleStop>
    ensures { Reads (spec.input tokens.old) result tokens.new }
{
    let ty = read_type(alloc, tokens)?;
    let name = take_name(alloc, tokens)?;
    let preset = assigned(alloc, tokens)?;
    Ok(InputDeclaration { ty, name, preset })
}

/// Reads a runtime attribute.
#[tactic(auto, using(std::proofs::lemmas::Grind::common_steps), unfolding(token_reading::specs::Outcome::then_, token_reading::specs::Outcome::found, crate::specs::Reading::Parts::attribute))]
pub fn runtime_attribute(
    alloc: Global,
    tokens: &mut Cursor<'_>,
) -> Result<Attribute<Expr>, RuleStop>
    ensures { Reads (parts.attribute expr.read_expr tokens.old) result tokens.new }
{
    let key = take_key(alloc, tokens)?;
    let colon = take(tokens, Mark::Colon)?;
    let value = read_expr(alloc, tokens)?;
    let comma = comma(tokens);
    Ok(Attribute {
        key,
        colon,
        value,
        comma,
    })
}

/// Takes the opening of a command.
#[tactic(auto, using(std::proofs::lemmas::Grind::common_steps), unfolding(crate::specs::Reading::Declarations::fence_at))]
fn take_fence(tokens: &mut Cursor<'_>) -> Result<(Fence, Span), RuleStop>
    ensures { Reads (spec.fence_at tokens.old) result tokens.new }
{
    let [first, rest @ ..] = tokens.rest() else {
        return missing();
    };
    let Kind::CommandOpen(fence) = &first.kind else {
        return missing();
    };
    tokens.go(rest);
    Ok((*fence, first.span))
}

/// Takes the end of a command.
#[tactic(auto, using(std::proofs::lemmas::Grind::common_steps), unfolding(crate::specs::Reading::Declarations::fence_end_at))]
fn take_fence_end(tokens: &mut Cursor<'_>) -> Result<Span, RuleStop>
    ensures { Reads (spec.fence_end_at tokens.old) result tokens.new }
{
    let [first, rest @ ..] = tokens.rest() else {
        return missing();
    };
    let Kind::CommandClose = &first.kind else {
        return missing();
    };
    tokens.go(rest);
    Ok(first.span)
}

/// Reads a command, behind its word.
#[tactic(auto, using(std::proofs::lemmas::Grind::common_steps), unfolding(token_reading::specs::Outcome::then_, token_reading::specs::Outcome::found, crate::specs::Reading::Declarations::command))]
pub fn command(
    alloc: Global,
    tokens: &mut Cursor<'_>,
    keyword: Span,
) -> Result<CommandSection, RuleStop>
    ensures { Reads (spec.command keyword tokens.old) result tokens.new }
{
    let (fence, opening) = take_fence(tokens)?;
    let parts = read_parts(alloc, tokens)?;
    let closing = take_fence_end(tokens)?;
    Ok(CommandSection {
        keyword,
        fence,
        opening,
        parts,
        closing,
    })
}
