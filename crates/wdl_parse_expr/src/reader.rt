//! Readers over a cursor, for whoever reads what expressions and types are parts of.
#![tactic(auto, using(std::proofs::lemmas::Grind::common_steps), unfolding(token_reading::specs::Outcome::then_))]

ghost use Rattle.token_reading.specs.Outcome.{Reads};
ghost use Rattle.wdl_parse_expr.specs.Contract as contract;

use crate::grammar::{Grammar, expr};
use sqlite_items::Items;
use std::alloc::Global;
use token_reading::{Cursor, Rule, RuleStop, type_at};
use wdl_ast::{Expr, StringPart, TypeTree};

/// How deep an expression may be.
const MAX_DEPTH: usize = 64;

/// How deep a type may be.
const MAX_TYPE_DEPTH: usize = 8;

/// Reads the longest expression at the cursor, of a depth of at most 64.
#[tactic(auto, using(std::proofs::lemmas::Grind::common_steps), unfolding(token_reading::specs::Outcome::then_, crate::specs::Contract::read_expr))]
pub fn read_expr(alloc: Global, tokens: &mut Cursor<'_>) -> Result<Expr, RuleStop>
    ensures { Reads (contract.read_expr tokens.old) result tokens.new }
{
    let tall = expr(alloc, tokens, MAX_DEPTH, Rule::Expr)?;
    Ok(tall.into_tree())
}

/// Reads the longest type at the cursor, of a depth of at most 8.
#[tactic(auto, unfolding(crate::specs::Contract::read_type))]
pub fn read_type(alloc: Global, tokens: &mut Cursor<'_>) -> Result<TypeTree, RuleStop>
    ensures { Reads (contract.read_type tokens.old) result tokens.new }
{
    type_at(alloc, tokens, MAX_TYPE_DEPTH)
}

/// Reads the characters and placeholders of a command, up to its end.
#[tactic(auto, using(std::proofs::lemmas::Grind::common_steps), unfolding(token_reading::specs::Outcome::then_, crate::specs::Contract::read_parts))]
pub fn read_parts(
    alloc: Global,
    tokens: &mut Cursor<'_>,
) -> Result<Items<StringPart<Expr>>, RuleStop>
    ensures { Reads (contract.read_parts tokens.old) result tokens.new }
{
    let grammar = Grammar {
        alloc,
        depth: MAX_DEPTH,
        expr,
    };
    let parts = grammar.parts(tokens)?;
    Ok(parts.into_tree())
}
