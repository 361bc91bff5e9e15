//! Statements.

ghost use Rattle.token_reading.specs.Outcome.{Reads};
ghost use Rattle.wdl_parse_doc.specs.Reading.Blocks as spec;

use crate::block::read_block;
use crate::call::call;
use std::alloc::Global;
use token_reading::{Cursor, RuleStop};
use wdl_ast::Statement;
use wdl_parse_parts::{declaration, head};

/// Reads a call or a declaration.
#[tactic(auto, using(std::proofs::lemmas::Grind::common_steps), unfolding(token_reading::specs::Outcome::then_, token_reading::specs::Outcome::found, crate::specs::Reading::Blocks::simple))]
pub fn simple(alloc: Global, tokens: &mut Cursor<'_>) -> Result<Statement, RuleStop>
    ensures { Reads (spec.simple tokens.old) result tokens.new }
{
    if let Some(keyword) = tokens.eat_word("call") {
        let call = call(alloc, tokens, keyword)?;
        return Ok(Statement::Call(call));
    }
    let declaration = declaration(alloc, tokens)?;
    Ok(Statement::Declaration(declaration))
}

/// Reads a statement.
#[tactic(auto, using(std::proofs::lemmas::Grind::common_steps), unfolding(token_reading::specs::Outcome::then_, token_reading::specs::Outcome::found, crate::specs::Reading::Blocks::statement))]
pub fn statement(alloc: Global, tokens: &mut Cursor<'_>) -> Result<Statement, RuleStop>
    ensures { Reads (spec.statement tokens.old) result tokens.new }
{
    match head(alloc, tokens)? {
        Some(head) => read_block(alloc, tokens, head),
        None => simple(alloc, tokens),
    }
}
