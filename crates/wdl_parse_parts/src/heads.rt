//! What stands before the body of a block.

ghost use Rattle.std.specs.Prelude.{◌≡◌};
ghost use Rattle.token_reading.specs.Outcome.{Reads};
ghost use Rattle.wdl_parse_parts.specs.Reading.Heads as spec;

use crate::token::{take, take_name, take_word};
use sqlite_items::Items;
use std::alloc::Global;
use token_reading::{Cursor, RuleStop};
use wdl_ast::{Conditional, Expr, Ident, Mark, Scatter, Statement};
use wdl_parse_expr::read_expr;
use wdl_value::Span;

/// `scatter (item in over) {`.
pub struct ScatterHead {
    pub keyword: Span,
    pub opening_paren: Span,
    pub item: Ident,
    pub in_word: Span,
    pub over: Expr,
    pub closing_paren: Span,
    pub opening: Span,
}

/// `if (condition) {`.
pub struct ConditionalHead {
    pub keyword: Span,
    pub opening_paren: Span,
    pub condition: Expr,
    pub closing_paren: Span,
    pub opening: Span,
}

/// One call wherever a head is let go: the glue of its expression stands here, and not at each
/// early return.
impl Drop for ScatterHead {
    fn drop(self) {
        let ScatterHead {
            keyword: _keyword,
            opening_paren: _opening_paren,
            item,
            in_word: _in_word,
            over,
            closing_paren: _closing_paren,
            opening: _opening,
        } = self;
        drop(item);
        drop(over);
    }
}

impl ScatterHead {
    fn closed(self, body: Items<Statement>, closing: Span) -> Scatter<Statement>
        ensures { result ≡ spec.closed_scatter self body closing }
    {
        let ScatterHead {
            keyword,
            opening_paren,
            item,
            in_word,
            over,
            closing_paren,
            opening,
        } = self;
        Scatter {
            keyword,
            opening_paren,
            item,
            in_word,
            over,
            closing_paren,
            opening,
            body,
            closing,
        }
    }
}

/// One call, as for the head of a scatter.
impl Drop for ConditionalHead {
    fn drop(self) {
        let ConditionalHead {
            keyword: _keyword,
            opening_paren: _opening_paren,
            condition,
            closing_paren: _closing_paren,
            opening: _opening,
        } = self;
        drop(condition);
    }
}

impl ConditionalHead {
    fn closed(self, body: Items<Statement>, closing: Span) -> Conditional<Statement>
        ensures { result ≡ spec.closed_conditional self body closing }
    {
        let ConditionalHead {
            keyword,
            opening_paren,
            condition,
            closing_paren,
            opening,
        } = self;
        Conditional {
            keyword,
            opening_paren,
            condition,
            closing_paren,
            opening,
            body,
            closing,
        }
    }
}

/// The head of a block.
#[derive(Drop)]
pub enum BlockHead {
    Scatter(ScatterHead),
    Conditional(ConditionalHead),
}

#[tactic(auto, using(std::proofs::lemmas::Grind::common_steps), unfolding(token_reading::specs::Outcome::then_, token_reading::specs::Outcome::found, crate::specs::Reading::Heads::scatter_head))]
fn scatter_head(
    alloc: Global,
    tokens: &mut Cursor<'_>,
    keyword: Span,
) -> Result<BlockHead, RuleStop>
    ensures { Reads (spec.scatter_head keyword tokens.old) result tokens.new }
{
    let opening_paren = take(tokens, Mark::OpenParen)?;
    let item = take_name(alloc, tokens)?;
    let in_word = take_word(tokens, "in")?;
    let over = read_expr(alloc, tokens)?;
    let closing_paren = take(tokens, Mark::CloseParen)?;
    let opening = take(tokens, Mark::OpenBrace)?;
    Ok(BlockHead::Scatter(ScatterHead {
        keyword,
        opening_paren,
        item,
        in_word,
        over,
        closing_paren,
        opening,
    }))
}

#[tactic(auto, using(std::proofs::lemmas::Grind::common_steps), unfolding(token_reading::specs::Outcome::then_, token_reading::specs::Outcome::found, crate::specs::Reading::Heads::conditional_head))]
fn conditional_head(
    alloc: Global,
    tokens: &mut Cursor<'_>,
    keyword: Span,
) -> Result<BlockHead, RuleStop>
    ensures { Reads (spec.conditional_head keyword tokens.old) result tokens.new }
{
    let opening_paren = take(tokens, Mark::OpenParen)?;
    let condition = read_expr(alloc, tokens)?;
    let closing_paren = take(tokens, Mark::CloseParen)?;
    let opening = take(tokens, Mark::OpenBrace)?;
    Ok(BlockHead::Conditional(ConditionalHead {
        keyword,
        opening_paren,
        condition,
        closing_paren,
        opening,
    }))
}

/// Reads the head of a block, if one stands there.
#[tactic(auto, using(std::proofs::lemmas::Grind::common_steps), unfolding(token_reading::specs::Outcome::then_, token_reading::specs::Outcome::found, crate::specs::Reading::Heads::head_at))]
pub fn head(alloc: Global, tokens: &mut Cursor<'_>) -> Result<Option<BlockHead>, RuleStop>
    ensures { Reads (spec.head_at tokens.old) result tokens.new }
{
    if let Some(keyword) = tokens.eat_word("scatter") {
        return Ok(Some(scatter_head(alloc, tokens, keyword)?));
    }
    if let Some(keyword) = tokens.eat_word("if") {
        return Ok(Some(conditional_head(alloc, tokens, keyword)?));
    }
    Ok(None)
}

/// The block of a head.
pub fn closed(head: BlockHead, body: Items<Statement>, closing: Span) -> Statement
    ensures { result ≡ spec.closed head body closing }
{
    match head {
        BlockHead::Scatter(head) => Statement::Scatter(head.closed(body, closing)),
        BlockHead::Conditional(head) => Statement::Conditional(head.closed(body, closing)),
    }
}
