//! Blocks. Those that are open stand in a list, so that blocks in one another take no stack.

ghost use Rattle.std.specs.Prelude.{◌≡◌, ◌∷◌, Err, IfOk};
ghost use Rattle.token_reading.specs.Outcome.{Reads};
ghost use Rattle.token_reading.specs.declared.fault.Refusal.TheVariants.{Missing};
ghost use Rattle.token_reading.specs.declared.fault.RuleStop.TheVariants.{Refused};
ghost use Rattle.wdl_parse_doc.specs.Reading.Blocks as spec;

use crate::stack::Stack;
use crate::statement::simple;
use sqlite_items::Items;
use std::alloc::{AllocError, Global};
use token_reading::{Cursor, RuleStop, missing};
use wdl_ast::{Mark, Statement};
use wdl_parse_parts::{BlockHead, closed, head};
use wdl_value::Span;

/// A block that another one stands in: its head, and its statements before that one.
#[derive(Drop)]
pub struct OpenBlock {
    pub head: BlockHead,
    pub before: Items<Statement>,
}

/// The innermost block that is open, with what was read of its body, and those around it.
#[derive(Drop)]
pub struct Block {
    pub around: Stack<OpenBlock>,
    pub head: BlockHead,
    pub body: Items<Statement>,
}

/// What a turn comes to.
#[derive(Drop)]
pub enum Turn {
    Done(Statement),
    Going(Block),
}

/// The block that was closed goes behind the others of the block around it.
fn reopened(
    around: Stack<OpenBlock>,
    outer: OpenBlock,
    statement: Statement,
) -> Result<Turn, AllocError>
    ensures { IfOk result (λ t. t ≡ spec.closing (outer ∷ around) statement) }
{
    let mut body = outer.before;
    body.push(statement)?;
    Ok(Turn::Going(Block {
        around,
        head: outer.head,
        body,
    }))
}

/// A block was closed: it was the outermost one, or reading goes on in the one around it.
fn closing(around: Stack<OpenBlock>, statement: Statement) -> Result<Turn, AllocError>
    ensures { IfOk result (λ t. t ≡ spec.closing around statement) }
{
    let mut around = around;
    match around.pop() {
        Some(outer) => reopened(around, outer, statement),
        None => Ok(Turn::Done(statement)),
    }
}

/// A block that begins in the body of another one.
#[tactic(auto, unfolding(crate::specs::Reading::Blocks::opened))]
fn opened(alloc: Global, block: Block, head: BlockHead) -> Result<Turn, AllocError>
    ensures { IfOk result (λ t. t ≡ spec.opened block head) }
{
    let mut around = block.around;
    around.push(OpenBlock {
        head: block.head,
        before: block.body,
    })?;
    Ok(Turn::Going(Block {
        around,
        head,
        body: Items::new(alloc),
    }))
}

/// One more statement of the body.
#[tactic(auto, unfolding(crate::specs::Reading::Blocks::longer))]
fn longer(block: Block, statement: Statement) -> Result<Turn, AllocError>
    ensures { IfOk result (λ t. t ≡ spec.longer block statement) }
{
    let mut body = block.body;
    body.push(statement)?;
    Ok(Turn::Going(Block {
        around: block.around,
        head: block.head,
        body,
    }))
}

/// The body ends.
#[tactic(auto, unfolding(crate::specs::Reading::Blocks::ended))]
fn ended(block: Block, span: Span) -> Result<Turn, AllocError>
    ensures { IfOk result (λ t. t ≡ spec.ended block span) }
{
    let statement = closed(block.head, block.body, span);
    closing(block.around, statement)
}

/// The head of a block, or a statement.
#[tactic(auto, using(std::proofs::lemmas::Grind::common_steps), unfolding(token_reading::specs::Outcome::then_, token_reading::specs::Outcome::found, crate::specs::Reading::Blocks::opening))]
fn opening(alloc: Global, tokens: &mut Cursor<'_>, block: Block) -> Result<Turn, RuleStop>
    ensures { Reads (spec.opening block tokens.old) result tokens.new }
{
    if let Some(head) = head(alloc, tokens)? {
        return Ok(opened(alloc, block, head)?);
    }
    let statement = simple(alloc, tokens)?;
    Ok(longer(block, statement)?)
}

#[tactic(auto, using(std::proofs::lemmas::Grind::common_steps), unfolding(token_reading::specs::Outcome::then_, token_reading::specs::Outcome::found, crate::specs::Reading::Blocks::turn_at))]
fn take_turn(alloc: Global, tokens: &mut Cursor<'_>, block: Block) -> Result<Turn, RuleStop>
    ensures { Reads (spec.turn_at block tokens.old) result tokens.new }
{
    match tokens.eat(Mark::CloseBrace) {
        Some(span) => Ok(ended(block, span)?),
        None => opening(alloc, tokens, block),
    }
}

/// The tokens end within a block.
fn unended(_block: Block) -> Result<Statement, RuleStop>
    ensures { result ≡ Err (Refused Missing) }
{
    missing()
}

/// Reads a block, behind its head.
#[tactic(auto, using(std::proofs::lemmas::Grind::common_steps), unfolding(token_reading::specs::Outcome::then_, token_reading::specs::Outcome::found, crate::specs::Reading::Blocks::block_at, crate::specs::Reading::Blocks::turns_from))]
pub fn read_block(
    alloc: Global,
    tokens: &mut Cursor<'_>,
    head: BlockHead,
) -> Result<Statement, RuleStop>
    ensures { Reads (spec.block_at head tokens.old) result tokens.new }
{
    let mut block = Block {
        around: Stack::new(alloc),
        head,
        body: Items::new(alloc),
    };
    for _turn in 0..tokens.len() {
        match take_turn(alloc, tokens, block)? {
            Turn::Done(statement) => return Ok(statement),
            Turn::Going(next) => block = next,
        }
    }
    unended(block)
}
