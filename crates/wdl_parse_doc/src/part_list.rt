//! Lists of parts, which all are read by one loop.

ghost use Rattle.token_reading.specs.Outcome.{Reads};
ghost use Rattle.wdl_parse_doc.specs.Reading.Lists as spec;
ghost use Rattle.wdl_parse_parts.specs.Reading.Parts as parts;

use sqlite_items::Items;
use std::alloc::Global;
use token_reading::{Cursor, RuleStop};
use wdl_ast::Mark;
use wdl_parse_parts::take;
use wdl_value::Span;

/// Parts in braces.
#[derive(Drop)]
pub struct Braced<T> {
    pub opening: Span,
    pub items: Items<T>,
    pub closing: Span,
}

/// What a list is made of.
pub trait Part: Sized {
    ghost use Rattle.std.specs.Prelude.{Option};
    ghost use Rattle.token_reading.specs.Outcome.{Parser};

    ghost reading: { Parser (Option Self) };

    /// Reads one more, where one stands there.
    fn read(alloc: Global, tokens: &mut Cursor<'_>) -> Result<Option<Self>, RuleStop>
        ensures { Reads (reading tokens.old) result tokens.new };

    /// Whether no list has the next token behind these parts, which is refused once the list is
    /// read.
    fn is_misplaced(_before: &[Self], _tokens: &Cursor<'_>) -> bool {
        false
    }
}

/// Reads part after part.
#[tactic(auto, using(std::proofs::lemmas::Grind::common_steps), unfolding(token_reading::specs::Outcome::then_, wdl_parse_parts::specs::Reading::Parts::many_from))]
pub fn many<P: Part + Drop>(alloc: Global, tokens: &mut Cursor<'_>) -> Result<Items<P>, RuleStop>
    ensures { Reads (parts.many P.reading tokens.old) result tokens.new }
{
    let mut parts = Items::new(alloc);
    for _turn in 0..tokens.len() {
        if P::is_misplaced(parts.as_slice(), tokens) {
            tokens.blame_next();
        }
        let Some(part) = P::read(alloc, tokens)? else {
            return Ok(parts);
        };
        parts.push(part)?;
    }
    Ok(parts)
}

/// Reads parts in braces.
#[tactic(auto, using(std::proofs::lemmas::Grind::common_steps), unfolding(token_reading::specs::Outcome::then_, crate::specs::Reading::Lists::braced))]
pub fn read_braced<P: Part + Drop>(
    alloc: Global,
    tokens: &mut Cursor<'_>,
) -> Result<Braced<P>, RuleStop>
    ensures { Reads (spec.braced P.reading tokens.old) result tokens.new }
{
    let opening = take(tokens, Mark::OpenBrace)?;
    let items = many::<P>(alloc, tokens)?;
    let closing = take(tokens, Mark::CloseBrace)?;
    Ok(Braced {
        opening,
        items,
        closing,
    })
}
