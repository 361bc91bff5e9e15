//! Tokens that have to stand somewhere, or may.

ghost use Rattle.std.specs.Prelude.{◌≡◌, Ok, is_none as none};
ghost use Rattle.token_reading.specs.Outcome.{Reads};
ghost use Rattle.wdl_parse_parts.specs.Grammar as grammar;
ghost use Rattle.wdl_parse_parts.specs.Reading.Parts as spec;

use std::alloc::Global;
use token_reading::{Cursor, RuleStop, is_word, missing};
use wdl_ast::{Ident, Kind, ListItem, Mark, Word};
use wdl_value::Span;

/// Takes a mark.
#[tactic(auto, using(std::proofs::lemmas::Grind::common_steps), unfolding(crate::specs::Reading::Parts::need, crate::specs::Reading::Parts::mark_at))]
pub fn take(tokens: &mut Cursor<'_>, mark: Mark) -> Result<Span, RuleStop>
    ensures { Reads (spec.mark_at mark tokens.old) result tokens.new }
{
    match tokens.eat(mark) {
        Some(span) => Ok(span),
        None => missing(),
    }
}

/// Takes a word.
#[tactic(auto, using(std::proofs::lemmas::Grind::common_steps), unfolding(crate::specs::Reading::Parts::need, crate::specs::Reading::Parts::word_at))]
pub fn take_word(tokens: &mut Cursor<'_>, word: &str) -> Result<Span, RuleStop>
    ensures { Reads (spec.word_at word.now tokens.old) result tokens.new }
{
    match tokens.eat_word(word) {
        Some(span) => Ok(span),
        None => missing(),
    }
}

/// Takes a name.
#[tactic(auto, using(std::proofs::lemmas::Grind::common_steps), unfolding(crate::specs::Reading::Parts::need, crate::specs::Reading::Parts::name_at))]
pub fn take_name(alloc: Global, tokens: &mut Cursor<'_>) -> Result<Ident, RuleStop>
    ensures { Reads (spec.name_at tokens.old) result tokens.new }
{
    match tokens.ident(alloc)? {
        Some(name) => Ok(name),
        None => missing(),
    }
}

/// Takes a word, a reserved one too.
#[tactic(auto, using(std::proofs::lemmas::Grind::common_steps), unfolding(crate::specs::Reading::Parts::key_at))]
pub fn take_key(alloc: Global, tokens: &mut Cursor<'_>) -> Result<Word, RuleStop>
    ensures { Reads (spec.key_at tokens.old) result tokens.new }
{
    let [first, rest @ ..] = tokens.rest() else {
        return missing();
    };
    let Kind::Word(text) = &first.kind else {
        return missing();
    };
    let text = text.copy(alloc)?;
    tokens.go(rest);
    Ok(Word {
        text,
        span: first.span,
    })
}

/// Takes a comma, if it stands there.
#[tactic(auto, using(std::proofs::lemmas::Grind::common_steps), unfolding(token_reading::specs::Outcome::found, crate::specs::Reading::Parts::comma_at))]
pub fn comma(tokens: &mut Cursor<'_>) -> Option<Span>
    ensures { spec.comma_at tokens.old ≡ Ok (result, tokens.new) }
{
    tokens.eat(Mark::Comma)
}

/// Takes the comma behind an element of a list. Only the last one may lack it, before the mark that
/// closes the list.
#[tactic(auto, using(std::proofs::lemmas::Grind::common_steps), unfolding(token_reading::specs::Outcome::found, crate::specs::Reading::Parts::comma_at))]
pub fn comma_or(tokens: &mut Cursor<'_>, close: Mark) -> Option<Span>
    ensures { spec.comma_at tokens.old ≡ Ok (result, tokens.new) }
{
    let comma = tokens.eat(Mark::Comma);
    if is_none(comma) && !tokens.sees(close) {
        tokens.blame_next();
    }
    comma
}

fn is_none(comma: Option<Span>) -> bool
    ensures { result ≡ none comma }
{
    comma.is_none()
}

/// Whether only the last of a list lacks its comma.
pub fn commas_fit<E>(items: &[ListItem<E>]) -> bool
    ensures { result ≡ grammar.commas_fit items.now }
{
    let mut is_bare = false;
    for item in items {
        if is_bare {
            return false;
        }
        is_bare = is_none(item.comma);
    }
    true
}

/// Whether a token begins a section of a task or a workflow.
pub fn is_section(kind: &Kind) -> bool {
    is_word(kind, "input")
        || is_word(kind, "output")
        || is_word(kind, "runtime")
        || is_word(kind, "meta")
        || is_word(kind, "parameter_meta")
        || is_word(kind, "command")
}
