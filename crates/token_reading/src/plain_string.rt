//! Strings without placeholders, and the options of placeholders.

ghost use Rattle.token_reading.specs.Outcome.{Reads};
ghost use Rattle.token_reading.specs.Strings as spec;

use crate::cursor::Cursor;
use crate::fault::RuleStop;
use crate::operator::{OptionWord, same_option};
use crate::read::missing;
use std::alloc::Global;
use wdl_ast::{PlaceholderOption, PlaceholderOptions, PlainString, Token};
use wdl_value::{NoMemory, Span};

/// Reads a string without a placeholder.
#[tactic(auto, using(std::proofs::lemmas::Grind::common_steps), unfolding(crate::specs::Outcome::found, crate::specs::Strings::plain))]
pub fn read_plain(alloc: Global, tokens: &mut Cursor<'_>) -> Result<PlainString, RuleStop>
    ensures { Reads (spec.plain tokens.old) result tokens.new }
{
    let Some((quote, opening)) = tokens.quote() else {
        return missing();
    };
    let chars = tokens.chars(alloc)?;
    match tokens.string_end() {
        Some(closing) => Ok(PlainString {
            quote,
            opening,
            chars,
            closing,
        }),
        None => missing(),
    }
}

#[tactic(auto, using(std::proofs::lemmas::Grind::common_steps), unfolding(crate::specs::Outcome::then_, crate::specs::Strings::option_end))]
fn option_end(
    alloc: Global,
    tokens: &mut Cursor<'_>,
    spans: (Span, Span),
) -> Result<PlaceholderOption, RuleStop>
    ensures { Reads (spec.option_end spans tokens.old) result tokens.new }
{
    let value = read_plain(alloc, tokens)?;
    Ok(PlaceholderOption {
        word: spans.0,
        assign: spans.1,
        value,
    })
}

/// Goes past a word that is to be an option, where `=` is what lacks.
fn pass_option(tokens: &mut Cursor<'_>, word: OptionWord) {
    if same_option(word, OptionWord::True) {
        tokens.eat_word("true");
    } else {
        tokens.eat_word("false");
    }
}

/// The second of `true` and `false`.
#[tactic(auto, using(std::proofs::lemmas::Grind::common_steps), unfolding(crate::specs::Outcome::found, crate::specs::Strings::other_option))]
fn other_option(
    alloc: Global,
    tokens: &mut Cursor<'_>,
    word: OptionWord,
) -> Result<PlaceholderOption, RuleStop>
    ensures { Reads (spec.other_option word tokens.old) result tokens.new }
{
    let before = tokens.rest();
    match tokens.option_start() {
        Some((found, spans)) if same_option(found, word) => option_end(alloc, tokens, spans),
        _ => {
            tokens.go(before);
            pass_option(tokens, word);
            missing()
        }
    }
}

/// Goes past a word that is no option, where an expression may begin with it: then it is its `=`
/// that fits nothing.
fn pass_start(alloc: Global, tokens: &mut Cursor<'_>) -> Result<(), NoMemory> {
    if tokens.ident(alloc)?.is_none() && tokens.eat_word("None").is_none() {
        tokens.eat_word("if");
    }
    Ok(())
}

#[tactic(auto, using(std::proofs::lemmas::Grind::common_steps), unfolding(crate::specs::Outcome::then_))]
fn options_by<'a>(
    alloc: Global,
    tokens: &mut Cursor<'a>,
    before: &'a [Token],
    word: OptionWord,
    spans: (Span, Span),
) -> Result<PlaceholderOptions, RuleStop>
    ensures { Reads (spec.options_by word spans tokens.old) result tokens.new }
{
    match word {
        OptionWord::Sep => Ok(PlaceholderOptions::Sep(option_end(alloc, tokens, spans)?)),
        OptionWord::Default => Ok(PlaceholderOptions::Default(option_end(alloc, tokens, spans)?)),
        OptionWord::True => {
            let accepted = option_end(alloc, tokens, spans)?;
            let refused = other_option(alloc, tokens, OptionWord::False)?;
            Ok(PlaceholderOptions::TrueFalse(accepted, refused))
        }
        OptionWord::False => {
            let refused = option_end(alloc, tokens, spans)?;
            let accepted = other_option(alloc, tokens, OptionWord::True)?;
            Ok(PlaceholderOptions::FalseTrue(refused, accepted))
        }
        OptionWord::Other => {
            tokens.go(before);
            pass_start(alloc, tokens)?;
            missing()
        }
    }
}

/// Reads the options of a placeholder.
#[tactic(auto, using(std::proofs::lemmas::Grind::common_steps), unfolding(crate::specs::Outcome::found, crate::specs::Strings::options_at))]
pub fn read_options(alloc: Global, tokens: &mut Cursor<'_>) -> Result<PlaceholderOptions, RuleStop>
    ensures { Reads (spec.options_at tokens.old) result tokens.new }
{
    let before = tokens.rest();
    match tokens.option_start() {
        Some((word, spans)) => options_by(alloc, tokens, before, word, spans),
        None => Ok(PlaceholderOptions::Plain),
    }
}
