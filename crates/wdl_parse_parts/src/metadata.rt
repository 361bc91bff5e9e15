//! Values of metadata. The rules take the reader of the values inside as a parameter, so that each
//! is proved by itself.

ghost use Rattle.std.specs.Prelude.{◌≡◌, MatchOption, IfOk, Some, None};
ghost use Rattle.token_reading.specs.Outcome.{Reads};
ghost use Rattle.wdl_parse_parts.specs.Nests.{Nests};
ghost use Rattle.wdl_parse_parts.specs.Grammar.{max_meta_depth};
ghost use Rattle.wdl_parse_parts.specs.Reading.Parts as parts;
ghost use Rattle.wdl_parse_parts.specs.Reading.Metadata as spec;
ghost use Rattle.wdl_ast.specs.declared.token.Mark.TheVariants as mark;

use crate::token::{comma, comma_or, commas_fit, take, take_key};
use sqlite_items::Items;
use std::alloc::Global;
use token_reading::{Cursor, RuleStop, missing, read_plain, too_deep};
use wdl_ast::{Attribute, Kind, ListItem, Mark, MetaValue, Number};
use wdl_value::{NoMemory, Span};

const MAX_META_DEPTH: usize = 64;

/// The rules of values of metadata.
#[derive(Clone, Copy)]
struct MetaReader<F> {
    alloc: Global,
    /// How deep the values inside may be.
    depth: usize,
    /// The reader of the values inside.
    inner: F,
}

/// Takes a number.
fn number(alloc: Global, tokens: &mut Cursor<'_>) -> Result<Option<Number>, NoMemory>
    ensures { IfOk result (λ r. MatchOption r ((spec.number_at tokens.old ≡ None) × (tokens.new ≡ tokens.old)) (λ n. spec.number_at tokens.old ≡ Some (n, tokens.new))) }
{
    let [first, rest @ ..] = tokens.rest() else {
        return Ok(None);
    };
    let span = first.span;
    match &first.kind {
        Kind::Int(value) => {
            tokens.go(rest);
            let value = *value;
            Ok(Some(Number::Int { value, span }))
        }
        Kind::Frac(text) => {
            let text = text.copy(alloc)?;
            tokens.go(rest);
            Ok(Some(Number::Frac { text, span }))
        }
        _ => Ok(None),
    }
}

/// A number with a minus before it.
#[tactic(auto, using(std::proofs::lemmas::Grind::common_steps), unfolding(token_reading::specs::Outcome::then_, token_reading::specs::Outcome::found, crate::specs::Reading::Parts::need, crate::specs::Reading::Metadata::negative))]
fn negative(alloc: Global, tokens: &mut Cursor<'_>, minus: Span) -> Result<MetaValue, RuleStop>
    ensures { Reads (spec.negative minus tokens.old) result tokens.new }
{
    match number(alloc, tokens)? {
        Some(number) => Ok(MetaValue::Number {
            minus: Some(minus),
            number,
        }),
        None => missing(),
    }
}

/// A number or a string.
#[tactic(auto, using(std::proofs::lemmas::Grind::common_steps), unfolding(token_reading::specs::Outcome::then_, token_reading::specs::Outcome::found, crate::specs::Reading::Metadata::meta_leaf))]
fn leaf(alloc: Global, tokens: &mut Cursor<'_>) -> Result<MetaValue, RuleStop>
    ensures { Reads (spec.meta_leaf tokens.old) result tokens.new }
{
    if let Some(number) = number(alloc, tokens)? {
        return Ok(MetaValue::Number {
            minus: None,
            number,
        });
    }
    let string = read_plain(alloc, tokens)?;
    Ok(MetaValue::Str(string))
}

/// What begins with a word, a number or a string.
#[tactic(auto, using(std::proofs::lemmas::Grind::common_steps), unfolding(token_reading::specs::Outcome::then_, token_reading::specs::Outcome::found, crate::specs::Reading::Metadata::meta_word))]
fn word(alloc: Global, tokens: &mut Cursor<'_>) -> Result<MetaValue, RuleStop>
    ensures { Reads (spec.meta_word tokens.old) result tokens.new }
{
    if let Some(span) = tokens.eat_word("null") {
        return Ok(MetaValue::Null(span));
    }
    if let Some(span) = tokens.eat_word("true") {
        return Ok(MetaValue::True(span));
    }
    if let Some(span) = tokens.eat_word("false") {
        return Ok(MetaValue::False(span));
    }
    leaf(alloc, tokens)
}

impl<F: Fn(Global, &mut Cursor<'_>, usize) -> Result<MetaValue, RuleStop>> MetaReader<F> {
    fn inner(&self, tokens: &mut Cursor<'_>) -> Result<MetaValue, RuleStop>
        requires { Nests self.now.depth (F.pre self.now.inner) (F.post self.now.inner) }
        ensures { Reads (spec.meta_at self.now.depth tokens.old) result tokens.new }
    {
        (self.inner)(self.alloc, tokens, self.depth)
    }

    #[tactic(auto, using(std::proofs::lemmas::Grind::common_steps), unfolding(token_reading::specs::Outcome::then_, token_reading::specs::Outcome::found, crate::specs::Reading::Parts::attribute))]
    fn attribute(&self, tokens: &mut Cursor<'_>) -> Result<Attribute<MetaValue>, RuleStop>
        requires { Nests self.now.depth (F.pre self.now.inner) (F.post self.now.inner) }
        ensures { Reads (parts.attribute (spec.meta_at self.now.depth) tokens.old) result tokens.new }
    {
        let key = take_key(self.alloc, tokens)?;
        let colon = take(tokens, Mark::Colon)?;
        let value = self.inner(tokens)?;
        let comma = comma(tokens);
        Ok(Attribute {
            key,
            colon,
            value,
            comma,
        })
    }

    #[tactic(auto, using(std::proofs::lemmas::Grind::common_steps), unfolding(token_reading::specs::Outcome::then_, token_reading::specs::Outcome::found, crate::specs::Reading::Parts::item))]
    fn item(&self, tokens: &mut Cursor<'_>) -> Result<ListItem<MetaValue>, RuleStop>
        requires { Nests self.now.depth (F.pre self.now.inner) (F.post self.now.inner) }
        ensures { Reads (parts.item (spec.meta_at self.now.depth) tokens.old) result tokens.new }
    {
        let item = self.inner(tokens)?;
        let comma = comma_or(tokens, Mark::CloseBracket);
        Ok(ListItem { item, comma })
    }

    #[tactic(auto, using(std::proofs::lemmas::Grind::common_steps), unfolding(token_reading::specs::Outcome::then_, token_reading::specs::Outcome::found, crate::specs::Reading::Parts::until))]
    fn next_attribute(
        &self,
        tokens: &mut Cursor<'_>,
    ) -> Result<Option<Attribute<MetaValue>>, RuleStop>
        requires { Nests self.now.depth (F.pre self.now.inner) (F.post self.now.inner) }
        ensures { Reads (parts.until mark.CloseBrace (parts.attribute (spec.meta_at self.now.depth)) tokens.old) result tokens.new }
    {
        if tokens.sees(Mark::CloseBrace) {
            return Ok(None);
        }
        Ok(Some(self.attribute(tokens)?))
    }

    #[tactic(auto, using(std::proofs::lemmas::Grind::common_steps), unfolding(token_reading::specs::Outcome::then_, token_reading::specs::Outcome::found, crate::specs::Reading::Parts::until))]
    fn next_item(&self, tokens: &mut Cursor<'_>) -> Result<Option<ListItem<MetaValue>>, RuleStop>
        requires { Nests self.now.depth (F.pre self.now.inner) (F.post self.now.inner) }
        ensures { Reads (parts.until mark.CloseBracket (parts.item (spec.meta_at self.now.depth)) tokens.old) result tokens.new }
    {
        if tokens.sees(Mark::CloseBracket) {
            return Ok(None);
        }
        Ok(Some(self.item(tokens)?))
    }

    #[tactic(auto, using(std::proofs::lemmas::Grind::common_steps), unfolding(token_reading::specs::Outcome::then_, token_reading::specs::Outcome::found, crate::specs::Reading::Parts::many_from))]
    fn attributes(&self, tokens: &mut Cursor<'_>) -> Result<Items<Attribute<MetaValue>>, RuleStop>
        requires { Nests self.now.depth (F.pre self.now.inner) (F.post self.now.inner) }
        ensures { Reads (parts.many (parts.until mark.CloseBrace (parts.attribute (spec.meta_at self.now.depth))) tokens.old) result tokens.new }
    {
        let mut attributes = Items::new(self.alloc);
        for _turn in 0..tokens.len() {
            let Some(attribute) = self.next_attribute(tokens)? else {
                return Ok(attributes);
            };
            attributes.push(attribute)?;
        }
        Ok(attributes)
    }

    #[tactic(auto, using(std::proofs::lemmas::Grind::common_steps), unfolding(token_reading::specs::Outcome::then_, token_reading::specs::Outcome::found, crate::specs::Reading::Parts::many_from))]
    fn items(&self, tokens: &mut Cursor<'_>) -> Result<Items<ListItem<MetaValue>>, RuleStop>
        requires { Nests self.now.depth (F.pre self.now.inner) (F.post self.now.inner) }
        ensures { Reads (parts.many (parts.until mark.CloseBracket (parts.item (spec.meta_at self.now.depth))) tokens.old) result tokens.new }
    {
        let mut items = Items::new(self.alloc);
        for _turn in 0..tokens.len() {
            let Some(item) = self.next_item(tokens)? else {
                return Ok(items);
            };
            items.push(item)?;
        }
        Ok(items)
    }

    #[tactic(auto, using(std::proofs::lemmas::Grind::common_steps), unfolding(token_reading::specs::Outcome::then_, token_reading::specs::Outcome::found, crate::specs::Reading::Metadata::meta_object))]
    fn object(&self, tokens: &mut Cursor<'_>, opening: Span) -> Result<MetaValue, RuleStop>
        requires { Nests self.now.depth (F.pre self.now.inner) (F.post self.now.inner) }
        ensures { Reads (spec.meta_object (spec.meta_at self.now.depth) opening tokens.old) result tokens.new }
    {
        let attributes = self.attributes(tokens)?;
        let closing = take(tokens, Mark::CloseBrace)?;
        Ok(MetaValue::Object {
            opening,
            attributes,
            closing,
        })
    }

    #[tactic(auto, using(std::proofs::lemmas::Grind::common_steps), unfolding(token_reading::specs::Outcome::then_, token_reading::specs::Outcome::found, crate::specs::Reading::Metadata::meta_list))]
    fn list(&self, tokens: &mut Cursor<'_>, opening: Span) -> Result<MetaValue, RuleStop>
        requires { Nests self.now.depth (F.pre self.now.inner) (F.post self.now.inner) }
        ensures { Reads (spec.meta_list (spec.meta_at self.now.depth) opening tokens.old) result tokens.new }
    {
        let items = self.items(tokens)?;
        let closing = take(tokens, Mark::CloseBracket)?;
        if commas_fit(items.as_slice()) {
            return Ok(MetaValue::List {
                opening,
                items,
                closing,
            });
        }
        missing()
    }

    #[tactic(auto, using(std::proofs::lemmas::Grind::common_steps), unfolding(token_reading::specs::Outcome::then_, token_reading::specs::Outcome::found, crate::specs::Reading::Metadata::meta_over))]
    fn value(&self, tokens: &mut Cursor<'_>) -> Result<MetaValue, RuleStop>
        requires { Nests self.now.depth (F.pre self.now.inner) (F.post self.now.inner) }
        ensures { Reads (spec.meta_over (spec.meta_at self.now.depth) tokens.old) result tokens.new }
    {
        if let Some(opening) = tokens.eat(Mark::OpenBrace) {
            return self.object(tokens, opening);
        }
        if let Some(opening) = tokens.eat(Mark::OpenBracket) {
            return self.list(tokens, opening);
        }
        if let Some(minus) = tokens.eat(Mark::Minus) {
            return negative(self.alloc, tokens, minus);
        }
        word(self.alloc, tokens)
    }
}

/// Reads a value of at most that depth.
fn value(alloc: Global, tokens: &mut Cursor<'_>, depth: usize) -> Result<MetaValue, RuleStop>
    ensures { Reads (spec.meta_at depth tokens.old) result tokens.new }
{
    if depth == 0 {
        return too_deep(tokens);
    }
    MetaReader {
        alloc,
        depth: depth - 1,
        inner: value,
    }
    .value(tokens)
}

/// Reads `key: value` of a section of metadata, with the comma behind it, unless the section ends
/// there.
pub fn meta_attribute(
    alloc: Global,
    tokens: &mut Cursor<'_>,
) -> Result<Option<Attribute<MetaValue>>, RuleStop>
    ensures { Reads (parts.until mark.CloseBrace (parts.attribute (spec.meta_at max_meta_depth)) tokens.old) result tokens.new }
{
    MetaReader {
        alloc,
        depth: MAX_META_DEPTH,
        inner: value,
    }
    .next_attribute(tokens)
}
