//! A cursor over tokens.

ghost use Rattle.std.specs.Prelude.{◌≡◌, ◌==◌, length, MatchOption, IfOk, Some, None};
ghost use Rattle.token_reading.specs.Outcome as outcome;
ghost use Rattle.token_reading.specs.Operators as operators;
ghost use Rattle.token_reading.specs.Strings as strings;

use crate::operator::{OptionWord, binary_of, looseness, option_word, unary_of};
use std::alloc::Global;
use std::marker::Model;
use wdl_ast::{BinaryOperator, Chars, Ident, Kind, Mark, Quote, Token, UnaryOperator};
use wdl_value::{Name, NameFault, NoMemory, Span};

/// The tokens that are left. It remembers how far reading came before it went back, and the first
/// token that was blamed, so that a refusal can name the first token that fits nothing.
#[derive(Drop)]
pub struct Cursor<'a> {
    rest: &'a [Token],
    /// How many tokens were left where reading came farthest before it went back.
    farthest: usize,
    /// How many were left from the token on that was blamed.
    blamed: Option<usize>,
}

impl<'a> Model for Cursor<'a> {
    ghost use Rattle.std.specs.Prelude.{List};
    ghost use Rattle.wdl_ast.specs.declared.token.Token.{Token};

    ghost Value = { List Token };

    ghost view = { λ t. t.rest.now };
}

fn same_mark(a: Mark, b: Mark) -> bool
    ensures { result ≡ outcome.same_mark a b }
{
    a == b
}

fn is_mark(kind: &Kind, mark: Mark) -> bool
    ensures { result ≡ outcome.is_mark mark kind.now }
{
    match kind {
        Kind::Mark(found) => same_mark(*found, mark),
        _ => false,
    }
}

/// Whether a token is that word.
pub fn is_word(kind: &Kind, word: &str) -> bool
    ensures { result ≡ outcome.is_word word.now kind.now }
{
    match kind {
        Kind::Word(found) => found.is(word),
        _ => false,
    }
}

fn binds(k: usize, operator: BinaryOperator) -> bool
    ensures { result ≡ (operators.looseness operator == k) }
{
    looseness(operator) == k
}

impl<'a> Cursor<'a> {
    /// A cursor at the first of these tokens.
    pub fn new(rest: &'a [Token]) -> Cursor<'a>
        ensures { result ≡ rest.now }
    {
        Cursor {
            farthest: rest.len(),
            blamed: None,
            rest,
        }
    }

    /// How many tokens are left.
    pub fn len(&self) -> usize
        ensures { result ≡ length self.now }
    {
        self.rest.len()
    }

    /// The tokens that are left: the place to which `back` and `go` return.
    pub fn rest(&self) -> &'a [Token]
        ensures { result.now ≡ self.now }
    {
        self.rest
    }

    /// Goes on to a place.
    pub fn go(&mut self, rest: &'a [Token])
        ensures { self.new ≡ rest.now }
    {
        self.rest = rest;
    }

    /// Goes back to a place.
    pub fn back(&mut self, rest: &'a [Token])
        ensures { self.new ≡ rest.now }
    {
        self.farthest = self.left_at_most();
        self.rest = rest;
    }

    /// Blames the next token: no tree has it there, though reading goes on. The first blame counts.
    pub fn blame_next(&mut self)
        ensures { self.new ≡ self.old }
    {
        if self.blamed.is_none() {
            self.blamed = Some(self.rest.len());
        }
    }

    /// Blames the token that was taken last.
    pub fn blame_last(&mut self)
        ensures { self.new ≡ self.old }
    {
        if self.blamed.is_none() {
            self.blamed = Some(self.rest.len().saturating_add(1));
        }
    }

    fn left_at_most(&self) -> usize {
        if self.farthest < self.rest.len() {
            self.farthest
        } else {
            self.rest.len()
        }
    }

    /// How many tokens were left from the first one on that fits nothing: the one that was blamed,
    /// or else the one where reading came farthest.
    pub fn left_at_fault(&self) -> usize {
        match self.blamed {
            Some(left) => left,
            None => self.left_at_most(),
        }
    }

    /// The span of the next token.
    pub fn span(&self) -> Option<Span>
        ensures { result ≡ outcome.span_at self.now }
    {
        match self.rest {
            [first, ..] => Some(first.span),
            [] => None,
        }
    }

    /// Whether that mark comes next.
    pub fn sees(&self, mark: Mark) -> bool
        ensures { result ≡ outcome.sees mark self.now }
    {
        match self.rest {
            [first, ..] => is_mark(&first.kind, mark),
            [] => false,
        }
    }

    /// Takes a mark, if it comes next.
    pub fn eat(&mut self, mark: Mark) -> Option<Span>
        ensures { MatchOption result ((outcome.eat mark self.old ≡ None) × (self.new ≡ self.old)) (λ s. outcome.eat mark self.old ≡ Some (s, self.new)) }
    {
        match self.rest {
            [first, rest @ ..] if is_mark(&first.kind, mark) => {
                self.rest = rest;
                Some(first.span)
            }
            _ => None,
        }
    }

    /// The same for a word.
    pub fn eat_word(&mut self, word: &str) -> Option<Span>
        ensures { MatchOption result ((outcome.eat_word word.now self.old ≡ None) × (self.new ≡ self.old)) (λ s. outcome.eat_word word.now self.old ≡ Some (s, self.new)) }
    {
        match self.rest {
            [first, rest @ ..] if is_word(&first.kind, word) => {
                self.rest = rest;
                Some(first.span)
            }
            _ => None,
        }
    }

    /// The same for a name.
    pub fn ident(&mut self, alloc: Global) -> Result<Option<Ident>, NoMemory>
        ensures { IfOk result (λ r. MatchOption r ((outcome.ident_at self.old ≡ None) × (self.new ≡ self.old)) (λ n. outcome.ident_at self.old ≡ Some (n, self.new))) }
    {
        let [first, rest @ ..] = self.rest else {
            return Ok(None);
        };
        let Kind::Word(text) = &first.kind else {
            return Ok(None);
        };
        match Name::new(alloc, text.as_str()) {
            Ok(name) => {
                self.rest = rest;
                Ok(Some(Ident {
                    name,
                    span: first.span,
                }))
            }
            Err(NameFault::NotAName) => Ok(None),
            Err(NameFault::NoMemory) => Err(NoMemory),
        }
    }

    /// The same for an operator before an operand.
    pub fn unary(&mut self) -> Option<(UnaryOperator, Span)>
        ensures { MatchOption result ((operators.unary_at self.old ≡ None) × (self.new ≡ self.old)) (λ o. operators.unary_at self.old ≡ Some (o, self.new)) }
    {
        let [first, rest @ ..] = self.rest else {
            return None;
        };
        let Kind::Mark(mark) = &first.kind else {
            return None;
        };
        match unary_of(*mark) {
            Some(operator) => {
                self.rest = rest;
                Some((operator, first.span))
            }
            None => None,
        }
    }

    /// The same for an operator between operands that binds so loosely.
    pub fn binary(&mut self, k: usize) -> Option<(BinaryOperator, Span)>
        ensures { MatchOption result ((operators.binary_at k self.old ≡ None) × (self.new ≡ self.old)) (λ o. operators.binary_at k self.old ≡ Some (o, self.new)) }
    {
        let [first, rest @ ..] = self.rest else {
            return None;
        };
        let Kind::Mark(mark) = &first.kind else {
            return None;
        };
        match binary_of(*mark) {
            Some(operator) if binds(k, operator) => {
                self.rest = rest;
                Some((operator, first.span))
            }
            _ => None,
        }
    }

    /// The same for the quote of a string.
    pub fn quote(&mut self) -> Option<(Quote, Span)>
        ensures { MatchOption result ((strings.quote_at self.old ≡ None) × (self.new ≡ self.old)) (λ q. strings.quote_at self.old ≡ Some (q, self.new)) }
    {
        let [first, rest @ ..] = self.rest else {
            return None;
        };
        let Kind::StrOpen(quote) = &first.kind else {
            return None;
        };
        self.rest = rest;
        Some((*quote, first.span))
    }

    /// The same for characters.
    pub fn chars(&mut self, alloc: Global) -> Result<Option<Chars>, NoMemory>
        ensures { IfOk result (λ c. (c, self.new) ≡ strings.chars_at self.old) }
    {
        let [first, rest @ ..] = self.rest else {
            return Ok(None);
        };
        let Kind::Chars(text) = &first.kind else {
            return Ok(None);
        };
        let text = text.copy(alloc)?;
        self.rest = rest;
        Ok(Some(Chars {
            text,
            span: first.span,
        }))
    }

    /// The same for the end of a string.
    pub fn string_end(&mut self) -> Option<Span>
        ensures { MatchOption result ((outcome.eat_if outcome.is_str_close self.old ≡ None) × (self.new ≡ self.old)) (λ s. outcome.eat_if outcome.is_str_close self.old ≡ Some (s, self.new)) }
    {
        let [first, rest @ ..] = self.rest else {
            return None;
        };
        let Kind::StrClose = &first.kind else {
            return None;
        };
        self.rest = rest;
        Some(first.span)
    }

    /// The same for the end of a placeholder.
    pub fn hole_end(&mut self) -> Option<Span>
        ensures { MatchOption result ((outcome.eat_if outcome.is_hole_close self.old ≡ None) × (self.new ≡ self.old)) (λ s. outcome.eat_if outcome.is_hole_close self.old ≡ Some (s, self.new)) }
    {
        let [first, rest @ ..] = self.rest else {
            return None;
        };
        let Kind::HoleClose = &first.kind else {
            return None;
        };
        self.rest = rest;
        Some(first.span)
    }

    /// The same for a word before `=`.
    #[tactic(auto, unfolding(crate::specs::Outcome::found))]
    pub fn option_start(&mut self) -> Option<(OptionWord, (Span, Span))>
        ensures { MatchOption result ((strings.option_start self.old ≡ None) × (self.new ≡ self.old)) (λ o. strings.option_start self.old ≡ Some (o, self.new)) }
    {
        let before = self.rest;
        let [first, rest @ ..] = before else {
            return None;
        };
        let Kind::Word(text) = &first.kind else {
            return None;
        };
        self.rest = rest;
        match self.eat(Mark::Assign) {
            Some(assign) => Some((option_word(text), (first.span, assign))),
            None => {
                self.rest = before;
                None
            }
        }
    }
}
