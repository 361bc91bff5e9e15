//! What is open: strings, commands, placeholders, and braces in placeholders.

ghost use Rattle.std.specs.Prelude.{◌≡◌, ◌∷◌, [], ◌≤◌, ◌<◌, true, OnOk, MatchOption, length};
ghost use Rattle.std.specs.Option.{option_copied, option_map};
ghost use Rattle.std.specs.Str.{IsUtf8};
ghost use Rattle.wdl_ast.specs.Spelled as form;
ghost use Rattle.wdl_ast.specs.declared.token.Kind.TheVariants as kind;
ghost use Rattle.wdl_ast.specs.declared.token.Mark.TheVariants as mark;
ghost use Rattle.wdl_lex.specs.Reading as spec;
ghost use Rattle.wdl_lex.specs.Reading.Chars as chars;
ghost use Rattle.wdl_lex.specs.Reading.Code.{Gives};

use crate::chars::{Inside, text_token};
use crate::code::code_token;
use crate::fault::NoToken;
use crate::gaps::gap_len;
use std::alloc::{AllocError, Global};
use std::marker::Model;
use wdl_ast::{Kind, Mark, Token};
use wdl_value::Span;

/// The tokens that are open, seen as a list whose first is the innermost.
#[derive(Drop)]
pub struct Open {
    stack: Vec<Token>,
}

impl Model for Open {
    ghost use Rattle.std.specs.Prelude.{List, reverse};
    ghost use Rattle.wdl_ast.specs.declared.token.Token.{Token};

    ghost Value = { List Token };

    ghost view = { λ s. reverse s.stack.items };
}

/// The string or command that a token opens.
fn inside_of(kind: &Kind) -> Option<Inside>
    ensures { option_map chars.inside result ≡ form.inside_of kind.now }
{
    match kind {
        Kind::StrOpen(quote) => Some(Inside::Str(*quote)),
        Kind::CommandOpen(fence) => Some(Inside::Command(*fence)),
        _ => None,
    }
}

impl Open {
    /// Nothing open.
    pub fn new(alloc: Global) -> Open
        ensures { result ≡ [] }
    {
        Open {
            stack: Vec::new(alloc),
        }
    }

    fn push(&mut self, span: Span, kind: Kind) -> Result<(), AllocError>
        ensures { OnOk result (self.new ≡ record { span = span; kind = kind } ∷ self.old) }
    {
        self.stack.push(Token { span, kind })?;
        Ok(())
    }

    fn pop(&mut self) -> Option<Token>
        ensures { MatchOption result ((self.old ≡ []) × (self.new ≡ [])) (λ t. self.old ≡ t ∷ self.new) }
    {
        self.stack.pop()
    }

    fn innermost(&self) -> Option<&Kind>
        ensures { option_copied result ≡ form.innermost self.now }
    {
        match self.stack.last() {
            Some(token) => Some(&token.kind),
            None => None,
        }
    }

    /// The string or command whose characters stand here.
    pub fn inside(&self) -> Option<Inside>
        ensures { option_map chars.inside result ≡ form.inside self.now }
    {
        match self.innermost() {
            Some(kind) => inside_of(kind),
            None => None,
        }
    }

    /// Whether a placeholder is innermost, with no open brace in it.
    fn in_hole(&self) -> bool
        ensures { result ≡ form.in_hole self.now }
    {
        match self.innermost() {
            Some(Kind::HoleOpen(_)) => true,
            _ => false,
        }
    }

    /// Whether a brace in a placeholder is innermost.
    fn in_brace(&self) -> bool
        ensures { result ≡ form.in_brace self.now }
    {
        match self.innermost() {
            Some(Kind::Mark(Mark::OpenBrace)) => true,
            _ => false,
        }
    }

    fn pass_brace(&mut self, span: Span) -> Result<(), AllocError>
        ensures { OnOk result (self.new ≡ form.after self.old span (kind.Mark mark.OpenBrace)) }
    {
        if self.in_hole() || self.in_brace() {
            return self.push(span, Kind::Mark(Mark::OpenBrace));
        }
        Ok(())
    }

    /// Goes past a token.
    pub fn pass(&mut self, span: Span, kind: &Kind) -> Result<(), AllocError>
        ensures { OnOk result (self.new ≡ form.after self.old span kind.now) }
    {
        match kind {
            Kind::StrOpen(quote) => self.push(span, Kind::StrOpen(*quote)),
            Kind::CommandOpen(fence) => self.push(span, Kind::CommandOpen(*fence)),
            Kind::HoleOpen(mark) => self.push(span, Kind::HoleOpen(*mark)),
            Kind::Mark(Mark::OpenBrace) => self.pass_brace(span),
            Kind::StrClose | Kind::CommandClose | Kind::HoleClose => {
                self.pop();
                Ok(())
            }
            Kind::Mark(Mark::CloseBrace) => {
                if self.in_brace() {
                    self.pop();
                }
                Ok(())
            }
            _ => Ok(()),
        }
    }

    /// The length of what stands before the next token.
    pub fn gap(&self, z: &[u8]) -> usize
        ensures value { result ≡ spec.gap self.now z.now }
        ensures within { result ≤ length z.now }
    {
        match self.inside() {
            Some(_) => 0,
            None => gap_len(z),
        }
    }

    /// The token at the front, with its length; `awaits` says that the word `command` came last.
    pub fn token(&self, alloc: Global, z: &[u8], awaits: bool) -> Result<(Kind, usize), NoToken>
        requires { IsUtf8 z.now }
        ensures { Gives (spec.token true awaits self.now z.now) result }
    {
        match self.inside() {
            Some(inside) => text_token(alloc, inside, z),
            None => code_token(alloc, z, awaits, self.in_hole()),
        }
    }

    /// The token that opened the innermost string or command.
    pub fn unclosed(mut self) -> Option<Token>
        ensures { result ≡ form.unclosed self }
    {
        while let Some(token) = self.pop() {
            if inside_of(&token.kind).is_some() {
                return Some(token);
            }
        }
        None
    }
}
