ghost use Rattle.std.specs.Prelude.{◌≡◌, ◌++◌, ◌∷◌, [], OnOk, false};
ghost use Rattle.wdl_base.specs.Plain.{has_nul};
ghost use Rattle.wdl_ast.specs.Words as spec;

use crate::leaf::{Chars, Ident, PlainString, Word};
use crate::token::{Kind, Mark, Token};
use sqlite_items::Items;
use std::alloc::Global;
use std::marker::Model;
use wdl_value::{NoMemory, Span, Text};

/// Tokens that are being gathered.
#[derive(Drop)]
pub struct TokenList {
    alloc: Global,
    tokens: Items<Token>,
}

impl Model for TokenList {
    ghost use Rattle.std.specs.Prelude.{List};
    ghost use Rattle.wdl_ast.specs.declared.token.Token.{Token};

    ghost Value = { List Token };

    ghost view = { λ l. l.tokens };
}

impl TokenList {
    /// A list without tokens.
    pub fn new(alloc: Global) -> TokenList
        ensures { result ≡ [] }
    {
        TokenList {
            alloc,
            tokens: Items::new(alloc),
        }
    }

    /// The tokens, in their order.
    pub fn into_items(self) -> Items<Token>
        ensures { result ≡ self }
    {
        let TokenList { tokens, .. } = self;
        tokens
    }

    /// Adds a token at its span.
    pub fn push(&mut self, kind: Kind, span: Span) -> Result<(), NoMemory>
        ensures { OnOk result (self.new ≡ self.old ++ spec.at kind span ∷ []) }
    {
        self.tokens.push(Token { span, kind })?;
        Ok(())
    }

    /// Adds a mark.
    pub fn mark(&mut self, mark: Mark, span: Span) -> Result<(), NoMemory>
        ensures { OnOk result (self.new ≡ self.old ++ spec.marked mark span ∷ []) }
    {
        self.push(Kind::Mark(mark), span)
    }

    /// A mark, if it is there.
    pub fn optional_mark(&mut self, mark: Mark, span: Option<Span>) -> Result<(), NoMemory>
        ensures { OnOk result (self.new ≡ self.old ++ spec.mark_words mark span) }
    {
        match span {
            Some(span) => self.mark(mark, span),
            None => Ok(()),
        }
    }

    /// A word of the language.
    pub fn keyword(&mut self, word: &str, span: Span) -> Result<(), NoMemory>
        requires { has_nul word.now ≡ false }
        ensures { OnOk result (self.new ≡ self.old ++ spec.keyword word.now span ∷ []) }
    {
        let text = Text::from_plain(self.alloc, word)?;
        self.push(Kind::Word(text), span)
    }

    /// Adds a name.
    pub fn ident(&mut self, ident: &Ident) -> Result<(), NoMemory>
        ensures { OnOk result (self.new ≡ self.old ++ spec.ident ident.now ∷ []) }
    {
        let text = ident.name.to_text(self.alloc)?;
        self.push(Kind::Word(text), ident.span)
    }

    /// Adds a word.
    pub fn word(&mut self, word: &Word) -> Result<(), NoMemory>
        ensures { OnOk result (self.new ≡ self.old ++ spec.word word.now ∷ []) }
    {
        let text = word.text.copy(self.alloc)?;
        self.push(Kind::Word(text), word.span)
    }

    /// Adds a number with a fraction or an exponent, as it was written.
    pub fn fraction(&mut self, text: &Text, span: Span) -> Result<(), NoMemory>
        ensures { OnOk result (self.new ≡ self.old ++ spec.at (Kind.Frac text.now) span ∷ []) }
    {
        let text = text.copy(self.alloc)?;
        self.push(Kind::Frac(text), span)
    }

    /// Adds a run of characters.
    pub fn chars(&mut self, chars: &Chars) -> Result<(), NoMemory>
        ensures { OnOk result (self.new ≡ self.old ++ spec.chars chars.now ∷ []) }
    {
        let text = chars.text.copy(self.alloc)?;
        self.push(Kind::Chars(text), chars.span)
    }

    fn optional_chars(&mut self, chars: &Option<Chars>) -> Result<(), NoMemory>
        ensures { OnOk result (self.new ≡ self.old ++ spec.chars_words chars.now) }
    {
        match chars {
            Some(chars) => self.chars(chars),
            None => Ok(()),
        }
    }

    /// Adds a string without placeholders, with its quotes.
    pub fn plain_string(&mut self, string: &PlainString) -> Result<(), NoMemory>
        ensures { OnOk result (self.new ≡ self.old ++ spec.plain_words string.now) }
    {
        self.push(Kind::StrOpen(string.quote), string.opening)?;
        self.optional_chars(&string.chars)?;
        self.push(Kind::StrClose, string.closing)
    }
}
