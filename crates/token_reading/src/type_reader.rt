//! The rules of types take the reader of the types inside as a parameter, so that each is proved by
//! itself.
#![tactic(auto, using(std::proofs::lemmas::Grind::common_steps), unfolding(crate::specs::Outcome::then_, crate::specs::Outcome::found))]

ghost use Rattle.std.specs.Prelude.{◌≡◌, IfOk};
ghost use Rattle.token_reading.specs.Outcome.{Reads};
ghost use Rattle.token_reading.specs.Nests.{NestsTypes};
ghost use Rattle.token_reading.specs.TypeReading as spec;

use crate::cursor::Cursor;
use crate::fault::RuleStop;
use crate::read::{bad, missing, too_deep};
use sqlite_items::{Boxed, Items};
use std::alloc::Global;
use wdl_ast::{BaseType, Ident, Kind, Mark, TypeTree};
use wdl_value::{Name, NameFault, NoMemory, Span, Text};

/// Two types in brackets.
#[derive(Drop)]
pub struct Two<T> {
    pub opening: Span,
    pub left: Boxed<T>,
    pub comma: Span,
    pub right: Boxed<T>,
    pub closing: Span,
}

/// The rules of types.
#[derive(Clone, Copy)]
pub struct TypeReader<F> {
    pub alloc: Global,
    /// How deep the types inside may be.
    pub depth: usize,
    /// The reader of the types inside.
    pub inner: F,
}

/// A mark, if it stands there.
#[tactic(auto, unfolding(crate::specs::Outcome::found, crate::specs::TypeReading::optional))]
fn optional(tokens: &mut Cursor<'_>, mark: Mark) -> Option<Span>
    ensures { (result, tokens.new) ≡ spec.optional mark tokens.old }
{
    tokens.eat(mark)
}

/// The `?` behind a type.
#[tactic(auto, using(std::proofs::lemmas::Grind::common_steps), unfolding(crate::specs::Outcome::found, crate::specs::TypeReading::questions_from))]
fn questions(alloc: Global, tokens: &mut Cursor<'_>) -> Result<Items<Span>, NoMemory>
    ensures { IfOk result (λ qs. (qs, tokens.new) ≡ spec.questions tokens.old) }
{
    let mut questions = Items::new(alloc);
    for _turn in 0..tokens.len() {
        let Some(question) = tokens.eat(Mark::Question) else {
            return Ok(questions);
        };
        questions.push(question)?;
    }
    Ok(questions)
}

impl<F: Fn(Global, &mut Cursor<'_>, usize) -> Result<TypeTree, RuleStop>> TypeReader<F> {
    fn inner(&self, tokens: &mut Cursor<'_>) -> Result<Boxed<TypeTree>, RuleStop>
        requires { NestsTypes self.now.depth (F.pre self.now.inner) (F.post self.now.inner) }
        ensures { Reads (spec.type_at self.now.depth tokens.old) result tokens.new }
    {
        let ty = (self.inner)(self.alloc, tokens, self.depth)?;
        Ok(Boxed::new(self.alloc, ty)?)
    }

    #[tactic(auto, using(std::proofs::lemmas::Grind::common_steps), unfolding(crate::specs::Outcome::then_, crate::specs::Outcome::found, crate::specs::TypeReading::array))]
    fn array(&self, tokens: &mut Cursor<'_>, word: Span) -> Result<BaseType<TypeTree>, RuleStop>
        requires { NestsTypes self.now.depth (F.pre self.now.inner) (F.post self.now.inner) }
        ensures { Reads (spec.array (spec.type_at self.now.depth) word tokens.old) result tokens.new }
    {
        let Some(opening) = tokens.eat(Mark::OpenBracket) else {
            return missing();
        };
        let item = self.inner(tokens)?;
        let Some(closing) = tokens.eat(Mark::CloseBracket) else {
            return missing();
        };
        let plus = optional(tokens, Mark::Plus);
        Ok(BaseType::Array {
            word,
            opening,
            item,
            closing,
            plus,
        })
    }

    #[tactic(auto, using(std::proofs::lemmas::Grind::common_steps), unfolding(crate::specs::Outcome::then_, crate::specs::Outcome::found, crate::specs::TypeReading::two))]
    fn two(&self, tokens: &mut Cursor<'_>) -> Result<Two<TypeTree>, RuleStop>
        requires { NestsTypes self.now.depth (F.pre self.now.inner) (F.post self.now.inner) }
        ensures { Reads (spec.two (spec.type_at self.now.depth) tokens.old) result tokens.new }
    {
        let Some(opening) = tokens.eat(Mark::OpenBracket) else {
            return missing();
        };
        let left = self.inner(tokens)?;
        let Some(comma) = tokens.eat(Mark::Comma) else {
            return missing();
        };
        let right = self.inner(tokens)?;
        let Some(closing) = tokens.eat(Mark::CloseBracket) else {
            return missing();
        };
        Ok(Two {
            opening,
            left,
            comma,
            right,
            closing,
        })
    }

    fn map(&self, tokens: &mut Cursor<'_>, word: Span) -> Result<BaseType<TypeTree>, RuleStop>
        requires { NestsTypes self.now.depth (F.pre self.now.inner) (F.post self.now.inner) }
        ensures { Reads (spec.map_type (spec.type_at self.now.depth) word tokens.old) result tokens.new }
    {
        let two = self.two(tokens)?;
        Ok(BaseType::Map {
            word,
            opening: two.opening,
            key: two.left,
            comma: two.comma,
            value: two.right,
            closing: two.closing,
        })
    }

    fn pair(&self, tokens: &mut Cursor<'_>, word: Span) -> Result<BaseType<TypeTree>, RuleStop>
        requires { NestsTypes self.now.depth (F.pre self.now.inner) (F.post self.now.inner) }
        ensures { Reads (spec.pair_type (spec.type_at self.now.depth) word tokens.old) result tokens.new }
    {
        let two = self.two(tokens)?;
        Ok(BaseType::Pair {
            word,
            opening: two.opening,
            left: two.left,
            comma: two.comma,
            right: two.right,
            closing: two.closing,
        })
    }

    /// What begins with a reserved word.
    #[tactic(auto, unfolding(crate::specs::TypeReading::reserved))]
    fn reserved(
        &self,
        tokens: &mut Cursor<'_>,
        word: &Text,
        span: Span,
    ) -> Result<BaseType<TypeTree>, RuleStop>
        requires { NestsTypes self.now.depth (F.pre self.now.inner) (F.post self.now.inner) }
        ensures { Reads (spec.reserved (spec.type_at self.now.depth) word.now span tokens.old) result tokens.new }
    {
        if word.is("Boolean") {
            return Ok(BaseType::Boolean(span));
        }
        if word.is("Int") {
            return Ok(BaseType::Int(span));
        }
        if word.is("String") {
            return Ok(BaseType::Str(span));
        }
        if word.is("File") {
            return Ok(BaseType::File(span));
        }
        if word.is("Array") {
            return self.array(tokens, span);
        }
        if word.is("Map") {
            return self.map(tokens, span);
        }
        if word.is("Pair") {
            return self.pair(tokens, span);
        }
        if word.is("Float") {
            return bad(120, span);
        }
        if word.is("Object") {
            return bad(121, span);
        }
        tokens.blame_last();
        missing()
    }

    #[tactic(auto, using(std::proofs::lemmas::Grind::common_steps), unfolding(crate::specs::TypeReading::named_base))]
    fn named(
        &self,
        tokens: &mut Cursor<'_>,
        word: &Text,
        span: Span,
    ) -> Result<BaseType<TypeTree>, RuleStop>
        requires { NestsTypes self.now.depth (F.pre self.now.inner) (F.post self.now.inner) }
        ensures { Reads (spec.named_base (spec.type_at self.now.depth) word.now span tokens.old) result tokens.new }
    {
        match Name::new(self.alloc, word.as_str()) {
            Ok(name) => Ok(BaseType::Struct(Ident { name, span })),
            Err(NameFault::NotAName) => self.reserved(tokens, word, span),
            Err(NameFault::NoMemory) => Err(RuleStop::NoMemory),
        }
    }

    #[tactic(auto, using(std::proofs::lemmas::Grind::common_steps), unfolding(crate::specs::TypeReading::base_at))]
    fn base(&self, tokens: &mut Cursor<'_>) -> Result<BaseType<TypeTree>, RuleStop>
        requires { NestsTypes self.now.depth (F.pre self.now.inner) (F.post self.now.inner) }
        ensures { Reads (spec.base_at (spec.type_at self.now.depth) tokens.old) result tokens.new }
    {
        let [first, rest @ ..] = tokens.rest() else {
            return missing();
        };
        let Kind::Word(word) = &first.kind else {
            return missing();
        };
        tokens.go(rest);
        self.named(tokens, word, first.span)
    }

    #[tactic(auto, using(std::proofs::lemmas::Grind::common_steps), unfolding(crate::specs::Outcome::then_, crate::specs::TypeReading::type_over))]
    fn whole(&self, tokens: &mut Cursor<'_>) -> Result<TypeTree, RuleStop>
        requires { NestsTypes self.now.depth (F.pre self.now.inner) (F.post self.now.inner) }
        ensures { Reads (spec.type_over (spec.type_at self.now.depth) tokens.old) result tokens.new }
    {
        let base = self.base(tokens)?;
        let questions = questions(self.alloc, tokens)?;
        Ok(TypeTree { base, questions })
    }
}

/// Reads a type of at most that depth.
pub fn type_at(alloc: Global, tokens: &mut Cursor<'_>, depth: usize) -> Result<TypeTree, RuleStop>
    ensures { Reads (spec.type_at depth tokens.old) result tokens.new }
{
    if depth == 0 {
        return too_deep(tokens);
    }
    TypeReader {
        alloc,
        depth: depth - 1,
        inner: type_at,
    }
    .whole(tokens)
}
