ghost use Rattle.std.specs.Prelude.{◌≡◌, List, IfOk};
ghost use Rattle.wdl_ast.specs.declared.token.Token.{Token};
ghost use Rattle.token_reading.specs.Outcome.{Reads};
ghost use Rattle.wdl_parse_expr.specs.Reading as spec;
ghost use Rattle.wdl_parse_expr.specs.Nests.{Nests};

use crate::grammar::Grammar;
use crate::grammar::list::ends_bare;
use sqlite_items::Boxed;
use std::alloc::Global;
use token_reading::{Cursor, Refusal, Rule, RuleStop, Tall, bad, deeper, left_out, missing};
use wdl_ast::{Expr, Ident, Kind, MapEntry, Mark, MemberEntry, Token};
use wdl_value::{Name, NameFault, NoMemory, Span, Text};

fn leaf(tree: Expr) -> Result<Tall<Expr>, RuleStop>
    ensures { (ts : List Token) → Reads (spec.leaf tree ts) result ts }
{
    Ok(Tall { tree, depth: 1 })
}

fn group(alloc: Global, opening: Span, inner: Tall<Expr>, closing: Span) -> Result<Expr, NoMemory>
    ensures { IfOk result (λ x. x ≡ Expr.Group opening inner.tree closing) }
{
    Ok(Expr::Group {
        opening,
        inner: Boxed::new(alloc, inner.into_tree())?,
        closing,
    })
}

fn pair(
    alloc: Global,
    opening: Span,
    left: Tall<Expr>,
    comma: Span,
    right: Tall<Expr>,
    closing: Span,
) -> Result<Expr, NoMemory>
    ensures { IfOk result (λ x. x ≡ Expr.Pair opening left.tree comma right.tree closing) }
{
    Ok(Expr::Pair {
        opening,
        left: Boxed::new(alloc, left.into_tree())?,
        comma,
        right: Boxed::new(alloc, right.into_tree())?,
        closing,
    })
}

impl<F: Fn(Global, &mut Cursor<'_>, usize, Rule) -> Result<Tall<Expr>, RuleStop>> Grammar<F> {
    /// A call. Where its arguments do not follow, reading goes back, and the name stands alone.
    #[tactic(auto, using(std::proofs::lemmas::Grind::common_steps), unfolding(token_reading::specs::Outcome::attempt, crate::specs::Reading::arguments))]
    fn arguments<'a>(
        &self,
        tokens: &mut Cursor<'a>,
        name: Ident,
        opening: Span,
        before: &'a [Token],
    ) -> Result<Tall<Expr>, RuleStop>
        requires { Nests self.now.depth (F.pre self.now.expr) (F.post self.now.expr) }
        ensures { Reads (spec.arguments self.now.depth (spec.expr self.now.depth) name opening tokens.old before.now) result tokens.new }
    {
        match self.list::<Expr>(tokens, Mark::CloseParen) {
            Ok(list) => {
                if !ends_bare(list.items.as_slice()) {
                    tokens.blame_last();
                    tokens.back(before);
                    return leaf(Expr::Name(name));
                }
                let call = Expr::Call {
                    name,
                    opening,
                    arguments: list.items,
                    closing: list.closing,
                };
                self.grown(opening, list.inside, call)
            }
            Err(RuleStop::Refused(Refusal::Missing)) => {
                tokens.back(before);
                leaf(Expr::Name(name))
            }
            Err(stop) => Err(stop),
        }
    }

    #[tactic(auto, unfolding(crate::specs::Reading::call))]
    fn call<'a>(
        &self,
        tokens: &mut Cursor<'a>,
        name: Ident,
        opening: Span,
        before: &'a [Token],
    ) -> Result<Tall<Expr>, RuleStop>
        requires { Nests self.now.depth (F.pre self.now.expr) (F.post self.now.expr) }
        ensures { Reads (spec.call self.now.depth (spec.expr self.now.depth) name opening tokens.old before.now) result tokens.new }
    {
        match left_out(&name.name) {
            Some(code) => bad(code, name.span),
            None => self.arguments(tokens, name, opening, before),
        }
    }

    /// A struct literal. Where its members do not follow, reading goes back, and the name stands
    /// alone.
    #[tactic(auto, using(std::proofs::lemmas::Grind::common_steps), unfolding(token_reading::specs::Outcome::attempt, crate::specs::Reading::struct_literal))]
    fn struct_literal<'a>(
        &self,
        tokens: &mut Cursor<'a>,
        name: Ident,
        opening: Span,
        before: &'a [Token],
    ) -> Result<Tall<Expr>, RuleStop>
        requires { Nests self.now.depth (F.pre self.now.expr) (F.post self.now.expr) }
        ensures { Reads (spec.struct_literal self.now.depth (spec.expr self.now.depth) name opening tokens.old before.now) result tokens.new }
    {
        match self.list::<MemberEntry<Expr>>(tokens, Mark::CloseBrace) {
            Ok(list) => {
                let literal = Expr::Struct {
                    name,
                    opening,
                    members: list.items,
                    closing: list.closing,
                };
                self.grown(opening, list.inside, literal)
            }
            Err(RuleStop::Refused(Refusal::Missing)) => {
                tokens.back(before);
                leaf(Expr::Name(name))
            }
            Err(stop) => Err(stop),
        }
    }

    /// What begins with a name.
    #[tactic(auto, using(std::proofs::lemmas::Grind::common_steps), unfolding(token_reading::specs::Outcome::found, crate::specs::Reading::named))]
    fn named(&self, tokens: &mut Cursor<'_>, name: Ident) -> Result<Tall<Expr>, RuleStop>
        requires { Nests self.now.depth (F.pre self.now.expr) (F.post self.now.expr) }
        ensures { Reads (spec.named self.now.depth (spec.expr self.now.depth) name tokens.old) result tokens.new }
    {
        let before = tokens.rest();
        if let Some(opening) = tokens.eat(Mark::OpenParen) {
            return self.call(tokens, name, opening, before);
        }
        if let Some(opening) = tokens.eat(Mark::OpenBrace) {
            return self.struct_literal(tokens, name, opening, before);
        }
        leaf(Expr::Name(name))
    }

    /// The second part of a pair.
    #[tactic(auto, using(std::proofs::lemmas::Grind::common_steps), unfolding(token_reading::specs::Outcome::then_, token_reading::specs::Outcome::found, crate::specs::Reading::pair_end))]
    fn pair_end(
        &self,
        tokens: &mut Cursor<'_>,
        opening: Span,
        left: Tall<Expr>,
        comma: Span,
    ) -> Result<Tall<Expr>, RuleStop>
        requires { Nests self.now.depth (F.pre self.now.expr) (F.post self.now.expr) }
        ensures { Reads (spec.pair_end self.now.depth (spec.expr self.now.depth) opening left comma tokens.old) result tokens.new }
    {
        let right = self.inner(tokens, Rule::Expr)?;
        let Some(closing) = tokens.eat(Mark::CloseParen) else {
            return missing();
        };
        let inside = deeper(left.depth, right.depth);
        let literal = pair(self.alloc, opening, left, comma, right, closing)?;
        self.grown(opening, inside, literal)
    }

    /// An expression in parentheses, or a pair.
    #[tactic(auto, using(std::proofs::lemmas::Grind::common_steps), unfolding(token_reading::specs::Outcome::then_, token_reading::specs::Outcome::found, crate::specs::Reading::paren))]
    fn paren(&self, tokens: &mut Cursor<'_>, opening: Span) -> Result<Tall<Expr>, RuleStop>
        requires { Nests self.now.depth (F.pre self.now.expr) (F.post self.now.expr) }
        ensures { Reads (spec.paren self.now.depth (spec.expr self.now.depth) opening tokens.old) result tokens.new }
    {
        let inner = self.inner(tokens, Rule::Expr)?;
        if let Some(closing) = tokens.eat(Mark::CloseParen) {
            let depth = inner.depth;
            let tree = group(self.alloc, opening, inner, closing)?;
            return self.grown(opening, depth, tree);
        }
        match tokens.eat(Mark::Comma) {
            Some(comma) => self.pair_end(tokens, opening, inner, comma),
            None => missing(),
        }
    }

    #[tactic(auto, using(std::proofs::lemmas::Grind::common_steps), unfolding(token_reading::specs::Outcome::then_, crate::specs::Reading::list))]
    fn list_literal(&self, tokens: &mut Cursor<'_>, opening: Span) -> Result<Tall<Expr>, RuleStop>
        requires { Nests self.now.depth (F.pre self.now.expr) (F.post self.now.expr) }
        ensures { Reads (spec.list self.now.depth (spec.expr self.now.depth) opening tokens.old) result tokens.new }
    {
        let list = self.list::<Expr>(tokens, Mark::CloseBracket)?;
        let literal = Expr::List {
            opening,
            items: list.items,
            closing: list.closing,
        };
        self.grown(opening, list.inside, literal)
    }

    #[tactic(auto, using(std::proofs::lemmas::Grind::common_steps), unfolding(token_reading::specs::Outcome::then_, crate::specs::Reading::map_literal))]
    fn map_literal(&self, tokens: &mut Cursor<'_>, opening: Span) -> Result<Tall<Expr>, RuleStop>
        requires { Nests self.now.depth (F.pre self.now.expr) (F.post self.now.expr) }
        ensures { Reads (spec.map_literal self.now.depth (spec.expr self.now.depth) opening tokens.old) result tokens.new }
    {
        let list = self.list::<MapEntry<Expr>>(tokens, Mark::CloseBrace)?;
        let literal = Expr::Map {
            opening,
            entries: list.items,
            closing: list.closing,
        };
        self.grown(opening, list.inside, literal)
    }

    /// What begins with a reserved word.
    #[tactic(auto, unfolding(crate::specs::Reading::literal))]
    fn literal(
        &self,
        tokens: &mut Cursor<'_>,
        word: &Text,
        span: Span,
    ) -> Result<Tall<Expr>, RuleStop>
        ensures { Reads (spec.literal self.now.depth (spec.expr self.now.depth) word.now span tokens.old) result tokens.new }
    {
        if word.is("true") {
            return leaf(Expr::True(span));
        }
        if word.is("false") {
            return leaf(Expr::False(span));
        }
        if word.is("None") {
            return leaf(Expr::None(span));
        }
        if word.is("object") {
            return bad(121, span);
        }
        tokens.blame_last();
        missing()
    }

    #[tactic(auto, using(std::proofs::lemmas::Grind::common_steps), unfolding(crate::specs::Reading::worded))]
    fn worded(
        &self,
        tokens: &mut Cursor<'_>,
        word: &Text,
        span: Span,
    ) -> Result<Tall<Expr>, RuleStop>
        requires { Nests self.now.depth (F.pre self.now.expr) (F.post self.now.expr) }
        ensures { Reads (spec.worded self.now.depth (spec.expr self.now.depth) word.now span tokens.old) result tokens.new }
    {
        match Name::new(self.alloc, word.as_str()) {
            Ok(name) => self.named(tokens, Ident { name, span }),
            Err(NameFault::NotAName) => self.literal(tokens, word, span),
            Err(NameFault::NoMemory) => Err(RuleStop::NoMemory),
        }
    }

    /// A literal, a name, a call, a string, or what stands in brackets.
    #[tactic(auto, using(std::proofs::lemmas::Grind::common_steps), unfolding(crate::specs::Reading::primary))]
    pub fn primary(&self, tokens: &mut Cursor<'_>) -> Result<Tall<Expr>, RuleStop>
        requires { Nests self.now.depth (F.pre self.now.expr) (F.post self.now.expr) }
        ensures { Reads (spec.primary self.now.depth (spec.expr self.now.depth) tokens.old) result tokens.new }
    {
        let [first, rest @ ..] = tokens.rest() else {
            return missing();
        };
        let span = first.span;
        match &first.kind {
            Kind::Int(value) => {
                tokens.go(rest);
                let value = *value;
                Ok(Tall {
                    tree: Expr::Int { value, span },
                    depth: 1,
                })
            }
            Kind::Frac(_) => bad(120, span),
            Kind::Word(word) => {
                tokens.go(rest);
                self.worded(tokens, word, span)
            }
            Kind::Mark(Mark::OpenParen) => {
                tokens.go(rest);
                self.paren(tokens, span)
            }
            Kind::Mark(Mark::OpenBracket) => {
                tokens.go(rest);
                self.list_literal(tokens, span)
            }
            Kind::Mark(Mark::OpenBrace) => {
                tokens.go(rest);
                self.map_literal(tokens, span)
            }
            Kind::StrOpen(quote) => {
                tokens.go(rest);
                self.text(tokens, *quote, span)
            }
            _ => missing(),
        }
    }
}
