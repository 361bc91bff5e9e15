ghost use Rattle.token_reading.specs.Outcome.{Reads};
ghost use Rattle.wdl_parse_expr.specs.Reading as spec;
ghost use Rattle.wdl_parse_expr.specs.Nests.{Nests};

use crate::grammar::Grammar;
use sqlite_items::Items;
use std::alloc::Global;
use token_reading::{Cursor, Rule, RuleStop, Tall, deeper, grown, missing, read_options};
use wdl_ast::{Chars, Expr, HoleMark, Kind, Placeholder, Quote, StringPart, StringTree};
use wdl_value::Span;

impl<F: Fn(Global, &mut Cursor<'_>, usize, Rule) -> Result<Tall<Expr>, RuleStop>> Grammar<F> {
    #[tactic(auto, using(std::proofs::lemmas::Grind::common_steps), unfolding(token_reading::specs::Outcome::then_, token_reading::specs::Outcome::found, crate::specs::Reading::hole))]
    fn hole(
        &self,
        tokens: &mut Cursor<'_>,
        mark: HoleMark,
        opening: Span,
    ) -> Result<Tall<StringPart<Expr>>, RuleStop>
        requires { Nests self.now.depth (F.pre self.now.expr) (F.post self.now.expr) }
        ensures { Reads (spec.hole (spec.expr self.now.depth) mark opening tokens.old) result tokens.new }
    {
        let options = read_options(self.alloc, tokens)?;
        let inner = self.inner(tokens, Rule::Expr)?;
        let Some(closing) = tokens.hole_end() else {
            return missing();
        };
        Ok(Tall {
            depth: inner.depth,
            tree: StringPart::Placeholder(Placeholder {
                mark,
                opening,
                options,
                expr: inner.into_tree(),
                closing,
            }),
        })
    }

    #[tactic(auto, using(std::proofs::lemmas::Grind::common_steps), unfolding(token_reading::specs::Outcome::then_))]
    fn part(&self, tokens: &mut Cursor<'_>) -> Result<Option<Tall<StringPart<Expr>>>, RuleStop>
        requires { Nests self.now.depth (F.pre self.now.expr) (F.post self.now.expr) }
        ensures { Reads (spec.part_at (spec.expr self.now.depth) tokens.old) result tokens.new }
    {
        let [first, rest @ ..] = tokens.rest() else {
            return Ok(None);
        };
        match &first.kind {
            Kind::Chars(text) => {
                let text = text.copy(self.alloc)?;
                tokens.go(rest);
                Ok(Some(Tall {
                    tree: StringPart::Chars(Chars {
                        text,
                        span: first.span,
                    }),
                    depth: 0,
                }))
            }
            Kind::HoleOpen(mark) => {
                tokens.go(rest);
                Ok(Some(self.hole(tokens, *mark, first.span)?))
            }
            _ => Ok(None),
        }
    }

    /// The parts of a string or a command, up to its end.
    #[tactic(auto, using(std::proofs::lemmas::Grind::common_steps), unfolding(token_reading::specs::Outcome::then_, crate::specs::Reading::parts_from))]
    pub fn parts(&self, tokens: &mut Cursor<'_>) -> Result<Tall<Items<StringPart<Expr>>>, RuleStop>
        requires { Nests self.now.depth (F.pre self.now.expr) (F.post self.now.expr) }
        ensures { Reads (spec.parts (spec.expr self.now.depth) tokens.old) result tokens.new }
    {
        let mut parts = Items::new(self.alloc);
        let mut inside = 0;
        for _turn in 0..tokens.len() {
            let Some(part) = self.part(tokens)? else {
                return Ok(Tall {
                    tree: parts,
                    depth: inside,
                });
            };
            inside = deeper(inside, part.depth);
            parts.push(part.into_tree())?;
        }
        Ok(Tall {
            tree: parts,
            depth: inside,
        })
    }

    /// A string, with its placeholders.
    #[tactic(auto, using(std::proofs::lemmas::Grind::common_steps), unfolding(token_reading::specs::Outcome::then_, token_reading::specs::Outcome::found, crate::specs::Reading::text))]
    pub fn text(
        &self,
        tokens: &mut Cursor<'_>,
        quote: Quote,
        opening: Span,
    ) -> Result<Tall<Expr>, RuleStop>
        requires { Nests self.now.depth (F.pre self.now.expr) (F.post self.now.expr) }
        ensures { Reads (spec.text self.now.depth (spec.expr self.now.depth) quote opening tokens.old) result tokens.new }
    {
        let parts = self.parts(tokens)?;
        let Some(closing) = tokens.string_end() else {
            return missing();
        };
        let inside = parts.depth;
        let string = StringTree {
            quote,
            opening,
            parts: parts.into_tree(),
            closing,
        };
        self.grown(opening, inside, Expr::Str(string))
    }
}
