ghost use Rattle.std.specs.Prelude.{◌≡◌, ℕ, is_none as none};
ghost use Rattle.token_reading.specs.Outcome.{Reads};
ghost use Rattle.wdl_parse_expr.specs.Reading as spec;
ghost use Rattle.wdl_parse_expr.specs.Grammar as grammar;
ghost use Rattle.wdl_parse_expr.specs.Nests.{Nests};

use crate::grammar::Grammar;
use sqlite_items::Items;
use std::alloc::Global;
use token_reading::{Closed, Cursor, Rule, RuleStop, Tall, deeper, missing};
use wdl_ast::{Expr, ListItem, MapEntry, Mark, MemberEntry};
use wdl_value::Span;

fn is_none(comma: Option<Span>) -> bool
    ensures { result ≡ none comma }
{
    comma.is_none()
}

/// Whether no comma stands behind the last.
pub fn ends_bare(items: &[ListItem<Expr>]) -> bool
    ensures { result ≡ grammar.ends_bare items.now }
{
    match items {
        [] => true,
        [.., last] => is_none(last.comma),
    }
}

/// What a list in an expression is made of.
pub trait Element: Sized {
    ghost use Rattle.std.specs.Prelude.{ℕ};
    ghost use Rattle.token_reading.specs.Outcome.{Parser};
    ghost use Rattle.token_reading.specs.declared.tall.Tall.{Tall};

    ghost reading: { ℕ → Parser (Tall Self) };

    fn read<F: Fn(Global, &mut Cursor<'_>, usize, Rule) -> Result<Tall<Expr>, RuleStop>>(
        grammar: &Grammar<F>,
        tokens: &mut Cursor<'_>,
    ) -> Result<Tall<Self>, RuleStop>
        requires { Nests grammar.now.depth (F.pre grammar.now.expr) (F.post grammar.now.expr) }
        ensures { Reads (reading grammar.now.depth tokens.old) result tokens.new };
}

impl Element for Expr {
    ghost use Rattle.wdl_parse_expr.specs.Reading as spec;
    ghost use Rattle.token_reading.specs.declared.tall.Rule.TheVariants as rule;

    ghost reading = { λ d. spec.expr d rule.Expr };

    fn read<F: Fn(Global, &mut Cursor<'_>, usize, Rule) -> Result<Tall<Expr>, RuleStop>>(
        grammar: &Grammar<F>,
        tokens: &mut Cursor<'_>,
    ) -> Result<Tall<Expr>, RuleStop> {
        grammar.inner(tokens, Rule::Expr)
    }
}

impl Element for MapEntry<Expr> {
    ghost use Rattle.wdl_parse_expr.specs.Reading as spec;

    ghost reading = { λ d. spec.entry (spec.expr d) };

    #[tactic(auto, using(std::proofs::lemmas::Grind::common_steps), unfolding(token_reading::specs::Outcome::then_, token_reading::specs::Outcome::found, crate::specs::Reading::entry))]
    fn read<F: Fn(Global, &mut Cursor<'_>, usize, Rule) -> Result<Tall<Expr>, RuleStop>>(
        grammar: &Grammar<F>,
        tokens: &mut Cursor<'_>,
    ) -> Result<Tall<MapEntry<Expr>>, RuleStop> {
        let key = grammar.inner(tokens, Rule::Expr)?;
        let Some(colon) = tokens.eat(Mark::Colon) else {
            return missing();
        };
        let value = grammar.inner(tokens, Rule::Expr)?;
        Ok(Tall {
            depth: deeper(key.depth, value.depth),
            tree: MapEntry {
                key: key.into_tree(),
                colon,
                value: value.into_tree(),
            },
        })
    }
}

impl Element for MemberEntry<Expr> {
    ghost use Rattle.wdl_parse_expr.specs.Reading as spec;

    ghost reading = { λ d. spec.member (spec.expr d) };

    #[tactic(auto, using(std::proofs::lemmas::Grind::common_steps), unfolding(token_reading::specs::Outcome::then_, token_reading::specs::Outcome::found, crate::specs::Reading::member))]
    fn read<F: Fn(Global, &mut Cursor<'_>, usize, Rule) -> Result<Tall<Expr>, RuleStop>>(
        grammar: &Grammar<F>,
        tokens: &mut Cursor<'_>,
    ) -> Result<Tall<MemberEntry<Expr>>, RuleStop> {
        let Some(name) = tokens.ident(grammar.alloc)? else {
            return missing();
        };
        let Some(colon) = tokens.eat(Mark::Colon) else {
            return missing();
        };
        let value = grammar.inner(tokens, Rule::Expr)?;
        Ok(Tall {
            depth: value.depth,
            tree: MemberEntry {
                name,
                colon,
                value: value.into_tree(),
            },
        })
    }
}

/// A list that ends here, where its closing mark stands.
#[tactic(auto, using(std::proofs::lemmas::Grind::common_steps), unfolding(token_reading::specs::Outcome::found, crate::specs::Reading::ended))]
fn ended<E: Element + Drop>(
    tokens: &mut Cursor<'_>,
    close: Mark,
    items: Items<ListItem<E>>,
    inside: usize,
) -> Result<Closed<E>, RuleStop>
    ensures { (d : ℕ) → Reads (spec.ended (E.reading d) close items inside tokens.old) result tokens.new }
{
    match tokens.eat(close) {
        Some(closing) => Ok(Closed {
            items,
            inside,
            closing,
        }),
        None => missing(),
    }
}

impl<F: Fn(Global, &mut Cursor<'_>, usize, Rule) -> Result<Tall<Expr>, RuleStop>> Grammar<F> {
    /// The elements up to a closing mark.
    #[tactic(auto, using(std::proofs::lemmas::Grind::common_steps), unfolding(token_reading::specs::Outcome::then_, token_reading::specs::Outcome::found, crate::specs::Reading::list_from))]
    pub fn list<E: Element + Drop>(
        &self,
        tokens: &mut Cursor<'_>,
        close: Mark,
    ) -> Result<Closed<E>, RuleStop>
        requires { Nests self.now.depth (F.pre self.now.expr) (F.post self.now.expr) }
        ensures { Reads (spec.list_of (E.reading self.now.depth) close tokens.old) result tokens.new }
    {
        let mut items = Items::new(self.alloc);
        let mut inside = 0;
        for _turn in 0..tokens.len() {
            if let Some(closing) = tokens.eat(close) {
                return Ok(Closed {
                    items,
                    inside,
                    closing,
                });
            }
            let item = E::read(self, tokens)?;
            inside = deeper(inside, item.depth);
            match tokens.eat(Mark::Comma) {
                Some(comma) => items.push(ListItem {
                    item: item.into_tree(),
                    comma: Some(comma),
                })?,
                None => {
                    items.push(ListItem {
                        item: item.into_tree(),
                        comma: None,
                    })?;
                    return ended(tokens, close, items, inside);
                }
            }
        }
        missing()
    }
}
