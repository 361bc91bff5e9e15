ghost use Rattle.std.specs.Prelude.{◌≡◌, IfOk, List};
ghost use Rattle.wdl_ast.specs.declared.token.Token.{Token};
ghost use Rattle.token_reading.specs.Outcome as outcome;
ghost use Rattle.token_reading.specs.Outcome.{Reads};
ghost use Rattle.wdl_parse_expr.specs.Reading as spec;
ghost use Rattle.wdl_parse_expr.specs.Nests.{Nests};
ghost use Rattle.token_reading.specs.declared.tall.Chain.{Chain};

use crate::grammar::Grammar;
use crate::grammar::choice::ends_in_choice;
use sqlite_items::Boxed;
use std::alloc::Global;
use token_reading::{Chain, Cursor, Refusal, Rule, RuleStop, Tall, deeper, linked};
use wdl_ast::{BinaryOperator, Expr, Ident, Mark, UnaryOperator};
use wdl_value::{NoMemory, Span};

fn chained(left: Tall<Expr>) -> Chain
    ensures { result ≡ spec.chained left }
{
    Chain {
        links: 0,
        inside: left.depth,
        left,
    }
}

fn member(alloc: Global, base: Tall<Expr>, dot: Span, name: Ident) -> Result<Expr, NoMemory>
    ensures { IfOk result (λ x. x ≡ Expr.Member base.tree dot name) }
{
    Ok(Expr::Member {
        base: Boxed::new(alloc, base.into_tree())?,
        dot,
        name,
    })
}

fn index(
    alloc: Global,
    base: Tall<Expr>,
    opening: Span,
    index: Tall<Expr>,
    closing: Span,
) -> Result<Expr, NoMemory>
    ensures { IfOk result (λ x. x ≡ Expr.Index base.tree opening index.tree closing) }
{
    Ok(Expr::Index {
        base: Boxed::new(alloc, base.into_tree())?,
        opening,
        index: Boxed::new(alloc, index.into_tree())?,
        closing,
    })
}

fn binary(
    alloc: Global,
    left: Tall<Expr>,
    operator: BinaryOperator,
    sign: Span,
    right: Tall<Expr>,
) -> Result<Expr, NoMemory>
    ensures { IfOk result (λ x. x ≡ Expr.Binary left.tree operator sign right.tree) }
{
    Ok(Expr::Binary {
        left: Boxed::new(alloc, left.into_tree())?,
        operator,
        sign,
        right: Boxed::new(alloc, right.into_tree())?,
    })
}

fn signed(
    alloc: Global,
    operator: UnaryOperator,
    sign: Span,
    operand: Tall<Expr>,
) -> Result<Expr, NoMemory>
    ensures { IfOk result (λ x. x ≡ Expr.Unary operator sign operand.tree) }
{
    Ok(Expr::Unary {
        operator,
        sign,
        operand: Boxed::new(alloc, operand.into_tree())?,
    })
}

impl<F: Fn(Global, &mut Cursor<'_>, usize, Rule) -> Result<Tall<Expr>, RuleStop>> Grammar<F> {
    /// One more link.
    fn linked(
        &self,
        span: Span,
        links: usize,
        inside: usize,
        tree: Expr,
    ) -> Result<(Chain, bool), RuleStop>
        requires { Nests self.now.depth (F.pre self.now.expr) (F.post self.now.expr) }
        ensures { (chain : Chain) (ts : List Token) → Reads (spec.told chain (spec.step (outcome.linked self.now.depth span links inside tree ts))) result ts }
    {
        match linked(self.depth, span, links, inside, tree) {
            Ok(chain) => Ok((chain, true)),
            Err(stop) => Err(stop),
        }
    }

    /// The member or the index behind an expression, and whether one stands there.
    #[tactic(auto, using(std::proofs::lemmas::Grind::common_steps), unfolding(token_reading::specs::Outcome::attempt, token_reading::specs::Outcome::found, crate::specs::Reading::suffix))]
    fn suffix(&self, tokens: &mut Cursor<'_>, chain: Chain) -> Result<(Chain, bool), RuleStop>
        requires { Nests self.now.depth (F.pre self.now.expr) (F.post self.now.expr) }
        ensures { Reads (spec.told chain (spec.suffix self.now.depth (spec.expr self.now.depth) chain tokens.old)) result tokens.new }
    {
        let before = tokens.rest();
        if let Some(dot) = tokens.eat(Mark::Dot) {
            return match tokens.ident(self.alloc)? {
                Some(name) => {
                    let tree = member(self.alloc, chain.left, dot, name)?;
                    self.linked(dot, chain.links, chain.inside, tree)
                }
                None => {
                    tokens.back(before);
                    Ok((chain, false))
                }
            };
        }
        let Some(opening) = tokens.eat(Mark::OpenBracket) else {
            return Ok((chain, false));
        };
        match self.inner(tokens, Rule::Expr) {
            Ok(at) => match tokens.eat(Mark::CloseBracket) {
                Some(closing) => {
                    let inside = deeper(chain.inside, at.depth);
                    let tree = index(self.alloc, chain.left, opening, at, closing)?;
                    self.linked(opening, chain.links, inside, tree)
                }
                None => {
                    tokens.back(before);
                    Ok((chain, false))
                }
            },
            Err(RuleStop::Refused(Refusal::Missing)) => {
                tokens.back(before);
                Ok((chain, false))
            }
            Err(stop) => Err(stop),
        }
    }

    #[tactic(auto, using(std::proofs::lemmas::Grind::common_steps), unfolding(token_reading::specs::Outcome::then_, crate::specs::Reading::post, crate::specs::Reading::turns))]
    fn post(&self, tokens: &mut Cursor<'_>) -> Result<Tall<Expr>, RuleStop>
        requires { Nests self.now.depth (F.pre self.now.expr) (F.post self.now.expr) }
        ensures { Reads (spec.post self.now.depth (spec.expr self.now.depth) tokens.old) result tokens.new }
    {
        let mut chain = chained(self.primary(tokens)?);
        for _turn in 0..tokens.len() {
            let (longer, more) = self.suffix(tokens, chain)?;
            chain = longer;
            if !more {
                return Ok(chain.left);
            }
        }
        Ok(chain.left)
    }

    /// Reads a unary expression: one with signs, a choice, or a primary with its members and
    /// indices.
    #[tactic(auto, using(std::proofs::lemmas::Grind::common_steps), unfolding(token_reading::specs::Outcome::then_, token_reading::specs::Outcome::found, crate::specs::Reading::unary))]
    pub fn unary(&self, tokens: &mut Cursor<'_>) -> Result<Tall<Expr>, RuleStop>
        requires { Nests self.now.depth (F.pre self.now.expr) (F.post self.now.expr) }
        ensures { Reads (spec.unary self.now.depth (spec.expr self.now.depth) tokens.old) result tokens.new }
    {
        match tokens.unary() {
            Some((operator, sign)) => {
                let operand = self.inner(tokens, Rule::Unary)?;
                let inside = operand.depth;
                let tree = signed(self.alloc, operator, sign, operand)?;
                self.grown(sign, inside, tree)
            }
            None => match tokens.eat_word("if") {
                Some(keyword) => self.choice(tokens, keyword),
                None => self.post(tokens),
            },
        }
    }

    /// One more operand, and whether its operator stands there. None stands behind a choice, which
    /// took all that goes on.
    #[cycle(rules)]
    #[tactic(auto, using(std::proofs::lemmas::Grind::common_steps), unfolding(token_reading::specs::Outcome::attempt, token_reading::specs::Outcome::found, crate::specs::Reading::operation))]
    fn operation(
        &self,
        tokens: &mut Cursor<'_>,
        k: usize,
        chain: Chain,
    ) -> Result<(Chain, bool), RuleStop>
        requires { Nests self.now.depth (F.pre self.now.expr) (F.post self.now.expr) }
        ensures { Reads (spec.told chain (spec.operation self.now.depth (spec.expr self.now.depth) (spec.rule_at self.now.depth (spec.expr self.now.depth) k) k chain tokens.old)) result tokens.new }
    {
        if ends_in_choice(&chain.left.tree) {
            return Ok((chain, false));
        }
        let before = tokens.rest();
        let Some((operator, sign)) = tokens.binary(k) else {
            return Ok((chain, false));
        };
        match self.rule(tokens, k) {
            Ok(right) => {
                let inside = deeper(chain.inside, right.depth);
                let tree = binary(self.alloc, chain.left, operator, sign, right)?;
                self.linked(sign, chain.links, inside, tree)
            }
            Err(RuleStop::Refused(Refusal::Missing)) => {
                tokens.back(before);
                Ok((chain, false))
            }
            Err(stop) => Err(stop),
        }
    }

    /// Reads rule `k`: 0 is a unary expression, 1 a product, and 6 a disjunction.
    #[cycle(rules)]
    #[tactic(auto, using(std::proofs::lemmas::Grind::common_steps), unfolding(token_reading::specs::Outcome::then_, crate::specs::Reading::turns, crate::specs::Reading::rule_at))]
    pub fn rule(&self, tokens: &mut Cursor<'_>, k: usize) -> Result<Tall<Expr>, RuleStop>
        requires { Nests self.now.depth (F.pre self.now.expr) (F.post self.now.expr) }
        ensures { Reads (spec.rule_at self.now.depth (spec.expr self.now.depth) k tokens.old) result tokens.new }
    {
        if k == 0 {
            return self.unary(tokens);
        }
        let mut chain = chained(self.rule(tokens, k - 1)?);
        for _turn in 0..tokens.len() {
            let (longer, more) = self.operation(tokens, k - 1, chain)?;
            chain = longer;
            if !more {
                return Ok(chain.left);
            }
        }
        Ok(chain.left)
    }
}
