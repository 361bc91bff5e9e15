//! The rules take the reader of expressions as a parameter, so that each is proved by itself.
#![tactic(auto, using(std::proofs::lemmas::Grind::common_steps), unfolding(token_reading::specs::Outcome::then_, token_reading::specs::Outcome::attempt, token_reading::specs::Outcome::found))]

ghost use Rattle.std.specs.Prelude.{List};
ghost use Rattle.wdl_ast.specs.declared.token.Token.{Token};
ghost use Rattle.token_reading.specs.Outcome as outcome;
ghost use Rattle.token_reading.specs.Outcome.{Reads};
ghost use Rattle.wdl_parse_expr.specs.Reading as spec;
ghost use Rattle.wdl_parse_expr.specs.Nests.{Nests};

mod chain;
mod choice;
mod list;
mod primary;
mod string;
mod whole;

use std::alloc::Global;
use token_reading::{Cursor, Rule, RuleStop, Tall, grown};
use wdl_ast::Expr;
use wdl_value::Span;
pub use whole::expr;

/// The rules of expressions of at most `depth` and one.
#[derive(Clone, Copy)]
pub struct Grammar<F> {
    pub alloc: Global,
    /// How deep the expressions inside may be.
    pub depth: usize,
    /// The reader of the expressions inside.
    pub expr: F,
}

impl<F: Fn(Global, &mut Cursor<'_>, usize, Rule) -> Result<Tall<Expr>, RuleStop>> Grammar<F> {
    fn inner(&self, tokens: &mut Cursor<'_>, rule: Rule) -> Result<Tall<Expr>, RuleStop>
        requires { Nests self.now.depth (F.pre self.now.expr) (F.post self.now.expr) }
        ensures { Reads (spec.expr self.now.depth rule tokens.old) result tokens.new }
    {
        (self.expr)(self.alloc, tokens, self.depth, rule)
    }

    /// A node that counts once, over parts of that depth.
    fn grown(&self, span: Span, inside: usize, tree: Expr) -> Result<Tall<Expr>, RuleStop>
        requires { Nests self.now.depth (F.pre self.now.expr) (F.post self.now.expr) }
        ensures { (ts : List Token) → Reads (outcome.grown self.now.depth span 0 inside tree ts) result ts }
    {
        grown(self.depth, span, 0, inside, tree)
    }
}
