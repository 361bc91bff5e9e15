ghost use Rattle.token_reading.specs.Outcome.{Reads};
ghost use Rattle.wdl_parse_expr.specs.Reading as spec;
ghost use Rattle.wdl_parse_expr.specs.Nests.{Nests};

use crate::grammar::Grammar;
use std::alloc::Global;
use token_reading::{Cursor, Rule, RuleStop, Tall, too_deep};
use wdl_ast::Expr;

impl<F: Fn(Global, &mut Cursor<'_>, usize, Rule) -> Result<Tall<Expr>, RuleStop>> Grammar<F> {
    fn of_rule(&self, tokens: &mut Cursor<'_>, rule: Rule) -> Result<Tall<Expr>, RuleStop>
        requires { Nests self.now.depth (F.pre self.now.expr) (F.post self.now.expr) }
        ensures { Reads (spec.of_rule self.now.depth (spec.expr self.now.depth) rule tokens.old) result tokens.new }
    {
        match rule {
            Rule::Unary => self.unary(tokens),
            Rule::Expr => self.rule(tokens, 6),
        }
    }
}

/// Reads an expression of at most that depth.
pub fn expr(
    alloc: Global,
    tokens: &mut Cursor<'_>,
    depth: usize,
    rule: Rule,
) -> Result<Tall<Expr>, RuleStop>
    ensures { Reads (spec.expr depth rule tokens.old) result tokens.new }
{
    if depth == 0 {
        return too_deep(tokens);
    }
    Grammar {
        alloc,
        depth: depth - 1,
        expr,
    }
    .of_rule(tokens, rule)
}
