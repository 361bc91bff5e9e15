ghost use Rattle.std.specs.Prelude.{◌≡◌, IfOk};
ghost use Rattle.token_reading.specs.Outcome.{Reads};
ghost use Rattle.wdl_parse_expr.specs.Reading as spec;
ghost use Rattle.wdl_parse_expr.specs.Grammar as grammar;
ghost use Rattle.wdl_parse_expr.specs.Nests.{Nests};

use crate::grammar::Grammar;
use sqlite_items::Boxed;
use std::alloc::Global;
use token_reading::{Cursor, Rule, RuleStop, Tall, deeper, missing};
use wdl_ast::Expr;
use wdl_value::{NoMemory, Span};

fn choice(
    alloc: Global,
    keyword: Span,
    condition: Tall<Expr>,
    then_word: Span,
    accepted: Tall<Expr>,
    else_word: Span,
    refused: Tall<Expr>,
) -> Result<Expr, NoMemory>
    ensures { IfOk result (λ x. x ≡ Expr.If keyword condition.tree then_word accepted.tree else_word refused.tree) }
{
    Ok(Expr::If {
        keyword,
        condition: Boxed::new(alloc, condition.into_tree())?,
        then_word,
        accepted: Boxed::new(alloc, accepted.into_tree())?,
        else_word,
        refused: Boxed::new(alloc, refused.into_tree())?,
    })
}

/// Whether the last operand of an expression is an `if`, so that no operator stands behind the
/// whole.
#[tactic(auto, unfolding(crate::specs::Grammar::ends_in_choice))]
pub fn ends_in_choice(expr: &Expr) -> bool
    ensures { result ≡ grammar.ends_in_choice expr.now }
{
    match expr {
        Expr::If { .. } => true,
        Expr::Binary { right, .. } => ends_in_choice(right.get()),
        Expr::Unary { operand, .. } => ends_in_choice(operand.get()),
        _ => false,
    }
}

impl<F: Fn(Global, &mut Cursor<'_>, usize, Rule) -> Result<Tall<Expr>, RuleStop>> Grammar<F> {
    /// The branch behind `else`, with the spans of the three words.
    #[tactic(auto, using(std::proofs::lemmas::Grind::common_steps), unfolding(token_reading::specs::Outcome::then_, crate::specs::Reading::other_choice))]
    fn other_choice(
        &self,
        tokens: &mut Cursor<'_>,
        spans: (Span, Span, Span),
        condition: Tall<Expr>,
        accepted: Tall<Expr>,
    ) -> Result<Tall<Expr>, RuleStop>
        requires { Nests self.now.depth (F.pre self.now.expr) (F.post self.now.expr) }
        ensures { Reads (spec.other_choice self.now.depth (spec.expr self.now.depth) spans.0 condition spans.1 accepted spans.2 tokens.old) result tokens.new }
    {
        let (keyword, then_word, else_word) = spans;
        let refused = self.inner(tokens, Rule::Expr)?;
        let inside = deeper(deeper(condition.depth, accepted.depth), refused.depth);
        let tree = choice(
            self.alloc, keyword, condition, then_word, accepted, else_word, refused,
        )?;
        self.grown(keyword, inside, tree)
    }

    /// `if` with its two branches.
    #[tactic(auto, using(std::proofs::lemmas::Grind::common_steps), unfolding(token_reading::specs::Outcome::then_, token_reading::specs::Outcome::found, crate::specs::Reading::choice))]
    pub fn choice(&self, tokens: &mut Cursor<'_>, keyword: Span) -> Result<Tall<Expr>, RuleStop>
        requires { Nests self.now.depth (F.pre self.now.expr) (F.post self.now.expr) }
        ensures { Reads (spec.choice self.now.depth (spec.expr self.now.depth) keyword tokens.old) result tokens.new }
    {
        let condition = self.inner(tokens, Rule::Expr)?;
        let Some(then_word) = tokens.eat_word("then") else {
            return missing();
        };
        let accepted = self.inner(tokens, Rule::Expr)?;
        let Some(else_word) = tokens.eat_word("else") else {
            return missing();
        };
        self.other_choice(tokens, (keyword, then_word, else_word), condition, accepted)
    }
}
