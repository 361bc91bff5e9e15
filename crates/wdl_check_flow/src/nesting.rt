//! How deep blocks and calls stand in one another, before anything else is asked of them.

ghost use Rattle.std.specs.Prelude.{◌≡◌, map};
ghost use Rattle.wdl_check_flow.specs.Nesting as spec;

use wdl_ast::Statement;
use wdl_check_types::statement_span;
use wdl_depths::MOST_BLOCKS;
use wdl_value::Span;

/// Where a block or a call stands with more than `most` blocks and calls on the way to it, itself
/// counted. The calls of workflows count as one here.
#[cycle(nesting)]
fn first_too_deep(body: &[Statement], most: usize) -> Option<Span>
    ensures { result ≡ spec.first_deep (map spec.too_deep body.now) most }
{
    for statement in body {
        if let Some(span) = too_deep(statement, most) {
            return Some(span);
        }
    }
    None
}

/// The same of one statement.
#[cycle(nesting)]
fn too_deep(statement: &Statement, most: usize) -> Option<Span>
    ensures { result ≡ spec.too_deep statement.now most }
{
    if let Statement::Declaration(_) = statement {
        return None;
    }
    if most == 0 {
        return Some(statement_span(statement));
    }
    match statement {
        Statement::Scatter(block) => first_too_deep(block.body.as_slice(), most - 1),
        Statement::Conditional(block) => first_too_deep(block.body.as_slice(), most - 1),
        _ => None,
    }
}

/// Where the first block or call of a workflow stands with too many blocks and calls on the way to
/// it.
pub fn deepest(statements: &[&Statement]) -> Option<Span>
    ensures { result ≡ spec.first_deep (map spec.too_deep (map (λ s. s.now) statements.now)) 24 }
{
    for statement in statements {
        if let Some(span) = too_deep(statement, MOST_BLOCKS) {
            return Some(span);
        }
    }
    None
}
