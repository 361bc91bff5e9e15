//! The statements of a body, by the numbers of the statements that lead to it.

ghost use Rattle.std.specs.Prelude.{◌≡◌, slice_get};
ghost use Rattle.std.specs.Option.{option_copied};
ghost use Rattle.plan_layout.specs.Paths as spec;

use sqlite_items::at;
use wdl_typed::{Checked, Statement};

/// The statements of a block's body; none where there is no block.
fn inner_of<'a>(statement: Option<&'a Statement>) -> &'a [Statement]
    ensures { result.now ≡ spec.inner_of (option_copied statement.entry) }
{
    match statement {
        Some(Statement::Scatter(scatter)) => scatter.body.as_slice(),
        Some(Statement::If(condition)) => condition.body.as_slice(),
        _ => &[],
    }
}

/// The statements of the body to which these numbers of statements lead, from the own body of a
/// workflow; none where they lead to no body.
pub fn body_of<'a>(checked: &'a Checked, flow: usize, path: &[usize]) -> &'a [Statement]
    ensures { result.now ≡ spec.body_at (spec.flow_body (slice_get checked.now.flows flow)) path.now }
{
    let mut body = match checked.flows.get(flow) {
        Some(flow) => flow.body.as_slice(),
        None => &[],
    };
    for number in path {
        body = inner_of(at(body, *number));
    }
    body
}
