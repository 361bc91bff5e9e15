ghost use Rattle.std.specs.Prelude.{◌≡◌, map, IfOk, IfErr};
ghost use Rattle.wdl_typed.specs.Order.{IsOrdered, input_needing, statement_needing};
ghost use Rattle.statement_order.specs.Members.{input_span, statement_span};
ghost use Rattle.wdl_order.specs.Names.{as_needing};
ghost use Rattle.statement_order.specs.Outcome.{IsFault};

use crate::fault::OrderFault;
use crate::member::Member;
use crate::picking::picked;
use std::alloc::Global;
use wdl_order::{Found, Uses, positions_of};
use wdl_typed::{Statement, TInput};
use wdl_value::{Items, NoMemory};

fn uses_of<M: Member>(alloc: Global, list: &[M]) -> Result<Vec<Uses>, NoMemory>
    ensures { IfOk result (λ all. map as_needing all.items ≡ map M.needing list.now) }
{
    let mut all = Vec::with_capacity(alloc, list.len())?;
    for member in list {
        all.push(member.uses(alloc)?)?;
    }
    Ok(all)
}

fn ordered<M: Member>(alloc: Global, list: Items<M>) -> Result<Items<M>, OrderFault>
    ensures ordered { IfOk result (IsOrdered M.needing list) }
    ensures fault { IfErr result (IsFault M.needing M.span_of list) }
{
    let all = uses_of(alloc, list.as_slice())?;
    match positions_of(alloc, all.as_slice())? {
        Found::Order(positions) => Ok(picked(alloc, list, positions.as_slice())?),
        Found::Stuck(at) => Err(OrderFault::Circular {
            span: list.as_slice()[at].span(),
        }),
    }
}

/// The statements in dependency order: each stands after those of the list that give a name that it
/// refers to, and of all such orders this one's list of positions is the least, compared from the
/// left. A block refers to what its body, collection or condition refers to from outside, and a
/// call to the names of its arguments and those of `after`. (OpenWDL 1.1, "Workflow Definition",
/// leaves the order to the names.)
///
/// The list is dropped where no such order exists, and the error then has the span of a statement.
pub fn order(alloc: Global, list: Items<Statement>) -> Result<Items<Statement>, OrderFault>
    ensures ordered { IfOk result (IsOrdered statement_needing list) }
    ensures fault { IfErr result (IsFault statement_needing statement_span list) }
{
    ordered(alloc, list)
}

/// The inputs in dependency order, as `order` has it for statements; one without a default refers
/// to nothing.
pub fn order_inputs(alloc: Global, inputs: Items<TInput>) -> Result<Items<TInput>, OrderFault>
    ensures ordered { IfOk result (IsOrdered input_needing inputs) }
    ensures fault { IfErr result (IsFault input_needing input_span inputs) }
{
    ordered(alloc, inputs)
}
