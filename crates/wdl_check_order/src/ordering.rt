ghost use Rattle.std.specs.Prelude.{◌≡◌, map, IfOk};
ghost use Rattle.wdl_order.specs.Names.{as_needing};
ghost use Rattle.wdl_check_types.specs.Outcome as outcome;
ghost use Rattle.wdl_check_order.specs.Ordered as spec;

use crate::member::Member;
use std::alloc::Global;
use wdl_check_rules::CheckFault;
use wdl_order::{Found, Uses, positions_of};
use wdl_value::{Items, NoMemory};

/// What each member gives and refers to.
fn uses_of<M: Member>(alloc: Global, list: &[&M]) -> Result<Vec<Uses>, NoMemory>
    ensures { IfOk result (λ all. map as_needing all.items ≡ map (λ m. M.needing m.now) list.now) }
{
    let mut all = Vec::with_capacity(alloc, list.len())?;
    for member in list {
        all.push(member.uses(alloc)?)?;
    }
    Ok(all)
}

/// The positions of the members in their dependency order: each stands after those that it needs,
/// and otherwise in the order of the list (OpenWDL 1.1 leaves the order to the names). `Bad` comes
/// with 320 exactly where members need one another in a circle, at the place of a member.
pub fn order_of<M: Member>(alloc: Global, list: &[&M]) -> Result<Items<usize>, CheckFault>
    ensures { outcome.Answers (spec.ordered (map (λ m. M.needing m.now) list.now) (map (λ m. M.span_of m.now) list.now)) result }
{
    let all = uses_of(alloc, list)?;
    match positions_of(alloc, all.as_slice())? {
        Found::Order(positions) => Ok(Items::from_vec(positions)),
        Found::Stuck(at) => Err(CheckFault::Bad {
            code: 320,
            span: list[at].span(),
        }),
    }
}
