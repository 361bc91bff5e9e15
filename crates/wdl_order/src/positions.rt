ghost use Rattle.std.specs.Prelude.{map, IfOk};
ghost use Rattle.wdl_order.specs.Names.{as_needing};
ghost use Rattle.wdl_order.specs.Outcome.{Orders};

use crate::givers::needs_of;
use crate::least::{Found, least_order};
use crate::uses::Uses;
use std::alloc::Global;
use wdl_value::NoMemory;

/// The positions of the members of a list in their dependency order: each stands after those that
/// give a name that it refers to, and of all such orders this one's list of positions is the least,
/// compared from the left (OpenWDL 1.1, "Workflow Definition", leaves the order to the names).
/// `Found::Stuck` comes exactly where no such order exists.
pub fn positions_of(alloc: Global, all: &[Uses]) -> Result<Found, NoMemory>
    ensures { IfOk result (Orders (map as_needing all.now)) }
{
    let needs = needs_of(alloc, all)?;
    let found = least_order(alloc, needs)?;
    Ok(found)
}
