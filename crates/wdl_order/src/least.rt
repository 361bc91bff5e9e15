ghost use Rattle.std.specs.Prelude.{length, IfOk};
ghost use Rattle.wdl_order.specs.Rows.{AreWithin, has};
ghost use Rattle.wdl_order.specs.Working.{Answers};

use crate::working::{Working, take_first};
use sqlite_items::Items;
use std::alloc::Global;
use wdl_base::NoMemory;

/// What is found for the members of a list, by their positions.
#[derive(Drop)]
pub enum Found {
    /// All of them, in order.
    Order(Vec<usize>),
    /// One of them, where no order exists.
    Stuck(usize),
}

/// The least order of members in which each stands after those that it needs: again and again the
/// first in number of those that are ready. Where none is ready, each of the rest needs another of
/// the rest.
pub fn least_order(alloc: Global, needs: Vec<Items<usize>>) -> Result<Found, NoMemory>
    requires { AreWithin needs.items }
    ensures { IfOk result (Answers (length needs.items) (has needs.items)) }
{
    let count = needs.len();
    let mut work = Working::new(alloc, needs)?;
    let mut order = Vec::with_capacity(alloc, count)?;
    for _ in 0..count {
        let Some(member) = take_first(&mut work.ready) else {
            return Ok(Found::Stuck(work.on_circle()));
        };
        order.push(member)?;
        work.place(alloc, member)?;
    }
    Ok(Found::Order(order))
}
