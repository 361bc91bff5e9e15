//! What each document offers.

ghost use Rattle.std.specs.Prelude.{◌≡◌, ◌+◌, ◌≤◌, length, take, drop, map, IfOk};
ghost use Rattle.wdl_check_flow.specs.Targets.{offer_of};
ghost use Rattle.wdl_check_doc.specs.Offers as spec;
ghost use Rattle.wdl_check_doc.specs.Parts.{part_of};
ghost use Rattle.wdl_check_doc.specs.Tables as held;

use crate::numbered_doc::Part;
use crate::runnable::{count_flows, count_tasks};
use std::alloc::Global;
use wdl_check_flow::Callable;
use wdl_names::Indexed;
use wdl_value::NoMemory;

/// The tasks of a document, and with them its workflow.
#[derive(Drop)]
pub struct Table<'c, 'o> {
    pub own: &'c [Callable<'o>],
    pub all: Vec<Callable<'o>>,
}

/// The same, with all of them by an index.
#[derive(Drop)]
pub struct Reaching<'c, 'o, 't> {
    pub own: &'c [Callable<'o>],
    pub all: Indexed<'t, Callable<'o>>,
}

/// So many of the list from a place on, or all that stand there.
fn run_at<'c, 'o>(callables: &'c [Callable<'o>], from: usize, count: usize) -> &'c [Callable<'o>]
    requires { from ≤ length callables.now }
    ensures run { map offer_of result.now ≡ take count (drop from (map offer_of callables.now)) }
    ensures rest { drop (from + length result.now) (map offer_of callables.now) ≡ drop count (drop from (map offer_of callables.now)) }
    ensures within { from + length result.now ≤ length callables.now }
{
    let left = &callables[from..];
    &left[..count.min(left.len())]
}

fn table_of<'c, 'o>(
    alloc: Global,
    own: &'c [Callable<'o>],
    flows: &'c [Callable<'o>],
) -> Result<Table<'c, 'o>, NoMemory>
    ensures { IfOk result (λ t. held.table_of t ≡ spec.table (map offer_of own.now) (map offer_of flows.now)) }
{
    let mut all = Vec::new(alloc);
    all.extend_from_slice(own)?;
    all.extend_from_slice(flows)?;
    Ok(Table { own, all })
}

/// What each document offers: the tasks and workflows stand by document, in the order of the text.
pub fn tables_of<'c, 'o>(
    alloc: Global,
    parts: &[Part],
    tasks: &'c [Callable<'o>],
    flows: &'c [Callable<'o>],
) -> Result<Vec<Table<'c, 'o>>, NoMemory>
    ensures { IfOk result (λ ts. map held.table_of ts.items ≡ spec.tables (map part_of parts.now) (map offer_of tasks.now) (map offer_of flows.now)) }
{
    let mut tables = Vec::new(alloc);
    let mut task = 0;
    let mut flow = 0;
    for part in parts {
        let sections = part.doc.document.sections.as_slice();
        let own = run_at(tasks, task, count_tasks(sections));
        let own_flows = run_at(flows, flow, count_flows(sections));
        tables.push(table_of(alloc, own, own_flows)?)?;
        task += own.len();
        flow += own_flows.len();
    }
    Ok(tables)
}

fn reaching_of<'c, 'o, 't>(
    alloc: Global,
    table: &'t Table<'c, 'o>,
) -> Result<Reaching<'c, 'o, 't>, NoMemory>
    ensures { IfOk result (λ r. held.reaching_of r ≡ held.table_of table.now) }
{
    let all = Indexed::new(alloc, table.all.as_slice())?;
    Ok(Reaching {
        own: table.own,
        all,
    })
}

/// The same, by indices.
pub fn reachings_of<'c, 'o, 't>(
    alloc: Global,
    tables: &'t [Table<'c, 'o>],
) -> Result<Vec<Reaching<'c, 'o, 't>>, NoMemory>
    ensures { IfOk result (λ rs. map held.reaching_of rs.items ≡ map held.table_of tables.now) }
{
    let mut all = Vec::new(alloc);
    for table in tables {
        all.push(reaching_of(alloc, table)?)?;
    }
    Ok(all)
}
