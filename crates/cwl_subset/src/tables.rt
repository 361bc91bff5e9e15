//! Tables of the lowest broken rules of what workflows call.

ghost use Rattle.std.specs.Prelude.{◌≡◌, IfOk, slice_get};
ghost use Rattle.cwl_subset.specs.Tables as spec;

use cwl_image::Broken;
use cwl_rules::lower;
use sqlite_items::{Items, at};
use std::alloc::Global;
use wdl_typed::{FlowDef, Statement, Target};
use wdl_value::NoMemory;

/// More than the most calls that stand on one path.
const LEVELS: usize = 25;

/// The entry of that place.
pub fn entry(table: &[Option<Broken>], place: usize) -> Option<Broken>
    ensures { result ≡ spec.entry (slice_get table.now place) }
{
    match at(table, place) {
        Some(entry) => *entry,
        None => None,
    }
}

/// The entry of what a call names.
fn target_entry(
    target: Target,
    tasks: &[Option<Broken>],
    flows: &[Option<Broken>],
) -> Option<Broken>
    ensures { result ≡ spec.target_entry tasks.now flows.now target }
{
    match target {
        Target::Task(number) => entry(tasks, number as usize),
        Target::Flow(number) => entry(flows, number as usize),
    }
}

#[cycle(called)]
fn called_by(
    statement: &Statement,
    tasks: &[Option<Broken>],
    flows: &[Option<Broken>],
) -> Option<Broken>
    ensures { result ≡ spec.called_by (spec.target_entry tasks.now flows.now) statement.now }
{
    match statement {
        Statement::Decl(_) => None,
        Statement::Call(c) => target_entry(c.target, tasks, flows),
        Statement::Scatter(s) => called_entry(s.body.as_slice(), tasks, flows),
        Statement::If(i) => called_entry(i.body.as_slice(), tasks, flows),
    }
}

/// The lowest rule that is broken in what the statements call.
#[tactic(auto, using(cwl_rules::proofs::LowestLemmas::lower_assoc, cwl_rules::proofs::LowestLemmas::lower_none))]
#[cycle(called)]
fn called_entry(
    body: &[Statement],
    tasks: &[Option<Broken>],
    flows: &[Option<Broken>],
) -> Option<Broken>
    ensures { result ≡ spec.called_entry (spec.target_entry tasks.now flows.now) body.now }
{
    let mut found = None;
    for statement in body {
        found = lower(found, called_by(statement, tasks, flows));
    }
    found
}

/// A table without broken rules.
fn first_table(alloc: Global, flows: &[FlowDef]) -> Result<Items<Option<Broken>>, NoMemory>
    ensures { IfOk result (λ t. t ≡ spec.first_table flows.now) }
{
    let mut table = Items::new(alloc);
    for _flow in flows {
        table.push(None)?;
    }
    Ok(table)
}

/// The table that is one call deeper.
fn next_table(
    alloc: Global,
    flows: &[FlowDef],
    own: &[Option<Broken>],
    tasks: &[Option<Broken>],
    below: &[Option<Broken>],
) -> Result<Items<Option<Broken>>, NoMemory>
    ensures { IfOk result (λ t. t ≡ spec.next_table (spec.target_entry tasks.now below.now) flows.now own.now) }
{
    let mut table = Items::new(alloc);
    let mut left = own;
    for flow in flows {
        let [first, rest @ ..] = left else {
            return Ok(table);
        };
        table.push(lower(*first, called_entry(flow.body.as_slice(), tasks, below)))?;
        left = rest;
    }
    Ok(table)
}

/// For each workflow the lowest rule that is broken in it or in what it reaches.
#[tactic(auto, using(crate::proofs::TableLemmas::table_first, crate::proofs::TableLemmas::table_next))]
pub fn reached_table(
    alloc: Global,
    flows: &[FlowDef],
    own: &[Option<Broken>],
    tasks: &[Option<Broken>],
) -> Result<Items<Option<Broken>>, NoMemory>
    ensures { IfOk result (λ t. t ≡ spec.table_at flows.now own.now tasks.now 25) }
{
    let mut table = first_table(alloc, flows)?;
    for _level in 0..LEVELS {
        table = next_table(alloc, flows, own, tasks, table.as_slice())?;
    }
    Ok(table)
}
