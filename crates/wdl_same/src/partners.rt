//! Which task of another form stands for which.

ghost use Rattle.std.specs.Prelude.{◌≡◌, IfOk};
ghost use Rattle.wdl_same.specs.Partners as spec;

use crate::tasks::same_task;
use std::alloc::Global;
use wdl_typed::TaskDef;
use wdl_value::NoMemory;

/// Gives a task its partner, where it has none.
fn pair(partners: &mut Vec<Option<u32>>, number: u32, partner: u32)
    ensures { partners.new.items ≡ spec.paired partners.old.items number partner }
{
    if let Some(None) = partners.get(number as usize) {
        partners[number as usize] = Some(partner);
    }
}

fn pair_all(partners: &mut Vec<Option<u32>>, calls: &[u32], others: &[u32])
    ensures { partners.new.items ≡ spec.all_paired partners.old.items calls.now others.now }
{
    let mut left = others;
    for call in calls {
        let [other, rest @ ..] = left else {
            return;
        };
        pair(partners, *call, *other);
        left = rest;
    }
}

/// For each task the one that the other form calls where this one calls it first.
#[tactic(auto, unfolding(crate::specs::Partners::partners_of))]
pub fn partners_of(
    alloc: Global,
    tasks: &[TaskDef],
    calls: &[u32],
    others: &[u32],
) -> Result<Vec<Option<u32>>, NoMemory>
    ensures { IfOk result (λ p. p.items ≡ spec.partners_of tasks.now calls.now others.now) }
{
    let mut partners = Vec::from_elem(alloc, None, tasks.len())?;
    pair_all(&mut partners, calls, others);
    Ok(partners)
}

/// Whether the second is the partner of the first.
pub fn is_partner(partners: &[Option<u32>], number: u32, other: u32) -> bool
    ensures { result ≡ spec.is_partner partners.now number other }
{
    match partners.get(number as usize) {
        Some(Some(partner)) => *partner == other,
        _ => false,
    }
}

fn same_partner(others: &[TaskDef], task: &TaskDef, partner: Option<u32>) -> bool
    ensures { result ≡ spec.same_partner others.now task.now partner }
{
    let Some(number) = partner else {
        return true;
    };
    match others.get(number as usize) {
        Some(other) => same_task(task, other),
        None => false,
    }
}

/// Whether each task that has a partner among the others is the same as that, but for its name and
/// spans.
pub fn same_partners(others: &[TaskDef], tasks: &[TaskDef], partners: &[Option<u32>]) -> bool
    ensures { result ≡ spec.same_partners others.now tasks.now partners.now }
{
    let mut left = partners;
    for task in tasks {
        let [partner, rest @ ..] = left else {
            return false;
        };
        if !same_partner(others, task, *partner) {
            return false;
        }
        left = rest;
    }
    left.is_empty()
}
