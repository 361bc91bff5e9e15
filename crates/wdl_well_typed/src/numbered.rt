//! The numbers of blocks.

ghost use Rattle.std.specs.Prelude.{◌≡◌, ◌&&◌, [], IfOk};
ghost use Rattle.wdl_typed.specs.Bodies as bodies;
ghost use Rattle.wdl_typed.specs.Lists as lists;
ghost use Rattle.wdl_well_typed.specs.Numbers as spec;

use sqlite_items::Items;
use std::alloc::Global;
use wdl_names::Places;
use wdl_typed::Statement;
use wdl_value::NoMemory;

fn are_below(most: usize, numbers: &[u32]) -> bool
    ensures { result ≡ lists.are_below most numbers.now }
{
    for number in numbers {
        if *number as usize >= most {
            return false;
        }
    }
    true
}

/// Whether no number stands twice.
fn numbers_differ(alloc: Global, numbers: &[u32]) -> Result<bool, NoMemory>
    ensures { IfOk result (λ b. b ≡ spec.fresh_numbers [] numbers.now) }
{
    let mut seen = Places::empty(alloc);
    for number in numbers {
        let number = *number as u64;
        if seen.place(number) < seen.len() {
            return Ok(false);
        }
        seen.push(number)?;
    }
    Ok(true)
}

/// Whether the numbers are those from 0 on, each once, in any order.
fn are_counted(alloc: Global, numbers: &[u32]) -> Result<bool, NoMemory>
    ensures { IfOk result (λ b. b ≡ lists.are_counted numbers.now) }
{
    if !are_below(numbers.len(), numbers) {
        return Ok(false);
    }
    numbers_differ(alloc, numbers)
}

/// The numbers of the scatters of a body.
fn scatter_numbers(alloc: Global, body: &[Statement]) -> Result<Items<u32>, NoMemory>
    ensures { IfOk result (λ ns. ns ≡ spec.scatter_numbers body.now) }
{
    let mut numbers = Items::new(alloc);
    for statement in body {
        if let Statement::Scatter(s) = statement {
            numbers.push(s.number)?;
        }
    }
    Ok(numbers)
}

/// The numbers of the conditions of a body.
fn condition_numbers(alloc: Global, body: &[Statement]) -> Result<Items<u32>, NoMemory>
    ensures { IfOk result (λ ns. ns ≡ spec.condition_numbers body.now) }
{
    let mut numbers = Items::new(alloc);
    for statement in body {
        if let Statement::If(i) = statement {
            numbers.push(i.number)?;
        }
    }
    Ok(numbers)
}

fn blocks_are_counted(alloc: Global, body: &[Statement]) -> Result<bool, NoMemory>
    ensures { IfOk result (λ b. b ≡ (lists.are_counted (spec.scatter_numbers body.now) && lists.are_counted (spec.condition_numbers body.now))) }
{
    let scatters = scatter_numbers(alloc, body)?;
    let conditions = condition_numbers(alloc, body)?;
    Ok(are_counted(alloc, scatters.as_slice())? && are_counted(alloc, conditions.as_slice())?)
}

/// Whether the scatters of a body are numbered from 0 on, and so its conditions, in the bodies in
/// it too.
#[cycle(numbered)]
pub fn is_numbered(alloc: Global, body: &[Statement]) -> Result<bool, NoMemory>
    ensures { IfOk result (λ b. b ≡ bodies.is_numbered body.now) }
{
    Ok(blocks_are_counted(alloc, body)? && all_numbered(alloc, body)?)
}

#[cycle(numbered)]
fn all_numbered(alloc: Global, body: &[Statement]) -> Result<bool, NoMemory>
    ensures { IfOk result (λ b. b ≡ spec.all_numbered body.now) }
{
    for statement in body {
        if !inside_is_numbered(alloc, statement)? {
            return Ok(false);
        }
    }
    Ok(true)
}

#[cycle(numbered)]
fn inside_is_numbered(alloc: Global, statement: &Statement) -> Result<bool, NoMemory>
    ensures { IfOk result (λ b. b ≡ spec.inside_numbered statement.now) }
{
    match statement {
        Statement::Scatter(s) => is_numbered(alloc, s.body.as_slice()),
        Statement::If(i) => is_numbered(alloc, i.body.as_slice()),
        _ => Ok(true),
    }
}
