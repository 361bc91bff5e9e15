//! Cells that are made of others: gathered names, calls that ended at each item, and what is inside
//! a block under its name outside.

ghost use Rattle.std.specs.Prelude.{◌≡◌, ◌+◌, ◌<◌, ◌≤◌, true, Some, map, length, IfOk, OnOk};
ghost use Rattle.wdl_value.specs.declared.value.Value.TheVariants as kind;
ghost use Rattle.wdl_typed.specs.Flow.{all_values};
ghost use Rattle.value_net.specs.Nets.{IsSound, are_set, is_set, value_at, view, with_value};
ghost use Rattle.plan_growth.specs.Entering.{
  beyond_each,
  with_absent,
  with_copies,
  with_ends,
  with_gathers,
};
ghost use Rattle.plan_bodies.specs.Joined.{AreFollowed, AreNumbers, IsCopied, IsGathered, needs_at};
ghost use Rattle.plan_bodies.specs.Plots.{cell_count};

use crate::entered::Net;
use plan_growth::Rule;
use std::alloc::Global;
use wdl_eval::Measured;
use wdl_value::{Items, NoMemory, Value};

/// A copy of the value of a cell that is set.
fn value_of(alloc: Global, net: &Net, cell: usize) -> Result<Value, NoMemory>
    requires { is_set (view net.now).values cell ≡ true }
    ensures { IfOk result (λ value. value_at (view net.now).values cell ≡ Some value) }
{
    match net.value(cell) {
        Some(value) => value.get().copy(alloc),
        None => unreachable!(),
    }
}

/// The values of these cells, which are set.
fn values_of(alloc: Global, net: &Net, cells: &[usize]) -> Result<Items<Value>, NoMemory>
    requires { are_set (view net.now).values cells.now ≡ true }
    ensures { IfOk result (λ values. all_values (map (value_at (view net.now).values) cells.now) ≡ Some values) }
{
    let mut values = Items::new(alloc);
    for cell in cells {
        values.push(value_of(alloc, net, *cell)?)?;
    }
    Ok(values)
}

/// Sets a cell to the list of the values that the step needs.
pub fn gather(alloc: Global, step: usize, into: usize, net: &mut Net) -> Result<(), NoMemory>
    requires step { step < length (view net.old).steps }
    requires into { into < cell_count (view net.old) }
    requires set { are_set (view net.old).values (needs_at (view net.old) step) ≡ true }
    requires sound { IsSound net.old }
    ensures sound { OnOk result (IsSound net.new) }
    ensures gathered { OnOk result (IsGathered (view net.old) step into (view net.new)) }
{
    let values = values_of(alloc, net, net.needs_of(step))?;
    net.set(into, Measured::new(Value::List(values)))?;
    Ok(())
}

/// Sets a cell that says that something has ended.
pub fn end(into: usize, net: &mut Net) -> Result<(), NoMemory>
    requires into { into < cell_count (view net.old) }
    requires sound { IsSound net.old }
    ensures sound { OnOk result (IsSound net.new) }
    ensures ended { OnOk result (view net.new ≡ with_value (view net.old) into kind.Absent) }
{
    net.set(into, Measured::new(Value::Absent))?;
    Ok(())
}

/// Sets a cell to the value that the step needs.
pub fn copy(alloc: Global, step: usize, into: usize, net: &mut Net) -> Result<(), NoMemory>
    requires step { step < length (view net.old).steps }
    requires into { into < cell_count (view net.old) }
    requires one { 0 < length (needs_at (view net.old) step) }
    requires set { are_set (view net.old).values (needs_at (view net.old) step) ≡ true }
    requires sound { IsSound net.old }
    ensures sound { OnOk result (IsSound net.new) }
    ensures copied { OnOk result (IsCopied (view net.old) step into (view net.new)) }
{
    let value = value_of(alloc, net, net.needs_of(step)[0])?;
    net.set(into, Measured::new(value))?;
    Ok(())
}

/// The cells at a distance from each of these.
fn cells_beyond(
    alloc: Global,
    firsts: &[usize],
    inner: usize,
    k: usize,
) -> Result<Items<usize>, NoMemory>
    requires { AreNumbers firsts.now (inner + k) }
    ensures { IfOk result (λ cells. cells ≡ beyond_each firsts.now (inner + k)) }
{
    let mut cells = Items::new(alloc);
    for first in firsts {
        cells.push(*first + (inner + k))?;
    }
    Ok(cells)
}

/// Adds the steps that gather so many names of the instances that begin at these cells.
pub fn gather_names(
    alloc: Global,
    firsts: &[usize],
    inner: usize,
    base: usize,
    outer: usize,
    count: usize,
    net: &mut Net,
) -> Result<(), NoMemory>
    requires outer { 0 < count → base + outer + count ≤ cell_count (view net.old) }
    requires firsts { AreFollowed (cell_count (view net.old)) firsts.now (inner + count) }
    requires sound { IsSound net.old }
    ensures sound { OnOk result (IsSound net.new) }
    ensures gathers { OnOk result (view net.new ≡ with_gathers firsts.now inner (base + outer) count (view net.old)) }
{
    for k in 0..count {
        let cells = cells_beyond(alloc, firsts, inner, k)?;
        net.add_step(
            Rule::Gathers {
                into: base + outer + k,
            },
            cells.as_slice(),
        )?;
    }
    Ok(())
}

/// Adds the steps that end so many calls of the instances that begin at these cells.
pub fn end_calls(
    alloc: Global,
    firsts: &[usize],
    inner: usize,
    base: usize,
    outer: usize,
    count: usize,
    net: &mut Net,
) -> Result<(), NoMemory>
    requires outer { 0 < count → base + outer + count ≤ cell_count (view net.old) }
    requires firsts { AreFollowed (cell_count (view net.old)) firsts.now (inner + count) }
    requires sound { IsSound net.old }
    ensures sound { OnOk result (IsSound net.new) }
    ensures ends { OnOk result (view net.new ≡ with_ends firsts.now inner (base + outer) count (view net.old)) }
{
    for k in 0..count {
        let cells = cells_beyond(alloc, firsts, inner, k)?;
        net.add_step(
            Rule::Ends {
                into: base + outer + k,
            },
            cells.as_slice(),
        )?;
    }
    Ok(())
}

/// Adds the steps that copy so many cells of an instance that begins at the first, to cells of the
/// one that begins at the base.
pub fn copy_cells(
    first: usize,
    inner: usize,
    base: usize,
    outer: usize,
    count: usize,
    net: &mut Net,
) -> Result<(), NoMemory>
    requires inner { 0 < count → first + inner + count ≤ cell_count (view net.old) }
    requires outer { 0 < count → base + outer + count ≤ cell_count (view net.old) }
    requires sound { IsSound net.old }
    ensures sound { OnOk result (IsSound net.new) }
    ensures copies { OnOk result (view net.new ≡ with_copies (first + inner) (base + outer) count (view net.old)) }
{
    for k in 0..count {
        let into = base + outer + k;
        net.add_step(Rule::Copies { into }, &[first + inner + k])?;
    }
    Ok(())
}

/// Makes so many cells undefined.
pub fn set_absent(base: usize, first: usize, count: usize, net: &mut Net) -> Result<(), NoMemory>
    requires cells { 0 < count → base + first + count ≤ cell_count (view net.old) }
    requires sound { IsSound net.old }
    ensures sound { OnOk result (IsSound net.new) }
    ensures absent { OnOk result (view net.new ≡ with_absent (base + first) count (view net.old)) }
{
    for k in 0..count {
        net.set(base + first + k, Measured::new(Value::Absent))?;
    }
    Ok(())
}
