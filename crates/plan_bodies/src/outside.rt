//! What blocks that were entered give out, under its names outside.

ghost use Rattle.std.specs.Prelude.{◌≡◌, ◌+◌, ◌<◌, IfOk, OnOk};
ghost use Rattle.std.specs.List.{All};
ghost use Rattle.value_net.specs.Nets.{IsSound, view};
ghost use Rattle.plan_growth.specs.Blocks.{with_copied, with_gathered, with_nothing};
ghost use Rattle.plan_growth.specs.Entering as entering;
ghost use Rattle.plan_bodies.specs.Joined.{AreFollowed};
ghost use Rattle.plan_bodies.specs.Plots.{cell_count};
ghost use Rattle.plan_room.specs.Reached.{AreDonesNumbers};
ghost use Rattle.plan_room.specs.Room.{HasInner, HasRuns};

use crate::entered::Net;
use crate::entering::push_dones;
use crate::joints::{copy_cells, end_calls, gather_names, set_absent};
use plan_growth::Rule;
use plan_layout::{BodyLayout, StatementLayout};
use std::alloc::Global;
use wdl_eval::Measured;
use wdl_value::{Items, NoMemory, Value};

/// The cells that say that the statements of all these instances of a body are done.
fn all_dones(
    alloc: Global,
    firsts: &[usize],
    statements: &[StatementLayout],
) -> Result<Items<usize>, NoMemory>
    requires { All (λ first. AreDonesNumbers first statements.now) firsts.now }
    ensures { IfOk result (λ dones. dones ≡ entering.all_dones statements.now firsts.now) }
{
    let mut dones = Items::new(alloc);
    for first in firsts {
        push_dones(*first, statements, &mut dones)?;
    }
    Ok(dones)
}

/// Adds the steps that gather what the instances of a scatter's body give out, which begin at these
/// cells.
pub fn gather_block(
    alloc: Global,
    firsts: &[usize],
    inner: &BodyLayout,
    layout: &StatementLayout,
    base: usize,
    net: &mut Net,
) -> Result<(), NoMemory>
    requires firsts { AreFollowed (cell_count (view net.old)) firsts.now inner.now.cells }
    requires runs { HasRuns (cell_count (view net.old)) base layout.now }
    requires inner { HasInner layout.now inner.now }
    requires sound { IsSound net.old }
    ensures sound { OnOk result (IsSound net.new) }
    ensures gathered { OnOk result (view net.new ≡ with_gathered firsts.now inner.now layout.now base (view net.old)) }
{
    let dones = all_dones(alloc, firsts, inner.statements.as_slice())?;
    let (from, names) = (inner.first_name, layout.names);
    gather_names(alloc, firsts, from, base, layout.first_name, names, net)?;
    let (from, calls) = (inner.first_call, layout.calls);
    end_calls(alloc, firsts, from, base, layout.first_call, calls, net)?;
    let into = base + layout.done;
    net.add_step(Rule::Ends { into }, dones.as_slice())?;
    Ok(())
}

/// Adds the steps that copy what the instance of a condition's body gives out, which begins at this
/// cell.
pub fn copy_block(
    alloc: Global,
    first: usize,
    inner: &BodyLayout,
    layout: &StatementLayout,
    base: usize,
    net: &mut Net,
) -> Result<(), NoMemory>
    requires first { first + inner.now.cells < cell_count (view net.old) + 1 }
    requires runs { HasRuns (cell_count (view net.old)) base layout.now }
    requires inner { HasInner layout.now inner.now }
    requires sound { IsSound net.old }
    ensures sound { OnOk result (IsSound net.new) }
    ensures copied { OnOk result (view net.new ≡ with_copied first inner.now layout.now base (view net.old)) }
{
    let mut dones = Items::new(alloc);
    push_dones(first, inner.statements.as_slice(), &mut dones)?;
    copy_cells(
        first,
        inner.first_name,
        base,
        layout.first_name,
        layout.names,
        net,
    )?;
    copy_cells(
        first,
        inner.first_call,
        base,
        layout.first_call,
        layout.calls,
        net,
    )?;
    let into = base + layout.done;
    net.add_step(Rule::Ends { into }, dones.as_slice())?;
    Ok(())
}

/// Each name outside a condition that is false is undefined, and each call has ended.
pub fn pass_by(layout: &StatementLayout, base: usize, net: &mut Net) -> Result<(), NoMemory>
    requires runs { HasRuns (cell_count (view net.old)) base layout.now }
    requires sound { IsSound net.old }
    ensures sound { OnOk result (IsSound net.new) }
    ensures absent { OnOk result (view net.new ≡ with_nothing layout.now base (view net.old)) }
{
    set_absent(base, layout.first_name, layout.names, net)?;
    set_absent(base, layout.first_call, layout.calls, net)?;
    net.set(base + layout.done, Measured::new(Value::Absent))?;
    Ok(())
}
