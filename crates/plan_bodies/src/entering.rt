//! Bodies that are entered: the cells of an instance, and a step for each of its statements.

ghost use Rattle.std.specs.Prelude.{◌≡◌, ◌++◌, ◌+◌, ◌<◌, IfOk, OnOk};
ghost use Rattle.value_net.specs.Nets.{IsSound, view, with_step};
ghost use Rattle.plan_growth.specs.Entering as entering;
ghost use Rattle.plan_bodies.specs.Plots.{cell_count, plot};
ghost use Rattle.plan_room.specs.Reached.{
  AreDonesNumbers,
  AreReached,
  AreStatementsReached,
  HasRoom,
};

use crate::address::cells_of;
use crate::entered::{Entered, Net};
use plan_growth::{Instance, Rule};
use plan_layout::{BodyLayout, StatementLayout};
use std::alloc::Global;
use wdl_value::{Items, NoMemory, Place};

/// Adds the step of a statement.
fn add_statement(
    alloc: Global,
    rule: Rule,
    bases: &[usize],
    layout: &StatementLayout,
    net: &mut Net,
) -> Result<(), NoMemory>
    requires needs { AreReached (cell_count (view net.old)) bases.now layout.now.needs }
    requires after { AreReached (cell_count (view net.old)) bases.now layout.now.after }
    requires sound { IsSound net.old }
    ensures sound { OnOk result (IsSound net.new) }
    ensures step { OnOk result (view net.new ≡ with_step (view net.old) rule (entering.cells_of bases.now layout.now.needs layout.now.after)) }
{
    let cells = cells_of(
        alloc,
        bases,
        layout.needs.as_slice(),
        layout.after.as_slice(),
    )?;
    net.add_step(rule, cells.as_slice())?;
    Ok(())
}

/// Adds a step for each statement of an instance.
fn add_statements(
    alloc: Global,
    instance: usize,
    bases: &[usize],
    statements: &[StatementLayout],
    net: &mut Net,
) -> Result<(), NoMemory>
    requires reached { AreStatementsReached (cell_count (view net.old)) bases.now statements.now }
    requires sound { IsSound net.old }
    ensures sound { OnOk result (IsSound net.new) }
    ensures steps { OnOk result (view net.new ≡ entering.with_statements instance bases.now 0 statements.now (view net.old)) }
{
    for (statement, layout) in statements.iter().enumerate() {
        let rule = Rule::Statement {
            instance,
            statement,
        };
        add_statement(alloc, rule, bases, layout, net)?;
    }
    Ok(())
}

/// The cells that say that the statements of an instance are done.
pub fn push_dones(
    first: usize,
    statements: &[StatementLayout],
    dones: &mut Items<usize>,
) -> Result<(), NoMemory>
    requires { AreDonesNumbers first statements.now }
    ensures { OnOk result (dones.new ≡ dones.old ++ entering.dones_at first statements.now) }
{
    for statement in statements {
        dones.push(first + statement.done)?;
    }
    Ok(())
}

/// Adds the cells of an instance of a body inside those that begin at these cells, and a step for
/// each of its statements. Answers its first cell.
pub fn add_instance(
    alloc: Global,
    body: usize,
    outer: &[usize],
    place: Place,
    layout: &BodyLayout,
    entered: &mut Entered,
) -> Result<usize, NoMemory>
    requires room { HasRoom (cell_count (view entered.old.net)) outer.now layout.now }
    requires sound { IsSound entered.old.net }
    ensures sound { OnOk result (IsSound entered.new.net) }
    ensures first { IfOk result (λ first. first ≡ cell_count (view entered.old.net)) }
    ensures entered { OnOk result (plot entered.new ≡ entering.with_instance body outer.now place layout.now (plot entered.old)) }
{
    let first = entered.net.add_cells(alloc, layout.cells)?;
    let mut bases = Items::from_slice(alloc, outer)?;
    bases.push(first)?;
    let instance = entered.instances.len();
    let statements = layout.statements.as_slice();
    add_statements(
        alloc,
        instance,
        bases.as_slice(),
        statements,
        &mut entered.net,
    )?;
    entered.instances.push(Instance { body, bases, place })?;
    Ok(first)
}
