//! Where cells stand, and what a step sees of them.

ghost use Rattle.std.specs.Prelude.{◌≡◌, ◌++◌, ◌<◌, ◌^◌, length, map, IfOk, OnOk};
ghost use Rattle.value_net.specs.Nets.{value_at, view};
ghost use Rattle.wdl_typed.specs.Flow as flow;
ghost use Rattle.net_laws.specs.Net.{known_in};
ghost use Rattle.plan_layout.specs.Cells as slots;
ghost use Rattle.plan_growth.specs.Entering as entering;
ghost use Rattle.plan_room.specs.Reached.{AreReached, IsReached};
ghost use Rattle.plan_bodies.specs.Bases as spec;

use crate::entered::Net;
use plan_layout::Need;
use std::alloc::Global;
use wdl_eval::LentBind;
use wdl_names::Index;
use wdl_value::{Items, NoMemory};

/// The first cell of the innermost instance.
pub fn last_base(bases: &[usize]) -> usize
    requires { 0 < length bases.now }
    ensures { result ≡ spec.last_base bases.now }
{
    bases[bases.len() - 1]
}

/// The cell of what is needed, of the instance whose cells begin at each level where the bases say.
pub fn cell_at(bases: &[usize], need: &Need) -> usize
    requires { IsReached (2 ^ 64) bases.now need.now }
    ensures { result ≡ slots.cell_at bases.now need.now }
{
    bases[need.level] + need.slot
}

/// Adds the cells of what is needed.
fn push_cells(bases: &[usize], needs: &[Need], cells: &mut Items<usize>) -> Result<(), NoMemory>
    requires { AreReached (2 ^ 64) bases.now needs.now }
    ensures { OnOk result (cells.new ≡ cells.old ++ map (slots.cell_at bases.now) needs.now) }
{
    for need in needs {
        cells.push(cell_at(bases, need))?;
    }
    Ok(())
}

/// The cells that a step needs: those of names, and those of calls.
pub fn cells_of(
    alloc: Global,
    bases: &[usize],
    needs: &[Need],
    after: &[Need],
) -> Result<Items<usize>, NoMemory>
    requires needs { AreReached (2 ^ 64) bases.now needs.now }
    requires after { AreReached (2 ^ 64) bases.now after.now }
    ensures { IfOk result (λ cells. cells ≡ entering.cells_of bases.now needs.now after.now) }
{
    let mut cells = Items::new(alloc);
    push_cells(bases, needs, &mut cells)?;
    push_cells(bases, after, &mut cells)?;
    Ok(cells)
}

/// Lends a name with its value, where it is set.
fn bind<'a>(
    bases: &[usize],
    need: &'a Need,
    net: &'a Net,
    env: &mut Index<LentBind<'a>>,
) -> Result<(), NoMemory>
    requires { IsReached (2 ^ 64) bases.now need.now }
    ensures { OnOk result (env.new ≡ env.old ++ flow.bound_by need.now.key (value_at (view net.now).values (slots.cell_at bases.now need.now))) }
{
    let Some(value) = net.value(cell_at(bases, need)) else {
        return Ok(());
    };
    env.push(LentBind {
        key: &need.key,
        value,
    })
}

/// The names that a step needs, with their values, each lent from the layout and the net.
pub fn env_of<'a>(
    alloc: Global,
    bases: &[usize],
    needs: &'a [Need],
    net: &'a Net,
) -> Result<Index<LentBind<'a>>, NoMemory>
    requires { AreReached (2 ^ 64) bases.now needs.now }
    ensures { IfOk result (λ env. env ≡ flow.env_of (map (known_in (value_at (view net.now).values)) (slots.slots_at bases.now needs.now))) }
{
    let mut env = Index::empty(alloc);
    for need in needs {
        bind(bases, need, net, &mut env)?;
    }
    Ok(env)
}
