//! How many blocks and calls stand on a path: level by level, each in time linear in the
//! statements.

ghost use Rattle.std.specs.Prelude.{◌≡◌, ◌+◌, ◌<◌, ◌≤◌, IfOk, OnOk, slice_get};
ghost use Rattle.wdl_typed.specs.declared.flow.Statement.{out-Statement};
ghost use Rattle.wdl_typed.specs.Bodies as bodies;
ghost use Rattle.wdl_depths.specs.Levels.{holds, nesting_level};

use crate::limits::MOST_BLOCKS;
use sqlite_items::{Items, at};
use std::alloc::Global;
use std::marker::Model;
use wdl_typed::{FlowDef, Statement, Target};
use wdl_value::NoMemory;

/// For each level below a number, and each workflow, whether at most that many blocks and calls
/// stand on each path through the workflow.
#[derive(Drop)]
pub struct Levels<'a> {
    flows: &'a [FlowDef],
    tables: Items<Items<bool>>,
}

impl<'a> Model for Levels<'a> {
    ghost use Rattle.std.specs.Prelude.{◌≡◌, ℕ, List, length};
    ghost use Rattle.wdl_typed.specs.declared.flow.FlowDef.{FlowDef};
    ghost use Rattle.wdl_depths.specs.Levels.{nesting_levels};

    ghost Value = { List FlowDef × ℕ };

    ghost use Rattle.std.specs.Coded.{codes};
    ghost use Rattle.wdl_typed.specs.contracts.flow.FlowDef as flow;

    ghost coded = { Prim.hlevel (codes, flow.the_row.coded) };

    ghost view = { λ l. (l.flows.now, length l.tables) };

    ghost invariant = { λ l. l.tables ≡ nesting_levels l.flows.now (length l.tables) };
}

/// Whether the test of that place was made and held.
fn holds_at(table: &[bool], place: usize) -> bool
    ensures { result ≡ holds (slice_get table.now place) }
{
    match at(table, place) {
        Some(test) => *test,
        None => false,
    }
}

fn is_decl(statement: &Statement) -> bool
    ensures { result ≡ bodies.is_decl (out-Statement statement.now) }
{
    matches!(statement, Statement::Decl(_))
}

impl<'a> Levels<'a> {
    /// No level.
    pub fn empty(alloc: Global, flows: &'a [FlowDef]) -> Levels<'a>
        ensures { result ≡ (flows.now, 0) }
    {
        Levels {
            flows,
            tables: Items::new(alloc),
        }
    }

    /// Whether the workflow of that number is there, and at most `level` blocks and calls stand on
    /// each path through it.
    fn flow_nests(&self, level: usize, number: u32) -> bool
        requires { level < self.now.1 }
        ensures { result ≡ bodies.flow_nests (bodies.body_nests self.now.0 level) (slice_get self.now.0 number) }
    {
        match at(self.tables.as_slice(), level) {
            Some(table) => holds_at(table.as_slice(), number as usize),
            None => false,
        }
    }

    /// The same of what a call names. A task has no path.
    fn target_nests(&self, level: usize, target: Target) -> bool
        requires { level < self.now.1 }
        ensures { result ≡ bodies.target_nests (bodies.body_nests self.now.0 level) self.now.0 target }
    {
        match target {
            Target::Task(_) => true,
            Target::Flow(number) => self.flow_nests(level, number),
        }
    }

    /// For each workflow whether at most as many blocks and calls as there are levels stand on each
    /// path through it.
    fn next_table(&self, alloc: Global) -> Result<Items<bool>, NoMemory>
        ensures { IfOk result (λ t. t ≡ nesting_level self.now.0 self.now.1) }
    {
        let mut table = Items::new(alloc);
        for flow in self.flows {
            table.push(body_nests(flow.body.as_slice(), self, self.tables.len()))?;
        }
        Ok(table)
    }

    /// Adds the next level.
    pub fn deepen(&mut self, alloc: Global) -> Result<(), NoMemory>
        ensures { OnOk result (self.new ≡ (self.old.0, self.old.1 + 1)) }
    {
        let table = self.next_table(alloc)?;
        self.tables.push(table)?;
        Ok(())
    }
}

/// Whether at most `level` blocks and calls stand on each path through the statement.
#[tactic(auto, using(crate::proofs::LevelLemmas::nests_none, crate::proofs::LevelLemmas::nests_next))]
#[cycle(nests)]
pub fn nests(statement: &Statement, levels: &Levels, level: usize) -> bool
    requires { level ≤ levels.now.1 }
    ensures { result ≡ bodies.nests levels.now.0 level (out-Statement statement.now) }
{
    if level == 0 {
        is_decl(statement)
    } else {
        nests_below(statement, levels, level - 1)
    }
}

/// Whether at most one more than `below` stand on each path through the statement.
#[cycle(nests)]
fn nests_below(statement: &Statement, levels: &Levels, below: usize) -> bool
    requires { below < levels.now.1 }
    ensures { result ≡ bodies.nests_at (bodies.body_nests levels.now.0 below) levels.now.0 (out-Statement statement.now) }
{
    match statement {
        Statement::Decl(_) => true,
        Statement::Call(c) => levels.target_nests(below, c.target),
        Statement::Scatter(s) => body_nests(s.body.as_slice(), levels, below),
        Statement::If(i) => body_nests(i.body.as_slice(), levels, below),
    }
}

/// Whether at most `level` blocks and calls stand on each path through the statements of a body.
#[cycle(nests)]
pub fn body_nests(body: &[Statement], levels: &Levels, level: usize) -> bool
    requires { level ≤ levels.now.1 }
    ensures { result ≡ bodies.body_nests levels.now.0 level body.now }
{
    for statement in body {
        if !nests(statement, levels, level) {
            return false;
        }
    }
    true
}

/// The levels below 24 of the workflows of a library.
pub fn levels_of<'a>(alloc: Global, flows: &'a [FlowDef]) -> Result<Levels<'a>, NoMemory>
    ensures { IfOk result (λ l. l ≡ (flows.now, 24)) }
{
    let mut levels = Levels::empty(alloc, flows);
    for _level in 0..MOST_BLOCKS {
        levels.deepen(alloc)?;
    }
    Ok(levels)
}
