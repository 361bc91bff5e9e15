//! What statements see, and the slots of what they give out.

ghost use Rattle.std.specs.Prelude.{◌≡◌, ◌+◌, ◌++◌, ◌∷◌, [], ℕ, List, length, take, IfOk, OnOk};
ghost use Rattle.wdl_typed.specs.Declarations as declarations;
ghost use Rattle.net_laws.specs.Growing.{body_given};
ghost use Rattle.wdl_flow.specs.Views.{given_of};
ghost use Rattle.plan_layout.specs.Spots as spec;
ghost use Rattle.plan_layout.specs.Steps.{lib_of};

use crate::layout::Need;
use crate::spots::Spots;
use std::alloc::Global;
use wdl_flow::Yielded;
use wdl_typed::{Checked, Statement};
use wdl_value::{Items, Key, Name, NoMemory};

/// The sum, where it is a number of the machine; no memory holds more.
fn sum(a: usize, b: usize) -> Result<usize, NoMemory>
    ensures { IfOk result (λ n. n ≡ a + b) }
{
    match a.checked_add(b) {
        Some(total) => Ok(total),
        None => Err(NoMemory),
    }
}

/// The workflow that is laid out, by its number in a checked form.
#[derive(Clone, Copy)]
pub struct Origin<'a> {
    pub checked: &'a Checked,
    pub flow: usize,
}

/// The names and calls that the statements of a body give out.
pub fn given_in<'a>(
    alloc: Global,
    body: &[Statement],
    origin: &Origin<'a>,
) -> Result<Yielded, NoMemory>
    ensures { IfOk result (λ g. given_of g ≡ body_given (lib_of origin.now) body.now) }
{
    let mut given = Yielded::empty(alloc);
    given.add_body(alloc, body, origin.checked)?;
    Ok(given)
}

/// The runs of slots of a body: the names and the calls that its statements give out.
#[derive(Clone, Copy)]
pub struct Runs {
    pub first_name: usize,
    pub names: usize,
    pub first_call: usize,
    pub calls: usize,
}

/// The next slots that are free: of a name, of a call, and of a block.
#[derive(Clone, Copy)]
pub struct Next {
    pub name: usize,
    pub call: usize,
    pub done: usize,
}

impl Runs {
    /// The runs of a body that has so many names before those of its statements, and after them.
    pub fn of<'a>(
        alloc: Global,
        body: &[Statement],
        before: usize,
        after: usize,
        origin: &Origin<'a>,
    ) -> Result<Runs, NoMemory>
        ensures { IfOk result (λ r. r ≡ record { first_name = before; names = length (body_given (lib_of origin.now) body.now).keys; first_call = before + length (body_given (lib_of origin.now) body.now).keys + after; calls = length (body_given (lib_of origin.now) body.now).calls }) }
    {
        let given = given_in(alloc, body, origin)?;
        let names = given.keys.len();
        let calls = given.calls.len();
        let first_call = sum(sum(before, names)?, after)?;
        Ok(Runs {
            first_name: before,
            names,
            first_call,
            calls,
        })
    }

    /// The slots of the first statement.
    pub fn first(&self) -> Result<Next, NoMemory>
        ensures { IfOk result (λ n. n ≡ record { name = self.now.first_name; call = self.now.first_call; done = self.now.first_call + self.now.calls }) }
    {
        let done = sum(self.first_call, self.calls)?;
        Ok(Next {
            name: self.first_name,
            call: self.first_call,
            done,
        })
    }
}

impl Next {
    /// Passes the slots of a statement.
    pub fn pass(&mut self, given: &Yielded, blocks: usize) -> Result<(), NoMemory>
        ensures { OnOk result (self.new ≡ record { name = self.old.name + length given.now.keys; call = self.old.call + length given.now.calls; done = self.old.done + blocks }) }
    {
        self.name = sum(self.name, given.keys.len())?;
        self.call = sum(self.call, given.calls.len())?;
        self.done = sum(self.done, blocks)?;
        Ok(())
    }
}

/// The names and the calls that a statement sees, and the numbers of the statements that lead to
/// its body.
#[derive(Drop)]
pub struct CellScope {
    pub names: Spots,
    pub calls: Spots,
    pub path: Items<usize>,
}

/// Adds these names, at the slots from the first one on.
fn enter_names(
    alloc: Global,
    keys: &[Key],
    level: usize,
    first: usize,
    spots: &mut Spots,
) -> Result<(), NoMemory>
    ensures { OnOk result (spots.new ≡ spots.old ++ spec.spots_from level first keys.now) }
{
    let mut slot = first;
    for key in keys {
        let key = key.copy(alloc)?;
        spots.enter(Need { key, level, slot })?;
        slot = sum(slot, 1)?;
    }
    Ok(())
}

/// Adds these calls, at the slots from the first one on.
fn enter_calls(
    alloc: Global,
    calls: &[Name],
    level: usize,
    first: usize,
    spots: &mut Spots,
) -> Result<(), NoMemory>
    ensures { OnOk result (spots.new ≡ spots.old ++ spec.spots_from level first (spec.plain_keys calls.now)) }
{
    let mut slot = first;
    for call in calls {
        let key = Key::plain(alloc, call)?;
        spots.enter(Need { key, level, slot })?;
        slot = sum(slot, 1)?;
    }
    Ok(())
}

impl CellScope {
    /// Nothing is seen.
    pub fn empty(alloc: Global) -> CellScope
        ensures { result ≡ record { names = []; calls = []; path = [] } }
    {
        CellScope {
            names: Spots::empty(alloc),
            calls: Spots::empty(alloc),
            path: Items::new(alloc),
        }
    }

    /// Adds a plain name at a slot of the body.
    pub fn add_name(&mut self, alloc: Global, name: &Name, slot: usize) -> Result<(), NoMemory>
        ensures { OnOk result (self.new ≡ record { names = self.old.names ++ record { key = declarations.plain_key name.now; level = length self.old.path; slot = slot } ∷ []; calls = self.old.calls; path = self.old.path }) }
    {
        let key = Key::plain(alloc, name)?;
        let level = self.path.len();
        self.names.enter(Need { key, level, slot })
    }

    /// Adds what a statement gives out.
    pub fn give(&mut self, alloc: Global, given: &Yielded, next: Next) -> Result<(), NoMemory>
        ensures { OnOk result (self.new ≡ record { names = self.old.names ++ spec.spots_from (length self.old.path) next.name given.now.keys; calls = self.old.calls ++ spec.spots_from (length self.old.path) next.call (spec.plain_keys given.now.calls); path = self.old.path }) }
    {
        let level = self.path.len();
        enter_names(
            alloc,
            given.keys.as_slice(),
            level,
            next.name,
            &mut self.names,
        )?;
        enter_calls(
            alloc,
            given.calls.as_slice(),
            level,
            next.call,
            &mut self.calls,
        )
    }

    /// Enters the body of the statement of that number.
    pub fn enter(&mut self, index: usize) -> Result<(), NoMemory>
        ensures { OnOk result (self.new ≡ record { names = self.old.names; calls = self.old.calls; path = self.old.path ++ index ∷ [] }) }
    {
        self.path.push(index)?;
        Ok(())
    }

    /// Leaves the body of a block: the first names and calls are seen again.
    pub fn leave(&mut self, names: usize, calls: usize)
        ensures names { self.new.names ≡ take names self.old.names }
        ensures calls { self.new.calls ≡ take calls self.old.calls }
        ensures path { (front : List ℕ) (last : ℕ) → self.old.path ≡ front ++ last ∷ [] → self.new.path ≡ front }
    {
        self.names.keep(names);
        self.calls.keep(calls);
        self.path.pop();
    }
}
