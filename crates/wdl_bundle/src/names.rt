//! The names of tasks in a bundle.

ghost use Rattle.std.specs.Prelude.{◌≡◌, map, IfOk};
ghost use Rattle.std.specs.Option.{option_copied};
ghost use Rattle.wdl_bundle.specs.Bundled.{names_for as names_told};
ghost use Rattle.wdl_bundle.specs.Called as called;
ghost use Rattle.wdl_bundle.specs.TaskNames as spec;

use crate::calls::Met;
use crate::marks::{is_set, marks_of};
use crate::naming::free_name;
use crate::reach::{Callee, Offer, Reach};
use crate::tasks::Task;
use std::alloc::Global;
use wdl_ast::CallTarget;
use wdl_names::NameStack;
use wdl_value::{Name, NoMemory};

/// A task of document 0 keeps its name.
fn new_name(alloc: Global, taken: &NameStack, task: &Task) -> Result<Name, NoMemory>
    ensures { IfOk result (λ n. n ≡ spec.new_name taken.now (called.task_of task.now)) }
{
    if task.doc == 0 {
        return task.section.name.name.copy(alloc);
    }
    free_name(alloc, taken, task.doc, task.number)
}

/// The name of a task, where it is called; it is taken then.
fn given(
    alloc: Global,
    taken: &mut NameStack,
    task: &Task,
    is_called: bool,
) -> Result<Option<Name>, NoMemory>
    ensures name { IfOk result (λ n. n ≡ spec.given taken.old (called.task_of task.now) is_called) }
    ensures taken { IfOk result (λ n. taken.new ≡ spec.with_name taken.old n) }
{
    if !is_called {
        return Ok(None);
    }
    let name = new_name(alloc, taken, task)?;
    taken.enter(name.copy(alloc)?)?;
    Ok(Some(name))
}

/// The names of tasks, for those that are marked, where these are taken.
fn names_from(
    alloc: Global,
    tasks: &[Task],
    marks: &[bool],
    taken: &mut NameStack,
) -> Result<Vec<Option<Name>>, NoMemory>
    ensures { IfOk result (λ ns. ns.items ≡ spec.names_from (called.is_set marks.now) taken.old 0 (map called.task_of tasks.now)) }
{
    let mut names = Vec::new(alloc);
    for (at, task) in tasks.iter().enumerate() {
        let name = given(alloc, taken, task, is_set(marks, at))?;
        names.push(name)?;
    }
    Ok(names)
}

/// The names that a document gives.
fn own_names(alloc: Global, offers: &[Offer]) -> Result<NameStack, NoMemory>
    ensures { IfOk result (λ ws. ws ≡ spec.own_names (map called.offer_of offers.now)) }
{
    let mut words = NameStack::empty(alloc);
    for offer in offers {
        words.enter(offer.name.copy(alloc)?)?;
    }
    Ok(words)
}

/// For each task its name in the bundle, if one of the calls names it. Those of document 0 keep
/// their names.
pub fn names_for(
    alloc: Global,
    own: &[Offer],
    tasks: &[Task],
    calls: &[Met],
) -> Result<Vec<Option<Name>>, NoMemory>
    ensures { IfOk result (λ ns. ns.items ≡ names_told (map called.offer_of own.now) (map called.task_of tasks.now) calls.now) }
{
    let marks = marks_of(alloc, tasks.len(), calls)?;
    let mut taken = own_names(alloc, own)?;
    names_from(alloc, tasks, marks.as_slice(), &mut taken)
}

/// The name of the task at that place.
pub fn name_at(names: &[Option<Name>], at: usize) -> Option<&Name>
    ensures { option_copied result ≡ spec.name_at names.now at }
{
    match names.get(at)? {
        Some(name) => Some(name),
        None => None,
    }
}

/// What calls of a workflow are renamed by.
#[derive(Clone, Copy)]
pub struct TaskNames<'a> {
    pub reach: Reach<'a>,
    pub names: &'a [Option<Name>],
}

impl<'a> TaskNames<'a> {
    ghost use Rattle.std.specs.Prelude.{◌≡◌};
    ghost use Rattle.std.specs.Option.{option_copied};
    ghost use Rattle.wdl_bundle.specs.Called.{reach_of};
    ghost use Rattle.wdl_bundle.specs.TaskNames.{name_of};

    /// The name in the bundle of the task that a call names.
    pub fn name_of(&self, target: &CallTarget) -> Option<&'a Name>
        ensures { option_copied result ≡ name_of (reach_of self.now.reach) self.now.names.now target.now }
    {
        match self.reach.callee_of(target)? {
            Callee::Task(at) => name_at(self.names, at),
            Callee::Workflow => None,
        }
    }
}
