//! The tasks of a library, and what its documents offer.

ghost use Rattle.std.specs.Prelude.{◌≡◌, ◌++◌, length, map, IfOk, OnOk};
ghost use Rattle.wdl_bundle.specs.Called as spec;
ghost use Rattle.struct_names.specs.Known.{known_of};

use crate::reach::{Callee, Offer};
use std::alloc::Global;
use struct_names::DocNames;
use wdl_ast::{Section, TaskSection};
use wdl_check_rules::Local;
use wdl_names::Indexed;
use wdl_value::NoMemory;

/// The task of that number of the document of that number, both counted from 0, with the names of
/// structs there.
#[derive(Clone, Copy)]
pub struct Task<'a> {
    pub doc: usize,
    pub number: usize,
    pub locals: &'a Indexed<'a, Local<'a>>,
    pub section: &'a TaskSection,
}

/// Puts the tasks of the document of that number behind the others.
fn push_tasks<'a>(
    tasks: &mut Vec<Task<'a>>,
    doc: usize,
    known: &'a DocNames<'a, 'a>,
) -> Result<(), NoMemory>
    ensures { OnOk result (map spec.task_of tasks.new.items ≡ map spec.task_of tasks.old.items ++ spec.tasks_of doc (known_of known.now)) }
{
    let mut number: usize = 0;
    for section in known.doc.document.sections.as_slice() {
        if let Section::Task(section) = section {
            tasks.push(Task {
                doc,
                number,
                locals: &known.locals,
                section,
            })?;
            number += 1;
        }
    }
    Ok(())
}

/// The tasks of all documents, by document number and order of the text.
pub fn all_tasks<'a>(
    alloc: Global,
    knowns: &'a [DocNames<'a, 'a>],
) -> Result<Vec<Task<'a>>, NoMemory>
    ensures { IfOk result (λ ts. map spec.task_of ts.items ≡ spec.all_tasks 0 (map known_of knowns.now)) }
{
    let mut tasks = Vec::new(alloc);
    for (doc, known) in knowns.iter().enumerate() {
        push_tasks(&mut tasks, doc, known)?;
    }
    Ok(tasks)
}

/// How many tasks stand in a document.
fn count_tasks(sections: &[Section]) -> usize
    ensures { result ≡ length (spec.tasks_in sections.now) }
{
    let mut count = 0;
    for section in sections {
        if let Section::Task(_) = section {
            count += 1;
        }
    }
    count
}

/// What a document offers, whose first task has that place among all tasks.
fn offers_of<'a>(
    alloc: Global,
    first: usize,
    sections: &'a [Section],
) -> Result<Vec<Offer<'a>>, NoMemory>
    ensures { IfOk result (λ os. map spec.offer_of os.items ≡ spec.offers_from first sections.now) }
{
    let mut offers = Vec::new(alloc);
    let mut at = first;
    for section in sections {
        match section {
            Section::Task(task) => {
                offers.push(Offer {
                    name: &task.name.name,
                    callee: Callee::Task(at),
                })?;
                at = at.checked_add(1).ok_or(NoMemory)?;
            }
            Section::Workflow(workflow) => offers.push(Offer {
                name: &workflow.name.name,
                callee: Callee::Workflow,
            })?,
            Section::Import(_) | Section::Struct(_) => {}
        }
    }
    Ok(offers)
}

/// What each document offers.
pub fn all_offers<'d, 'n>(
    alloc: Global,
    knowns: &[DocNames<'d, 'n>],
) -> Result<Vec<Vec<Offer<'d>>>, NoMemory>
    ensures { IfOk result (λ all. map (λ os. map spec.offer_of os.items) all.items ≡ spec.all_offers 0 (map known_of knowns.now)) }
{
    let mut all = Vec::new(alloc);
    let mut at: usize = 0;
    for known in knowns {
        let sections = known.doc.document.sections.as_slice();
        all.push(offers_of(alloc, at, sections)?)?;
        at = at.checked_add(count_tasks(sections)).ok_or(NoMemory)?;
    }
    Ok(all)
}

/// The same, by indices.
pub fn indexed_offers<'d, 'n>(
    alloc: Global,
    all: &'n [Vec<Offer<'d>>],
) -> Result<Vec<Indexed<'n, Offer<'d>>>, NoMemory>
    ensures { IfOk result (λ is. map (map spec.offer_of) is.items ≡ map (λ os. map spec.offer_of os.items) all.now) }
{
    let mut indices = Vec::new(alloc);
    for offers in all {
        indices.push(Indexed::new(alloc, offers.as_slice())?)?;
    }
    Ok(indices)
}
