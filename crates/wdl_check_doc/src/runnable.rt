//! The tasks and workflows of documents, in the order of the text.

ghost use Rattle.std.specs.Prelude.{◌≡◌, ◌++◌, length, map, IfOk, OnOk};
ghost use Rattle.wdl_check_types.specs.Outcome.{Answers};
ghost use Rattle.wdl_check_doc.specs.Outcomes.{all};
ghost use Rattle.wdl_check_doc.specs.Parts.{part_of};
ghost use Rattle.wdl_check_doc.specs.Runnables as spec;

use crate::fault::placed;
use crate::numbered_doc::Part;
use std::alloc::Global;
use wdl_ast::{Ident, Section, TaskSection, Workflow};
use wdl_check_decls::first_repeated;
use wdl_check_flow::FlowHead;
use wdl_check_rules::CheckFault;
use wdl_value::{NoMemory, Span};

/// A task with its document.
#[derive(Clone, Copy)]
pub struct TaskPart<'d, 'n, 'k> {
    pub part: Part<'d, 'n, 'k>,
    pub task: &'d TaskSection,
}

/// A workflow with its document.
#[derive(Clone, Copy)]
pub struct FlowPart<'d, 'n, 'k> {
    pub part: Part<'d, 'n, 'k>,
    pub workflow: &'d Workflow,
}

/// A workflow with what its calls see.
#[derive(Drop)]
pub struct Headed<'d, 'n, 'k> {
    pub flow: FlowPart<'d, 'n, 'k>,
    pub head: FlowHead,
}

/// The names of the tasks and workflows of a document.
fn idents_of<'a>(alloc: Global, sections: &'a [Section]) -> Result<Vec<&'a Ident>, NoMemory>
    ensures { IfOk result (λ ns. map (λ n. n.now) ns.items ≡ spec.idents_in sections.now) }
{
    let mut idents = Vec::new(alloc);
    for section in sections {
        match section {
            Section::Task(task) => idents.push(&task.name)?,
            Section::Workflow(workflow) => idents.push(&workflow.name)?,
            _ => {}
        }
    }
    Ok(idents)
}

/// Where the name of a second workflow stands; of a first one, where one stands before.
fn second_name(sections: &[Section]) -> Option<Span>
    ensures { result ≡ spec.second_name (spec.workflows_in sections.now) }
{
    let mut stands = false;
    for section in sections {
        if let Section::Workflow(workflow) = section {
            if stands {
                return Some(workflow.name.span);
            }
            stands = true;
        }
    }
    None
}

fn check_names_in(alloc: Global, sections: &[Section]) -> Result<(), CheckFault>
    ensures { Answers (spec.names_in sections.now) result }
{
    let idents = idents_of(alloc, sections)?;
    if let Some(span) = first_repeated(alloc, idents.as_slice())? {
        return Err(CheckFault::Bad { code: 321, span });
    }
    match second_name(sections) {
        Some(span) => Err(CheckFault::Bad { code: 321, span }),
        None => Ok(()),
    }
}

fn check_names_of(alloc: Global, part: &Part) -> Result<(), CheckFault>
    ensures { Answers (spec.names_typed (part_of part.now)) result }
{
    placed(
        part.number,
        check_names_in(alloc, part.doc.document.sections.as_slice()),
    )
}

/// The names of the tasks and workflows of each document: 321 where one stands twice, and at the
/// name of a second workflow.
pub fn check_names(alloc: Global, parts: &[Part]) -> Result<(), CheckFault>
    ensures { Answers (all spec.names_typed (map part_of parts.now)) result }
{
    for part in parts {
        check_names_of(alloc, part)?;
    }
    Ok(())
}

fn push_tasks<'d, 'n, 'k>(
    tasks: &mut Vec<TaskPart<'d, 'n, 'k>>,
    part: Part<'d, 'n, 'k>,
) -> Result<(), NoMemory>
    ensures { OnOk result (map spec.task_of tasks.new.items ≡ map spec.task_of tasks.old.items ++ spec.tasks_at (part_of part.entry)) }
{
    for section in part.doc.document.sections.as_slice() {
        if let Section::Task(task) = section {
            tasks.push(TaskPart { part, task })?;
        }
    }
    Ok(())
}

fn push_flows<'d, 'n, 'k>(
    flows: &mut Vec<FlowPart<'d, 'n, 'k>>,
    part: Part<'d, 'n, 'k>,
) -> Result<(), NoMemory>
    ensures { OnOk result (map spec.flow_of flows.new.items ≡ map spec.flow_of flows.old.items ++ spec.flows_at (part_of part.entry)) }
{
    for section in part.doc.document.sections.as_slice() {
        if let Section::Workflow(workflow) = section {
            flows.push(FlowPart { part, workflow })?;
        }
    }
    Ok(())
}

/// The tasks of all documents.
pub fn tasks_of<'d, 'n, 'k>(
    alloc: Global,
    parts: &[Part<'d, 'n, 'k>],
) -> Result<Vec<TaskPart<'d, 'n, 'k>>, NoMemory>
    ensures { IfOk result (λ ts. map spec.task_of ts.items ≡ spec.tasks_of (map part_of parts.now)) }
{
    let mut tasks = Vec::new(alloc);
    for part in parts {
        push_tasks(&mut tasks, *part)?;
    }
    Ok(tasks)
}

/// The workflows of all documents.
pub fn flows_of<'d, 'n, 'k>(
    alloc: Global,
    parts: &[Part<'d, 'n, 'k>],
) -> Result<Vec<FlowPart<'d, 'n, 'k>>, NoMemory>
    ensures { IfOk result (λ fs. map spec.flow_of fs.items ≡ spec.flows_of (map part_of parts.now)) }
{
    let mut flows = Vec::new(alloc);
    for part in parts {
        push_flows(&mut flows, *part)?;
    }
    Ok(flows)
}

/// How many tasks a document has.
pub fn count_tasks(sections: &[Section]) -> usize
    ensures { result ≡ length (spec.tasks_in sections.now) }
{
    let mut count = 0;
    for section in sections {
        if let Section::Task(_) = section {
            count += 1;
        }
    }
    count
}

/// How many workflows a document has.
pub fn count_flows(sections: &[Section]) -> usize
    ensures { result ≡ length (spec.workflows_in sections.now) }
{
    let mut count = 0;
    for section in sections {
        if let Section::Workflow(_) = section {
            count += 1;
        }
    }
    count
}
