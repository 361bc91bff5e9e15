//! The documents of a library, one check after the other.

ghost use Rattle.std.specs.Prelude.{◌≡◌, map, IfOk};
ghost use Rattle.wdl_check_types.specs.Outcome.{Answers};
ghost use Rattle.wdl_check_doc.specs.Checked as spec;
ghost use Rattle.wdl_check_doc.specs.Parts.{part_of};
ghost use Rattle.wdl_check_doc.specs.Structs.{structs_typed};

use crate::nesting::check_nesting;
use crate::numbered_doc::Part;
use crate::offer::copies_of;
use crate::run::check_flows;
use crate::runnable::{check_names, count_flows, tasks_of};
use crate::section::check_all_sections;
use crate::shallow::check_depths;
use crate::task::check_tasks;
use std::alloc::Global;
use wdl_check_rules::CheckFault;
use wdl_names::Indexed;
use wdl_typed::{CheckedParts, FlowDef, TaskDef};
use wdl_value::{Items, NoMemory, StructDef, Structs};

fn copy_of(alloc: Global, known: &StructDef) -> Result<StructDef, NoMemory>
    ensures { IfOk result (λ d. d ≡ known.now) }
{
    let name = known.name.copy(alloc)?;
    Ok(StructDef {
        name,
        members: copies_of(alloc, known.members.as_slice())?,
    })
}

fn copy_structs(alloc: Global, structs: &[StructDef]) -> Result<Structs, NoMemory>
    ensures { IfOk result (λ ds. ds ≡ structs.now) }
{
    let mut copies = Items::new(alloc);
    for known in structs {
        copies.push(copy_of(alloc, known)?)?;
    }
    Ok(copies)
}

/// The workflow of the first document, which is that of number 0.
fn main_of(parts: &[Part]) -> Option<u32>
    ensures { result ≡ spec.main_of (map part_of parts.now) }
{
    let first = parts.first()?;
    if count_flows(first.doc.document.sections.as_slice()) == 0 {
        return None;
    }
    Some(0)
}

fn checked_parts(
    alloc: Global,
    structs: &Indexed<StructDef>,
    parts: &[Part],
    tasks: Items<TaskDef>,
    flows: Items<FlowDef>,
) -> Result<CheckedParts, NoMemory>
    ensures { IfOk result (λ c. c ≡ spec.checked_parts structs.now tasks flows (spec.main_of (map part_of parts.now))) }
{
    let structs = copy_structs(alloc, structs.as_slice())?;
    Ok(CheckedParts {
        structs,
        tasks,
        flows,
        main: main_of(parts),
    })
}

fn check_structs(
    alloc: Global,
    structs: &Indexed<StructDef>,
    parts: &[Part],
) -> Result<(), CheckFault>
    ensures { Answers (structs_typed structs.now (map part_of parts.now)) result }
{
    check_all_sections(alloc, parts)?;
    check_depths(alloc, parts, structs)
}

fn check_runnables(
    alloc: Global,
    structs: &Indexed<StructDef>,
    parts: &[Part],
) -> Result<CheckedParts, CheckFault>
    ensures { Answers (spec.runnables_typed structs.now (map part_of parts.now)) result }
{
    let tasks = tasks_of(alloc, parts)?;
    let tasks = check_tasks(alloc, structs, tasks.as_slice())?;
    let flows = check_flows(alloc, structs, parts, tasks.as_slice())?;
    check_nesting(alloc, flows.as_slice())?;
    Ok(checked_parts(alloc, structs, parts, tasks, flows)?)
}

/// The checked form of documents with these structs.
pub fn check_parts(
    alloc: Global,
    structs: &Indexed<StructDef>,
    parts: &[Part],
) -> Result<CheckedParts, CheckFault>
    ensures { Answers (spec.parts_typed structs.now (map part_of parts.now)) result }
{
    check_structs(alloc, structs, parts)?;
    check_names(alloc, parts)?;
    check_runnables(alloc, structs, parts)
}
