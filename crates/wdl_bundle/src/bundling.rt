//! A whole bundle.

ghost use Rattle.std.specs.Prelude.{◌≡◌, ◌++◌, map, IfOk, OnOk};
ghost use Rattle.std.specs.Option.{option_copied};
ghost use Rattle.wdl_check_rules.specs.Locals as local;
ghost use Rattle.wdl_bundle.specs.Bundled as spec;
ghost use Rattle.wdl_bundle.specs.Called.{all_offers as all_offered, offer_of, reach_of, task_of};
ghost use Rattle.struct_names.specs.Known.{known_of};
ghost use Rattle.wdl_bundle.specs.TaskNames.{name_of};

use crate::calls::{Met, calls_of, first_workflow};
use crate::fault::BundleFault;
use crate::names::{TaskNames, name_at, names_for};
use crate::reach::{Offer, Reach, spaces_of};
use crate::structs::push_structs;
use crate::tasks::{Task, all_offers, all_tasks, indexed_offers};
use crate::workflow::copy_workflow;
use sqlite_items::Items;
use std::alloc::Global;
use struct_names::{DocNames, knowns_of, namings_of};
use wdl_ast::{Document, Section, Workflow};
use wdl_copies::{copy_task, put};
use wdl_library::Library;
use wdl_names::Indexed;
use wdl_value::{Name, NoMemory, Span, StructDef};

/// The first workflow of a document.
fn workflow_in(sections: &[Section]) -> Option<&Workflow>
    ensures { option_copied result ≡ spec.workflow_in sections.now }
{
    for section in sections {
        if let Section::Workflow(workflow) = section {
            return Some(workflow);
        }
    }
    None
}

/// The calls of the main workflow of a document.
fn main_calls(alloc: Global, first: &DocNames, reach: &Reach) -> Result<Vec<Met>, NoMemory>
    ensures { IfOk result (λ cs. cs.items ≡ spec.calls_from (known_of first.now) (reach_of reach.now)) }
{
    match workflow_in(first.doc.document.sections.as_slice()) {
        Some(main) => calls_of(alloc, main.elements.as_slice(), reach),
        None => Ok(Vec::new(alloc)),
    }
}

fn push_task(
    alloc: Global,
    sections: &mut Items<Section>,
    task: &Task,
    name: Option<&Name>,
) -> Result<(), NoMemory>
    ensures { OnOk result (sections.new ≡ sections.old ++ spec.task_section (task_of task.now) (option_copied name.entry)) }
{
    let Some(name) = name else {
        return Ok(());
    };
    let copy = copy_task(alloc, task.section, name, task.locals)?;
    put(sections, Section::Task(copy))
}

/// Adds the tasks that have a name.
fn push_tasks(
    alloc: Global,
    sections: &mut Items<Section>,
    tasks: &[Task],
    names: &[Option<Name>],
) -> Result<(), NoMemory>
    ensures { OnOk result (sections.new ≡ sections.old ++ spec.task_sections names.now 0 (map task_of tasks.now)) }
{
    for (at, task) in tasks.iter().enumerate() {
        push_task(alloc, sections, task, name_at(names, at))?;
    }
    Ok(())
}

/// Adds the main workflow of a document.
fn push_main(
    alloc: Global,
    sections: &mut Items<Section>,
    first: &DocNames,
    names: &TaskNames,
) -> Result<(), NoMemory>
    ensures { OnOk result (sections.new ≡ sections.old ++ spec.main_section (local.stands_for first.now.locals) (name_of (reach_of names.now.reach) names.now.names.now) (spec.main_of (known_of first.now))) }
{
    let Some(main) = workflow_in(first.doc.document.sections.as_slice()) else {
        return Ok(());
    };
    let copy = copy_workflow(alloc, main, names, &first.locals)?;
    put(sections, Section::Workflow(copy))
}

fn sections_with<'a>(
    alloc: Global,
    first: &DocNames,
    knowns: &'a [DocNames<'a, 'a>],
    structs: &[StructDef],
    tasks: &[Task],
    names: &TaskNames,
) -> Result<Items<Section>, NoMemory>
    ensures { IfOk result (λ ss. ss ≡ spec.sections_with (known_of first.now) (map known_of knowns.now) structs.now (reach_of names.now.reach) (map task_of tasks.now) names.now.names.now) }
{
    let mut sections = Items::new(alloc);
    push_structs(alloc, &mut sections, structs, &first.locals, knowns)?;
    push_tasks(alloc, &mut sections, tasks, names.names)?;
    push_main(alloc, &mut sections, first, names)?;
    Ok(sections)
}

/// The sections of the bundle, where the main workflow has these calls.
fn sections_for<'a>(
    alloc: Global,
    first: &DocNames,
    knowns: &'a [DocNames<'a, 'a>],
    structs: &[StructDef],
    reach: &Reach,
    calls: &[Met],
) -> Result<Items<Section>, NoMemory>
    requires { calls.now ≡ spec.calls_from (known_of first.now) (reach_of reach.now) }
    ensures { IfOk result (λ ss. ss ≡ spec.sections_from (known_of first.now) (map known_of knowns.now) structs.now (reach_of reach.now)) }
{
    let tasks = all_tasks(alloc, knowns)?;
    let list = names_for(alloc, reach.own.as_slice(), tasks.as_slice(), calls)?;
    let names = TaskNames {
        reach: *reach,
        names: list.as_slice(),
    };
    sections_with(alloc, first, knowns, structs, tasks.as_slice(), &names)
}

fn document_of(sections: Items<Section>) -> Document
    ensures { result ≡ spec.document_of sections }
{
    let nowhere = Span {
        doc: 0,
        start: 0,
        end: 0,
    };
    Document {
        version: nowhere,
        number: nowhere,
        sections,
    }
}

/// The bundle of documents whose first is this one, with what its calls may name.
fn bundled<'a>(
    alloc: Global,
    first: &DocNames,
    knowns: &'a [DocNames<'a, 'a>],
    structs: &[StructDef],
    reach: &Reach,
) -> Result<Document, BundleFault>
    ensures { spec.Answers (spec.refused_from (known_of first.now) (reach_of reach.now)) (spec.document_from (known_of first.now) (map known_of knowns.now) structs.now (reach_of reach.now)) result }
{
    let calls = main_calls(alloc, first, reach)?;
    if let Some(span) = first_workflow(calls.as_slice()) {
        return Err(BundleFault::Bad { rule: 620, span });
    }
    let sections = sections_for(alloc, first, knowns, structs, reach, calls.as_slice())?;
    Ok(document_of(sections))
}

fn bundled_with<'a>(
    alloc: Global,
    first: &'a DocNames<'a, 'a>,
    knowns: &'a [DocNames<'a, 'a>],
    structs: &[StructDef],
    own: &'a Indexed<'a, Offer<'a>>,
    offers: &'a [Indexed<'a, Offer<'a>>],
) -> Result<Document, BundleFault>
    ensures { spec.Answers (spec.refused_from (known_of first.now) (spec.reach_with (known_of first.now) (map offer_of own.now) (map (map offer_of) offers.now))) (spec.document_from (known_of first.now) (map known_of knowns.now) structs.now (spec.reach_with (known_of first.now) (map offer_of own.now) (map (map offer_of) offers.now))) result }
{
    let list = spaces_of(alloc, offers, first.doc.imports.as_slice())?;
    let spaces = Indexed::new(alloc, list.as_slice())?;
    let reach = Reach {
        own: &*own,
        spaces: &spaces,
    };
    bundled(alloc, first, knowns, structs, &reach)
}

/// The bundle of documents of which the first has the main workflow, with what each of them offers.
fn bundled_over(
    alloc: Global,
    knowns: &[DocNames],
    structs: &[StructDef],
    offers: &[Indexed<Offer>],
) -> Result<Document, BundleFault>
    ensures { spec.Answers (spec.refused_in (map known_of knowns.now) (map (map offer_of) offers.now)) (spec.document_in (map known_of knowns.now) structs.now (map (map offer_of) offers.now)) result }
{
    let Some(first) = knowns.first() else {
        return Ok(document_of(Items::new(alloc)));
    };
    let Some(own) = offers.first() else {
        return Ok(document_of(Items::new(alloc)));
    };
    bundled_with(alloc, &*first, &*knowns, structs, &*own, &*offers)
}

fn bundled_of(
    alloc: Global,
    knowns: &[DocNames],
    structs: &[StructDef],
) -> Result<Document, BundleFault>
    ensures { spec.Answers (spec.refused_in (map known_of knowns.now) (all_offered 0 (map known_of knowns.now))) (spec.document_in (map known_of knowns.now) structs.now (all_offered 0 (map known_of knowns.now))) result }
{
    let list = all_offers(alloc, knowns)?;
    let offers = indexed_offers(alloc, list.as_slice())?;
    bundled_over(alloc, knowns, structs, offers.as_slice())
}

/// One document without imports that has the structs of a library, the tasks that its main workflow
/// calls, and that workflow; all names of structs are those of the library, and a task of another
/// document than the first has a name of its own. `Bad` comes with 620 exactly where the main
/// workflow calls a workflow, at the first such call in the text.
///
/// Without a main workflow the document has the structs alone.
pub fn bundle(alloc: Global, lib: &Library) -> Result<Document, BundleFault>
    ensures { spec.Answers (spec.workflow_call lib.now.docs) (spec.bundled lib.now.docs lib.now.structs) result }
{
    let namings = namings_of(alloc, lib.docs.as_slice())?;
    let knowns = knowns_of(alloc, namings.as_slice())?;
    bundled_of(alloc, knowns.as_slice(), lib.structs.as_slice())
}
