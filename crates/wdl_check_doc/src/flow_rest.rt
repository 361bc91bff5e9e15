//! The statements and outputs of the workflows of a library.

ghost use Rattle.std.specs.Prelude.{◌≡◌, ◌++◌, [], map, slice_get, IfOk, OnOk};
ghost use Rattle.wdl_check_flow.specs.Targets.{offer_of, space_of};
ghost use Rattle.wdl_check_types.specs.Outcome.{Answers};
ghost use Rattle.wdl_check_doc.specs.Flows as spec;
ghost use Rattle.wdl_check_doc.specs.Offered as offered;
ghost use Rattle.wdl_check_doc.specs.Offers as offers;
ghost use Rattle.wdl_check_doc.specs.Outcomes.{AnswersAs, each};
ghost use Rattle.wdl_check_doc.specs.Parts.{part_of};
ghost use Rattle.wdl_check_doc.specs.Runnables.{headed_of};
ghost use Rattle.wdl_check_doc.specs.Tables.{reaching_of};

use crate::fault::placed;
use crate::numbered_doc::Part;
use crate::offer::{Offered, callables_of, offered_flows, offered_tasks};
use crate::runnable::Headed;
use crate::table::{Reaching, reachings_of, tables_of};
use sqlite_items::at;
use std::alloc::Global;
use std::collections::VecDeque;
use wdl_check_decls::Seeing;
use wdl_check_flow::{Callable, Context, FlowRest, Namespace, Targets, check_rest};
use wdl_check_rules::CheckFault;
use wdl_library::Link;
use wdl_names::{Indexed, NameStack};
use wdl_typed::TaskDef;
use wdl_value::{NoMemory, StructDef};

/// Puts an import behind the others, with what the document offers that it names.
fn push_space<'a>(
    spaces: &mut Vec<Namespace<'a>>,
    tables: &'a [Reaching],
    link: &'a Link,
) -> Result<(), NoMemory>
    ensures { OnOk result (map space_of spaces.new.items ≡ map space_of spaces.old.items ++ offers.space_at link.now.namespace (slice_get (map reaching_of tables.now) link.now.doc)) }
{
    let table = match at(tables, link.doc as usize) {
        Some(table) => table,
        None => return Ok(()),
    };
    spaces.push(Namespace {
        name: &link.namespace,
        callables: &table.all,
    })?;
    Ok(())
}

/// The imports of a document.
fn spaces_of<'a>(
    alloc: Global,
    tables: &'a [Reaching],
    links: &'a [Link],
) -> Result<Vec<Namespace<'a>>, NoMemory>
    ensures { IfOk result (λ ns. map space_of ns.items ≡ offers.spaces (map reaching_of tables.now) links.now) }
{
    let mut spaces = Vec::new(alloc);
    for link in links {
        push_space(&mut spaces, tables, link)?;
    }
    Ok(spaces)
}

/// The tasks of the document of that number.
fn own_of<'o>(
    alloc: Global,
    tables: &[Reaching<'_, 'o, '_>],
    number: u32,
) -> Result<Vec<Callable<'o>>, NoMemory>
    ensures { IfOk result (λ cs. map offer_of cs.items ≡ offers.own_at (slice_get (map reaching_of tables.now) number)) }
{
    let mut own = Vec::new(alloc);
    if let Some(table) = tables.get(number as usize) {
        own.extend_from_slice(table.own)?;
    }
    Ok(own)
}

fn check_rest_with(
    alloc: Global,
    structs: &Indexed<StructDef>,
    own: &[Callable],
    spaces: &[Namespace],
    headed: &Headed,
) -> Result<FlowRest, CheckFault>
    ensures { Answers (spec.rest_with structs.now (map offer_of own.now) (map space_of spaces.now) (headed_of headed.now)) result }
{
    let own = Indexed::new(alloc, own)?;
    let namespaces = Indexed::new(alloc, spaces)?;
    let calls = NameStack::empty(alloc);
    let context = Context {
        seeing: Seeing {
            structs,
            locals: headed.flow.part.locals,
            calls: &calls,
        },
        targets: Targets {
            own: &own,
            namespaces: &namespaces,
        },
    };
    check_rest(
        alloc,
        &context,
        headed.flow.workflow,
        headed.head.inputs.as_slice(),
    )
}

fn check_rest_in(
    alloc: Global,
    structs: &Indexed<StructDef>,
    tables: &[Reaching],
    headed: &Headed,
) -> Result<FlowRest, CheckFault>
    ensures { Answers (spec.rest_in structs.now (map reaching_of tables.now) (headed_of headed.now)) result }
{
    let part = headed.flow.part;
    let spaces = spaces_of(alloc, tables, part.doc.imports.as_slice())?;
    let own = own_of(alloc, tables, part.number)?;
    placed(
        part.number,
        check_rest_with(alloc, structs, own.as_slice(), spaces.as_slice(), headed),
    )
}

fn check_rests(
    alloc: Global,
    structs: &Indexed<StructDef>,
    tables: &[Reaching],
    heads: &[Headed],
) -> Result<VecDeque<FlowRest>, CheckFault>
    ensures { AnswersAs (each (spec.rest_in structs.now (map reaching_of tables.now)) [] (map headed_of heads.now)) result (λ rs. rs.items) }
{
    let mut rests = VecDeque::new(alloc);
    for headed in heads {
        rests.push_back(check_rest_in(alloc, structs, tables, headed)?)?;
    }
    Ok(rests)
}

fn check_rests_of(
    alloc: Global,
    structs: &Indexed<StructDef>,
    parts: &[Part],
    tasks: &[Offered],
    flows: &[Offered],
    heads: &[Headed],
) -> Result<VecDeque<FlowRest>, CheckFault>
    ensures { AnswersAs (spec.rests_of structs.now (map part_of parts.now) (map offered.offer_of tasks.now) (map offered.offer_of flows.now) (map headed_of heads.now)) result (λ rs. rs.items) }
{
    let tasks = callables_of(alloc, tasks)?;
    let flows = callables_of(alloc, flows)?;
    let tables = tables_of(alloc, parts, tasks.as_slice(), flows.as_slice())?;
    let tables = reachings_of(alloc, tables.as_slice())?;
    check_rests(alloc, structs, tables.as_slice(), heads)
}

/// The statements and outputs of the workflows, whose calls name tasks and workflows of all
/// documents.
pub fn check_all_rests(
    alloc: Global,
    structs: &Indexed<StructDef>,
    parts: &[Part],
    tasks: &[TaskDef],
    heads: &[Headed],
) -> Result<VecDeque<FlowRest>, CheckFault>
    ensures { AnswersAs (spec.rests_typed structs.now (map part_of parts.now) tasks.now (map headed_of heads.now)) result (λ rs. rs.items) }
{
    let tasks = offered_tasks(alloc, tasks)?;
    let flows = offered_flows(alloc, heads)?;
    check_rests_of(
        alloc,
        structs,
        parts,
        tasks.as_slice(),
        flows.as_slice(),
        heads,
    )
}
