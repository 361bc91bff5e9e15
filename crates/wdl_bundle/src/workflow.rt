//! A copy of the main workflow.

ghost use Rattle.std.specs.Prelude.{◌≡◌, ◌++◌, IfOk, OnOk};
ghost use Rattle.wdl_check_rules.specs.Locals as local;
ghost use Rattle.wdl_bundle.specs.Bodies as spec;
ghost use Rattle.wdl_bundle.specs.Called.{reach_of};
ghost use Rattle.wdl_bundle.specs.TaskNames.{name_of};

use crate::body::copy_statement;
use crate::names::TaskNames;
use sqlite_items::Items;
use std::alloc::Global;
use wdl_ast::{Workflow, WorkflowElement};
use wdl_check_rules::Local;
use wdl_copies::{copy_ident, copy_inputs, copy_outputs, put};
use wdl_names::Indexed;
use wdl_value::NoMemory;

/// Adds a copy of a section or a statement of a workflow; metadata has none.
fn push_element(
    alloc: Global,
    copies: &mut Items<WorkflowElement>,
    element: &WorkflowElement,
    names: &TaskNames,
    locals: &Indexed<Local>,
) -> Result<(), NoMemory>
    ensures { OnOk result (copies.new ≡ copies.old ++ spec.element_with (local.stands_for locals.now) (name_of (reach_of names.now.reach) names.now.names.now) element.now) }
{
    match element {
        WorkflowElement::Input(section) => {
            put(
                copies,
                WorkflowElement::Input(copy_inputs(alloc, section, locals)?),
            )
        }
        WorkflowElement::Output(section) => {
            put(
                copies,
                WorkflowElement::Output(copy_outputs(alloc, section, locals)?),
            )
        }
        WorkflowElement::Statement(statement) => {
            let copy = copy_statement(alloc, statement, names, locals)?;
            put(copies, WorkflowElement::Statement(copy))
        }
        WorkflowElement::Meta(_) | WorkflowElement::ParameterMeta(_) => Ok(()),
    }
}

/// A copy of the workflow, whose calls name the tasks of the bundle, with the names of structs as
/// the library has them and without metadata.
pub fn copy_workflow(
    alloc: Global,
    workflow: &Workflow,
    names: &TaskNames,
    locals: &Indexed<Local>,
) -> Result<Workflow, NoMemory>
    ensures { IfOk result (λ w. w ≡ spec.workflow_with (local.stands_for locals.now) (name_of (reach_of names.now.reach) names.now.names.now) workflow.now) }
{
    let mut elements = Items::new(alloc);
    for element in workflow.elements.as_slice() {
        push_element(alloc, &mut elements, element, names, locals)?;
    }
    Ok(Workflow {
        keyword: workflow.keyword,
        name: copy_ident(alloc, &workflow.name)?,
        opening: workflow.opening,
        elements,
        closing: workflow.closing,
    })
}
