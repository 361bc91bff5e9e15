//! Workflows without outputs.

use crate::lint::{Lint, Warning};
use wdl_ast::{Workflow, WorkflowElement};

fn has_outputs(workflow: &Workflow) -> bool {
    for element in workflow.elements.as_slice() {
        if let WorkflowElement::Output(_) = element {
            return true;
        }
    }
    false
}

/// The warning on a workflow.
pub fn no_outputs(workflow: &Workflow) -> Option<Warning<'_>> {
    if has_outputs(workflow) {
        return None;
    }
    Some(Warning {
        span: workflow.name.span,
        lint: Lint::NoOutputs(workflow.name.name.as_str()),
    })
}
