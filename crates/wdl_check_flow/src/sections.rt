//! The sections of a workflow, kind by kind.

ghost use Rattle.std.specs.Prelude.{◌≡◌, ◌++◌, map, IfOk, OnOk};
ghost use Rattle.wdl_check_flow.specs.Sections as spec;

use std::alloc::Global;
use wdl_ast::{Declaration, InputDeclaration, Statement, WorkflowElement};
use wdl_value::NoMemory;

/// The inputs, the statements and the outputs of a workflow, in the order of the text.
#[derive(Drop)]
pub struct Sections<'a> {
    pub inputs: Vec<&'a InputDeclaration>,
    pub statements: Vec<&'a Statement>,
    pub outputs: Vec<&'a Declaration>,
}

fn push_inputs<'a>(
    list: &mut Vec<&'a InputDeclaration>,
    items: &'a [InputDeclaration],
) -> Result<(), NoMemory>
    ensures { OnOk result (map (λ i. i.now) list.new.items ≡ map (λ i. i.now) list.old.items ++ items.now) }
{
    for item in items {
        list.push(item)?;
    }
    Ok(())
}

fn push_outputs<'a>(
    list: &mut Vec<&'a Declaration>,
    items: &'a [Declaration],
) -> Result<(), NoMemory>
    ensures { OnOk result (map (λ d. d.now) list.new.items ≡ map (λ d. d.now) list.old.items ++ items.now) }
{
    for item in items {
        list.push(item)?;
    }
    Ok(())
}

impl<'a> Sections<'a> {
    /// The sections of these elements.
    pub fn of(alloc: Global, elements: &'a [WorkflowElement]) -> Result<Sections<'a>, NoMemory>
        ensures inputs { IfOk result (λ s. map (λ i. i.now) s.inputs.items ≡ spec.inputs_of elements.now) }
        ensures statements { IfOk result (λ s. map (λ s. s.now) s.statements.items ≡ spec.statements_of elements.now) }
        ensures outputs { IfOk result (λ s. map (λ d. d.now) s.outputs.items ≡ spec.outputs_of elements.now) }
    {
        let mut sections = Sections {
            inputs: Vec::new(alloc),
            statements: Vec::new(alloc),
            outputs: Vec::new(alloc),
        };
        for element in elements {
            sections.add(element)?;
        }
        Ok(sections)
    }

    fn add(&mut self, element: &'a WorkflowElement) -> Result<(), NoMemory>
        ensures inputs { OnOk result (map (λ i. i.now) self.new.inputs.items ≡ map (λ i. i.now) self.old.inputs.items ++ spec.inputs_in element.now) }
        ensures statements { OnOk result (map (λ s. s.now) self.new.statements.items ≡ map (λ s. s.now) self.old.statements.items ++ spec.statements_in element.now) }
        ensures outputs { OnOk result (map (λ d. d.now) self.new.outputs.items ≡ map (λ d. d.now) self.old.outputs.items ++ spec.outputs_in element.now) }
    {
        match element {
            WorkflowElement::Input(section) => {
                push_inputs(&mut self.inputs, section.inputs.as_slice())
            }
            WorkflowElement::Output(section) => {
                push_outputs(&mut self.outputs, section.outputs.as_slice())
            }
            WorkflowElement::Statement(statement) => {
                self.statements.push(statement)?;
                Ok(())
            }
            WorkflowElement::Meta(_) | WorkflowElement::ParameterMeta(_) => Ok(()),
        }
    }
}
