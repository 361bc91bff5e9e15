//! The sections of a task, kind by kind.

ghost use Rattle.std.specs.Prelude.{◌≡◌, ◌++◌, map, IfOk, OnOk};
ghost use Rattle.wdl_check_task.specs.Sections as spec;

use std::alloc::Global;
use wdl_ast::{
    Attribute, Declaration, Expr, Ident, InputDeclaration, StringPart, TaskElement, TaskSection,
};
use wdl_value::NoMemory;

fn push_all<'a, T>(list: &mut Vec<&'a T>, items: &'a [T]) -> Result<(), NoMemory>
    ensures { OnOk result (map (λ p. p.now) list.new.items ≡ map (λ p. p.now) list.old.items ++ items.now) }
{
    for item in items {
        list.push(item)?;
    }
    Ok(())
}

/// The inputs, in the order of the text.
pub fn inputs(alloc: Global, section: &TaskSection) -> Result<Vec<&InputDeclaration>, NoMemory>
    ensures { IfOk result (λ v. map (λ p. p.now) v.items ≡ spec.inputs_of section.now.elements) }
{
    let mut inputs = Vec::new(alloc);
    for element in section.elements.as_slice() {
        if let TaskElement::Input(section) = element {
            push_all(&mut inputs, section.inputs.as_slice())?;
        }
    }
    Ok(inputs)
}

/// The private declarations, in the order of the text.
pub fn privates(alloc: Global, section: &TaskSection) -> Result<Vec<&Declaration>, NoMemory>
    ensures { IfOk result (λ v. map (λ p. p.now) v.items ≡ spec.privates_of section.now.elements) }
{
    let mut privates = Vec::new(alloc);
    for element in section.elements.as_slice() {
        if let TaskElement::Declaration(declaration) = element {
            privates.push(declaration)?;
        }
    }
    Ok(privates)
}

/// The outputs, in the order of the text.
pub fn outputs(alloc: Global, section: &TaskSection) -> Result<Vec<&Declaration>, NoMemory>
    ensures { IfOk result (λ v. map (λ p. p.now) v.items ≡ spec.outputs_of section.now.elements) }
{
    let mut outputs = Vec::new(alloc);
    for element in section.elements.as_slice() {
        if let TaskElement::Output(section) = element {
            push_all(&mut outputs, section.outputs.as_slice())?;
        }
    }
    Ok(outputs)
}

/// The attributes of the runtime section, in the order of the text.
pub fn attributes(alloc: Global, section: &TaskSection) -> Result<Vec<&Attribute<Expr>>, NoMemory>
    ensures { IfOk result (λ v. map (λ p. p.now) v.items ≡ spec.attributes_of section.now.elements) }
{
    let mut attributes = Vec::new(alloc);
    for element in section.elements.as_slice() {
        if let TaskElement::Runtime(section) = element {
            push_all(&mut attributes, section.attributes.as_slice())?;
        }
    }
    Ok(attributes)
}

/// The parts of the command, in the order of the text.
pub fn parts(alloc: Global, section: &TaskSection) -> Result<Vec<&StringPart<Expr>>, NoMemory>
    ensures { IfOk result (λ v. map (λ p. p.now) v.items ≡ spec.parts_of section.now.elements) }
{
    let mut parts = Vec::new(alloc);
    for element in section.elements.as_slice() {
        if let TaskElement::Command(section) = element {
            push_all(&mut parts, section.parts.as_slice())?;
        }
    }
    Ok(parts)
}

fn push_inputs<'a>(
    idents: &mut Vec<&'a Ident>,
    inputs: &[&'a InputDeclaration],
) -> Result<(), NoMemory>
    ensures { OnOk result (map (λ p. p.now) idents.new.items ≡ map (λ p. p.now) idents.old.items ++ spec.input_idents (map (λ p. p.now) inputs.now)) }
{
    for input in inputs {
        idents.push(&input.name)?;
    }
    Ok(())
}

fn push_declarations<'a>(
    idents: &mut Vec<&'a Ident>,
    declarations: &[&'a Declaration],
) -> Result<(), NoMemory>
    ensures { OnOk result (map (λ p. p.now) idents.new.items ≡ map (λ p. p.now) idents.old.items ++ spec.declaration_idents (map (λ p. p.now) declarations.now)) }
{
    for declaration in declarations {
        idents.push(&declaration.name)?;
    }
    Ok(())
}

/// The names of inputs, private declarations and outputs.
pub fn idents(alloc: Global, section: &TaskSection) -> Result<Vec<&Ident>, NoMemory>
    ensures { IfOk result (λ v. map (λ p. p.now) v.items ≡ spec.idents_of section.now.elements) }
{
    let inputs = inputs(alloc, section)?;
    let privates = privates(alloc, section)?;
    let outputs = outputs(alloc, section)?;
    let mut idents = Vec::new(alloc);
    push_inputs(&mut idents, inputs.as_slice())?;
    push_declarations(&mut idents, privates.as_slice())?;
    push_declarations(&mut idents, outputs.as_slice())?;
    Ok(idents)
}
