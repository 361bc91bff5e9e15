//! Copies of declarations and of sections that tasks and workflows share, with the names of structs
//! as the library has them.

ghost use Rattle.std.specs.Prelude.{◌≡◌, ◌++◌, ◌∷◌, [], option_map, IfOk, OnOk};
ghost use Rattle.wdl_check_rules.specs.Locals as local;
ghost use Rattle.wdl_copies.specs.Renamed as spec;

use crate::expr::copy_expr;
use crate::keeping::put;
use crate::leaf::copy_ident;
use crate::types::boxed_type;
use sqlite_items::Items;
use std::alloc::Global;
use wdl_ast::{Assigned, Declaration, Ident, InputDeclaration, InputSection, OutputSection};
use wdl_check_rules::Local;
use wdl_names::Indexed;
use wdl_value::{Name, NoMemory, Span};

/// The name where that one stands.
pub fn named_at(alloc: Global, name: &Name, span: Span) -> Result<Ident, NoMemory>
    ensures { IfOk result (λ i. i ≡ spec.ident_at name.now span) }
{
    Ok(Ident {
        name: name.copy(alloc)?,
        span,
    })
}

/// A copy of a declaration.
pub fn copy_declaration(
    alloc: Global,
    declaration: &Declaration,
    locals: &Indexed<Local>,
) -> Result<Declaration, NoMemory>
    ensures { IfOk result (λ d. d ≡ spec.declaration_with (local.stands_for locals.now) declaration.now) }
{
    let ty = boxed_type(alloc, &declaration.ty, locals)?;
    let name = copy_ident(alloc, &declaration.name)?;
    let value = copy_expr(alloc, &declaration.value, locals)?;
    Ok(Declaration {
        ty: ty.into_inner(),
        name,
        assign: declaration.assign,
        value,
    })
}

/// A copy of `= expr`, where it is there.
pub fn copy_assigned(
    alloc: Global,
    assigned: &Option<Assigned>,
    locals: &Indexed<Local>,
) -> Result<Option<Assigned>, NoMemory>
    ensures { IfOk result (λ a. a ≡ option_map (spec.assigned_with (local.stands_for locals.now)) assigned.now) }
{
    match assigned {
        Some(assigned) => Ok(Some(Assigned {
            assign: assigned.assign,
            value: copy_expr(alloc, &assigned.value, locals)?,
        })),
        None => Ok(None),
    }
}

fn push_input(
    alloc: Global,
    inputs: &mut Items<InputDeclaration>,
    input: &InputDeclaration,
    locals: &Indexed<Local>,
) -> Result<(), NoMemory>
    ensures { OnOk result (inputs.new ≡ inputs.old ++ spec.input_with (local.stands_for locals.now) input.now ∷ []) }
{
    let ty = boxed_type(alloc, &input.ty, locals)?;
    let name = copy_ident(alloc, &input.name)?;
    let preset = copy_assigned(alloc, &input.preset, locals)?;
    let ty = ty.into_inner();
    put(inputs, InputDeclaration { ty, name, preset })
}

/// A copy of an input section.
pub fn copy_inputs(
    alloc: Global,
    section: &InputSection,
    locals: &Indexed<Local>,
) -> Result<InputSection, NoMemory>
    ensures { IfOk result (λ s. s ≡ spec.inputs_with (local.stands_for locals.now) section.now) }
{
    let mut inputs = Items::new(alloc);
    for input in section.inputs.as_slice() {
        push_input(alloc, &mut inputs, input, locals)?;
    }
    Ok(InputSection {
        keyword: section.keyword,
        opening: section.opening,
        inputs,
        closing: section.closing,
    })
}

fn push_output(
    alloc: Global,
    outputs: &mut Items<Declaration>,
    output: &Declaration,
    locals: &Indexed<Local>,
) -> Result<(), NoMemory>
    ensures { OnOk result (outputs.new ≡ outputs.old ++ spec.declaration_with (local.stands_for locals.now) output.now ∷ []) }
{
    put(outputs, copy_declaration(alloc, output, locals)?)
}

/// A copy of an output section.
pub fn copy_outputs(
    alloc: Global,
    section: &OutputSection,
    locals: &Indexed<Local>,
) -> Result<OutputSection, NoMemory>
    ensures { IfOk result (λ s. s ≡ spec.outputs_with (local.stands_for locals.now) section.now) }
{
    let mut outputs = Items::new(alloc);
    for output in section.outputs.as_slice() {
        push_output(alloc, &mut outputs, output, locals)?;
    }
    Ok(OutputSection {
        keyword: section.keyword,
        opening: section.opening,
        outputs,
        closing: section.closing,
    })
}
