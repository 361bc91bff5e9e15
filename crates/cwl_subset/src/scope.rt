//! The names that expressions see, with their types.

ghost use Rattle.std.specs.Prelude.{◌≡◌, ◌++◌, IfOk, OnOk};
ghost use Rattle.wdl_typed.specs.Declarations as declarations;
ghost use Rattle.cwl_image.specs.Subset as subset;

use std::alloc::Global;
use wdl_names::TypedNames;
use wdl_typed::{TDecl, TInput, TaskDef};
use wdl_typing::enter;
use wdl_value::NoMemory;

/// Adds the names of inputs.
pub fn enter_inputs(
    alloc: Global,
    names: &mut TypedNames,
    inputs: &[TInput],
) -> Result<(), NoMemory>
    ensures { OnOk result (names.new ≡ names.old ++ declarations.inputs_bound inputs.now) }
{
    for input in inputs {
        enter(alloc, names, &input.name, &input.ty)?;
    }
    Ok(())
}

/// Adds the names of declarations.
pub fn enter_decls(alloc: Global, names: &mut TypedNames, decls: &[TDecl]) -> Result<(), NoMemory>
    ensures { OnOk result (names.new ≡ names.old ++ declarations.decls_bound decls.now) }
{
    for d in decls {
        enter(alloc, names, &d.name, &d.ty)?;
    }
    Ok(())
}

/// The names of inputs.
pub fn input_scope(alloc: Global, inputs: &[TInput]) -> Result<TypedNames, NoMemory>
    ensures { IfOk result (λ n. n ≡ declarations.inputs_bound inputs.now) }
{
    let mut names = TypedNames::empty(alloc);
    enter_inputs(alloc, &mut names, inputs)?;
    Ok(names)
}

/// All names of a task.
pub fn task_scope(alloc: Global, task: &TaskDef) -> Result<TypedNames, NoMemory>
    ensures { IfOk result (λ n. n ≡ subset.task_scope task.now) }
{
    let mut names = input_scope(alloc, task.inputs.as_slice())?;
    enter_decls(alloc, &mut names, task.privates.as_slice())?;
    enter_decls(alloc, &mut names, task.outputs.as_slice())?;
    Ok(names)
}
