//! Tasks.

ghost use Rattle.std.specs.Prelude.{◌≡◌, IfOk};
ghost use Rattle.std.specs.Option.{option_copied};
ghost use Rattle.cwl_image.specs.Image as image;
ghost use Rattle.cwl_image.specs.Subset as subset;
ghost use Rattle.cwl_rules.specs.Lowest.{lowest};
ghost use Rattle.cwl_subset.specs.Tables.{task_table};

use crate::scope::{input_scope, task_scope};
use cwl_image::Broken;
use cwl_rules::{
    Role, are_allowed, decls_broken, default_allowed, inputs_broken, is_command, is_zero,
    literal_of, lower, reference, unless,
};
use sqlite_items::Items;
use std::alloc::Global;
use wdl_names::{Indexed, TypedNames};
use wdl_typed::{Choice, TCodes, TExpr, THole, TPart, TaskDef};
use wdl_value::{NoMemory, StructDef, Ty, is_scalar};

/// Whether the type is there, and is Int, String, Boolean or File.
fn some_scalar(t: Option<&Ty>) -> bool
    ensures { result ≡ subset.some_scalar (option_copied t.entry) }
{
    match t {
        Some(t) => is_scalar(t),
        None => false,
    }
}

/// Whether the expression is one of the names, of type Int, String, Boolean or File, casts aside.
fn is_scalar_name(e: &TExpr, names: &TypedNames) -> bool
    ensures { result ≡ subset.is_scalar_name names.now (image.reference e.now) }
{
    match reference(e) {
        Some(key) => some_scalar(names.type_of(key)),
        None => false,
    }
}

fn is_plain(choice: &Choice) -> bool
    ensures { result ≡ subset.is_plain_choice choice.now }
{
    matches!(choice, Choice::Plain)
}

/// Whether a placeholder is one input of type Int, String, Boolean or File, without an option.
fn is_input_hole(
    alloc: Global,
    hole: &THole<TExpr>,
    structs: &Indexed<StructDef>,
    names: &TypedNames,
    inputs: &TypedNames,
) -> Result<bool, NoMemory>
    ensures { IfOk result (λ b. b ≡ subset.is_input_hole structs.now names.now inputs.now hole.now) }
{
    Ok(
        is_plain(&hole.choice)
            && is_scalar_name(&hole.expr, inputs)
            && are_allowed(alloc, &hole.expr, structs, names, true)?,
    )
}

fn are_input_holes(
    alloc: Global,
    parts: &[TPart<TExpr>],
    structs: &Indexed<StructDef>,
    names: &TypedNames,
    inputs: &TypedNames,
) -> Result<bool, NoMemory>
    ensures { IfOk result (λ b. b ≡ subset.are_input_holes structs.now names.now inputs.now parts.now) }
{
    for part in parts {
        if let TPart::Hole(hole) = part {
            if !is_input_hole(alloc, hole, structs, names, inputs)? {
                return Ok(false);
            }
        }
    }
    Ok(true)
}

/// Whether the casts in the placeholders of a command are those of the subset.
fn command_allowed(
    alloc: Global,
    parts: &[TPart<TExpr>],
    structs: &Indexed<StructDef>,
    names: &TypedNames,
) -> Result<bool, NoMemory>
    ensures { IfOk result (λ b. b ≡ subset.command_allowed structs.now names.now parts.now) }
{
    for part in parts {
        if let TPart::Hole(hole) = part {
            if !are_allowed(alloc, &hole.expr, structs, names, true)? {
                return Ok(false);
            }
        }
    }
    Ok(true)
}

fn codes_allowed(
    alloc: Global,
    codes: &TCodes,
    structs: &Indexed<StructDef>,
    names: &TypedNames,
) -> Result<bool, NoMemory>
    ensures { IfOk result (λ b. b ≡ subset.codes_allowed structs.now names.now codes.now) }
{
    match codes {
        TCodes::Zero | TCodes::Any => Ok(true),
        TCodes::One(e) => are_allowed(alloc, e, structs, names, false),
        TCodes::Many(e) => are_allowed(alloc, e, structs, names, false),
    }
}

/// Whether the casts in the attributes and the command are those of the subset.
fn run_allowed(
    alloc: Global,
    task: &TaskDef,
    structs: &Indexed<StructDef>,
    names: &TypedNames,
) -> Result<bool, NoMemory>
    ensures { IfOk result (λ b. b ≡ subset.run_allowed structs.now names.now task.now) }
{
    Ok(
        codes_allowed(alloc, &task.codes, structs, names)?
            && default_allowed(alloc, &task.retries, structs, names)?
            && command_allowed(alloc, task.command.as_slice(), structs, names)?,
    )
}

/// Whether the statuses of success are absent, any, 0, or a list of at most 256 numbers with 0
/// among them.
fn are_codes(codes: &TCodes) -> bool
    ensures { result ≡ subset.are_codes codes.now }
{
    match codes {
        TCodes::Zero | TCodes::Any => true,
        TCodes::One(e) => is_zero(literal_of(e).number),
        TCodes::Many(e) => literal_of(e).are_codes,
    }
}

/// The lowest rule that the attributes and the command break.
#[tactic(auto, using(cwl_rules::proofs::LowestLemmas::lowest_append))]
fn run_broken(
    alloc: Global,
    task: &TaskDef,
    structs: &Indexed<StructDef>,
    names: &TypedNames,
) -> Result<Option<Broken>, NoMemory>
    ensures { IfOk result (λ b. b ≡ lowest (subset.run_broken structs.now names.now task.now)) }
{
    let command = task.command.as_slice();
    let inputs = input_scope(alloc, task.inputs.as_slice())?;
    let allowed = run_allowed(alloc, task, structs, names)?;
    let are_inputs = are_input_holes(alloc, command, structs, names, &inputs)?;
    let casts = unless(allowed, 606, task.span);
    let holes = unless(are_inputs, 609, task.span);
    let text = unless(is_command(command), 610, task.span);
    let attributes = unless(
        task.retries.is_none() && are_codes(&task.codes),
        613,
        task.span,
    );
    Ok(lower(lower(lower(casts, holes), text), attributes))
}

/// The lowest rule that a task breaks.
fn task_broken(
    alloc: Global,
    task: &TaskDef,
    structs: &Indexed<StructDef>,
) -> Result<Option<Broken>, NoMemory>
    ensures { IfOk result (λ b. b ≡ lowest (subset.task_broken structs.now task.now)) }
{
    let names = task_scope(alloc, task)?;
    let privates = task.privates.as_slice();
    let outputs = task.outputs.as_slice();
    let first = inputs_broken(alloc, task.inputs.as_slice(), structs, &names)?;
    let second = decls_broken(alloc, Role::Private, privates, structs, &names)?;
    let third = run_broken(alloc, task, structs, &names)?;
    let last = decls_broken(alloc, Role::TaskOutput, outputs, structs, &names)?;
    Ok(lower(lower(lower(first, second), third), last))
}

/// For each task the lowest rule that it breaks.
pub fn tasks_broken(
    alloc: Global,
    tasks: &[TaskDef],
    structs: &Indexed<StructDef>,
) -> Result<Items<Option<Broken>>, NoMemory>
    ensures { IfOk result (λ t. t ≡ task_table structs.now tasks.now) }
{
    let mut table = Items::new(alloc);
    for task in tasks {
        table.push(task_broken(alloc, task, structs)?)?;
    }
    Ok(table)
}
