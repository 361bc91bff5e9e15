//! Inputs, declarations and outputs, which stand in dependency order.

ghost use Rattle.std.specs.Prelude.{◌≡◌, ◌&&◌, ◌++◌, ◌∷◌, [], true, IfOk, OnOk};
ghost use Rattle.wdl_typed.specs.Declarations as spec;
ghost use Rattle.wdl_typed.specs.KnownTypes.{is_written};
ghost use Rattle.wdl_typed.specs.Typing.{is_type as is_type_of};
ghost use Rattle.wdl_typing.specs.Standings.{type_at};

use crate::forms::is_type;
use crate::typing::{Context, type_in_place, type_of};
use crate::written::is_written;
use std::alloc::Global;
use wdl_names::{Indexed, TypedNames};
use wdl_typed::{Bound, TDecl, TExpr, TInput};
use wdl_value::{Key, Name, NoMemory, StructDef, Ty};

/// Where a declaration stands. A private declaration of a task may be the place of a function that
/// writes a file, and an output of a task may read what the command of a job left.
#[derive(Clone, Copy, Debug, PartialEq, Eq)]
pub enum Standing {
    Private,
    Output,
    Body,
}

/// The type of the expression of a declaration.
fn declared_type(
    alloc: Global,
    standing: Standing,
    e: &TExpr,
    structs: &Indexed<StructDef>,
    names: &TypedNames,
) -> Result<Option<Ty>, NoMemory>
    ensures { IfOk result (λ t. t ≡ type_at standing structs.now names.now e.now) }
{
    let seen = Context {
        structs,
        names,
        outputs: matches!(standing, Standing::Output),
    };
    match standing {
        Standing::Private => type_in_place(alloc, e, &seen, false),
        _ => type_of(alloc, e, &seen, false),
    }
}

/// The type of an expression in the body of a workflow, or of an attribute of a task.
pub fn body_type(
    alloc: Global,
    e: &TExpr,
    structs: &Indexed<StructDef>,
    names: &TypedNames,
) -> Result<Option<Ty>, NoMemory>
    ensures { IfOk result (λ t. t ≡ spec.in_body structs.now names.now e.now) }
{
    declared_type(alloc, Standing::Body, e, structs, names)
}

/// Adds a plain name.
pub fn enter(alloc: Global, names: &mut TypedNames, name: &Name, t: &Ty) -> Result<(), NoMemory>
    ensures { OnOk result (names.new ≡ names.old ++ spec.bound name.now t.now ∷ []) }
{
    let ty = t.copy(alloc)?;
    let key = Key::plain(alloc, name)?;
    names.enter(Bound { key, ty })
}

fn default_is_typed(
    alloc: Global,
    input: &TInput,
    structs: &Indexed<StructDef>,
    names: &TypedNames,
) -> Result<bool, NoMemory>
    ensures { IfOk result (λ b. b ≡ spec.default_typed structs.now names.now input.now.ty input.now.value) }
{
    match &input.value {
        Some(e) => {
            let t = body_type(alloc, e, structs, names)?;
            Ok(is_type(&t, &input.ty))
        }
        None => Ok(true),
    }
}

/// Whether the inputs are well typed, whose defaults see the inputs before them. Their names are
/// added.
pub fn inputs_are_typed(
    alloc: Global,
    inputs: &[TInput],
    structs: &Indexed<StructDef>,
    names: &mut TypedNames,
) -> Result<bool, NoMemory>
    ensures typed { IfOk result (λ b. b ≡ spec.inputs_typed structs.now names.old inputs.now) }
    ensures names { IfOk result (λ b. b ≡ true → names.new ≡ names.old ++ spec.inputs_bound inputs.now) }
{
    for input in inputs {
        if !(is_written(&input.ty, structs) && default_is_typed(alloc, input, structs, names)?) {
            return Ok(false);
        }
        enter(alloc, names, &input.name, &input.ty)?;
    }
    Ok(true)
}

/// Whether a declaration's type can be written, and is exactly that of its expression.
pub fn decl_is_typed(
    alloc: Global,
    standing: Standing,
    d: &TDecl,
    structs: &Indexed<StructDef>,
    names: &TypedNames,
) -> Result<bool, NoMemory>
    ensures { IfOk result (λ b. b ≡ (is_written structs.now d.now.ty && is_type_of (type_at standing structs.now names.now d.now.value) d.now.ty)) }
{
    if !is_written(&d.ty, structs) {
        return Ok(false);
    }
    let t = declared_type(alloc, standing, &d.value, structs, names)?;
    Ok(is_type(&t, &d.ty))
}

/// Whether the declarations are well typed, whose expressions see the declarations before them.
/// Their names are added.
pub fn decls_are_typed(
    alloc: Global,
    standing: Standing,
    decls: &[TDecl],
    structs: &Indexed<StructDef>,
    names: &mut TypedNames,
) -> Result<bool, NoMemory>
    ensures typed { IfOk result (λ b. b ≡ spec.decls_typed (type_at standing structs.now) structs.now names.old decls.now) }
    ensures names { IfOk result (λ b. b ≡ true → names.new ≡ names.old ++ spec.decls_bound decls.now) }
{
    for d in decls {
        if !decl_is_typed(alloc, standing, d, structs, names)? {
            return Ok(false);
        }
        enter(alloc, names, &d.name, &d.ty)?;
    }
    Ok(true)
}
