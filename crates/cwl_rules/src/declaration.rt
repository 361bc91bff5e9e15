//! Inputs, declarations and outputs.

ghost use Rattle.std.specs.Prelude.{◌≡◌, ◌&&◌, IfOk};
ghost use Rattle.cwl_image.specs.Subset as subset;
ghost use Rattle.cwl_rules.specs.Lowest.{lowest};
ghost use Rattle.cwl_rules.specs.Roles as spec;

use crate::casts::{are_allowed, default_allowed, output_allowed, refers_to_output};
use crate::file::is_file;
use crate::literal::literal_of;
use crate::lowest::{lower, unless};
use crate::types::{is_file_type, is_simple, takes_default};
use cwl_image::Broken;
use std::alloc::Global;
use wdl_names::{Indexed, TypedNames};
use wdl_typed::{TDecl, TExpr, TInput};
use wdl_value::{NoMemory, StructDef, Ty};

/// Where a declaration stands: a private one of a task, an output of a task or of a workflow, or
/// one in a body.
#[derive(Clone, Copy, Debug, PartialEq, Eq)]
pub enum Role {
    Private,
    TaskOutput,
    FlowOutput,
    Body,
}

/// Whether the default is a literal at a type that takes one, if there is a default.
fn is_default(t: &Ty, value: &Option<TExpr>) -> bool
    ensures { result ≡ subset.is_default t.now value.now }
{
    match value {
        Some(e) => takes_default(t) && literal_of(e).is_literal,
        None => true,
    }
}

/// The lowest rule that an input breaks.
#[tactic(auto, using(crate::proofs::LowestLemmas::lowest_append))]
fn input_broken(
    alloc: Global,
    input: &TInput,
    structs: &Indexed<StructDef>,
    names: &TypedNames,
) -> Result<Option<Broken>, NoMemory>
    ensures { IfOk result (λ b. b ≡ lowest (subset.input_broken structs.now names.now input.now)) }
{
    let simple = unless(is_simple(&input.ty), 605, input.span);
    let allowed = unless(
        default_allowed(alloc, &input.value, structs, names)?,
        606,
        input.span,
    );
    let literal = unless(is_default(&input.ty, &input.value), 607, input.span);
    Ok(lower(lower(simple, allowed), literal))
}

/// The lowest rule that inputs break.
pub fn inputs_broken(
    alloc: Global,
    inputs: &[TInput],
    structs: &Indexed<StructDef>,
    names: &TypedNames,
) -> Result<Option<Broken>, NoMemory>
    ensures { IfOk result (λ b. b ≡ lowest (subset.each_broken (subset.input_broken structs.now names.now) inputs.now)) }
{
    let mut found = None;
    for input in inputs {
        let next = input_broken(alloc, input, structs, names)?;
        found = lower(found, next);
    }
    Ok(found)
}

/// Whether the casts in a declaration's expression are those of the subset.
fn value_allowed(
    alloc: Global,
    role: Role,
    e: &TExpr,
    structs: &Indexed<StructDef>,
    names: &TypedNames,
) -> Result<bool, NoMemory>
    ensures { IfOk result (λ b. b ≡ spec.value_allowed role structs.now names.now e.now) }
{
    match role {
        Role::TaskOutput => output_allowed(alloc, e, structs, names),
        _ => are_allowed(alloc, e, structs, names, false),
    }
}

/// The rule of its place that a declaration breaks.
fn place_broken(
    alloc: Global,
    role: Role,
    d: &TDecl,
    structs: &Indexed<StructDef>,
    names: &TypedNames,
) -> Result<Option<Broken>, NoMemory>
    ensures { IfOk result (λ b. b ≡ lowest (spec.place_broken role structs.now names.now d.now)) }
{
    match role {
        Role::Private => Ok(unless(false, 608, d.span)),
        Role::TaskOutput => {
            let holds = is_file_type(&d.ty) && is_file(&d.value);
            Ok(unless(holds, 611, d.span))
        }
        Role::FlowOutput => {
            let holds = refers_to_output(alloc, &d.value, structs, names)?;
            Ok(unless(holds, 612, d.span))
        }
        Role::Body => Ok(unless(false, 602, d.span)),
    }
}

/// The lowest rule that a declaration breaks.
#[tactic(auto, using(crate::proofs::LowestLemmas::lowest_append))]
pub fn decl_broken(
    alloc: Global,
    role: Role,
    d: &TDecl,
    structs: &Indexed<StructDef>,
    names: &TypedNames,
) -> Result<Option<Broken>, NoMemory>
    ensures { IfOk result (λ b. b ≡ lowest (spec.decl_broken role structs.now names.now d.now)) }
{
    let simple = unless(is_simple(&d.ty), 605, d.span);
    let allowed = unless(
        value_allowed(alloc, role, &d.value, structs, names)?,
        606,
        d.span,
    );
    let place = place_broken(alloc, role, d, structs, names)?;
    Ok(lower(lower(simple, allowed), place))
}

/// The lowest rule that declarations break.
pub fn decls_broken(
    alloc: Global,
    role: Role,
    decls: &[TDecl],
    structs: &Indexed<StructDef>,
    names: &TypedNames,
) -> Result<Option<Broken>, NoMemory>
    ensures { IfOk result (λ b. b ≡ lowest (subset.each_broken (spec.decl_broken role structs.now names.now) decls.now)) }
{
    let mut found = None;
    for d in decls {
        let next = decl_broken(alloc, role, d, structs, names)?;
        found = lower(found, next);
    }
    Ok(found)
}
