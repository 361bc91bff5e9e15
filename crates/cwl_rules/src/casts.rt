//! The casts in expressions.

ghost use Rattle.std.specs.Prelude.{◌≡◌, ◌&&◌, IfOk};
ghost use Rattle.cwl_image.specs.Expressions as spec;
ghost use Rattle.cwl_rules.specs.Casts as casts;
ghost use Rattle.wdl_typed.specs.Declarations as places;
ghost use Rattle.wdl_typing.specs.Types.{context_of};

use crate::file::is_file_literal;
use crate::referring::{is_call_output, is_source};
use crate::types::some_widens;
use std::alloc::Global;
use wdl_names::{Indexed, NameStack, TypedNames};
use wdl_typed::{TExpr, TField, TPair, TPart};
use wdl_typing::{Context, type_in_place};
use wdl_value::{NoMemory, StructDef, Ty};

/// Whether a cast of the expression to the type is one of the subset.
fn cast_widens(
    alloc: Global,
    e: &TExpr,
    t: &Ty,
    seen: &Context,
    placeholder: bool,
) -> Result<bool, NoMemory>
    ensures { IfOk result (λ b. b ≡ spec.some_widens (places.type_in_place (context_of seen.now) e.now placeholder) t.now) }
{
    let found = type_in_place(alloc, e, seen, placeholder)?;
    Ok(some_widens(&found, t))
}

/// Whether each cast in the expression is one of the subset, by the type of what it casts.
/// `placeholder` says whether the expression stands in a placeholder.
#[tactic(auto, using(crate::proofs::CastsOut::casts_steps))]
#[cycle(casts)]
fn casts_widen(
    alloc: Global,
    e: &TExpr,
    seen: &Context,
    placeholder: bool,
) -> Result<bool, NoMemory>
    ensures { IfOk result (λ b. b ≡ spec.casts_widen (context_of seen.now) e.now placeholder) }
{
    match e {
        TExpr::Lit(_) | TExpr::Get(_) => Ok(true),
        TExpr::Member(a, _) => casts_widen(alloc, a.get(), seen, placeholder),
        TExpr::Not(a) | TExpr::Neg(a) => casts_widen(alloc, a.get(), seen, placeholder),
        TExpr::At(a, b) | TExpr::PairOf(a, b) => {
            Ok(
                casts_widen(alloc, a.get(), seen, placeholder)?
                    && casts_widen(alloc, b.get(), seen, placeholder)?,
            )
        }
        TExpr::Binary(_, a, b) => {
            Ok(
                casts_widen(alloc, a.get(), seen, placeholder)?
                    && casts_widen(alloc, b.get(), seen, placeholder)?,
            )
        }
        TExpr::Choose(c, a, b) => {
            Ok(
                casts_widen(alloc, c.get(), seen, placeholder)?
                    && casts_widen(alloc, a.get(), seen, placeholder)?
                    && casts_widen(alloc, b.get(), seen, placeholder)?,
            )
        }
        TExpr::ListOf(es) => items_widen(alloc, es.as_slice(), seen, placeholder),
        TExpr::MapOf(rows) => rows_widen(alloc, rows.as_slice(), seen, placeholder),
        TExpr::StructOf(_, fields) => fields_widen(alloc, fields.as_slice(), seen, placeholder),
        TExpr::Apply(_, es) => items_widen(alloc, es.as_slice(), seen, placeholder),
        TExpr::Strung(parts) => parts_widen(alloc, parts.as_slice(), seen),
        TExpr::Cast(a, t) => {
            Ok(
                cast_widens(alloc, a.get(), t, seen, placeholder)?
                    && casts_widen(alloc, a.get(), seen, placeholder)?,
            )
        }
    }
}

#[cycle(casts)]
fn items_widen(
    alloc: Global,
    es: &[TExpr],
    seen: &Context,
    placeholder: bool,
) -> Result<bool, NoMemory>
    ensures { IfOk result (λ b. b ≡ casts.items_widen (context_of seen.now) es.now placeholder) }
{
    for e in es {
        if !casts_widen(alloc, e, seen, placeholder)? {
            return Ok(false);
        }
    }
    Ok(true)
}

#[cycle(casts)]
fn rows_widen(
    alloc: Global,
    rows: &[TPair<TExpr>],
    seen: &Context,
    placeholder: bool,
) -> Result<bool, NoMemory>
    ensures { IfOk result (λ b. b ≡ casts.rows_widen (context_of seen.now) rows.now placeholder) }
{
    for row in rows {
        let holds = casts_widen(alloc, &row.key, seen, placeholder)?
            && casts_widen(alloc, &row.value, seen, placeholder)?;
        if !holds {
            return Ok(false);
        }
    }
    Ok(true)
}

#[cycle(casts)]
fn fields_widen(
    alloc: Global,
    fields: &[TField<TExpr>],
    seen: &Context,
    placeholder: bool,
) -> Result<bool, NoMemory>
    ensures { IfOk result (λ b. b ≡ casts.fields_widen (context_of seen.now) fields.now placeholder) }
{
    for field in fields {
        if !casts_widen(alloc, &field.value, seen, placeholder)? {
            return Ok(false);
        }
    }
    Ok(true)
}

#[cycle(casts)]
fn parts_widen(alloc: Global, parts: &[TPart<TExpr>], seen: &Context) -> Result<bool, NoMemory>
    ensures { IfOk result (λ b. b ≡ casts.parts_widen (context_of seen.now) parts.now) }
{
    for part in parts {
        if let TPart::Hole(hole) = part {
            if !casts_widen(alloc, &hole.expr, seen, true)? {
                return Ok(false);
            }
        }
    }
    Ok(true)
}

/// Whether the casts in an expression are those of the subset, where these names are seen.
pub fn are_allowed(
    alloc: Global,
    e: &TExpr,
    structs: &Indexed<StructDef>,
    names: &TypedNames,
    placeholder: bool,
) -> Result<bool, NoMemory>
    ensures { IfOk result (λ b. b ≡ spec.are_allowed structs.now names.now e.now placeholder) }
{
    let seen = Context {
        structs,
        names,
        outputs: true,
    };
    casts_widen(alloc, e, &seen, placeholder)
}

/// The same where there is an expression.
pub fn default_allowed(
    alloc: Global,
    e: &Option<TExpr>,
    structs: &Indexed<StructDef>,
    names: &TypedNames,
) -> Result<bool, NoMemory>
    ensures { IfOk result (λ b. b ≡ spec.default_allowed structs.now names.now e.now) }
{
    match e {
        Some(e) => are_allowed(alloc, e, structs, names, false),
        None => Ok(true),
    }
}

/// Whether the expression is an input, a scatter item or `call.output`, under casts of the subset.
pub fn refers(
    alloc: Global,
    e: &TExpr,
    declared: &NameStack,
    structs: &Indexed<StructDef>,
    names: &TypedNames,
) -> Result<bool, NoMemory>
    ensures { IfOk result (λ b. b ≡ spec.refers structs.now declared.now names.now e.now) }
{
    Ok(is_source(e, declared) && are_allowed(alloc, e, structs, names, false)?)
}

/// Whether the expression is `call.output`, under casts of the subset.
pub fn refers_to_output(
    alloc: Global,
    e: &TExpr,
    structs: &Indexed<StructDef>,
    names: &TypedNames,
) -> Result<bool, NoMemory>
    ensures { IfOk result (λ b. b ≡ spec.refers_to_output structs.now names.now e.now) }
{
    Ok(is_call_output(e) && are_allowed(alloc, e, structs, names, false)?)
}

/// Whether the casts in an output of a task are those of the subset, that of a file's name aside.
pub fn output_allowed(
    alloc: Global,
    e: &TExpr,
    structs: &Indexed<StructDef>,
    names: &TypedNames,
) -> Result<bool, NoMemory>
    ensures { IfOk result (λ b. b ≡ spec.output_allowed structs.now names.now e.now) }
{
    Ok(is_file_literal(e) || are_allowed(alloc, e, structs, names, false)?)
}
