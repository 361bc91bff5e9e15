//! The walk over an expression that finds the names in it.

ghost use Rattle.std.specs.Prelude.{◌≡◌, [], ◌∷◌, ◌++◌, map, IfOk, OnOk};
ghost use Rattle.references.specs.Names.{argument_names, behind, piece_names};
ghost use Rattle.wdl_typed.specs.Scope.{names_of, all_names, row_names};

use std::alloc::Global;
use wdl_typed::{TExpr, TField, TPair, TPart};
use wdl_value::{Key, NoMemory};

fn push<'a>(key: &'a Key, names: &mut Vec<&'a Key>) -> Result<(), NoMemory>
    ensures { OnOk result (map (λ k. k.now) names.new.items ≡ map (λ k. k.now) names.old.items ++ key.now ∷ []) }
{
    names.push(key)?;
    Ok(())
}

#[cycle(walk)]
fn push_names<'a>(e: &'a TExpr, names: &mut Vec<&'a Key>) -> Result<(), NoMemory>
    ensures { OnOk result (map (λ k. k.now) names.new.items ≡ behind (map (λ k. k.now) names.old.items) (names_of e.now)) }
{
    match e {
        TExpr::Lit(_) => Ok(()),
        TExpr::Get(key) => push(key, names),
        TExpr::Member(a, _) | TExpr::Not(a) | TExpr::Neg(a) | TExpr::Cast(a, _) => {
            push_names(a.get(), names)
        }
        TExpr::At(a, b) | TExpr::Binary(_, a, b) | TExpr::PairOf(a, b) => {
            push_names(a.get(), names)?;
            push_names(b.get(), names)
        }
        TExpr::Choose(c, a, b) => {
            push_names(c.get(), names)?;
            push_names(a.get(), names)?;
            push_names(b.get(), names)
        }
        TExpr::ListOf(es) | TExpr::Apply(_, es) => push_all(es.as_slice(), names),
        TExpr::MapOf(rows) => push_rows(rows.as_slice(), names),
        TExpr::StructOf(_, fields) => push_fields(fields.as_slice(), names),
        TExpr::Strung(parts) => push_parts(parts.as_slice(), names),
    }
}

#[cycle(walk)]
fn push_all<'a>(es: &'a [TExpr], names: &mut Vec<&'a Key>) -> Result<(), NoMemory>
    ensures { OnOk result (map (λ k. k.now) names.new.items ≡ behind (map (λ k. k.now) names.old.items) (all_names (map names_of es.now))) }
{
    for e in es {
        push_names(e, names)?;
    }
    Ok(())
}

#[cycle(walk)]
fn push_rows<'a>(rows: &'a [TPair<TExpr>], names: &mut Vec<&'a Key>) -> Result<(), NoMemory>
    ensures { OnOk result (map (λ k. k.now) names.new.items ≡ behind (map (λ k. k.now) names.old.items) (row_names (map (λ r. record { key = names_of r.key; value = names_of r.value }) rows.now))) }
{
    for row in rows {
        push_names(&row.key, names)?;
        push_names(&row.value, names)?;
    }
    Ok(())
}

#[cycle(walk)]
fn push_fields<'a>(fields: &'a [TField<TExpr>], names: &mut Vec<&'a Key>) -> Result<(), NoMemory>
    ensures { OnOk result (map (λ k. k.now) names.new.items ≡ behind (map (λ k. k.now) names.old.items) (argument_names fields.now)) }
{
    for field in fields {
        push_names(&field.value, names)?;
    }
    Ok(())
}

#[cycle(walk)]
fn push_parts<'a>(parts: &'a [TPart<TExpr>], names: &mut Vec<&'a Key>) -> Result<(), NoMemory>
    ensures { OnOk result (map (λ k. k.now) names.new.items ≡ behind (map (λ k. k.now) names.old.items) (piece_names parts.now)) }
{
    for part in parts {
        let TPart::Hole(hole) = part else {
            continue;
        };
        push_names(&hole.expr, names)?;
    }
    Ok(())
}

/// The names to which an expression refers, from left to right, each as often as it stands there:
/// `x` as itself, and the output of a call as `call.output`.
pub fn expression_names<'a>(alloc: Global, e: &'a TExpr) -> Result<Vec<&'a Key>, NoMemory>
    ensures { IfOk result (λ names. map (λ k. k.now) names.items ≡ names_of e.now) }
{
    let mut names = Vec::new(alloc);
    push_names(e, &mut names)?;
    Ok(names)
}

/// The names to which the arguments of a call refer, as `expression_names` has them.
pub fn argument_names<'a>(
    alloc: Global,
    args: &'a [TField<TExpr>],
) -> Result<Vec<&'a Key>, NoMemory>
    ensures { IfOk result (λ names. map (λ k. k.now) names.items ≡ argument_names args.now) }
{
    let mut names = Vec::new(alloc);
    push_fields(args, &mut names)?;
    Ok(names)
}
