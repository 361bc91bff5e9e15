//! The type of an expression.

ghost use Rattle.std.specs.Prelude.{◌≡◌, IfOk};
ghost use Rattle.wdl_typed.specs.Declarations as places;
ghost use Rattle.wdl_typed.specs.Typing as typing;
ghost use Rattle.wdl_typing.specs.Types as spec;

use crate::forms::{
    apply_type, binary_type, cast_type, choose_type, copied, is_type, list, literal_type, map,
    neg_type, not_type, pair, row_type,
};
use crate::member::{at, member};
use crate::placeholder::takes_some;
use sqlite_items::Items;
use std::alloc::Global;
use struct_members::members_of;
use wdl_names::{Indexed, TypedNames};
use wdl_typed::{TExpr, TField, TPair, TPart};
use wdl_value::{Func, Member, Name, NoMemory, StructDef, Ty};

/// What an expression sees: structs and names, and whether functions may see what the command of a
/// job left.
#[derive(Drop)]
pub struct Context<'a> {
    pub structs: &'a Indexed<'a, StructDef>,
    pub names: &'a TypedNames,
    pub outputs: bool,
}

/// The type of an expression, or None where it is not well typed. `placeholder` says whether it
/// stands in a placeholder (OpenWDL 1.1, "Expressions").
#[cycle(typing)]
pub fn type_of(
    alloc: Global,
    e: &TExpr,
    seen: &Context,
    placeholder: bool,
) -> Result<Option<Ty>, NoMemory>
    ensures { IfOk result (λ t. t ≡ typing.type_of (spec.context_of seen.now) e.now placeholder) }
{
    match e {
        TExpr::Lit(x) => Ok(literal_type(x)),
        TExpr::Get(key) => copied(alloc, seen.names.type_of(key)),
        TExpr::Member(a, name) => {
            let t = type_of(alloc, a.get(), seen, placeholder)?;
            member(alloc, seen.structs, name, t)
        }
        TExpr::At(a, b) => {
            let t = type_of(alloc, a.get(), seen, placeholder)?;
            let u = type_of(alloc, b.get(), seen, placeholder)?;
            Ok(at(t, u))
        }
        TExpr::Not(a) => {
            let t = type_of(alloc, a.get(), seen, placeholder)?;
            Ok(not_type(t))
        }
        TExpr::Neg(a) => {
            let t = type_of(alloc, a.get(), seen, placeholder)?;
            Ok(neg_type(t))
        }
        TExpr::Binary(op, a, b) => {
            let t = type_of(alloc, a.get(), seen, placeholder)?;
            let u = type_of(alloc, b.get(), seen, placeholder)?;
            binary_type(alloc, *op, placeholder, t, u)
        }
        TExpr::Choose(c, a, b) => {
            let c = type_of(alloc, c.get(), seen, placeholder)?;
            let t = type_of(alloc, a.get(), seen, placeholder)?;
            let u = type_of(alloc, b.get(), seen, placeholder)?;
            Ok(choose_type(c, t, u))
        }
        TExpr::ListOf(es) => {
            let types = types_of(alloc, es.as_slice(), seen, placeholder)?;
            list(alloc, types)
        }
        TExpr::MapOf(rows) => {
            let keys = key_types(alloc, rows.as_slice(), seen, placeholder)?;
            let values = value_types(alloc, rows.as_slice(), seen, placeholder)?;
            map(alloc, keys, values)
        }
        TExpr::PairOf(a, b) => {
            let t = type_of(alloc, a.get(), seen, placeholder)?;
            let u = type_of(alloc, b.get(), seen, placeholder)?;
            pair(alloc, t, u)
        }
        TExpr::StructOf(name, fields) => {
            struct_type(alloc, fields.as_slice(), name, seen, placeholder)
        }
        TExpr::Apply(f, es) => {
            let types = types_of(alloc, es.as_slice(), seen, placeholder)?;
            apply_type(alloc, seen.outputs, *f, types)
        }
        TExpr::Strung(parts) => {
            if parts_fit(alloc, parts.as_slice(), seen)? {
                return Ok(Some(Ty::Str));
            }
            Ok(None)
        }
        TExpr::Cast(a, u) => {
            let t = type_of(alloc, a.get(), seen, placeholder)?;
            cast_type(alloc, t, u)
        }
    }
}

/// The types of expressions, if each has one.
#[cycle(typing)]
fn types_of(
    alloc: Global,
    es: &[TExpr],
    seen: &Context,
    placeholder: bool,
) -> Result<Option<Items<Ty>>, NoMemory>
    ensures { IfOk result (λ ts. ts ≡ spec.items_types (spec.context_of seen.now) es.now placeholder) }
{
    let mut types = Items::new(alloc);
    for e in es {
        match type_of(alloc, e, seen, placeholder)? {
            Some(t) => types.push(t)?,
            None => return Ok(None),
        }
    }
    Ok(Some(types))
}

#[cycle(typing)]
fn key_types(
    alloc: Global,
    rows: &[TPair<TExpr>],
    seen: &Context,
    placeholder: bool,
) -> Result<Option<Items<Ty>>, NoMemory>
    ensures { IfOk result (λ ts. ts ≡ spec.key_types (spec.context_of seen.now) rows.now placeholder) }
{
    let mut types = Items::new(alloc);
    for row in rows {
        match type_of(alloc, &row.key, seen, placeholder)? {
            Some(t) => types.push(t)?,
            None => return Ok(None),
        }
    }
    Ok(Some(types))
}

#[cycle(typing)]
fn value_types(
    alloc: Global,
    rows: &[TPair<TExpr>],
    seen: &Context,
    placeholder: bool,
) -> Result<Option<Items<Ty>>, NoMemory>
    ensures { IfOk result (λ ts. ts ≡ spec.value_types (spec.context_of seen.now) rows.now placeholder) }
{
    let mut types = Items::new(alloc);
    for row in rows {
        match type_of(alloc, &row.value, seen, placeholder)? {
            Some(t) => types.push(t)?,
            None => return Ok(None),
        }
    }
    Ok(Some(types))
}

/// The type of a struct literal: the members of the struct, in their order and of their types.
#[cycle(typing)]
fn struct_type(
    alloc: Global,
    fields: &[TField<TExpr>],
    name: &Name,
    seen: &Context,
    placeholder: bool,
) -> Result<Option<Ty>, NoMemory>
    ensures { IfOk result (λ t. t ≡ spec.literal_type (spec.context_of seen.now) name.now fields.now placeholder) }
{
    let Some(members) = members_of(seen.structs, name) else {
        return Ok(None);
    };
    if !fields_fit(alloc, fields, members, seen, placeholder)? {
        return Ok(None);
    }
    Ok(Some(Ty::Struct(name.copy(alloc)?)))
}

#[cycle(typing)]
fn fields_fit(
    alloc: Global,
    fields: &[TField<TExpr>],
    members: &[Member],
    seen: &Context,
    placeholder: bool,
) -> Result<bool, NoMemory>
    ensures { IfOk result (λ b. b ≡ spec.fields_fit (spec.context_of seen.now) fields.now members.now placeholder) }
{
    let mut left = members;
    for field in fields {
        let [member, rest @ ..] = left else {
            return Ok(false);
        };
        let t = type_of(alloc, &field.value, seen, placeholder)?;
        if !(field.name.same(&member.name) && is_type(&t, &member.ty)) {
            return Ok(false);
        }
        left = rest;
    }
    Ok(left.is_empty())
}

/// Whether the placeholders of a string take the types of their expressions.
#[cycle(typing)]
fn parts_fit(alloc: Global, parts: &[TPart<TExpr>], seen: &Context) -> Result<bool, NoMemory>
    ensures { IfOk result (λ b. b ≡ spec.parts_fit (spec.context_of seen.now) parts.now) }
{
    for part in parts {
        if let TPart::Hole(hole) = part {
            let t = type_of(alloc, &hole.expr, seen, true)?;
            if !takes_some(&hole.choice, &t) {
                return Ok(false);
            }
        }
    }
    Ok(true)
}

/// The type of a call of a function that writes a file.
fn write_call(
    alloc: Global,
    f: Func,
    es: &[TExpr],
    seen: &Context,
    placeholder: bool,
) -> Result<Option<Ty>, NoMemory>
    ensures { IfOk result (λ t. t ≡ spec.write_call (spec.context_of seen.now) f es.now placeholder) }
{
    if !f.writes() {
        return Ok(None);
    }
    match types_of(alloc, es, seen, placeholder)? {
        Some(types) => row_type(alloc, f, types.as_slice()),
        None => Ok(None),
    }
}

/// The same, casts round the call aside.
fn write_type(
    alloc: Global,
    e: &TExpr,
    seen: &Context,
    placeholder: bool,
) -> Result<Option<Ty>, NoMemory>
    ensures { IfOk result (λ t. t ≡ spec.write_type (spec.context_of seen.now) e.now placeholder) }
{
    match e {
        TExpr::Apply(f, es) => { write_call(alloc, *f, es.as_slice(), seen, placeholder) }
        TExpr::Cast(a, u) => {
            let t = write_type(alloc, a.get(), seen, placeholder)?;
            cast_type(alloc, t, u)
        }
        _ => Ok(None),
    }
}

/// The type of an expression that may be, as a whole, a call of a function that writes a file.
pub fn type_in_place(
    alloc: Global,
    e: &TExpr,
    seen: &Context,
    placeholder: bool,
) -> Result<Option<Ty>, NoMemory>
    ensures { IfOk result (λ t. t ≡ places.type_in_place (spec.context_of seen.now) e.now placeholder) }
{
    match type_of(alloc, e, seen, placeholder)? {
        Some(t) => Ok(Some(t)),
        None => write_type(alloc, e, seen, placeholder),
    }
}
