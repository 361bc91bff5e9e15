//! The parameters and the result of each function.

ghost use Rattle.std.specs.Prelude.{◌≡◌, IfOk};
ghost use Rattle.wdl_value.specs.FunctionTypes as spec;
ghost use Rattle.wdl_value.specs.declared.ty.Ty.TheVariants as ty;

use crate::coercion::coerces;
use crate::inner_types::{
    inner_item_of, item_of, item_parts_of, plain_entries_of, plain_item_of, plain_item_parts_of,
};
use sqlite_items::{Boxed, Items};
use std::alloc::Global;
use wdl_value::{Func, FuncTyping, NoMemory, Ty};

fn array(alloc: Global, item: Ty) -> Result<Ty, NoMemory>
    ensures { IfOk result (λ t. t ≡ spec.array item) }
{
    Ty::array_of(alloc, item, false)
}

fn array_of(alloc: Global, item: &Ty) -> Result<Ty, NoMemory>
    ensures { IfOk result (λ t. t ≡ spec.array item.now) }
{
    array(alloc, item.copy(alloc)?)
}

fn rows_of(alloc: Global, item: &Ty) -> Result<Ty, NoMemory>
    ensures { IfOk result (λ t. t ≡ spec.array (spec.array item.now)) }
{
    array(alloc, array_of(alloc, item)?)
}

fn pairs_of(alloc: Global, left: &Ty, right: &Ty) -> Result<Ty, NoMemory>
    ensures { IfOk result (λ t. t ≡ spec.array (ty.Pair left.now right.now)) }
{
    let left = left.copy(alloc)?;
    let right = right.copy(alloc)?;
    array(alloc, Ty::pair_of(alloc, left, right)?)
}

fn entries_of(alloc: Global, key: &Ty, value: &Ty) -> Result<Ty, NoMemory>
    ensures { IfOk result (λ t. t ≡ ty.Map key.now value.now) }
{
    let key = key.copy(alloc)?;
    let value = value.copy(alloc)?;
    Ty::map_of(alloc, key, value)
}

/// The inner type of an optional, and Empty for that of `None`.
fn known_type(alloc: Global, t: &Ty) -> Result<Ty, NoMemory>
    ensures { IfOk result (λ u. u ≡ spec.known_type t.now) }
{
    match t {
        Ty::Opt(u) => u.get().copy(alloc),
        Ty::Absent => Ok(Ty::Empty),
        _ => t.copy(alloc),
    }
}

fn unary(alloc: Global, arg: Ty, gives: Ty) -> Result<Option<FuncTyping>, NoMemory>
    ensures { IfOk result (λ r. r ≡ spec.unary arg gives) }
{
    let mut args = Items::new(alloc);
    args.push(arg)?;
    Ok(Some(FuncTyping {
        args,
        result: gives,
    }))
}

fn binary(alloc: Global, first: Ty, second: Ty, gives: Ty) -> Result<Option<FuncTyping>, NoMemory>
    ensures { IfOk result (λ r. r ≡ spec.binary first second gives) }
{
    let mut args = Items::new(alloc);
    args.push(first)?;
    args.push(second)?;
    Ok(Some(FuncTyping {
        args,
        result: gives,
    }))
}

fn nullary(alloc: Global, gives: Ty) -> Option<FuncTyping>
    ensures { result ≡ spec.nullary gives }
{
    Some(FuncTyping {
        args: Items::new(alloc),
        result: gives,
    })
}

/// One parameter of a given type.
fn taking(alloc: Global, t: &Ty, param: Ty, gives: Ty) -> Result<Option<FuncTyping>, NoMemory>
    ensures { IfOk result (λ r. r ≡ spec.taking t.now param gives) }
{
    if coerces(t, &param) {
        return unary(alloc, param, gives);
    }
    Ok(None)
}

fn length_type(alloc: Global, t: &Ty) -> Result<Option<FuncTyping>, NoMemory>
    ensures { IfOk result (λ r. r ≡ spec.length_type t.now) }
{
    match item_of(t) {
        Some(x) => unary(alloc, array_of(alloc, x)?, Ty::Int),
        None => Ok(None),
    }
}

fn transpose_type(alloc: Global, t: &Ty) -> Result<Option<FuncTyping>, NoMemory>
    ensures { IfOk result (λ r. r ≡ spec.transpose_type t.now) }
{
    match inner_item_of(t) {
        Some(x) => {
            let arg = rows_of(alloc, x)?;
            unary(alloc, arg, rows_of(alloc, x)?)
        }
        None => Ok(None),
    }
}

fn flatten_type(alloc: Global, t: &Ty) -> Result<Option<FuncTyping>, NoMemory>
    ensures { IfOk result (λ r. r ≡ spec.flatten_type t.now) }
{
    match inner_item_of(t) {
        Some(x) => {
            let arg = rows_of(alloc, x)?;
            unary(alloc, arg, array_of(alloc, x)?)
        }
        None => Ok(None),
    }
}

fn quote_type(alloc: Global, t: &Ty) -> Result<Option<FuncTyping>, NoMemory>
    ensures { IfOk result (λ r. r ≡ spec.quote_type t.now) }
{
    match plain_item_of(t) {
        Some(p) => {
            let arg = array_of(alloc, p)?;
            unary(alloc, arg, array(alloc, Ty::Str)?)
        }
        None => Ok(None),
    }
}

fn unzip_type(alloc: Global, t: &Ty) -> Result<Option<FuncTyping>, NoMemory>
    ensures { IfOk result (λ r. r ≡ spec.unzip_type t.now) }
{
    match item_parts_of(t) {
        Some((x, y)) => {
            let arg = pairs_of(alloc, x, y)?;
            let left = array_of(alloc, x)?;
            let right = array_of(alloc, y)?;
            unary(alloc, arg, Ty::pair_of(alloc, left, right)?)
        }
        None => Ok(None),
    }
}

fn as_pairs_type(alloc: Global, t: &Ty) -> Result<Option<FuncTyping>, NoMemory>
    ensures { IfOk result (λ r. r ≡ spec.as_pairs_type t.now) }
{
    match plain_entries_of(t) {
        Some((p, y)) => {
            let arg = entries_of(alloc, p, y)?;
            unary(alloc, arg, pairs_of(alloc, p, y)?)
        }
        None => Ok(None),
    }
}

fn keys_type(alloc: Global, t: &Ty) -> Result<Option<FuncTyping>, NoMemory>
    ensures { IfOk result (λ r. r ≡ spec.keys_type t.now) }
{
    match plain_entries_of(t) {
        Some((p, y)) => {
            let arg = entries_of(alloc, p, y)?;
            unary(alloc, arg, array_of(alloc, p)?)
        }
        None => Ok(None),
    }
}

fn as_map_type(alloc: Global, t: &Ty) -> Result<Option<FuncTyping>, NoMemory>
    ensures { IfOk result (λ r. r ≡ spec.as_map_type t.now) }
{
    match plain_item_parts_of(t) {
        Some((p, y)) => {
            let arg = pairs_of(alloc, p, y)?;
            unary(alloc, arg, entries_of(alloc, p, y)?)
        }
        None => Ok(None),
    }
}

fn collect_by_key_type(alloc: Global, t: &Ty) -> Result<Option<FuncTyping>, NoMemory>
    ensures { IfOk result (λ r. r ≡ spec.collect_by_key_type t.now) }
{
    match plain_item_parts_of(t) {
        Some((p, y)) => {
            let arg = pairs_of(alloc, p, y)?;
            let key = p.copy(alloc)?;
            let values = array_of(alloc, y)?;
            unary(alloc, arg, Ty::map_of(alloc, key, values)?)
        }
        None => Ok(None),
    }
}

/// Array[X?] for an item X of that type.
fn options_of(alloc: Global, x: &Ty) -> Result<Ty, NoMemory>
    ensures { IfOk result (λ t. t ≡ spec.array (ty.Opt (spec.known_type x.now))) }
{
    let known = known_type(alloc, x)?;
    array(alloc, Ty::Opt(Boxed::new(alloc, known)?))
}

fn select_first_type(alloc: Global, t: &Ty) -> Result<Option<FuncTyping>, NoMemory>
    ensures { IfOk result (λ r. r ≡ spec.select_first_type t.now) }
{
    match item_of(t) {
        Some(x) => {
            let arg = options_of(alloc, x)?;
            unary(alloc, arg, known_type(alloc, x)?)
        }
        None => Ok(None),
    }
}

fn select_all_type(alloc: Global, t: &Ty) -> Result<Option<FuncTyping>, NoMemory>
    ensures { IfOk result (λ r. r ≡ spec.select_all_type t.now) }
{
    match item_of(t) {
        Some(x) => {
            let arg = options_of(alloc, x)?;
            let known = known_type(alloc, x)?;
            unary(alloc, arg, array(alloc, known)?)
        }
        None => Ok(None),
    }
}

fn defined_type(alloc: Global, t: &Ty) -> Result<Option<FuncTyping>, NoMemory>
    ensures { IfOk result (λ r. r ≡ spec.defined_type t.now) }
{
    unary(alloc, t.copy(alloc)?, Ty::Bool)
}

/// Functions of one parameter whose type is given.
fn simple_type(alloc: Global, f: Func, t: &Ty) -> Result<Option<FuncTyping>, NoMemory>
    ensures { IfOk result (λ r. r ≡ spec.simple_type f t.now) }
{
    match f {
        Func::Range => taking(alloc, t, Ty::Int, array(alloc, Ty::Int)?),
        Func::Basename => taking(alloc, t, Ty::Str, Ty::Str),
        Func::Glob => taking(alloc, t, Ty::Str, array(alloc, Ty::File)?),
        Func::ReadString => taking(alloc, t, Ty::File, Ty::Str),
        Func::ReadLines => taking(alloc, t, Ty::File, array(alloc, Ty::Str)?),
        Func::ReadInt => taking(alloc, t, Ty::File, Ty::Int),
        Func::ReadBoolean => taking(alloc, t, Ty::File, Ty::Bool),
        Func::ReadTsv => taking(alloc, t, Ty::File, rows_of(alloc, &Ty::Str)?),
        Func::ReadMap => taking(alloc, t, Ty::File, Ty::map_of(alloc, Ty::Str, Ty::Str)?),
        Func::WriteLines => taking(alloc, t, array(alloc, Ty::Str)?, Ty::File),
        Func::WriteTsv => taking(alloc, t, rows_of(alloc, &Ty::Str)?, Ty::File),
        Func::WriteMap => taking(alloc, t, Ty::map_of(alloc, Ty::Str, Ty::Str)?, Ty::File),
        _ => Ok(None),
    }
}

fn unary_type(alloc: Global, f: Func, t: &Ty) -> Result<Option<FuncTyping>, NoMemory>
    ensures { IfOk result (λ r. r ≡ spec.unary_type f t.now) }
{
    match f {
        Func::Length => length_type(alloc, t),
        Func::Transpose => transpose_type(alloc, t),
        Func::Unzip => unzip_type(alloc, t),
        Func::Flatten => flatten_type(alloc, t),
        Func::Quote | Func::Squote => quote_type(alloc, t),
        Func::AsPairs => as_pairs_type(alloc, t),
        Func::AsMap => as_map_type(alloc, t),
        Func::Keys => keys_type(alloc, t),
        Func::CollectByKey => collect_by_key_type(alloc, t),
        Func::Defined => defined_type(alloc, t),
        Func::SelectFirst => select_first_type(alloc, t),
        Func::SelectAll => select_all_type(alloc, t),
        _ => simple_type(alloc, f, t),
    }
}

/// Two parameters of one given type.
fn taking_both(
    alloc: Global,
    t: &Ty,
    u: &Ty,
    param: Ty,
    gives: Ty,
) -> Result<Option<FuncTyping>, NoMemory>
    ensures { IfOk result (λ r. r ≡ spec.taking_both t.now u.now param gives) }
{
    if coerces(t, &param) && coerces(u, &param) {
        let second = param.copy(alloc)?;
        return binary(alloc, param, second, gives);
    }
    Ok(None)
}

/// A String, and an array of plain items.
fn texts_type(alloc: Global, t: &Ty, u: &Ty, gives: Ty) -> Result<Option<FuncTyping>, NoMemory>
    ensures { IfOk result (λ r. r ≡ spec.texts_type t.now u.now gives) }
{
    if !coerces(t, &Ty::Str) {
        return Ok(None);
    }
    match plain_item_of(u) {
        Some(p) => binary(alloc, Ty::Str, array_of(alloc, p)?, gives),
        None => Ok(None),
    }
}

fn pairing_type(alloc: Global, t: &Ty, u: &Ty) -> Result<Option<FuncTyping>, NoMemory>
    ensures { IfOk result (λ r. r ≡ spec.pairing_type t.now u.now) }
{
    match (item_of(t), item_of(u)) {
        (Some(x), Some(y)) => {
            let first = array_of(alloc, x)?;
            let second = array_of(alloc, y)?;
            binary(alloc, first, second, pairs_of(alloc, x, y)?)
        }
        _ => Ok(None),
    }
}

fn binary_type(alloc: Global, f: Func, t: &Ty, u: &Ty) -> Result<Option<FuncTyping>, NoMemory>
    ensures { IfOk result (λ r. r ≡ spec.binary_type f t.now u.now) }
{
    match f {
        Func::Min | Func::Max => taking_both(alloc, t, u, Ty::Int, Ty::Int),
        Func::Cross | Func::Zip => pairing_type(alloc, t, u),
        Func::Prefix | Func::Suffix => texts_type(alloc, t, u, array(alloc, Ty::Str)?),
        Func::Sep => texts_type(alloc, t, u, Ty::Str),
        Func::Basename => taking_both(alloc, t, u, Ty::Str, Ty::Str),
        _ => Ok(None),
    }
}

fn nullary_type(alloc: Global, f: Func) -> Option<FuncTyping>
    ensures { result ≡ spec.nullary_type f }
{
    match f {
        Func::Stdout | Func::Stderr => nullary(alloc, Ty::File),
        _ => None,
    }
}

/// The row of the table of functions for the types of the arguments (OpenWDL 1.1, "Standard
/// Library"): the types to which they are cast, and the type of the result. None where the table
/// has no row.
pub fn function_type(alloc: Global, f: Func, args: &[Ty]) -> Result<Option<FuncTyping>, NoMemory>
    ensures value { IfOk result (λ r. r ≡ spec.function_type f args.now) }
{
    match args {
        [] => Ok(nullary_type(alloc, f)),
        [t] => unary_type(alloc, f, t),
        [t, u] => binary_type(alloc, f, t, u),
        _ => Ok(None),
    }
}
