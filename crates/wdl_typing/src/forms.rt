//! The type of each form of expression, by the types of its parts.

ghost use Rattle.std.specs.Prelude.{◌≡◌, ◌&&◌, ◌||◌, Option, IfOk, option_and_then};
ghost use Rattle.std.specs.Option.{option_copied};
ghost use Rattle.wdl_value.specs.Coerces.{coerces as coerces_to};
ghost use Rattle.wdl_value.specs.Fits.{is_int as in_range};
ghost use Rattle.wdl_value.specs.FunctionTypes as functions;
ghost use Rattle.wdl_value.specs.Kinds as kinds;
ghost use Rattle.wdl_value.specs.SameType as same;
ghost use Rattle.wdl_value.specs.declared.ty.Ty.{Ty};
ghost use Rattle.wdl_value.specs.declared.ty.Ty.TheVariants as ty;
ghost use Rattle.wdl_typed.specs.Typing as spec;

use sqlite_items::Items;
use std::alloc::Global;
use wdl_types::{FuncTyping, OpTyping, coerces, function_type, operator_type};
use wdl_value::{Func, NoMemory, Op, Ty, Value, is_bool, is_int, is_plain};

/// The type of a number, which has 64 bits.
fn int_type(n: i64) -> Option<Ty>
    ensures { result ≡ spec.when (in_range n) ty.Int }
{
    let _ = n;
    Some(Ty::Int)
}

/// The type of a literal value; None at a value that no literal has.
pub fn literal_type(x: &Value) -> Option<Ty>
    ensures { result ≡ spec.literal_type x.now }
{
    match x {
        Value::Bool(_) => Some(Ty::Bool),
        Value::Int(n) => int_type(*n),
        Value::Str(_) => Some(Ty::Str),
        Value::Absent => Some(Ty::Absent),
        _ => None,
    }
}

/// A copy of a type that was found.
pub fn copied(alloc: Global, t: Option<&Ty>) -> Result<Option<Ty>, NoMemory>
    ensures { IfOk result (λ c. c ≡ option_copied t.entry) }
{
    match t {
        Some(t) => Ok(Some(t.copy(alloc)?)),
        None => Ok(None),
    }
}

/// Whether the type is this one.
pub fn is_type(t: &Option<Ty>, u: &Ty) -> bool
    ensures { result ≡ spec.is_type t.now u.now }
{
    match t {
        Some(t) => t.same(u),
        None => false,
    }
}

/// The type of `!` before an operand of that type.
pub fn not_type(t: Option<Ty>) -> Option<Ty>
    ensures { result ≡ option_and_then (λ t. spec.when (kinds.is_bool t) ty.Bool) t }
{
    if is_bool(&t?) {
        return Some(Ty::Bool);
    }
    None
}

/// The type of `-` before an operand of that type.
pub fn neg_type(t: Option<Ty>) -> Option<Ty>
    ensures { result ≡ option_and_then (λ t. spec.when (kinds.is_int t) ty.Int) t }
{
    if is_int(&t?) {
        return Some(Ty::Int);
    }
    None
}

fn exact_row(t: &Ty, u: &Ty, row: OpTyping) -> Option<Ty>
    ensures { result ≡ spec.exact_row t.now u.now row }
{
    let OpTyping {
        left,
        right,
        result: gives,
    } = row;
    if left.same(t) && right.same(u) {
        return Some(gives);
    }
    None
}

fn is_maybe(op: Op) -> bool
    ensures { result ≡ spec.is_maybe op }
{
    matches!(op, Op::AddMaybe)
}

/// The type of an operation whose operands have exactly the types of a row of the table.
pub fn binary_type(
    alloc: Global,
    op: Op,
    placeholder: bool,
    t: Option<Ty>,
    u: Option<Ty>,
) -> Result<Option<Ty>, NoMemory>
    ensures { IfOk result (λ r. r ≡ spec.both (spec.binary_type op placeholder) t u) }
{
    let (Some(t), Some(u)) = (t, u) else {
        return Ok(None);
    };
    match operator_type(alloc, op, &t, &u, is_maybe(op) && placeholder)? {
        Some(row) => Ok(exact_row(&t, &u, row)),
        None => Ok(None),
    }
}

/// The type of `if c then t else u`, whose branches have one type.
pub fn choose_type(c: Option<Ty>, t: Option<Ty>, u: Option<Ty>) -> Option<Ty>
    ensures { result ≡ option_and_then (λ b. spec.both (λ t u. spec.when (kinds.is_bool b && same.same_type t u) t) t u) c }
{
    let c = c?;
    let t = t?;
    let u = u?;
    if is_bool(&c) && t.same(&u) {
        return Some(t);
    }
    None
}

fn all_same(t: &Ty, types: &[Ty]) -> bool
    ensures { result ≡ spec.all_same t.now types.now }
{
    for u in types {
        if !u.same(t) {
            return false;
        }
    }
    true
}

fn list_type(alloc: Global, types: &[Ty]) -> Result<Option<Ty>, NoMemory>
    ensures { IfOk result (λ t. t ≡ spec.list_type types.now) }
{
    match types {
        [] => Ok(Some(Ty::array_of(alloc, Ty::Empty, false)?)),
        [t, rest @ ..] => {
            if !all_same(t, rest) {
                return Ok(None);
            }
            let item = t.copy(alloc)?;
            Ok(Some(Ty::array_of(alloc, item, true)?))
        }
    }
}

/// The type of a list of items of one type.
pub fn list(alloc: Global, types: Option<Items<Ty>>) -> Result<Option<Ty>, NoMemory>
    ensures { IfOk result (λ t. t ≡ option_and_then spec.list_type types) }
{
    match types {
        Some(types) => list_type(alloc, types.as_slice()),
        None => Ok(None),
    }
}

fn map_type(alloc: Global, keys: &[Ty], values: &[Ty]) -> Result<Option<Ty>, NoMemory>
    ensures { IfOk result (λ t. t ≡ spec.map_type keys.now values.now) }
{
    match (keys, values) {
        ([], []) => Ok(Some(Ty::map_of(alloc, Ty::Empty, Ty::Empty)?)),
        ([k, keys @ ..], [t, values @ ..]) => {
            if !(is_plain(k) && all_same(k, keys) && all_same(t, values)) {
                return Ok(None);
            }
            let key = k.copy(alloc)?;
            Ok(Some(Ty::map_of(alloc, key, t.copy(alloc)?)?))
        }
        _ => Ok(None),
    }
}

/// The type of a map with keys of one type and values of one type.
pub fn map(
    alloc: Global,
    keys: Option<Items<Ty>>,
    values: Option<Items<Ty>>,
) -> Result<Option<Ty>, NoMemory>
    ensures { IfOk result (λ t. t ≡ option_and_then (λ ks. option_and_then (λ ts. spec.map_type ks ts) values) keys) }
{
    match (keys, values) {
        (Some(keys), Some(values)) => map_type(alloc, keys.as_slice(), values.as_slice()),
        _ => Ok(None),
    }
}

/// The type of a pair of parts of these types.
pub fn pair(alloc: Global, t: Option<Ty>, u: Option<Ty>) -> Result<Option<Ty>, NoMemory>
    ensures { IfOk result (λ r. r ≡ spec.both (λ t u. Option.Some (ty.Pair t u)) t u) }
{
    match (t, u) {
        (Some(t), Some(u)) => Ok(Some(Ty::pair_of(alloc, t, u)?)),
        _ => Ok(None),
    }
}

fn are_same(ts: &[Ty], us: &[Ty]) -> bool
    ensures { result ≡ spec.are_same ts.now us.now }
{
    let mut left = us;
    for t in ts {
        let [u, rest @ ..] = left else {
            return false;
        };
        if !t.same(u) {
            return false;
        }
        left = rest;
    }
    left.is_empty()
}

fn exact_args(types: &[Ty], row: FuncTyping) -> Option<Ty>
    ensures { result ≡ spec.exact_args types.now row }
{
    let FuncTyping {
        args,
        result: gives,
    } = row;
    if are_same(args.as_slice(), types) {
        return Some(gives);
    }
    None
}

/// The type of a call whose arguments have exactly the types of a row of the table.
pub fn row_type(alloc: Global, f: Func, types: &[Ty]) -> Result<Option<Ty>, NoMemory>
    ensures { IfOk result (λ t. t ≡ option_and_then (spec.exact_args types.now) (functions.function_type f types.now)) }
{
    match function_type(alloc, f, types)? {
        Some(row) => Ok(exact_args(types, row)),
        None => Ok(None),
    }
}

/// The type of a call of a function that writes no file, and that reads one only where `outputs`
/// says that it may.
pub fn apply_type(
    alloc: Global,
    outputs: bool,
    f: Func,
    types: Option<Items<Ty>>,
) -> Result<Option<Ty>, NoMemory>
    ensures { IfOk result (λ t. t ≡ option_and_then (spec.apply_type outputs f) types) }
{
    let Some(types) = types else {
        return Ok(None);
    };
    if f.writes() || f.reads() && !outputs {
        return Ok(None);
    }
    row_type(alloc, f, types.as_slice())
}

/// The type of a cast.
pub fn cast_type(alloc: Global, t: Option<Ty>, u: &Ty) -> Result<Option<Ty>, NoMemory>
    ensures { IfOk result (λ r. r ≡ option_and_then (λ t. spec.when (coerces_to t u.now) u.now) t) }
{
    let Some(t) = t else {
        return Ok(None);
    };
    if !coerces(&t, u) {
        return Ok(None);
    }
    Ok(Some(u.copy(alloc)?))
}
