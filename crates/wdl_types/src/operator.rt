//! The operands and the result of each operator.

ghost use Rattle.std.specs.Prelude.{◌≡◌, IfOk};
ghost use Rattle.wdl_value.specs.OperatorTypes as spec;

use crate::joining::join;
use sqlite_items::Boxed;
use std::alloc::Global;
use wdl_value::{
    NoMemory, Op, OpTyping, Ty, bare_type, is_absent, is_bool, is_empty, is_int, is_optional,
    is_scalar, is_str, is_text,
};

fn row(alloc: Global, left: &Ty, right: &Ty, gives: Ty) -> Result<Option<OpTyping>, NoMemory>
    ensures { IfOk result (λ r. r ≡ spec.row left.now right.now gives) }
{
    Ok(Some(OpTyping {
        left: left.copy(alloc)?,
        right: right.copy(alloc)?,
        result: gives,
    }))
}

fn arithmetic_type(left: &Ty, right: &Ty) -> Option<OpTyping>
    ensures { result ≡ spec.arithmetic_type left.now right.now }
{
    if is_int(left) && is_int(right) {
        return Some(OpTyping {
            left: Ty::Int,
            right: Ty::Int,
            result: Ty::Int,
        });
    }
    None
}

/// Whether one is a text and the other one may be joined to it.
fn adds(left: &Ty, right: &Ty) -> bool
    ensures { result ≡ spec.adds left.now right.now }
{
    is_text(left) && is_scalar(right) || is_scalar(left) && is_text(right)
}

fn add_type(alloc: Global, left: &Ty, right: &Ty) -> Result<Option<OpTyping>, NoMemory>
    ensures { IfOk result (λ r. r ≡ spec.add_type left.now right.now) }
{
    if adds(left, right) {
        return row(alloc, left, right, Ty::Str);
    }
    Ok(arithmetic_type(left, right))
}

/// Whether an operand of `+` in a placeholder may be undefined.
fn is_loose(t: &Ty) -> bool
    ensures { result ≡ spec.is_loose t.now }
{
    is_absent(t) || is_optional(t)
}

fn adds_maybe(left: &Ty, right: &Ty) -> bool
    ensures { result ≡ spec.adds_maybe left.now right.now }
{
    is_absent(left) && (is_absent(right) || is_scalar(bare_type(right)))
        || is_absent(right) && is_scalar(bare_type(left))
        || adds(bare_type(left), bare_type(right))
}

fn add_maybe_type(
    alloc: Global,
    left: &Ty,
    right: &Ty,
    placeholder: bool,
) -> Result<Option<OpTyping>, NoMemory>
    ensures { IfOk result (λ r. r ≡ spec.only_if placeholder (spec.add_maybe_type left.now right.now)) }
{
    if placeholder && (is_loose(left) || is_loose(right)) && adds_maybe(left, right) {
        let gives = Ty::Opt(Boxed::new(alloc, Ty::Str)?);
        return row(alloc, left, right, gives);
    }
    Ok(None)
}

fn order_type(alloc: Global, left: &Ty, right: &Ty) -> Result<Option<OpTyping>, NoMemory>
    ensures { IfOk result (λ r. r ≡ spec.order_type left.now right.now) }
{
    if is_int(left) && is_int(right)
        || is_bool(left) && is_bool(right)
        || is_str(left) && is_str(right)
    {
        return row(alloc, left, right, Ty::Bool);
    }
    Ok(None)
}

fn equality_type(alloc: Global, left: &Ty, right: &Ty) -> Result<Option<OpTyping>, NoMemory>
    ensures { IfOk result (λ r. r ≡ spec.equality_type left.now right.now) }
{
    if is_empty(left) || is_empty(right) {
        return Ok(None);
    }
    match join(alloc, left, right)? {
        Some(joined) => row(alloc, &joined, &joined, Ty::Bool),
        None => Ok(None),
    }
}

fn logic_type(left: &Ty, right: &Ty) -> Option<OpTyping>
    ensures { result ≡ spec.logic_type left.now right.now }
{
    if is_bool(left) && is_bool(right) {
        return Some(OpTyping {
            left: Ty::Bool,
            right: Ty::Bool,
            result: Ty::Bool,
        });
    }
    None
}

/// The row of the table of operators for the types of two operands (OpenWDL 1.1, "Expressions"):
/// the types to which they are cast, and the type of the result. None where the table has no row.
/// `placeholder` says whether the expression stands inside a placeholder, where `+` takes operands
/// that may be undefined; `AddMaybe` is that `+` alone.
pub fn operator_type(
    alloc: Global,
    op: Op,
    left: &Ty,
    right: &Ty,
    placeholder: bool,
) -> Result<Option<OpTyping>, NoMemory>
    ensures value { IfOk result (λ r. r ≡ spec.operator_type op left.now right.now placeholder) }
{
    match op {
        Op::Mul | Op::Div | Op::Rem | Op::Sub => Ok(arithmetic_type(left, right)),
        Op::Add => match add_type(alloc, left, right)? {
            Some(typing) => Ok(Some(typing)),
            None => add_maybe_type(alloc, left, right, placeholder),
        },
        Op::AddMaybe => add_maybe_type(alloc, left, right, placeholder),
        Op::Lt | Op::Le | Op::Gt | Op::Ge => order_type(alloc, left, right),
        Op::Eq | Op::Ne => equality_type(alloc, left, right),
        Op::And | Op::Or => Ok(logic_type(left, right)),
    }
}
