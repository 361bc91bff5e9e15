//! Operators, members, items and `if`, given their typed parts.

ghost use Rattle.std.specs.Prelude.{◌≡◌, IfOk, option_map};
ghost use Rattle.wdl_check_rules.specs.Rules as spec;

use crate::typed::{Typed, boxed_cast};
use sqlite_items::Boxed;
use std::alloc::Global;
use wdl_ast::{BinaryOperator, UnaryOperator};
use wdl_typed::TExpr;
use wdl_types::{OpTyping, join, operator_type};
use wdl_value::{NoMemory, Op, Ty, is_bool, is_int};

/// An operator with its row of the table.
type OperatorRow = (Op, OpTyping);

/// `!`, `-` and `+` before one operand.
pub fn unary(alloc: Global, operator: UnaryOperator, x: Typed) -> Result<Option<Typed>, NoMemory>
    ensures { IfOk result (λ t. t ≡ spec.unary_of operator x) }
{
    match operator {
        UnaryOperator::Not => not(alloc, x),
        UnaryOperator::Negate => negate(alloc, x),
        UnaryOperator::Plus => Ok(plus(x)),
    }
}

fn not(alloc: Global, x: Typed) -> Result<Option<Typed>, NoMemory>
    ensures { IfOk result (λ t. t ≡ spec.unary_of UnaryOperator.Not x) }
{
    if !is_bool(&x.ty) {
        return Ok(None);
    }
    Ok(Some(Typed {
        expr: TExpr::Not(Boxed::new(alloc, x.into_expr())?),
        ty: Ty::Bool,
    }))
}

fn negate(alloc: Global, x: Typed) -> Result<Option<Typed>, NoMemory>
    ensures { IfOk result (λ t. t ≡ spec.unary_of UnaryOperator.Negate x) }
{
    if !is_int(&x.ty) {
        return Ok(None);
    }
    Ok(Some(Typed {
        expr: TExpr::Neg(Boxed::new(alloc, x.into_expr())?),
        ty: Ty::Int,
    }))
}

fn plus(x: Typed) -> Option<Typed>
    ensures { result ≡ spec.unary_of UnaryOperator.Plus x }
{
    if is_int(&x.ty) { Some(x) } else { None }
}

fn op_of(operator: BinaryOperator) -> Op
    ensures { result ≡ spec.op_of operator }
{
    match operator {
        BinaryOperator::Or => Op::Or,
        BinaryOperator::And => Op::And,
        BinaryOperator::Equal => Op::Eq,
        BinaryOperator::NotEqual => Op::Ne,
        BinaryOperator::Less => Op::Lt,
        BinaryOperator::LessEqual => Op::Le,
        BinaryOperator::Greater => Op::Gt,
        BinaryOperator::GreaterEqual => Op::Ge,
        BinaryOperator::Add => Op::Add,
        BinaryOperator::Subtract => Op::Sub,
        BinaryOperator::Multiply => Op::Mul,
        BinaryOperator::Divide => Op::Div,
        BinaryOperator::Remainder => Op::Rem,
    }
}

/// `+` in a placeholder, where an operand may be undefined.
fn maybe_row(
    alloc: Global,
    op: Op,
    left: &Ty,
    right: &Ty,
    placeholder: bool,
) -> Result<Option<OperatorRow>, NoMemory>
    ensures { IfOk result (λ r. r ≡ spec.maybe_row op left.now right.now placeholder) }
{
    match op {
        Op::Add => match operator_type(alloc, Op::AddMaybe, left, right, placeholder)? {
            Some(row) => Ok(Some((Op::AddMaybe, row))),
            None => Ok(None),
        },
        _ => Ok(None),
    }
}

fn row_of(
    alloc: Global,
    op: Op,
    left: &Ty,
    right: &Ty,
    placeholder: bool,
) -> Result<Option<OperatorRow>, NoMemory>
    ensures { IfOk result (λ r. r ≡ spec.row_of op left.now right.now placeholder) }
{
    match operator_type(alloc, op, left, right, false)? {
        Some(row) => Ok(Some((op, row))),
        None => maybe_row(alloc, op, left, right, placeholder),
    }
}

/// An operation whose operands stand at these types.
fn operation(
    alloc: Global,
    op: Op,
    x: Typed,
    left: &Ty,
    y: Typed,
    right: &Ty,
) -> Result<TExpr, NoMemory>
    ensures { IfOk result (λ e. e ≡ TExpr.Binary op (spec.cast_to x left.now) (spec.cast_to y right.now)) }
{
    let x = boxed_cast(alloc, x, left)?;
    Ok(TExpr::Binary(op, x, boxed_cast(alloc, y, right)?))
}

/// An operation whose operands stand at the types of a row.
fn typed_operation(
    alloc: Global,
    x: Typed,
    y: Typed,
    op: Op,
    row: OpTyping,
) -> Result<Typed, NoMemory>
    ensures { IfOk result (λ t. t ≡ spec.by_row x y (op, row)) }
{
    let OpTyping {
        left,
        right,
        result,
    } = row;
    let expr = operation(alloc, op, x, &left, y, &right)?;
    Ok(Typed { expr, ty: result })
}

fn row_operation(alloc: Global, x: Typed, y: Typed, row: OperatorRow) -> Result<Typed, NoMemory>
    ensures { IfOk result (λ t. t ≡ spec.by_row x y row) }
{
    let (op, row) = row;
    typed_operation(alloc, x, y, op, row)
}

/// An operation by the row that was found. None where there is none.
fn found_operation(
    alloc: Global,
    x: Typed,
    y: Typed,
    found: Option<OperatorRow>,
) -> Result<Option<Typed>, NoMemory>
    ensures { IfOk result (λ t. t ≡ option_map (spec.by_row x y) found) }
{
    match found {
        Some(row) => Ok(Some(row_operation(alloc, x, y, row)?)),
        None => Ok(None),
    }
}

/// An operator between two operands. None where the table has no row for their types.
pub fn binary(
    alloc: Global,
    operator: BinaryOperator,
    placeholder: bool,
    x: Typed,
    y: Typed,
) -> Result<Option<Typed>, NoMemory>
    ensures { IfOk result (λ t. t ≡ spec.binary_of operator placeholder x y) }
{
    let found = row_of(alloc, op_of(operator), &x.ty, &y.ty, placeholder)?;
    found_operation(alloc, x, y, found)
}

/// The condition of an `if`, which is a Boolean.
pub fn condition(x: Typed) -> Option<TExpr>
    ensures { result ≡ spec.condition_of x }
{
    if is_bool(&x.ty) {
        Some(x.into_expr())
    } else {
        None
    }
}

/// `if` with its branches, which stand at their join.
pub fn choose(
    alloc: Global,
    condition: Boxed<TExpr>,
    x: Typed,
    y: Typed,
) -> Result<Option<Typed>, NoMemory>
    ensures { IfOk result (λ t. t ≡ spec.choose_of condition x y) }
{
    let Some(ty) = join(alloc, &x.ty, &y.ty)? else {
        return Ok(None);
    };
    let x = boxed_cast(alloc, x, &ty)?;
    let y = boxed_cast(alloc, y, &ty)?;
    Ok(Some(Typed {
        expr: TExpr::Choose(condition, x, y),
        ty,
    }))
}
